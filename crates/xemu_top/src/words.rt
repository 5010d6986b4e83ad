//! What the words say of the program.
ghost use Rattle.std.specs.Prelude.{◌≡◌, ◌<◌, IfOk, is_some, length, map, string_bytes};
ghost use Rattle.command_words.specs.Texts.{word_at};
ghost use Rattle.command_words.specs.Command.{IsCommand, arguments as arguments_of, environment as environment_of};

use command_words::Command;
use std::alloc::{AllocError, Global};

/// The word at a place.
pub(crate) fn text_at(words: &[String], place: u32) -> &str
    requires { place < length words.now }
    ensures { result.now ≡ word_at (map string_bytes words.now) place }
{
    words[place as usize].as_str()
}

/// The guest's arguments, of which the first is the program's path.
pub(crate) fn arguments<'a>(words: &'a [String], command: &Command) -> &'a [String]
    requires { IsCommand (map string_bytes words.now) command.now }
    ensures value { map string_bytes result.now ≡ arguments_of (map string_bytes words.now) command.now }
    ensures some { 0 < length result.now }
{
    &words[command.program as usize..]
}

/// The guest's environment texts.
pub(crate) fn environment(
    alloc: Global,
    words: &[String],
    command: &Command,
) -> Result<Vec<String>, AllocError>
    requires { IsCommand (map string_bytes words.now) command.now }
    ensures { IfOk result (λ texts. map string_bytes texts.items ≡ environment_of (map string_bytes words.now) command.now) }
{
    let mut texts = Vec::new(alloc);
    for place in command.env.as_slice() {
        texts.push(words[*place as usize].clone()?)?;
    }
    Ok(texts)
}

/// The path of the swap, where one is given.
pub(crate) fn swap_path<'a>(words: &'a [String], command: &Command) -> Option<&'a str>
    requires { IsCommand (map string_bytes words.now) command.now }
    ensures { is_some result ≡ is_some command.now.swap }
{
    match command.swap {
        Some(place) => Some(text_at(words, place)),
        None => None,
    }
}
