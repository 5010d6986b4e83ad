//! Pairs NAME=PATH.
ghost use Rattle.std.specs.Prelude.{◌≡◌, map, string_bytes};
ghost use Rattle.command_words.specs.Pairs.{name_in, path_in, is_pair as is_pair_of, place_naming as place_naming_of};

use crate::texts::text_at;

/// The most bytes of a name.
const LONGEST_NAME: usize = 255;

/// The name of a pair: what stands before the first `=`, or all of a text that has none.
pub fn pair_name(text: &str) -> &str
    ensures { result.now ≡ name_in text.now }
{
    match text.split_once('=') {
        Some((name, _)) => name,
        None => text,
    }
}

/// The path of a pair: what stands behind the first `=`, and nothing where there is none.
pub fn pair_path(text: &str) -> &str
    ensures { result.now ≡ path_in text.now }
{
    match text.split_once('=') {
        Some((_, path)) => path,
        None => "",
    }
}

/// Whether a text is a pair: with a name of 1 to 255 bytes, and a path that isn't empty.
#[tactic(auto, unfolding(crate::specs::Pairs::is_pair))]
pub(crate) fn is_pair(text: &str) -> bool
    ensures { result ≡ is_pair_of text.now }
{
    let name = pair_name(text);
    let path = pair_path(text);
    !name.is_empty() && name.len() <= LONGEST_NAME && !path.is_empty()
}

/// The first of some places among the words whose pair has a name.
pub fn place_naming(words: &[String], name: &str, places: &[u32]) -> Option<u32>
    ensures { result ≡ place_naming_of (map string_bytes words.now) name.now places.now }
{
    for place in places {
        if pair_name(text_at(words, *place as usize)) == name {
            return Some(*place);
        }
    }
    None
}
