//! The reading of the words.
ghost use Rattle.std.specs.Prelude.{◌≡◌, ◌≤◌, ◌<◌, ◌+◌, ◌^◌, ℕ, false, true, Err, MatchResult, IfOk, length, map, string_bytes};
ghost use Rattle.command_words.specs.declared.kinds.Given.{Given as GivenValue};
ghost use Rattle.command_words.specs.Texts.{word_at, begins_as_option as begins_as_option_of};
ghost use Rattle.command_words.specs.Reading.{no_options, ended, read_at, words_read};
ghost use Rattle.command_words.specs.Reading.Role.{Place, Guest};
ghost use Rattle.command_words.specs.Command.{IsCommand};
ghost use Rattle.command_words.specs.Holding.{Holds};

use crate::checks::{check, check_text};
use crate::kinds::{Command, Given, WordFault};
use crate::texts::{begins_as_option, text_at};

/// Reads the command.
fn check_first(words: &[String]) -> Result<(), WordFault>
    ensures answer { let words = map string_bytes words.now in MatchResult result
        (λ _. words_read words ≡ read_at words no_options Place 1) (λ fault. words_read words ≡ Err fault) }
    ensures some { IfOk result (λ _. 1 ≤ length words.now) }
{
    check(!words.is_empty(), 1, 0)?;
    check(text_at(words, 0) == "run", 1, 0)
}

/// Reads the option at a place, and its value if it takes one. Answers what is given then, and the place behind.
fn read_option(words: &[String], place: usize, given: Given) -> Result<(Given, usize), WordFault>
    requires fits { length words.now < 2 ^ 32 }
    requires within { place < length words.now }
    requires option { begins_as_option_of (word_at (map string_bytes words.now) place) ≡ true }
    requires given { Holds (map string_bytes words.now) given place }
    ensures answer { let words = map string_bytes words.now in MatchResult result
        (λ read. read_at words given Place place ≡ read_at words read.0 Place read.1)
        (λ fault. read_at words given Place place ≡ Err fault) }
    ensures within { IfOk result (λ read. (place < read.1) × (read.1 ≤ length words.now)) }
    ensures given { IfOk result (λ read. Holds (map string_bytes words.now) read.0 read.1) }
{
    let name = given.check_option(words, place)?;
    if !name.takes_value() {
        return Ok((given.with_option(name), place + 1));
    }
    check(place + 1 < words.len(), 3, place + 1)?;
    let given = given.with_value(name, text_at(words, place + 1), place + 1)?;
    Ok((given, place + 2))
}

/// Reads all options. Answers what they say, and the place behind them.
fn read_options(words: &[String]) -> Result<(Given, usize), WordFault>
    requires fits { length words.now < 2 ^ 32 }
    requires some { 1 ≤ length words.now }
    ensures answer { let words = map string_bytes words.now in MatchResult result
        (λ read. read_at words no_options Place 1 ≡ read_at words read.0 Place read.1)
        (λ fault. read_at words no_options Place 1 ≡ Err fault) }
    ensures within { IfOk result (λ read. read.1 ≤ length words.now) }
    ensures behind { IfOk result (λ read. read.1 < length words.now
        → begins_as_option_of (word_at (map string_bytes words.now) read.1) ≡ false) }
{
    let mut given = Given::new();
    let mut place = 1;
    while place < words.len() && begins_as_option(text_at(words, place)) {
        let (more, next) = read_option(words, place, given)?;
        given = more;
        place = next;
    }
    Ok((given, place))
}

/// Checks the program's path, at a place.
fn check_program(words: &[String], place: usize) -> Result<(), WordFault>
    requires fits { length words.now < 2 ^ 32 }
    requires within { place ≤ length words.now }
    requires behind { place < length words.now → begins_as_option_of (word_at (map string_bytes words.now) place) ≡ false }
    ensures answer { (given : GivenValue) → let words = map string_bytes words.now in MatchResult result
        (λ _. read_at words given Place place ≡ read_at words given (Guest place) (place + 1))
        (λ fault. read_at words given Place place ≡ Err fault) }
    ensures some { IfOk result (λ _. place < length words.now) }
{
    check(place < words.len(), 7, place)?;
    let path = text_at(words, place);
    check_text(path, place)?;
    check(!path.is_empty(), 6, place)
}

/// Checks the guest's words from a place on.
fn check_guest_words(words: &[String], first: usize) -> Result<(), WordFault>
    requires fits { length words.now < 2 ^ 32 }
    requires within { first ≤ length words.now }
    ensures { (given : GivenValue) (program : ℕ) → let words = map string_bytes words.now in MatchResult result
        (λ _. read_at words given (Guest program) first ≡ ended given (Guest program) (length words))
        (λ fault. read_at words given (Guest program) first ≡ Err fault) }
{
    for place in first..words.len() {
        check_text(text_at(words, place), place)?;
    }
    Ok(())
}

/// Reads the words of a command line, from the command on. The first fault from left to right refuses them.
pub fn read_words(words: &[String]) -> Result<Command, WordFault>
    requires { length words.now < 2 ^ 32 }
    ensures read { result ≡ words_read (map string_bytes words.now) }
    ensures command { IfOk result (IsCommand (map string_bytes words.now)) }
{
    check_first(words)?;
    let (given, program) = read_options(words)?;
    check_program(words, program)?;
    check_guest_words(words, program + 1)?;
    given.command(program)
}
