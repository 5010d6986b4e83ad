//! Checks of words.
ghost use Rattle.std.specs.Prelude.{◌≡◌, ◌≤◌, ◌<◌, ◌^◌, false, true, None, Some, MatchResult, IfOk};
ghost use Rattle.command_words.specs.Texts.{has_zero as has_zero_of, number_of, is_number_within};
ghost use Rattle.command_words.specs.Reading.{first_fault, pair_checks};

use crate::kinds::WordFault;
use crate::numbers::number_within;
use crate::pairs::is_pair;
use crate::texts::has_zero;

/// Refuses the word at a place, where it doesn't pass a check.
pub(crate) fn check(passes: bool, kind: u8, place: usize) -> Result<(), WordFault>
    requires { place < 2 ^ 32 }
    ensures { MatchResult result (λ _. passes ≡ true)
        (λ fault. (passes ≡ false) × (fault ≡ record { word = place; kind = kind })) }
{
    if passes {
        Ok(())
    } else {
        Err(WordFault::new(place, kind))
    }
}

/// Refuses a text that has the byte 0.
pub(crate) fn check_text(text: &str, place: usize) -> Result<(), WordFault>
    requires { place < 2 ^ 32 }
    ensures { MatchResult result (λ _. has_zero_of text.now ≡ false)
        (λ fault. (has_zero_of text.now ≡ true) × (fault ≡ record { word = place; kind = 12 })) }
{
    check(!has_zero(text), 12, place)
}

/// Refuses a text that isn't a pair.
pub(crate) fn check_pair(text: &str, place: usize) -> Result<(), WordFault>
    requires { place < 2 ^ 32 }
    ensures answer { MatchResult result (λ _. first_fault (pair_checks place text.now) ≡ None)
        (λ fault. first_fault (pair_checks place text.now) ≡ Some fault) }
{
    check_text(text, place)?;
    check(is_pair(text), 6, place)
}

/// The number of a range that a value is.
pub(crate) fn number_at(value: &str, least: u64, most: u64, place: usize) -> Result<u64, WordFault>
    requires { place < 2 ^ 32 }
    ensures answer { MatchResult result (λ number. (is_number_within least most value.now ≡ true) × (number ≡ number_of value.now))
        (λ fault. (is_number_within least most value.now ≡ false) × (fault ≡ record { word = place; kind = 4 })) }
    ensures within { IfOk result (λ number. number ≤ most) }
{
    match number_within(value, least, most) {
        Some(number) => Ok(number),
        None => Err(WordFault::new(place, 4)),
    }
}
