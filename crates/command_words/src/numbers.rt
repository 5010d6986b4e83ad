//! Numbers.
ghost use Rattle.std.specs.Prelude.{◌≡◌, ◌&&◌, ◌^◌, nat_lt, if◌then◌else◌, Some, None};
ghost use Rattle.command_words.specs.Texts.{is_number, has_leading_zero as has_leading_zero_of, number_of, is_number_within};

/// Whether a text has a 0 before other characters.
fn has_leading_zero(text: &str) -> bool
    ensures { result ≡ has_leading_zero_of text.now }
{
    let bytes = text.as_bytes();
    bytes.len() > 1 && bytes[0] == b'0'
}

/// The number that a text is, if it is one and fits 64 bits.
fn number(text: &str) -> Option<u64>
    ensures { result ≡ (if is_number text.now && nat_lt (number_of text.now) (2 ^ 64) then Some (number_of text.now) else None) }
{
    if text.as_bytes().starts_with(b"+") {
        return None;
    }
    if has_leading_zero(text) {
        return None;
    }
    match text.parse::<u64>() {
        Ok(number) => Some(number),
        Err(_) => None,
    }
}

/// The number of a range that a text is, if it is one.
#[tactic(auto, unfolding(crate::specs::Texts::is_number_within))]
pub(crate) fn number_within(text: &str, least: u64, most: u64) -> Option<u64>
    ensures { result ≡ (if is_number_within least most text.now then Some (number_of text.now) else None) }
{
    match number(text) {
        Some(number) if number >= least && number <= most => Some(number),
        Some(_) => None,
        None => None,
    }
}
