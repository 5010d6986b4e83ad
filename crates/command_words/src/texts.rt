//! The words as texts.
ghost use Rattle.std.specs.Prelude.{◌≡◌, map, string_bytes};
ghost use Rattle.command_words.specs.Texts.{word_at, has_zero as has_zero_of, begins_as_option as begins_as_option_of};

/// The word at a place; empty behind the last one.
pub(crate) fn text_at(words: &[String], place: usize) -> &str
    ensures { result.now ≡ word_at (map string_bytes words.now) place }
{
    match words.get(place) {
        Some(word) => word.as_str(),
        None => "",
    }
}

/// Whether a text has the byte 0.
pub(crate) fn has_zero(text: &str) -> bool
    ensures { result ≡ has_zero_of text.now }
{
    text.as_bytes().contains(&0)
}

/// Whether a text begins with `--`.
pub(crate) fn begins_as_option(text: &str) -> bool
    ensures { result ≡ begins_as_option_of text.now }
{
    text.as_bytes().starts_with(b"--")
}
