//! Splitting a text at a character.

ghost use Rattle.std.specs.Prelude.{◌≡◌, ◌<◌, option_map};
ghost use Rattle.bsc_text.specs.Parts.{after_octet, before_octet};

/// Returns the text before the first separator, an ASCII character, and the text after it; all of
/// the text and `None` if there is none.
pub(crate) fn split_at(text: &str, separator: char) -> (&str, Option<&str>)
    requires { separator < 128 }
    ensures before { result.0.now ≡ before_octet separator text.now }
    ensures after { option_map (λ rest. rest.now) result.1 ≡ after_octet separator text.now }
{
    match text.split_once(separator) {
        Some((before, after)) => (before, Some(after)),
        None => (text, None),
    }
}
