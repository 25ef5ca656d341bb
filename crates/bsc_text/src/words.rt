//! The words of a line, which are separated by one space.
ghost use Rattle.std.specs.Prelude.{◌≡◌, ◌∷◌, ◌<◌, [], IfSome, None, length, option_map};
ghost use Rattle.std.specs.Str.{bytes_eq};
ghost use Rattle.bsc_text.specs.Words.{after_word, first_word, words_of};

use crate::split_at_first;

/// Returns the first word, and the text after the space that follows it; `None` if there is no
/// space.
pub fn split_word(text: &[u8]) -> (&[u8], Option<&[u8]>)
    ensures word { result.0.now ≡ first_word text.now }
    ensures rest { option_map (λ rest. rest.now) result.1 ≡ after_word text.now }
    ensures last { result.1 ≡ None → words_of text.now ≡ result.0.now ∷ [] }
    ensures more { IfSome result.1 (λ rest. words_of text.now ≡ result.0.now ∷ words_of rest.now) }
    ensures shorter { IfSome result.1 (λ rest. length rest.now < length text.now) }
{
    split_at_first(text, b' ')
}

/// Whether the word consists of these characters.
pub fn spells(word: &[u8], text: &str) -> bool
    ensures { result ≡ bytes_eq word.now text.now }
{
    word == text.as_bytes()
}
