//! Splits a text at an octet.
ghost use Rattle.std.specs.Prelude.{◌≡◌, ◌==◌, ◌∷◌, ◌+◌, ◌≤◌, [], length, None, IfSome, option_map};
ghost use Rattle.std.specs.Prelude.{position};
ghost use Rattle.bsc_text.specs.Parts.{after_octet, before_octet, parts_at};

/// Returns the index of the first octet with this value.
fn place_of(text: &[u8], value: u8) -> Option<usize>
    ensures { result ≡ position (λ octet. octet == value) text.now }
{
    text.iter().position(|&octet| octet == value)
}

/// Returns the text before the first octet with this value, and the text after it; all of the text
/// and `None` if there is no such octet.
pub fn split_at_first(text: &[u8], value: u8) -> (&[u8], Option<&[u8]>)
    ensures before { result.0.now ≡ before_octet value text.now }
    ensures after { option_map (λ rest. rest.now) result.1 ≡ after_octet value text.now }
    ensures last { result.1 ≡ None → parts_at value text.now ≡ result.0.now ∷ [] }
    ensures more { IfSome result.1 (λ rest.
        parts_at value text.now ≡ result.0.now ∷ parts_at value rest.now) }
    ensures length { IfSome result.1 (λ rest.
        length result.0.now + 1 + length rest.now ≡ length text.now) }
    ensures within { length result.0.now ≤ length text.now }
{
    match place_of(text, value) {
        Some(place) => (&text[..place], Some(&text[place + 1..])),
        None => (text, None),
    }
}
