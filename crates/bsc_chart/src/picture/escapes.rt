//! Texts in a document.
ghost use Rattle.std.specs.Prelude.{◌≡◌, ◌≤◌, length, take};
ghost use Rattle.std.specs.Fmt.{WritesOnOk};
ghost use Rattle.bsc_chart.specs.Escapes.{escaped_code, shown};

use std::fmt;

/// Characters from elsewhere, printed so that they have no meaning in a document: the five that
/// have one by their names, and each that is not printable as a dot.
#[derive(Clone, Copy, Debug)]
pub struct Chars<'a>(pub &'a [u8]);

impl fmt::Display for Chars<'_> {
    ghost use Rattle.std.specs.Prelude.{Some};
    ghost use Rattle.bsc_chart.specs.Escapes.{escaped};

    ghost output = { λ it. Some (escaped it.0.now) };

    fn fmt<W: fmt::Write>(&self, f: &mut fmt::Formatter<W>) -> fmt::Result {
        'codes: for &code in self.0 {
            write_code(code, f)?;
        }
        Ok(())
    }
}

/// Writes a code, so that it has no meaning in a document.
fn write_code<W: fmt::Write>(code: u8, f: &mut fmt::Formatter<W>) -> fmt::Result
    ensures { WritesOnOk W.write_str_gives f.old result (escaped_code code) f.new }
{
    match code {
        b'&' => f.write_str("&amp;"),
        b'<' => f.write_str("&lt;"),
        b'>' => f.write_str("&gt;"),
        b'"' => f.write_str("&quot;"),
        b'\'' => f.write_str("&apos;"),
        b' '..=b'~' => f.write_char(char::from(code)),
        _ => f.write_str("."),
    }
}

/// Returns the first characters, at most this many.
fn first(chars: &[u8], most: usize) -> &[u8]
    ensures value { result.now ≡ take most chars.now }
    ensures most { length result.now ≤ most }
{
    if chars.len() <= most {
        return chars;
    }
    &chars[..most]
}

/// Returns the first characters of a text that are shown, at most 64.
pub fn shown_part(chars: &[u8]) -> &[u8]
    ensures value { result.now ≡ shown chars.now }
    ensures most { length result.now ≤ 64 }
{
    first(chars, 64)
}
