//! The lines of the command's input.
ghost use Rattle.std.specs.Prelude.{◌≡◌, ◌∷◌, ◌+◌, ◌≤◌, [], length, None, IfSome};
ghost use Rattle.std.specs.Str.Lines.{strip_carriage_return};
ghost use Rattle.bsc_text.specs.InputLines.{is_blank as blank, is_skipped as skipped, parts_of};

use crate::split_at_first;

/// Returns the first line without its line feed, and the text after the line feed; `None` if there
/// is no line feed.
pub fn split_line(text: &[u8]) -> (&[u8], Option<&[u8]>)
    ensures last { result.1 ≡ None → parts_of text.now ≡ result.0.now ∷ [] }
    ensures more { IfSome result.1 (λ rest. parts_of text.now ≡ result.0.now ∷ parts_of rest.now) }
    ensures length { IfSome result.1 (λ rest.
        length result.0.now + 1 + length rest.now ≡ length text.now) }
    ensures within { length result.0.now ≤ length text.now }
{
    split_at_first(text, b'\n')
}

/// Returns the line without one carriage return at its end.
pub fn without_return(line: &[u8]) -> &[u8]
    ensures { result.now ≡ strip_carriage_return line.now }
{
    if !line.is_empty() && line[line.len() - 1] == b'\r' {
        &line[..line.len() - 1]
    } else {
        line
    }
}

/// Whether the line is empty or has only spaces.
pub fn is_blank(line: &[u8]) -> bool
    ensures { result ≡ blank line.now }
{
    line.iter().all(|&octet| octet == b' ')
}

/// Whether the line is one that scripts and commands skip: it is empty, or begins with `#`.
pub fn is_skipped(line: &[u8]) -> bool
    ensures { result ≡ skipped line.now }
{
    line.is_empty() || line[0] == b'#'
}
