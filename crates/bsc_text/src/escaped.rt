//! The forms of a text from elsewhere.
ghost use Rattle.std.specs.Fmt.{WritesOnOk};
ghost use Rattle.bsc_text.specs.Forms.{escape_of, hex_escape};
ghost use Rattle.bsc_text.specs.Lines.{line_code};

use crate::form::digit;
use std::fmt;

/// A text as it is printed within a line: in the form [`Text`](crate::Form::Text) of a record.
#[derive(Clone, Copy, Debug)]
pub struct Escaped<'a>(pub &'a [u8]);

/// Lines as they are, but without what a terminal obeys: a line feed and each character from space
/// to `~` stay, any other code is as [`Escaped`] prints it.
#[derive(Clone, Copy, Debug)]
pub struct Lines<'a>(pub &'a [u8]);

impl fmt::Display for Escaped<'_> {
    ghost use Rattle.std.specs.Prelude.{Some};
    ghost use Rattle.bsc_text.specs.Forms.{escaped};

    ghost output = { λ it. Some (escaped it.0.now) };

    fn fmt<W: fmt::Write>(&self, f: &mut fmt::Formatter<W>) -> fmt::Result {
        'codes: for &code in self.0 {
            write_code(code, f)?;
        }
        Ok(())
    }
}

impl fmt::Display for Lines<'_> {
    ghost use Rattle.std.specs.Prelude.{Some};
    ghost use Rattle.bsc_text.specs.Lines.{in_lines};

    ghost output = { λ it. Some (in_lines it.0.now) };

    fn fmt<W: fmt::Write>(&self, f: &mut fmt::Formatter<W>) -> fmt::Result {
        'codes: for &code in self.0 {
            write_line_code(code, f)?;
        }
        Ok(())
    }
}

/// Writes a character as text on one line.
fn write_code<W: fmt::Write>(code: u8, f: &mut fmt::Formatter<W>) -> fmt::Result
    ensures { WritesOnOk W.write_str_gives f.old result (escape_of code) f.new }
{
    match code {
        b'\\' => f.write_str("\\\\"),
        b'\t' => f.write_str("\\t"),
        b'\n' => f.write_str("\\n"),
        b'\r' => f.write_str("\\r"),
        b' '..=b'~' => f.write_char(char::from(code)),
        _ => write_digits(code, f),
    }
}

/// Writes a character of lines.
fn write_line_code<W: fmt::Write>(code: u8, f: &mut fmt::Formatter<W>) -> fmt::Result
    ensures { WritesOnOk W.write_str_gives f.old result (line_code code) f.new }
{
    match code {
        b'\n' | b' '..=b'~' => f.write_char(char::from(code)),
        _ => write_code(code, f),
    }
}

/// Writes a backslash and `x`, and a code in two hexadecimal digits.
fn write_digits<W: fmt::Write>(code: u8, f: &mut fmt::Formatter<W>) -> fmt::Result
    ensures { WritesOnOk W.write_str_gives f.old result (hex_escape code) f.new }
{
    f.write_str("\\x")?;
    f.write_char(char::from(digit(code / 16)))?;
    f.write_char(char::from(digit(code % 16)))
}
