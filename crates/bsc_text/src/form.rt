//! The forms of a record in print.
ghost use Rattle.std.specs.Prelude.{◌≡◌, ◌<◌, ◌^◌, ◌∷◌, [], OnErr, OnOk};
ghost use Rattle.std.specs.Io.KnownBytes.{Appends};
ghost use Rattle.std.specs.Char.{digit_char};
ghost use Rattle.bsc_text.specs.Fronts.{AppendsFront};
ghost use Rattle.bsc_text.specs.Forms.{escape_of, escaped, in_form};

use crate::{PrintError, put, write_chars};
use std::alloc::Allocator;
use std::io::Write;

/// The form in which the characters of a record are printed.
#[derive(Clone, Copy, Debug, PartialEq, Eq)]
pub enum Form {
    /// In lower case hexadecimal text, or a dash if there are none.
    Hexadecimal,

    /// As text on one line: each character from space to `~` as it is, except the backslash, which
    /// is `\\`; a tab, a line feed and a carriage return as `\t`, `\n` and `\r`; any other code as
    /// `\x` and two lower case hexadecimal digits.
    Text,

    /// As they are.
    Bytes,
}

/// Writes the characters of a record. After an error a front of the output has been written.
pub fn write_in_form<A: Allocator, W: Write>(
    alloc: A,
    form: Form,
    chars: &[u8],
    out: &mut W,
) -> Result<(), PrintError>
    ensures ok { OnOk result
        (Appends (W.contents out.old) (W.contents out.new) (in_form form chars.now)) }
    ensures front { OnErr result
        (AppendsFront (W.contents out.old) (W.contents out.new) (in_form form chars.now)) }
{
    match form {
        Form::Hexadecimal => write_chars(alloc, chars, out),
        Form::Text => write_escaped(chars, out),
        Form::Bytes => put(chars, out),
    }
}

/// Writes characters as text on one line.
fn write_escaped<W: Write>(chars: &[u8], out: &mut W) -> Result<(), PrintError>
    ensures ok { OnOk result
        (Appends (W.contents out.old) (W.contents out.new) (escaped chars.now)) }
    ensures front { OnErr result
        (AppendsFront (W.contents out.old) (W.contents out.new) (escaped chars.now)) }
{
    'chars: for &code in chars {
        write_code(code, out)?;
    }
    Ok(())
}

/// Writes a character as text on one line.
fn write_code<W: Write>(code: u8, out: &mut W) -> Result<(), PrintError>
    ensures ok { OnOk result
        (Appends (W.contents out.old) (W.contents out.new) (escape_of code)) }
    ensures front { OnErr result
        (AppendsFront (W.contents out.old) (W.contents out.new) (escape_of code)) }
{
    match code {
        b'\\' => put(b"\\\\", out),
        b'\t' => put(b"\\t", out),
        b'\n' => put(b"\\n", out),
        b'\r' => put(b"\\r", out),
        b' '..=b'~' => put(&[code], out),
        _ => put(&[b'\\', b'x', digit(code / 16), digit(code % 16)], out),
    }
}

/// Returns the hexadecimal digit with this value, below 16.
pub(crate) fn digit(value: u8) -> u8
    requires { value < 16 }
    ensures { result ≡ digit_char value }
{
    if value < 10 {
        b'0' + value
    } else {
        b'a' + (value - 10)
    }
}
