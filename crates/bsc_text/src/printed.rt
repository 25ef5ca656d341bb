//! Prints a transmission as it is heard.
ghost use Rattle.std.specs.Prelude.{◌≡◌, ◌<◌, ◌++◌, OnOk, OnErr, IfErr, length};
ghost use Rattle.std.specs.Fmt.{decimal};
ghost use Rattle.std.specs.Io.KnownBytes.{Appends};
ghost use Rattle.bsc_text.specs.Fronts.{AppendsFront};
ghost use Rattle.std.specs.List.{flat_map};
ghost use Rattle.bsc_frame.specs.Units.{text_unit};
ghost use Rattle.bsc_text.specs.Names.{end_name, message_name, message_units, name_of, name_line};
ghost use Rattle.bsc_text.specs.Names.{chars_shown, em_shown, unit_line, shown, units_of};

use crate::PrintError;
use bsc_frame::{End, Heard, Message, Text, Unit};
use itoa::Buffer;
use std::alloc::Allocator;
use std::io::{ErrorKind, Write};

/// The amount of output for a transmission.
#[derive(Clone, Copy, Debug, PartialEq, Eq)]
pub enum Detail {
    /// Its name.
    Name,

    /// Its name, and a line for each unit of a text.
    Units,
}

/// Writes the octets as they are. After an error a front of them has been written, and what was
/// written before stays. A write that is interrupted is repeated.
pub fn put<W: Write>(octets: &[u8], out: &mut W) -> Result<(), PrintError>
    ensures ok { OnOk result (Appends (W.contents out.old) (W.contents out.new) octets.now) }
    ensures front { OnErr result
        (AppendsFront (W.contents out.old) (W.contents out.new) octets.now) }
    ensures err { IfErr result (λ error. error ≡ PrintError.Output) }
{
    let mut rest = octets;
    'writes: for _ in 0..u64::MAX {
        if rest.is_empty() {
            return Ok(());
        }
        match out.write(rest) {
            Ok(0) => return Err(PrintError::Output),
            Ok(count) => rest = &rest[count..],
            Err(error) => {
                if error.kind() != ErrorKind::Interrupted {
                    return Err(PrintError::Output);
                }
            }
        }
    }
    Err(PrintError::Output)
}

/// Writes a text, and then a number in decimal digits. After an error a front of both has been
/// written.
pub fn put_numbered<W: Write>(text: &[u8], number: u64, out: &mut W) -> Result<(), PrintError>
    ensures ok { OnOk result
        (Appends (W.contents out.old) (W.contents out.new) (text.now ++ decimal number)) }
    ensures front { OnErr result
        (AppendsFront (W.contents out.old) (W.contents out.new) (text.now ++ decimal number)) }
    ensures err { IfErr result (λ error. error ≡ PrintError.Output) }
{
    put(text, out)?;
    put(Buffer::new().format(number).as_bytes(), out)
}

/// Returns the name of the character that ends a text.
fn end_name(end: End) -> &'static str
    ensures { result.now ≡ end_name end }
{
    match end {
        End::Etb => "ETB",
        End::Etx => "ETX",
    }
}

/// Writes the name of a text.
fn write_text_name<W: Write>(text: &Text<'_>, out: &mut W) -> Result<(), PrintError>
    ensures ok { OnOk result
        (Appends (W.contents out.old) (W.contents out.new) (message_name (Message.Text text.now))) }
    ensures front { OnErr result
        (AppendsFront (W.contents out.old) (W.contents out.new)
        (message_name (Message.Text text.now))) }
    ensures err { IfErr result (λ error. error ≡ PrintError.Output) }
{
    put(b"TEXT ", out)?;
    put(end_name(text.end()).as_bytes(), out)?;
    put_numbered(b" ", text.count() as u64, out)
}

/// Writes the name of a message, without a line feed: a control sequence by its name, a call with
/// its address, a text with its end and its number of units. After an error a front of the name has
/// been written.
pub fn write_name<W: Write>(message: &Message<'_>, out: &mut W) -> Result<(), PrintError>
    ensures ok { OnOk result
        (Appends (W.contents out.old) (W.contents out.new) (message_name message.now)) }
    ensures front { OnErr result
        (AppendsFront (W.contents out.old) (W.contents out.new) (message_name message.now)) }
    ensures err { IfErr result (λ error. error ≡ PrintError.Output) }
{
    match message {
        Message::Eot => put(b"EOT", out),
        Message::Call(address) => {
            put(b"CALL ", out)?;
            put(address.codes(), out)
        }
        Message::Enq => put(b"ENQ", out),
        Message::Reply(reply) => put(reply.name().as_bytes(), out),
        Message::Text(text) => write_text_name(text, out),
    }
}

/// Writes the name of what is heard, without a line feed: that of the message, `FAILED` or `NOISE`.
/// After an error a front of it has been written.
pub fn write_heard_name<W: Write>(heard: &Heard<'_>, out: &mut W) -> Result<(), PrintError>
    ensures ok { OnOk result
        (Appends (W.contents out.old) (W.contents out.new) (name_of heard.now)) }
    ensures front { OnErr result
        (AppendsFront (W.contents out.old) (W.contents out.new) (name_of heard.now)) }
    ensures err { IfErr result (λ error. error ≡ PrintError.Output) }
{
    match heard {
        Heard::Whole(message) => write_name(message, out),
        Heard::Failed => put(b"FAILED", out),
        Heard::Noise => put(b"NOISE", out),
    }
}

/// Writes the name, and a line feed.
fn write_name_line<W: Write>(heard: &Heard<'_>, out: &mut W) -> Result<(), PrintError>
    ensures ok { OnOk result
        (Appends (W.contents out.old) (W.contents out.new) (name_line heard.now)) }
    ensures front { OnErr result
        (AppendsFront (W.contents out.old) (W.contents out.new) (name_line heard.now)) }
    ensures err { IfErr result (λ error. error ≡ PrintError.Output) }
{
    write_heard_name(heard, out)?;
    put(b"\n", out)
}

/// Writes the output for what is heard: its name and a line feed, and with `Detail::Units` a line
/// for each unit of a text. After an error a front of the output has been written.
pub fn write_shown<A: Allocator + Copy, W: Write>(
    alloc: A,
    detail: Detail,
    heard: &Heard<'_>,
    out: &mut W,
) -> Result<(), PrintError>
    ensures ok { OnOk result
        (Appends (W.contents out.old) (W.contents out.new) (shown detail heard.now)) }
    ensures front { OnErr result
        (AppendsFront (W.contents out.old) (W.contents out.new) (shown detail heard.now)) }
{
    write_name_line(heard, out)?;
    match detail {
        Detail::Name => Ok(()),
        Detail::Units => write_units(alloc, heard, out),
    }
}

/// Writes a line for each unit of a text. Writes nothing for anything else. After an error a front
/// of the output has been written.
pub fn write_units<A: Allocator + Copy, W: Write>(
    alloc: A,
    heard: &Heard<'_>,
    out: &mut W,
) -> Result<(), PrintError>
    ensures ok { OnOk result
        (Appends (W.contents out.old) (W.contents out.new)
        (flat_map unit_line (units_of heard.now))) }
    ensures front { OnErr result
        (AppendsFront (W.contents out.old) (W.contents out.new)
        (flat_map unit_line (units_of heard.now))) }
{
    match heard {
        Heard::Whole(message) => write_message_units(alloc, message, out),
        _ => Ok(()),
    }
}

/// Writes a line for each unit of a message.
fn write_message_units<A: Allocator + Copy, W: Write>(
    alloc: A,
    message: &Message<'_>,
    out: &mut W,
) -> Result<(), PrintError>
    ensures ok { OnOk result
        (Appends (W.contents out.old) (W.contents out.new)
        (flat_map unit_line (message_units message.now))) }
    ensures front { OnErr result
        (AppendsFront (W.contents out.old) (W.contents out.new)
        (flat_map unit_line (message_units message.now))) }
{
    if let Message::Text(text) = message {
        return write_text_units(alloc, text, out);
    }
    Ok(())
}

/// Writes a line for each unit of a text.
fn write_text_units<A: Allocator + Copy, W: Write>(
    alloc: A,
    text: &Text<'_>,
    out: &mut W,
) -> Result<(), PrintError>
    ensures ok { OnOk result
        (Appends (W.contents out.old) (W.contents out.new) (flat_map unit_line text.now.units)) }
    ensures front { OnErr result
        (AppendsFront (W.contents out.old) (W.contents out.new)
        (flat_map unit_line text.now.units)) }
{
    'units: for place in 0..text.count() {
        write_unit(alloc, text.unit(place), out)?;
    }
    Ok(())
}

/// Writes the line for a unit.
fn write_unit<A: Allocator, W: Write>(
    alloc: A,
    unit: Unit<'_>,
    out: &mut W,
) -> Result<(), PrintError>
    ensures ok { OnOk result
        (Appends (W.contents out.old) (W.contents out.new) (unit_line (text_unit unit.entry))) }
    ensures front { OnErr result
        (AppendsFront (W.contents out.old) (W.contents out.new)
        (unit_line (text_unit unit.entry))) }
{
    put(b"unit ", out)?;
    write_chars(alloc, unit.chars, out)?;
    put(em_mark(unit.em), out)?;
    put(b"\n", out)
}

/// Writes the codes of characters in lower case hexadecimal text, or a dash if there are no
/// characters. After an error a front of the output has been written.
pub fn write_chars<A: Allocator, W: Write>(
    alloc: A,
    chars: &[u8],
    out: &mut W,
) -> Result<(), PrintError>
    ensures ok { OnOk result
        (Appends (W.contents out.old) (W.contents out.new) (chars_shown chars.now)) }
    ensures front { OnErr result
        (AppendsFront (W.contents out.old) (W.contents out.new) (chars_shown chars.now)) }
{
    if chars.is_empty() {
        return put(b"-", out);
    }
    let digits = hex::encode(alloc, chars)?;
    put(digits.as_bytes(), out)
}

/// Returns the text that tells whether EM follows the characters of a unit.
fn em_mark(em: bool) -> &'static [u8]
    ensures { result.now ≡ em_shown em }
{
    if em { b" EM" } else { b"" }
}
