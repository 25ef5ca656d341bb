//! Prints the names of transmissions given in hexadecimal text or in the lines of a trace.
ghost use Rattle.std.specs.Prelude.{◌≡◌, ◌∷◌, [], true, false, None, OnOk, OnErr, IfErr, IfSome};
ghost use Rattle.std.specs.Prelude.{IsErrOf, IsSomeAnd, ℕ};
ghost use Rattle.std.specs.Io.KnownBytes.{Appends};
ghost use Rattle.bsc_frame.specs.Spells.{IsHeardAs};
ghost use Rattle.bsc_frame.specs.declared.message.Heard.{Heard as HeardValue};
ghost use Rattle.bsc_text.specs.Hexadecimal.{octets_of};
ghost use Rattle.bsc_text.specs.Parts.{parts_at};
ghost use Rattle.bsc_text.specs.Fronts.{AppendsFront, Extends};
ghost use Rattle.bsc_text.specs.Names.{Prints, PrintsFront, name_line, shown};
ghost use Rattle.bsc_trace.specs.Inputs.{HasStopped, PrintsInput};
ghost use Rattle.bsc_trace.specs.NamingLines.{PrintsLines, PrintsLinesFront, PrintsNameFront};
ghost use Rattle.bsc_trace.specs.NamingLines.{is_traced, is_wrong, kept_line, last_part};
ghost use Rattle.bsc_trace.specs.NamingLines.{before_last as text_before_last, shown_line};
ghost use Rattle.bsc_trace.specs.Errors.{IsLineError, IsNameError, IsPrintError, line_error};
ghost use Rattle.bsc_trace.specs.Errors.{IsWrongOrPrintError};

use crate::naming::NamingError;
use crate::{LineError, next_line};
use bsc_frame::{TextBuffer, decode};
use bsc_text::{
    Detail, InputError, LineEnd, is_blank, put, read_octets, split_at_first, without_return,
    write_shown, write_units,
};
use std::alloc::Allocator;
use std::io::{BufRead, BufReader, Read, Write};

/// Prints the name of the transmission in hexadecimal text, and a line feed. If the text is not
/// hexadecimal, nothing is printed. After an output fault or out of memory a front of that has been
/// printed. What was written before stays.
pub fn name<A: Allocator + Copy, W: Write>(
    alloc: A,
    text: &str,
    out: &mut W,
) -> Result<(), NamingError>
    ensures ok { OnOk result
        (IsSomeAnd (octets_of text.now) (λ octets.
        Prints name_line octets (W.contents out.old) (W.contents out.new))) }
    ensures wrong { IsErrOf result NamingError.NotHexadecimal →
        (octets_of text.now ≡ None) × (out.new ≡ out.old) }
    ensures front { OnErr result
        (PrintsNameFront text.now (W.contents out.old) (W.contents out.new)) }
    ensures faults { IfErr result IsNameError }
{
    match read_octets(alloc, text.as_bytes())? {
        Some(octets) => write_transmission(alloc, Detail::Name, &octets, out),
        None => Err(NamingError::NotHexadecimal),
    }
}

/// Prints the name of the transmission on each line, one name on each line. A line that begins with
/// `+` is a line of a trace: its transmission is the hexadecimal text after its last space, and a
/// line without one is skipped. Blank lines are skipped too. Skipped lines are counted. Stops at
/// any other line that is not hexadecimal text, and at a line of more than `MAX_INPUT` octets; the
/// names of the lines before it stay printed. After an output fault or out of memory a front of the
/// output has been printed. What was written before stays. The input may have any length: one line
/// of it is kept at a time. Before a read that may wait, `out` is flushed.
pub fn names<A: Allocator + Copy, R: Read, W: Write>(
    alloc: A,
    input: &mut R,
    out: &mut W,
) -> Result<(), NamingError>
    ensures ok { OnOk result (IfSome (R.remaining input.old) (λ octets.
        PrintsInput Detail.Name octets (W.contents out.old) (W.contents out.new))) }
    ensures stopped { IfErr result (λ error. IfSome (R.remaining input.old) (λ octets.
        HasStopped Detail.Name error octets (W.contents out.old) (W.contents out.new))) }
    ensures stays { Extends (W.contents out.old) (W.contents out.new) }
    ensures faults { IfErr result IsLineError }
{
    write_input(alloc, Detail::Name, input, out)
}

/// Prints the name of the transmission on each line, and under the name of a text a line for each
/// unit. A line of a trace is printed as it stands, without its hexadecimal text. Otherwise the
/// same as [`names`].
pub fn show<A: Allocator + Copy, R: Read, W: Write>(
    alloc: A,
    input: &mut R,
    out: &mut W,
) -> Result<(), NamingError>
    ensures ok { OnOk result (IfSome (R.remaining input.old) (λ octets.
        PrintsInput Detail.Units octets (W.contents out.old) (W.contents out.new))) }
    ensures stopped { IfErr result (λ error. IfSome (R.remaining input.old) (λ octets.
        HasStopped Detail.Units error octets (W.contents out.old) (W.contents out.new))) }
    ensures stays { Extends (W.contents out.old) (W.contents out.new) }
    ensures faults { IfErr result IsLineError }
{
    write_input(alloc, Detail::Units, input, out)
}

/// Prints the output for the lines of the input.
fn write_input<A: Allocator + Copy, R: Read, W: Write>(
    alloc: A,
    detail: Detail,
    input: &mut R,
    out: &mut W,
) -> Result<(), NamingError>
    ensures ok { OnOk result (IfSome (R.remaining input.old) (λ octets.
        PrintsInput detail octets (W.contents out.old) (W.contents out.new))) }
    ensures stopped { IfErr result (λ error. IfSome (R.remaining input.old) (λ octets.
        HasStopped detail error octets (W.contents out.old) (W.contents out.new))) }
    ensures stays { Extends (W.contents out.old) (W.contents out.new) }
    ensures faults { IfErr result IsLineError }
{
    match BufReader::new(alloc, input) {
        Ok(mut reader) => write_lines(alloc, detail, &mut reader, out),
        Err(_) => Err(NamingError::Memory),
    }
}

/// Prints the output for the lines that the reader has left.
fn write_lines<A: Allocator + Copy, B: BufRead, W: Write>(
    alloc: A,
    detail: Detail,
    reader: &mut B,
    out: &mut W,
) -> Result<(), NamingError>
    ensures ok { OnOk result (IfSome (B.remaining reader.old) (λ octets.
        PrintsInput detail octets (W.contents out.old) (W.contents out.new))) }
    ensures stopped { IfErr result (λ error. IfSome (B.remaining reader.old) (λ octets.
        HasStopped detail error octets (W.contents out.old) (W.contents out.new))) }
    ensures stays { Extends (W.contents out.old) (W.contents out.new) }
    ensures faults { IfErr result IsLineError }
{
    let mut line = Vec::new(alloc);
    let mut is_begun = false;
    'lines: for number in 1..u64::MAX {
        let end = match next_line(reader, &mut is_begun, &mut line, out) {
            Ok(end) => end,
            Err(error) => return Err(read_error(number, error)),
        };
        write_line(alloc, detail, without_return(&line), number, out)?;
        match end {
            LineEnd::InputEnd => return Ok(()),
            LineEnd::LineFeed => {}
        }
    }
    Err(NamingError::Input)
}

/// Returns the error for a line with this number that could not be read.
fn read_error(number: u64, error: LineError) -> NamingError
    ensures { result ≡ line_error number error }
{
    let error = match error {
        LineError::Input { error } => error,
        LineError::Output => return NamingError::Output,
    };
    match error {
        InputError::TooLong => NamingError::TooLongAt { line: number },
        InputError::Device { .. } => NamingError::Input,
        InputError::Memory => NamingError::Memory,
    }
}

/// Whether the line is a line of a trace.
fn is_traced_line(line: &[u8]) -> bool
    ensures { result ≡ is_traced line.now }
{
    !line.is_empty() && line[0] == b'+'
}

/// Returns the text after the last space of the line, or all of it if there is no space.
pub fn last_word(line: &[u8]) -> &[u8]
    ensures { result.now ≡ last_part (parts_at 32 line.now) }
{
    let mut left = line;
    'words: loop {
        let (word, rest) = split_at_first(left, b' ');
        match rest {
            Some(rest) => left = rest,
            None => return word,
        }
    }
}

/// Returns the text of the line before its last word, without the space between them.
fn before_last(line: &[u8]) -> &[u8]
    ensures { result.now ≡ text_before_last line.now }
{
    let length = line.len().saturating_sub(last_word(line).len());
    &line[..length.saturating_sub(1)]
}

/// Prints the output for a line of a trace without octets.
fn write_kept<W: Write>(detail: Detail, line: &[u8], out: &mut W) -> Result<(), NamingError>
    ensures ok { OnOk result (Appends (W.contents out.old) (W.contents out.new)
        (kept_line detail true line.now)) }
    ensures front { OnErr result (AppendsFront (W.contents out.old) (W.contents out.new)
        (kept_line detail true line.now)) }
    ensures fault { IfErr result IsPrintError }
{
    match detail {
        Detail::Name => Ok(()),
        Detail::Units => {
            put(line, out)?;
            Ok(put(b"\n", out)?)
        }
    }
}

/// Prints the output for a line of a trace with these octets after its last space.
fn write_spoken<A: Allocator + Copy, W: Write>(
    alloc: A,
    detail: Detail,
    line: &[u8],
    octets: &[u8],
    out: &mut W,
) -> Result<(), NamingError>
    ensures ok { OnOk result ((heard : HeardValue) × IsHeardAs octets.now heard
        × Appends (W.contents out.old) (W.contents out.new)
        (shown_line detail true line.now heard)) }
    ensures front { OnErr result ((heard : HeardValue) × IsHeardAs octets.now heard
        × AppendsFront (W.contents out.old) (W.contents out.new)
        (shown_line detail true line.now heard)) }
    ensures fault { IfErr result IsPrintError }
{
    let mut buffer = TextBuffer::new();
    let heard = decode(octets, &mut buffer);
    match detail {
        Detail::Name => Ok(write_shown(alloc, detail, &heard, out)?),
        Detail::Units => {
            put(before_last(line), out)?;
            put(b"\n", out)?;
            Ok(write_units(alloc, &heard, out)?)
        }
    }
}

/// Prints the output for a line of a trace.
fn write_traced<A: Allocator + Copy, W: Write>(
    alloc: A,
    detail: Detail,
    line: &[u8],
    out: &mut W,
) -> Result<(), NamingError>
    requires { is_traced line.now ≡ true }
    ensures ok { OnOk result
        (PrintsLines detail (line.now ∷ []) (W.contents out.old) (W.contents out.new)) }
    ensures front { OnErr result
        (PrintsLinesFront detail (line.now ∷ []) (W.contents out.old) (W.contents out.new)) }
    ensures faults { IfErr result IsPrintError }
{
    let word = last_word(line);
    if is_blank(word) {
        return write_kept(detail, line, out);
    }
    match read_octets(alloc, word)? {
        Some(octets) => write_spoken(alloc, detail, line, &octets, out),
        None => write_kept(detail, line, out),
    }
}

/// Prints the output for the line with this number.
fn write_line<A: Allocator + Copy, W: Write>(
    alloc: A,
    detail: Detail,
    line: &[u8],
    number: u64,
    out: &mut W,
) -> Result<(), NamingError>
    ensures right { OnOk result (is_wrong line.now ≡ false) }
    ensures ok { OnOk result
        (PrintsLines detail (line.now ∷ []) (W.contents out.old) (W.contents out.new)) }
    ensures wrong { (n : ℕ) → result ≡ Err (NamingError.NotHexadecimalAt n) →
        (n ≡ number) × (is_wrong line.now ≡ true) × (out.new ≡ out.old) }
    ensures front { OnErr result
        (PrintsLinesFront detail (line.now ∷ []) (W.contents out.old) (W.contents out.new)) }
    ensures faults { IfErr result IsWrongOrPrintError }
{
    if is_traced_line(line) {
        return write_traced(alloc, detail, line, out);
    }
    if is_blank(line) {
        return Ok(());
    }
    match read_octets(alloc, line)? {
        Some(octets) => write_transmission(alloc, detail, &octets, out),
        None => Err(NamingError::NotHexadecimalAt { line: number }),
    }
}

/// Prints the output for octets that are heard.
fn write_transmission<A: Allocator + Copy, W: Write>(
    alloc: A,
    detail: Detail,
    octets: &[u8],
    out: &mut W,
) -> Result<(), NamingError>
    ensures ok { OnOk result
        (Prints (shown detail) octets.now (W.contents out.old) (W.contents out.new)) }
    ensures front { OnErr result
        (PrintsFront (shown detail) octets.now (W.contents out.old) (W.contents out.new)) }
    ensures fault { IfErr result IsPrintError }
{
    let mut buffer = TextBuffer::new();
    let heard = decode(octets, &mut buffer);
    write_shown(alloc, detail, &heard, out)?;
    Ok(())
}
