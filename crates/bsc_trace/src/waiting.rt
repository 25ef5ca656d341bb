//! Reads an input line by line, and flushes what was written before a read that may wait.
ghost use Rattle.std.specs.Prelude.{◌≡◌, ◌<◌, ◌≤◌, length, true};
ghost use Rattle.std.specs.Prelude.{IfErr, IfOk, IfSome, IsErrOf, Ok, OnOk};
ghost use Rattle.std.specs.Io.KnownBytes.{IsAtEnd, Keeps};
ghost use Rattle.bsc_text.specs.Parts.{before_octet};
ghost use Rattle.bsc_text.specs.Reading.{ReadsLine};

use bsc_text::{InputError, LineEnd, MAX_INPUT, Unreadable, read_line, split_at_first};
use std::alloc::Allocator;
use std::io::{BufRead, Write};

/// The reason why the next line was not read.
#[derive(Clone, Copy, Debug, PartialEq, Eq)]
pub enum LineError {
    /// The line could not be read, for this reason.
    Input { error: InputError },

    /// The writer could not be flushed.
    Output,
}

/// What a reader holds of its input after a line.
#[derive(Clone, Copy)]
enum Ahead {
    /// Nothing: the input has ended.
    End,

    /// A part of the next line.
    Part,

    /// All of the next line, and more after it or not.
    Line { goes_on: bool },
}

/// Flushes a writer, unless this is so.
fn flush_unless<W: Write>(is_so: bool, out: &mut W) -> Result<(), LineError>
    ensures kept { Keeps (W.contents out.old) (W.contents out.new) }
    ensures fault { IfErr result (λ error. error ≡ LineError.Output) }
{
    if is_so {
        return Ok(());
    }
    match out.flush() {
        Ok(()) => Ok(()),
        Err(_) => Err(LineError::Output),
    }
}

/// Returns what the reader holds. It reads if that is nothing.
fn look_ahead<B: BufRead>(reader: &mut B) -> Result<Ahead, Unreadable>
    ensures kept { Keeps (B.remaining reader.old) (B.remaining reader.new) }
    ensures end { result ≡ Ok Ahead.End → IsAtEnd (B.remaining reader.old) }
{
    let piece = match reader.fill_buf() {
        Ok(piece) => piece,
        Err(error) => return Err(Unreadable::of(error.kind())),
    };
    match split_at_first(piece, b'\n').1 {
        Some(rest) => Ok(Ahead::Line {
            goes_on: !rest.is_empty(),
        }),
        None => {
            if piece.is_empty() {
                return Ok(Ahead::End);
            }
            Ok(Ahead::Part)
        }
    }
}

/// Whether the input has ended.
fn is_end(ahead: Ahead) -> bool
    ensures { result ≡ true → ahead ≡ Ahead.End }
{
    match ahead {
        Ahead::End => true,
        Ahead::Part | Ahead::Line { .. } => false,
    }
}

/// Whether no more has to be read for the next line.
fn is_whole(ahead: Ahead) -> bool {
    match ahead {
        Ahead::Part => false,
        Ahead::End | Ahead::Line { .. } => true,
    }
}

/// Whether the reader holds a part of the line after the next one.
fn goes_on(ahead: Ahead) -> bool {
    match ahead {
        Ahead::Line { goes_on } => goes_on,
        Ahead::End | Ahead::Part => false,
    }
}

/// Reads the next line as [`read_line`](bsc_text::read_line) does. Before each read of the input
/// that may wait, `out` is flushed, so that what was written for the lines before is there by then.
/// `is_begun` is whether the reader holds a part of the line that comes next: false before the
/// first line, and then what the last call has left there. The error is `Output` if a flush fails.
pub fn next_line<B: BufRead, A: Allocator, W: Write>(
    reader: &mut B,
    is_begun: &mut bool,
    line: &mut Vec<u8, A>,
    out: &mut W,
) -> Result<LineEnd, LineError>
    ensures line { IfOk result (λ end.
        ReadsLine (B.remaining reader.old) (B.remaining reader.new) end line.new.items) }
    ensures fits { OnOk result (length line.new.items ≤ MAX_INPUT) }
    ensures too_long { IsErrOf result (LineError.Input InputError.TooLong) →
        IfSome (B.remaining reader.old) (λ octets. MAX_INPUT < length (before_octet 10 octets)) }
    ensures kept { Keeps (W.contents out.old) (W.contents out.new) }
{
    flush_unless(*is_begun, out)?;
    read_next(reader, is_begun, line, out)
}

/// Reads the next line, after a flush if more than the reader holds has to be read for it.
fn read_next<B: BufRead, A: Allocator, W: Write>(
    reader: &mut B,
    is_begun: &mut bool,
    line: &mut Vec<u8, A>,
    out: &mut W,
) -> Result<LineEnd, LineError>
    ensures line { IfOk result (λ end.
        ReadsLine (B.remaining reader.old) (B.remaining reader.new) end line.new.items) }
    ensures fits { OnOk result (length line.new.items ≤ MAX_INPUT) }
    ensures too_long { IsErrOf result (LineError.Input InputError.TooLong) →
        IfSome (B.remaining reader.old) (λ octets. MAX_INPUT < length (before_octet 10 octets)) }
    ensures kept { Keeps (W.contents out.old) (W.contents out.new) }
{
    let ahead = match look_ahead(reader) {
        Ok(ahead) => ahead,
        Err(why) => {
            let error = InputError::Device { why };
            return Err(LineError::Input { error });
        }
    };
    *is_begun = goes_on(ahead);
    if is_end(ahead) {
        line.clear();
        return Ok(LineEnd::InputEnd);
    }
    flush_unless(is_whole(ahead), out)?;
    match read_line(reader, line) {
        Ok(end) => Ok(end),
        Err(error) => Err(LineError::Input { error }),
    }
}
