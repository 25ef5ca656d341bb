//! Reads an input line by line.
ghost use Rattle.std.specs.Prelude.{◌<◌, ◌≤◌, length, IfOk, IfSome, IsErrOf, OnOk};
ghost use Rattle.bsc_text.specs.Parts.{before_octet};
ghost use Rattle.bsc_text.specs.Reading.{GrowsBy, IsTooLongAfter, ReadsLine, ReadsPart};

use crate::{InputError, MAX_INPUT, Unreadable, split_at_first};
use std::alloc::Allocator;
use std::io::BufRead;

/// What a line ends with.
#[derive(Clone, Copy, Debug, PartialEq, Eq)]
pub enum LineEnd {
    /// A line feed. Another line comes after it, which may be empty.
    LineFeed,

    /// The end of the input: it is the last line.
    InputEnd,
}

/// Reads the next line of at most `MAX_INPUT` octets in place of what `line` held, without its line
/// feed, and returns what it ends with. Returns `TooLong` if the line has more octets. After an
/// error `line` has a part of the line, and the reader is after that part or before it.
pub fn read_line<B: BufRead, A: Allocator>(
    reader: &mut B,
    line: &mut Vec<u8, A>,
) -> Result<LineEnd, InputError>
    ensures line { IfOk result (λ end.
        ReadsLine (B.remaining reader.old) (B.remaining reader.new) end line.new.items) }
    ensures fits { OnOk result (length line.new.items ≤ MAX_INPUT) }
    ensures too_long { IsErrOf result InputError.TooLong →
        IfSome (B.remaining reader.old) (λ octets. MAX_INPUT < length (before_octet 10 octets)) }
{
    line.clear();
    'parts: loop {
        match read_part(reader, line) {
            Ok(Some(end)) => return Ok(end),
            Ok(None) => {}
            Err(error) => return Err(error),
        }
    }
}

/// Reads a part of a line to the end of `line`: as much as one read gives, up to a line feed, which
/// is left out. Returns what the line ends with, or `None` if it goes on.
fn read_part<B: BufRead, A: Allocator>(
    reader: &mut B,
    line: &mut Vec<u8, A>,
) -> Result<Option<LineEnd>, InputError>
    requires { length line.old.items ≤ MAX_INPUT }
    ensures part { IfOk result (λ end. GrowsBy line.old.items line.new.items
        (ReadsPart (B.remaining reader.old) (B.remaining reader.new) end)) }
    ensures fits { OnOk result (length line.new.items ≤ MAX_INPUT) }
    ensures too_long { IsErrOf result InputError.TooLong →
        IfSome (B.remaining reader.old) (IsTooLongAfter line.old.items) }
{
    let piece = match reader.fill_buf() {
        Ok(piece) => piece,
        Err(error) => {
            let why = Unreadable::of(error.kind());
            return Err(InputError::Device { why });
        }
    };
    let (part, rest) = split_at_first(piece, b'\n');
    let count = part.len();
    if MAX_INPUT - line.len() < count {
        return Err(InputError::TooLong);
    }
    let Ok(()) = line.extend_from_slice(part) else {
        return Err(InputError::Memory);
    };
    match rest {
        Some(_) => {
            reader.consume(count + 1);
            Ok(Some(LineEnd::LineFeed))
        }
        None => {
            if count == 0 {
                return Ok(Some(LineEnd::InputEnd));
            }
            reader.consume(count);
            Ok(None)
        }
    }
}
