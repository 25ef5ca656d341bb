//! One command, and its answer.

ghost use Rattle.std.specs.Prelude.{◌≡◌, IfErr, IfOk, IsErrOf, OnOk, true};
ghost use Rattle.std.specs.Io.KnownBytes.{Appends, Keeps};
ghost use Rattle.bsc_clients.specs.Answers.{EndsInFault, Hears, HearsAll, HearsOne, IsAnswer};
ghost use Rattle.bsc_clients.specs.Answers.{PrintsOne, TellsNoFault, line_shown, with_feed};
ghost use Rattle.bsc_clients.specs.Errors.{IsAnswerError, IsHeardError};
ghost use Rattle.bsc_clients.specs.Errors.{heard_error as heard_fault};

use crate::command::FeedError;
use crate::command::answers::{Kind, kind_of};
use bsc_text::{InputError, LineEnd, Lines, read_line};
use std::alloc::Allocator;
use std::io::{BufRead, Write};

/// Sends this command, and prints the lines of the station up to its answer. Fails with `Refused`
/// if it is refused, and with `Closed` if the station closes the connection before its answer. What
/// a station tells that has closed the connection already is printed too.
pub(crate) fn exchange<A: Allocator, B: BufRead, O: Write, W: Write>(
    alloc: A,
    command: &[u8],
    heard: &mut B,
    said: &mut O,
    out: &mut W,
) -> Result<(), FeedError>
    ensures said { OnOk result
        (Appends (O.contents said.old) (O.contents said.new) (with_feed command.now)) }
    ensures done { OnOk result
        (IsAnswer Kind.Done (W.contents out.old) (W.contents out.new)) }
    ensures heard { OnOk result (Hears (B.remaining heard.old) (B.remaining heard.new)
        (W.contents out.old) (W.contents out.new)) }
    ensures refused { IsErrOf result FeedError.Refused →
        IsAnswer Kind.Refused (W.contents out.old) (W.contents out.new) }
    ensures failed { IfErr result IsAnswerError }
{
    let mut line = Vec::new(alloc);
    line.extend_from_slice(command)?;
    line.push(b'\n')?;
    let sent = send(&line, said);
    let answered = answer(heard, &mut line, out);
    match answered {
        Ok(()) if !sent => Err(FeedError::Closed),
        answered => answered,
    }
}

/// Sends these octets, and returns whether all of them were sent.
fn send<O: Write>(octets: &[u8], said: &mut O) -> bool
    ensures { result ≡ true → Appends (O.contents said.old) (O.contents said.new) octets.now }
{
    said.write_all(octets).is_ok() && said.flush().is_ok()
}

/// Prints the lines of the station up to an answer.
fn answer<A: Allocator, B: BufRead, W: Write>(
    heard: &mut B,
    line: &mut Vec<u8, A>,
    out: &mut W,
) -> Result<(), FeedError>
    ensures done { OnOk result
        (IsAnswer Kind.Done (W.contents out.old) (W.contents out.new)) }
    ensures heard { OnOk result (Hears (B.remaining heard.old) (B.remaining heard.new)
        (W.contents out.old) (W.contents out.new)) }
    ensures refused { IsErrOf result FeedError.Refused →
        IsAnswer Kind.Refused (W.contents out.old) (W.contents out.new) }
    ensures failed { IfErr result IsAnswerError }
{
    'lines: for _ in 0..u64::MAX {
        match next_line(heard, line, out)? {
            Some(Kind::Done) => return Ok(()),
            Some(Kind::Refused) => return Err(FeedError::Refused),
            Some(Kind::News) => {}
            None => return Err(FeedError::Closed),
        }
    }
    Err(FeedError::Closed)
}

/// Prints all that the station tells until it closes the connection. Fails with `Refused` at a line
/// that tells a fault, which it prints.
pub(crate) fn follow<A: Allocator, B: BufRead, W: Write>(
    alloc: A,
    heard: &mut B,
    out: &mut W,
) -> Result<(), FeedError>
    ensures told { OnOk result (TellsNoFault (W.contents out.old) (W.contents out.new)) }
    ensures heard { OnOk result (HearsAll (B.remaining heard.old) (B.remaining heard.new)
        (W.contents out.old) (W.contents out.new)) }
    ensures refused { IsErrOf result FeedError.Refused →
        EndsInFault (W.contents out.old) (W.contents out.new) }
    ensures failed { IfErr result IsAnswerError }
{
    let mut line = Vec::new(alloc);
    'lines: for _ in 0..u64::MAX {
        match next_line(heard, &mut line, out)? {
            Some(kind) => {
                if kind.is_fault() {
                    return Err(FeedError::Refused);
                }
            }
            None => return Ok(()),
        }
    }
    Err(FeedError::Closed)
}

/// Prints the next line of the station in place of what `line` held, and returns what it is; None
/// if the station has closed the connection, which drops a line that has no line feed.
fn next_line<A: Allocator, B: BufRead, W: Write>(
    heard: &mut B,
    line: &mut Vec<u8, A>,
    out: &mut W,
) -> Result<Option<Kind>, FeedError>
    ensures line { IfOk result (λ kind. PrintsOne kind (W.contents out.old) (W.contents out.new)) }
    ensures heard { IfOk result (λ kind.
        HearsOne kind (B.remaining heard.old) (B.remaining heard.new)
        (W.contents out.old) (W.contents out.new)) }
    ensures failed { IfErr result IsHeardError }
{
    match read_line(heard, line) {
        Ok(LineEnd::LineFeed) => {
            print(line, out)?;
            Ok(Some(kind_of(line)))
        }
        Ok(LineEnd::InputEnd) => Ok(None),
        Err(error) => Err(heard_error(error)),
    }
}

/// Returns why the station gave no answer, if reading its line fails with this.
fn heard_error(error: InputError) -> FeedError
    ensures error { result ≡ heard_fault error }
    ensures fault { IsHeardError result }
{
    match error {
        InputError::TooLong | InputError::Device { .. } => FeedError::Closed,
        InputError::Memory => FeedError::Memory,
    }
}

/// Prints a line, with its line feed, so that it is seen at once. What a terminal obeys is escaped.
fn print<W: Write>(line: &[u8], out: &mut W) -> Result<(), FeedError>
    ensures ok { OnOk result
        (Appends (W.contents out.old) (W.contents out.new) (line_shown line.now)) }
    ensures err { IfErr result (λ error. error ≡ FeedError.Output) }
{
    let shown = Lines(line);
    match writeln!(out, "{shown}") {
        Ok(()) => flush(out),
        Err(_) => Err(FeedError::Output),
    }
}

/// Flushes what was printed.
fn flush<W: Write>(out: &mut W) -> Result<(), FeedError>
    ensures kept { OnOk result (Keeps (W.contents out.old) (W.contents out.new)) }
    ensures err { IfErr result (λ error. error ≡ FeedError.Output) }
{
    match out.flush() {
        Ok(()) => Ok(()),
        Err(_) => Err(FeedError::Output),
    }
}
