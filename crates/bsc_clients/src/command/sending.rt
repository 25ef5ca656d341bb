//! The commands that are sent.

ghost use Rattle.std.specs.Prelude.{◌≡◌, [], ◌∷◌, false, true, IfErr, IfOk, IsErrOf, OnOk, Some};
ghost use Rattle.std.specs.Prelude.{map, option_map};
ghost use Rattle.std.specs.Str.Lines.{strip_carriage_return};
ghost use Rattle.bsc_clients.specs.Answers.{EndsInFault, Hears};
ghost use Rattle.bsc_clients.specs.Commands.{commands_after, commands_of, unless_empty};
ghost use Rattle.bsc_clients.specs.Errors.{IsAnswerError, IsInputError, IsLineError};
ghost use Rattle.bsc_clients.specs.Errors.{input_error as input_fault};
ghost use Rattle.bsc_clients.specs.Feeding.{SendsSome, turned};

use crate::command::FeedError;
use crate::command::exchange::exchange;
use crate::command::given::{is_follow, is_unsent};
use bsc_text::{InputError, LineEnd, read_line, without_return};
use std::alloc::Allocator;
use std::io::{BufRead, Write};

/// Sends this command, unless it is skipped, and prints the lines of the station up to its answer.
/// Returns whether it follows a channel.
pub(crate) fn send_command<A: Allocator, B: BufRead, O: Write, W: Write>(
    alloc: A,
    command: &[u8],
    heard: &mut B,
    said: &mut O,
    out: &mut W,
) -> Result<bool, FeedError>
    ensures sent { IfOk result (λ follows.
        SendsSome (Some (commands_of false command.now [])) follows
        (turned (O.contents said.old) (O.contents said.new)
        (W.contents out.old) (W.contents out.new))) }
    ensures heard { OnOk result (Hears (B.remaining heard.old) (B.remaining heard.new)
        (W.contents out.old) (W.contents out.new)) }
    ensures refused { IsErrOf result FeedError.Refused →
        EndsInFault (W.contents out.old) (W.contents out.new) }
    ensures failed { IfErr result IsAnswerError }
{
    if is_unsent(command) {
        return Ok(false);
    }
    match exchange(alloc, command, heard, said, out) {
        Ok(()) => Ok(is_follow(command)),
        Err(error) => Err(error),
    }
}

/// Sends a command for each line of the input: this text, and the line after it. Returns whether
/// one of them follows a channel.
pub(crate) fn send_lines<A: Allocator + Copy, L: BufRead, B: BufRead, O: Write, W: Write>(
    alloc: A,
    text: &[u8],
    input: &mut L,
    heard: &mut B,
    said: &mut O,
    out: &mut W,
) -> Result<bool, FeedError>
    ensures sent { IfOk result (λ follows.
        SendsSome (option_map (commands_of true text.now) (L.remaining input.old)) follows
        (turned (O.contents said.old) (O.contents said.new)
        (W.contents out.old) (W.contents out.new))) }
    ensures heard { OnOk result (Hears (B.remaining heard.old) (B.remaining heard.new)
        (W.contents out.old) (W.contents out.new)) }
    ensures refused { IsErrOf result FeedError.Refused →
        EndsInFault (W.contents out.old) (W.contents out.new) }
    ensures failed { IfErr result IsLineError }
{
    let mut line = Vec::new(alloc);
    let mut follows = false;
    'lines: for _ in 0..u64::MAX {
        let end = match read_line(input, &mut line) {
            Ok(end) => end,
            Err(error) => return Err(input_error(error)),
        };
        match end {
            LineEnd::LineFeed => {
                match send_line(alloc, text, &line, heard, said, out) {
                    Ok(more) => follows |= more,
                    Err(error) => return Err(error),
                }
            }
            LineEnd::InputEnd => {
                match send_last(alloc, text, &line, heard, said, out) {
                    Ok(more) => return Ok(follows | more),
                    Err(error) => return Err(error),
                }
            }
        }
    }
    Err(FeedError::Input)
}

/// The same of what follows the last line feed of the input, which is a line unless it is empty.
fn send_last<A: Allocator + Copy, B: BufRead, O: Write, W: Write>(
    alloc: A,
    text: &[u8],
    line: &[u8],
    heard: &mut B,
    said: &mut O,
    out: &mut W,
) -> Result<bool, FeedError>
    ensures sent { IfOk result (λ follows.
        SendsSome (Some (commands_after text.now
        (map strip_carriage_return (unless_empty line.now))))
        follows (turned (O.contents said.old) (O.contents said.new)
        (W.contents out.old) (W.contents out.new))) }
    ensures heard { OnOk result (Hears (B.remaining heard.old) (B.remaining heard.new)
        (W.contents out.old) (W.contents out.new)) }
    ensures refused { IsErrOf result FeedError.Refused →
        EndsInFault (W.contents out.old) (W.contents out.new) }
    ensures failed { IfErr result IsAnswerError }
{
    if line.is_empty() {
        return Ok(false);
    }
    send_line(alloc, text, line, heard, said, out)
}

/// Sends the command of this line of the input: this text, and the line after it.
fn send_line<A: Allocator + Copy, B: BufRead, O: Write, W: Write>(
    alloc: A,
    text: &[u8],
    line: &[u8],
    heard: &mut B,
    said: &mut O,
    out: &mut W,
) -> Result<bool, FeedError>
    ensures sent { IfOk result (λ follows.
        SendsSome (Some (commands_after text.now (strip_carriage_return line.now ∷ [])))
        follows (turned (O.contents said.old) (O.contents said.new)
        (W.contents out.old) (W.contents out.new))) }
    ensures heard { OnOk result (Hears (B.remaining heard.old) (B.remaining heard.new)
        (W.contents out.old) (W.contents out.new)) }
    ensures refused { IsErrOf result FeedError.Refused →
        EndsInFault (W.contents out.old) (W.contents out.new) }
    ensures failed { IfErr result IsAnswerError }
{
    let mut command = Vec::new(alloc);
    command.extend_from_slice(text)?;
    command.extend_from_slice(without_return(line))?;
    send_command(alloc, &command, heard, said, out)
}

/// Returns why the input is not sent, if reading a line of it fails with this.
fn input_error(error: InputError) -> FeedError
    ensures error { result ≡ input_fault error }
    ensures fault { IsInputError result }
{
    match error {
        InputError::TooLong => FeedError::TooLong,
        InputError::Device { .. } => FeedError::Input,
        InputError::Memory => FeedError::Memory,
    }
}
