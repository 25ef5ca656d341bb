//! The work of `bscline feed`.

ghost use Rattle.std.specs.Prelude.{◌≡◌, IfErr, IfOk, IsErrOf, OnOk, map, string_bytes};
ghost use Rattle.bsc_clients.specs.Answers.{EndsInFault, Hears};
ghost use Rattle.bsc_clients.specs.Errors.{IsFeedError, IsLineError};
ghost use Rattle.bsc_clients.specs.Feeding.{FeedsWords, HearsWords, SendsSome, commands_known};
ghost use Rattle.bsc_clients.specs.Feeding.{turned};

use crate::command::FeedError;
use crate::command::exchange::follow;
use crate::command::given::{Given, read_given};
use crate::command::sending::{send_command, send_lines};
use std::alloc::Allocator;
use std::io::{BufRead, BufReader, Read, Write};

/// Sends what these words ask for, and the lines of the input if the words have them sent. What is
/// heard of the station is printed line by line: up to the answer to each command before the next
/// one is sent, and after the last one, if one of them was to follow a channel, until the station
/// closes the connection. The input is read no further than to the line that is sent next, but for
/// what its reader holds.
///
/// Fails with `NotOneLine` if a word has a line feed, before anything is read or sent, with
/// `Refused` at the first answer that is a fault, with `Closed` if the station closes the
/// connection before it answers, with `TooLong` and `Input` if the input cannot be read, with
/// `Output` if the output is not accepted, and with `Memory` if memory cannot be allocated.
pub fn feed<A: Allocator + Copy, R: Read, I: Read, O: Write, W: Write>(
    alloc: A,
    words: &[String<A>],
    input: &mut R,
    heard: &mut I,
    said: &mut O,
    out: &mut W,
) -> Result<(), FeedError>
    ensures fed { OnOk result
        (FeedsWords (map string_bytes words.now) (R.remaining input.old)
        (turned (O.contents said.old) (O.contents said.new)
        (W.contents out.old) (W.contents out.new))) }
    ensures heard { OnOk result
        (HearsWords (map string_bytes words.now) (R.remaining input.old)
        (I.remaining heard.old) (W.contents out.old) (W.contents out.new)) }
    ensures refused { IsErrOf result FeedError.Refused →
        EndsInFault (W.contents out.old) (W.contents out.new) }
    ensures failed { IfErr result (IsFeedError (map string_bytes words.now)) }
    ensures early { IsErrOf result FeedError.NotOneLine → (input.new ≡ input.old)
        × (heard.new ≡ heard.old) × (said.new ≡ said.old) × (out.new ≡ out.old) }
{
    let given = read_given(alloc, words)?;
    let Ok(mut heard) = BufReader::new(alloc, heard) else {
        return Err(FeedError::Memory);
    };
    let follows = send_given(alloc, &given, input, &mut heard, said, out)?;
    if follows {
        return follow(alloc, &mut heard, out);
    }
    Ok(())
}

/// Sends the command that is given, or one for each line of the input. Returns whether one of them
/// follows a channel.
fn send_given<A: Allocator + Copy, R: Read, B: BufRead, O: Write, W: Write>(
    alloc: A,
    given: &Given<A>,
    input: &mut R,
    heard: &mut B,
    said: &mut O,
    out: &mut W,
) -> Result<bool, FeedError>
    ensures sent { IfOk result (λ follows. SendsSome
        (commands_known given.now.takes_lines given.now.text.items (R.remaining input.old)) follows
        (turned (O.contents said.old) (O.contents said.new)
        (W.contents out.old) (W.contents out.new))) }
    ensures heard { OnOk result (Hears (B.remaining heard.old) (B.remaining heard.new)
        (W.contents out.old) (W.contents out.new)) }
    ensures refused { IsErrOf result FeedError.Refused →
        EndsInFault (W.contents out.old) (W.contents out.new) }
    ensures failed { IfErr result IsLineError }
{
    if !given.takes_lines {
        return send_command(alloc, &given.text, heard, said, out);
    }
    match BufReader::new(alloc, input) {
        Ok(mut input) => send_lines(alloc, &given.text, &mut input, heard, said, out),
        Err(_) => Err(FeedError::Memory),
    }
}
