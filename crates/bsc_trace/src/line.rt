//! The lines of a trace.
ghost use Rattle.std.specs.Prelude.{◌≡◌, IfOk, option_map};
ghost use Rattle.bsc_trace.specs.Lines.{other_at, transmission_at, value_after, value_in, value_of};
ghost use Rattle.bsc_trace.specs.Lines.{value_timed};
ghost use Rattle.bsc_trace.specs.Speaking.{spoken_in};

use crate::ladder::{Course, Fate, Mark};
use crate::marks::{Marked, read_mark};
use crate::naming::last_word;
use crate::octets::read_given;
use crate::speaking::{Spoken, read_spoken};
use crate::words::is_time;
use bsc_text::{spells, split_word};
use std::alloc::{AllocError, Allocator};

/// A line of a trace.
#[derive(Drop)]
pub enum TraceLine<'a, A: Allocator> {
    /// A transmission.
    Transmission {
        /// The milliseconds since the start, or the line of the script, in decimal digits.
        time: &'a [u8],

        /// Who sent it, and who heard it.
        course: Course,

        /// What became of it, as far as the word tells: [`Fate::Failed`] is none of them.
        fate: Fate,

        /// Its octets.
        octets: Vec<u8, A>,
    },

    /// A time-out in which nothing was heard.
    Silence {
        /// The same as that of a transmission.
        time: &'a [u8],
    },

    /// Anything else.
    Told {
        /// The same as that of a transmission.
        time: &'a [u8],

        /// Where its mark stands, and what it is.
        mark: Mark,

        /// What was told; of a station's addresses only these.
        text: &'a [u8],
    },
}

/// Reads a line of a trace, without its line feed: `+`, a time of 1 to 20 digits, a space, and what
/// was told. Returns `None` if it is none, or if it is a transmission whose last word is neither
/// hexadecimal text nor `-`. The error means out of memory for the octets.
pub fn read_trace_line<A: Allocator + Copy>(
    alloc: A,
    line: &[u8],
) -> Result<Option<TraceLine<'_, A>>, AllocError>
    ensures { IfOk result (λ value. option_map value_in value ≡ value_of line.now) }
{
    match line {
        [b'+', text @ ..] => read_timed(alloc, text),
        _ => Ok(None),
    }
}

/// Reads the text after the sign.
fn read_timed<A: Allocator + Copy>(
    alloc: A,
    text: &[u8],
) -> Result<Option<TraceLine<'_, A>>, AllocError>
    ensures { IfOk result (λ value. option_map value_in value ≡ value_timed text.now) }
{
    let (time, text) = split_word(text);
    match text {
        Some(text) => read_at(alloc, time, text),
        None => Ok(None),
    }
}

/// Reads what was told at this time, if it is a time.
fn read_at<'a, A: Allocator + Copy>(
    alloc: A,
    time: &'a [u8],
    text: &'a [u8],
) -> Result<Option<TraceLine<'a, A>>, AllocError>
    ensures { IfOk result (λ value. option_map value_in value ≡ value_after time.now text.now) }
{
    if !is_time(time) {
        return Ok(None);
    }
    match read_spoken(text) {
        Some(spoken) => read_transmission(alloc, time, spoken),
        None => Ok(Some(other(time, text))),
    }
}

/// Returns what was told, if it is no transmission.
fn other<'a, A: Allocator>(time: &'a [u8], text: &'a [u8]) -> TraceLine<'a, A>
    ensures { value_in result ≡ other_at time.now text.now }
{
    if spells(text, "silence") {
        TraceLine::Silence { time }
    } else {
        let Marked { mark, text } = read_mark(text);
        TraceLine::Told { time, mark, text }
    }
}

/// Reads the octets of a transmission.
fn read_transmission<'a, A: Allocator + Copy>(
    alloc: A,
    time: &'a [u8],
    spoken: Spoken<'a>,
) -> Result<Option<TraceLine<'a, A>>, AllocError>
    ensures { IfOk result (λ value.
        option_map value_in value ≡ transmission_at time.now (spoken_in spoken.entry)) }
{
    let Spoken { course, fate, rest } = spoken;
    match read_given(alloc, last_word(rest))? {
        Some(octets) => Ok(Some(TraceLine::Transmission {
            time,
            course,
            fate,
            octets,
        })),
        None => Ok(None),
    }
}
