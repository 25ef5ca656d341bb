//! Who sent a transmission, who heard it, and what became of it.
ghost use Rattle.std.specs.Prelude.{◌≡◌, option_map};
ghost use Rattle.bsc_trace.specs.Speaking.{from_column, head_in, sender_in, spoken_after};
ghost use Rattle.bsc_trace.specs.Speaking.{spoken_by, spoken_in, spoken_of, spoken_to, to_one};

use crate::ladder::{Course, Fate};
use crate::words::{read_column, read_fate};
use bsc_text::{spells, split_word};

/// The beginning of a line for a transmission.
#[derive(Clone, Copy)]
pub(crate) struct Spoken<'a> {
    /// From where to where it went.
    pub(crate) course: Course,

    /// What became of it, as far as the word tells.
    pub(crate) fate: Fate,

    /// The rest of the line, its name and its octets.
    pub(crate) rest: &'a [u8],
}

/// The sender of a transmission, and the text after it.
#[derive(Clone, Copy)]
struct Head<'a> {
    course: Course,
    rest: &'a [u8],
}

/// Reads the sender, what became of the transmission, and who heard it; `None` if the text is not
/// the line of a transmission.
pub(crate) fn read_spoken(text: &[u8]) -> Option<Spoken<'_>>
    ensures { option_map spoken_in result ≡ spoken_of text.now }
{
    let head = read_sender(text)?;
    read_after(head)
}

/// Reads the sender: `control`, `terminal N` or `connection N`.
fn read_sender(text: &[u8]) -> Option<Head<'_>>
    ensures { option_map head_in result ≡ sender_in text.now }
{
    let (word, rest) = split_word(text);
    let rest = rest?;
    if spells(word, "control") {
        return Some(Head {
            course: Course::ToAll,
            rest,
        });
    }
    if spells(word, "terminal") || spells(word, "connection") {
        return read_from(rest);
    }
    None
}

/// Reads the number of the station that sent.
fn read_from(text: &[u8]) -> Option<Head<'_>>
    ensures { option_map head_in result ≡ from_column text.now }
{
    let (word, rest) = split_word(text);
    let rest = rest?;
    let column = read_column(word)?;
    Some(Head {
        course: Course::From { column },
        rest,
    })
}

/// Reads what became of the transmission of this sender, and who heard it.
fn read_after(head: Head<'_>) -> Option<Spoken<'_>>
    ensures { option_map spoken_in result ≡ spoken_by (head_in head.entry) }
{
    let (word, rest) = split_word(head.rest);
    let rest = rest?;
    let fate = read_fate(word)?;
    read_hearers(head.course, fate, rest)
}

/// Reads who heard a transmission of the control station, if that is one terminal: `at N`.
fn read_hearers(course: Course, fate: Fate, text: &[u8]) -> Option<Spoken<'_>>
    ensures { option_map spoken_in result ≡ spoken_to course fate text.now }
{
    match course {
        Course::From { .. } | Course::ToOne { .. } => Some(Spoken {
            course,
            fate,
            rest: text,
        }),
        Course::ToAll => read_places(fate, text),
    }
}

/// Reads who heard a transmission of the control station.
fn read_places(fate: Fate, text: &[u8]) -> Option<Spoken<'_>>
    ensures { option_map spoken_in result ≡ spoken_after fate text.now }
{
    let (word, rest) = split_word(text);
    if spells(word, "at") {
        return read_one(fate, rest?);
    }
    Some(Spoken {
        course: Course::ToAll,
        fate,
        rest: text,
    })
}

/// Reads the number of the terminal that heard.
fn read_one(fate: Fate, text: &[u8]) -> Option<Spoken<'_>>
    ensures { option_map spoken_in result ≡ to_one fate text.now }
{
    let (word, rest) = split_word(text);
    let rest = rest?;
    let column = read_column(word)?;
    Some(Spoken {
        course: Course::ToOne { column },
        fate,
        rest,
    })
}
