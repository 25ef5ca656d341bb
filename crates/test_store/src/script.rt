//! Scripts of operations of `bscline store`, and of what happens at the stations between them.
//!
//! A row with an arrow has the words of an operation, and then what is printed and the text of the
//! error; if it ends with three points, only their beginning. The other rows are:
//!
//! - `STATION hears RECORD`: the record arrives at the station,
//! - `STATION knows COUNT COUNT`: as many of its records are known and in doubt,
//! - `STATION fails at CALLS`: these calls of its store fail from then on, and no others do,
//! - `unprinted WORDS`: the operation fails because nothing can be printed.
//!
//! The control station is at the path `control`, and sends to the second selection address of
//! terminal 0. That terminal is at the path `terminal`, and sends to the control station.

use crate::facts::{Fact, from_terminal};
use crate::machine::{Machine, is_unprinted, keep, no_stores, told};
use bsc_frame::Address;
use bsc_spool::{Channel, StoreFault};
use std::alloc::Global;
use std::test::Fail;

/// A row of a script.
pub(crate) type Row = &'static str;

/// Returns the channel from terminal 0, or the one to its second selection address.
fn channel_of(is_from: bool) -> Result<Channel, StoreFault> {
    if is_from {
        return from_terminal();
    }
    match Address::read(b"c") {
        Ok(selection) => Ok(Channel::To { selection }),
        Err(_) => Err(StoreFault::Refused),
    }
}

/// Returns the number in this text.
fn number(text: &str) -> Result<u32, StoreFault> {
    match text.parse::<u32>() {
        Ok(number) => Ok(number),
        Err(_) => Err(StoreFault::Refused),
    }
}

/// Keeps that a record has arrived at the station at this path.
fn hear(machine: &mut Machine, path: &str, chars: &'static str) -> Result<(), StoreFault> {
    let channel = channel_of(path == "control")?;
    keep(machine, path, channel, Fact::Arrived(chars))
}

/// Keeps how many records of the station at this path are known and in doubt.
fn learn(machine: &mut Machine, path: &str, known: &str, doubts: &str) -> Result<(), StoreFault> {
    let channel = channel_of(path == "terminal")?;
    let fact = Fact::Known(number(known)?, number(doubts)?);
    keep(machine, path, channel, fact)
}

/// Does what a row without an arrow says, and returns whether that could be done.
fn happens(alloc: Global, machine: &mut Machine, row: Row) -> Result<bool, StoreFault> {
    if let Some(words) = row.strip_prefix("unprinted ") {
        return Ok(is_unprinted(alloc, machine, words));
    }
    let mut words = row.split(' ');
    let (path, what) = (words.next().unwrap_or(""), words.next().unwrap_or(""));
    let (first, second) = (words.next().unwrap_or(""), words.next().unwrap_or(""));
    match what {
        "hears" => hear(machine, path, first)?,
        "knows" => learn(machine, path, first, second)?,
        "fails" => machine.fails = (path, second),
        _ => return Ok(false),
    }
    Ok(true)
}

/// Whether this is the text, or begins it if it ends with three points.
fn is_text(text: &[u8], wanted: &str) -> bool {
    match wanted.strip_suffix("...") {
        Some(begin) => text.starts_with(begin.as_bytes()),
        None => text == wanted.as_bytes(),
    }
}

/// Whether what a row says is so, with this standard input.
fn is_so(alloc: Global, machine: &mut Machine, input: &str, row: Row) -> Result<bool, Fail> {
    match row.split_once(" => ") {
        Some((words, text)) => Ok(is_text(&told(alloc, machine, words, input)?, text)),
        None => Ok(happens(alloc, machine, row)?),
    }
}

/// Plays rows on a machine, with this standard input for each operation.
fn play_on(alloc: Global, machine: &mut Machine, input: &str, rows: &[Row]) -> Result<(), Fail> {
    for row in rows {
        if !is_so(alloc, machine, input, *row)? {
            return Err(Fail::new(format_args!("{row}")));
        }
    }
    Ok(())
}

/// Plays a script on a machine that has no stores at first: rows by which it is prepared, and then
/// the others.
pub(crate) fn play(alloc: Global, input: &str, before: &[Row], rows: &[Row]) -> Result<(), Fail> {
    let mut machine = no_stores(alloc);
    play_on(alloc, &mut machine, input, before)?;
    play_on(alloc, &mut machine, input, rows)
}
