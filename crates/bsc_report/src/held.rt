//! The lines of a trace that are held back, so that an idle poll has none.

ghost use Rattle.std.specs.Prelude.{◌≡◌, OnOk};
ghost use Rattle.std.specs.Io.KnownBytes.{Appends};
ghost use Rattle.bsc_connections.specs.Notes.{told_by};
ghost use Rattle.bsc_frame.specs.Reading.{heard};
ghost use Rattle.bsc_report.specs.Holding.{IsTracedUnless, TracesNext, are_heard, are_sent};
ghost use Rattle.bsc_report.specs.Holding.{drops, lacks_line};
ghost use Rattle.bsc_report.specs.Holding.{held_for, held_if_call, held_shown, is_call};
ghost use Rattle.bsc_report.specs.Holding.{is_eot, is_poll_end, released};

use crate::trace::{write_note, write_transmission};
use arrayvec::ArrayVec;
use bsc_bid::Speaker;
use bsc_connections::{Decoded, Note};
use bsc_frame::limits::MAX_SENT;
use bsc_frame::{Heard, Message, TextBuffer};
use bsc_text::{Fate, PrintError, Who};
use std::alloc::Allocator;
use std::io::Write;
use std::marker::Model;

/// Which calls may begin an idle poll.
#[derive(Clone, Copy)]
pub enum Calls {
    /// None: what the control station sends is no poll.
    Neither,

    /// Those that the control station sends.
    Sent,

    /// Those that a terminal hears.
    Heard,
}

/// The line of a call of the control station that is held back.
#[derive(Drop)]
pub struct HeldCall {
    /// The time of the line, in milliseconds.
    time: u64,

    /// Whether the call was sent or heard.
    fate: Fate,

    /// The octets of the call.
    octets: ArrayVec<u8, MAX_SENT>,
}

impl Model for HeldCall {
    ghost use Rattle.bsc_report.specs.Holding.{CallLine, call_line_of};

    ghost Value = { CallLine };

    ghost view = { λ h. call_line_of h.time h.fate h.octets.items };
}

/// Where and when an event is seen.
#[derive(Clone, Copy)]
pub struct Seen {
    /// The time, in milliseconds.
    pub time: u64,

    /// The station to which it happened.
    pub me: Speaker,

    /// Which calls of it may begin an idle poll.
    pub calls: Calls,
}

/// Whether a call was heard.
fn is_call(heard: &Heard<'_>) -> bool
    ensures { result ≡ is_call heard.now }
{
    match heard {
        Heard::Whole(Message::Call(_)) => true,
        _ => false,
    }
}

/// Whether EOT was heard.
fn is_eot(heard: &Heard<'_>) -> bool
    ensures { result ≡ is_eot heard.now }
{
    match heard {
        Heard::Whole(Message::Eot) => true,
        _ => false,
    }
}

/// Returns the line of this transmission, to be held back, if it is a call of at most 1,033 octets.
fn held_call(time: u64, fate: Fate, transmission: &Decoded<'_>) -> Option<HeldCall>
    ensures { result ≡ held_if_call time fate transmission.now }
{
    let octets = transmission.octets();
    if !is_call(transmission.heard()) || MAX_SENT < octets.len() {
        return None;
    }
    let mut own = ArrayVec::new();
    own.try_extend_from_slice(octets).unwrap();
    Some(HeldCall {
        time,
        fate,
        octets: own,
    })
}

/// Returns the line of an event, if it is to be held back.
fn held_of(calls: Calls, time: u64, note: &Note<'_>) -> Option<HeldCall>
    ensures { result ≡ held_for calls time (told_by note.now) }
{
    match note {
        Note::Heard { transmission, .. } if are_heard(calls) => {
            held_call(time, Fate::Heard, transmission)
        }
        Note::Sent { transmission } if are_sent(calls) => {
            held_call(time, Fate::Sent, transmission)
        }
        _ => None,
    }
}

/// Whether the calls are those that a terminal hears.
fn are_heard(calls: Calls) -> bool
    ensures { result ≡ are_heard calls }
{
    match calls {
        Calls::Heard => true,
        Calls::Sent | Calls::Neither => false,
    }
}

/// Whether the calls are those that the control station sends.
fn are_sent(calls: Calls) -> bool
    ensures { result ≡ are_sent calls }
{
    match calls {
        Calls::Sent => true,
        Calls::Heard | Calls::Neither => false,
    }
}

/// Whether an event is EOT.
fn is_poll_end(note: &Note<'_>) -> bool
    ensures { result ≡ is_poll_end (told_by note.now) }
{
    match note {
        Note::Heard { transmission, .. } => is_eot(transmission.heard()),
        Note::Sent { transmission } => is_eot(transmission.heard()),
        _ => false,
    }
}

/// Writes the line that is held back, if there is one.
pub fn write_held<A: Allocator, W: Write>(
    alloc: A,
    held: &Option<HeldCall>,
    out: &mut W,
) -> Result<(), PrintError>
    ensures { OnOk result (Appends (W.contents out.old) (W.contents out.new)
        (held_shown held.now)) }
{
    match held {
        Some(call) => {
            let mut buffer = TextBuffer::new();
            let call_sent = &Decoded::new(call.octets.as_slice(), &mut buffer);
            let who = Who::Station(Speaker::Control);
            write_transmission(alloc, call.time, who, call.fate, call_sent, out)
        }
        None => Ok(()),
    }
}

/// Writes the line that is held back, if there is one, unless it is dropped.
fn release<A: Allocator, W: Write>(
    alloc: A,
    is_dropped: bool,
    held: &Option<HeldCall>,
    out: &mut W,
) -> Result<(), PrintError>
    ensures { OnOk result (Appends (W.contents out.old) (W.contents out.new)
        (released is_dropped held.now)) }
{
    if is_dropped {
        return Ok(());
    }
    write_held(alloc, held, out)
}

/// Writes the line for an event, unless it has none.
fn write_unless<A: Allocator, W: Write>(
    alloc: A,
    has_none: bool,
    seen: Seen,
    note: &Note<'_>,
    out: &mut W,
) -> Result<(), PrintError>
    ensures { OnOk result (IsTracedUnless has_none (told_by note.now) seen.time seen.me
        (W.contents out.old) (W.contents out.new)) }
{
    if has_none {
        return Ok(());
    }
    write_note(alloc, seen.time, seen.me, note, out)
}

/// Writes the line for an event in a trace of exchanges, after the line that is held back. A call
/// that may begin an idle poll is held back in its turn. At EOT the held line and that of EOT are
/// dropped; a terminal also drops the held line at another call.
pub fn write_next<A: Allocator + Copy, W: Write>(
    alloc: A,
    seen: Seen,
    note: &Note<'_>,
    held: &mut Option<HeldCall>,
    out: &mut W,
) -> Result<(), PrintError>
    ensures traced { OnOk result (TracesNext held.old seen.calls (told_by note.now) seen.time
        seen.me (W.contents out.old) (W.contents out.new)) }
    ensures held { OnOk result (held.new ≡ held_for seen.calls seen.time (told_by note.now)) }
{
    let next = held_of(seen.calls, seen.time, note);
    let is_end = is_poll_end(note);
    let is_dropped = drops(seen.calls, is_end, next.is_some());
    let has_none = lacks_line(held.is_some(), is_end, next.is_some());
    release(alloc, is_dropped, held, out)?;
    *held = next;
    write_unless(alloc, has_none, seen, note, out)?;
    Ok(())
}

/// Whether the line that is held back is dropped at this: it is EOT, or, where calls are heard, a
/// call that is held back in its turn.
fn drops(calls: Calls, is_end: bool, is_held: bool) -> bool
    ensures { result ≡ drops calls is_end is_held }
{
    is_end || (are_heard(calls) && is_held)
}

/// Whether this has no line of its own: it is held back, or it is EOT after a line that was held.
fn lacks_line(was_held: bool, is_end: bool, is_held: bool) -> bool
    ensures { result ≡ lacks_line was_held is_end is_held }
{
    is_held || (was_held && is_end)
}
