//! Which answers a line has to give to events.

use crate::channel::{is_channel, look};
use bsc_bid::{Setup, Speaker};
use bsc_block::Record;
use bsc_control::Way;
use bsc_line::{Event, Line, LineError};
use std::alloc::Allocator;

/// The answer that the line has to give to the event, given the station that sent what is pending.
/// Two errors are left to `may_fail`: running out of memory, and a count that does not match.
pub(crate) fn due<A: Allocator>(
    line: &Line<A>,
    setup: Setup,
    speaker: Option<Speaker>,
    event: &Event<'_>,
) -> Result<(), LineError> {
    match *event {
        Event::OfferAt { terminal, codes } => {
            due_to_offer(line, setup, terminal, Way::FromTerminal, codes)
        }
        Event::OfferFor {
            terminal,
            select,
            codes,
        } => due_to_offer(line, setup, terminal, Way::ToTerminal(select), codes),
        Event::Carry { .. } | Event::CarrySent => match speaker {
            Some(_) => Ok(()),
            None => Err(LineError::NothingSent),
        },
        Event::CarryEach { heard } => due_to_each(line.terminals(), speaker, heard.len()),
        Event::Silence => match speaker {
            Some(_) => Err(LineError::Pending),
            None => Ok(()),
        },
        Event::Ready { terminal, .. }
        | Event::Polled { terminal, .. }
        | Event::UrgentAt { terminal }
        | Event::UrgentFor { terminal }
        | Event::Restart {
            party: Speaker::Terminal { number: terminal },
        } => exists(line, terminal, Way::FromTerminal),
        Event::Restart {
            party: Speaker::Control,
        } => Ok(()),
        Event::Release { terminal, way } => due_to_release(line, terminal, way),
    }
}

/// `NoSuchTerminal` or `NoSuchAddress` if the line has no such channel.
fn exists<A: Allocator>(line: &Line<A>, terminal: usize, way: Way) -> Result<(), LineError> {
    if is_channel(line, terminal, way) {
        Ok(())
    } else if terminal < line.terminals() {
        Err(LineError::NoSuchAddress)
    } else {
        Err(LineError::NoSuchTerminal)
    }
}

/// The answer to an offer: the channel has to exist, and the codes have to be a record.
fn due_to_offer<A: Allocator>(
    line: &Line<A>,
    setup: Setup,
    terminal: usize,
    way: Way,
    codes: &[u8],
) -> Result<(), LineError> {
    exists(line, terminal, way)?;
    match Record::read(codes, setup.format().full()) {
        Ok(_) => Ok(()),
        Err(why) => Err(LineError::BadRecord(why)),
    }
}

/// The answer to `CarryEach` with this many items: the control station has to have sent what is
/// pending, and there has to be one item for each terminal.
fn due_to_each(terminals: usize, speaker: Option<Speaker>, items: usize) -> Result<(), LineError> {
    match speaker {
        None => Err(LineError::NothingSent),
        Some(Speaker::Terminal { .. }) => Err(LineError::NotControl),
        Some(Speaker::Control) if items != terminals => Err(LineError::WrongCount),
        Some(Speaker::Control) => Ok(()),
    }
}

/// The answer to a release: the channel has to exist and to be in doubt.
fn due_to_release<A: Allocator>(
    line: &Line<A>,
    terminal: usize,
    way: Way,
) -> Result<(), LineError> {
    exists(line, terminal, way)?;
    match look(line, terminal, way) {
        Some(shown) if shown.view.in_doubt => Ok(()),
        _ => Err(LineError::NotInDoubt),
    }
}

/// Whether an event that has to be accepted may fail so: an offer with `Memory` if memory was
/// refused during it, and a release with `CountMismatch` if the line was not trusted.
pub(crate) fn may_fail(
    event: &Event<'_>,
    answer: Result<(), LineError>,
    starved: bool,
    trusted: bool,
) -> bool {
    match (event, answer) {
        (Event::OfferAt { .. } | Event::OfferFor { .. }, Err(LineError::Memory)) => starved,
        (Event::Release { .. }, Err(LineError::CountMismatch)) => !trusted,
        _ => false,
    }
}
