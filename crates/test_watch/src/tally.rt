//! Counts of what was seen on lines.

use crate::channel::View;
use crate::heard::Kind;
use crate::step::Effect;
use bsc_frame::Reply;
use bsc_line::LineError;

/// What is counted, in the order in which it is printed.
#[derive(Clone, Copy)]
pub enum Counted {
    Events,
    Lines,
    Untrusted,
    Accepted,
    Refused,
    /// The offers that were refused with `Memory`.
    OutOfMemory,
    /// The releases that were refused with `CountMismatch`.
    Mismatches,
    Offers,
    /// The texts from which records arrived.
    Blocks,
    Records,
    /// How often a sending end learned that records arrived.
    Learned,
    Doubts,
    Releases,
    /// How often a station began again.
    Restarts,
    Calls,
    Texts,
    Enquiries,
    Naks,
    Wacks,
    Interrupts,
}

/// The names of what is counted, in the same order.
const NAMES: [&str; 20] = [
    "events",
    "lines",
    "lines not trusted",
    "events accepted",
    "events refused",
    "refused by Memory",
    "refused by CountMismatch",
    "records offered",
    "blocks arrived",
    "records arrived",
    "blocks known",
    "doubts",
    "releases",
    "restarts",
    "calls",
    "texts",
    "ENQ",
    "NAK",
    "WACK",
    "RVI",
];

/// Counts of what was seen on one line, or on several. A count stops at 2^64 - 1.
#[derive(Clone, Copy)]
pub struct Tally {
    counts: [u64; 20],
}

impl Tally {
    /// Nothing has been seen yet.
    pub fn new() -> Tally {
        Tally { counts: [0; 20] }
    }

    /// The count of this.
    pub fn of(&self, what: Counted) -> u64 {
        match self.counts.get(what as usize) {
            Some(count) => *count,
            None => 0,
        }
    }

    /// Adds to the count of this.
    pub fn add(&mut self, what: Counted, more: u64) {
        if let Some(count) = self.counts.get_mut(what as usize) {
            *count = count.saturating_add(more);
        }
    }

    /// Adds all counts of another line.
    pub fn add_all(&mut self, other: &Tally) {
        for (count, more) in self.counts.iter_mut().zip(&other.counts) {
            *count = count.saturating_add(*more);
        }
    }

    /// Counts the answer to an event, and its effect.
    pub(crate) fn count_answer(&mut self, answer: Result<(), LineError>, effect: Effect) {
        match answer {
            Ok(()) => self.add(Counted::Accepted, 1),
            Err(_) => self.add(Counted::Refused, 1),
        }
        match (answer, effect) {
            (Err(LineError::Memory), _) => self.add(Counted::OutOfMemory, 1),
            (Err(LineError::CountMismatch), _) => self.add(Counted::Mismatches, 1),
            (_, Effect::Offered(..)) => self.add(Counted::Offers, 1),
            (_, Effect::Released(..)) => self.add(Counted::Releases, 1),
            (_, Effect::Restarted(_)) => self.add(Counted::Restarts, 1),
            _ => {}
        }
    }

    /// Counts what changed in a channel.
    pub(crate) fn count_move(&mut self, before: View, after: View) {
        let landed = after.spooled.saturating_sub(before.spooled);
        self.add(Counted::Blocks, u64::from(landed > 0));
        self.add(Counted::Records, landed as u64);
        self.add(Counted::Learned, u64::from(before.known != after.known));
        let doubts = after.in_doubt && !before.in_doubt;
        self.add(Counted::Doubts, u64::from(doubts));
    }

    /// Counts a message that was sent.
    pub(crate) fn count_sent(&mut self, kind: Kind) {
        match kind {
            Kind::Call => self.add(Counted::Calls, 1),
            Kind::Text => self.add(Counted::Texts, 1),
            Kind::Enq => self.add(Counted::Enquiries, 1),
            Kind::Reply(Reply::Nak) => self.add(Counted::Naks, 1),
            Kind::Reply(Reply::Wack) => self.add(Counted::Wacks, 1),
            Kind::Reply(Reply::Rvi) => self.add(Counted::Interrupts, 1),
            _ => {}
        }
    }

    /// Prints the counts with their names, each on its own line.
    pub fn print(&self, rt: &impl Print) -> anyhow::Result<()> {
        for (name, count) in NAMES.iter().zip(&self.counts) {
            println!(rt; "{name}: {count}")?;
        }
        Ok(())
    }
}
