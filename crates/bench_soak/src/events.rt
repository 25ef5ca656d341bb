//! Random events of a line, which are made without access to the line.

use crate::spoiling::{Spoiling, any_spoiling, change};
use bsc_bid::Speaker;
use bsc_control::Way;
use bsc_frame::Message;
use bsc_line::{Event, Transmission};
use std::alloc::{AllocError, Global};
use std::mem;
use test_fixtures::Random;
use test_fixtures::octets::EOT;
use test_watch::octets_of;

/// A generator of random events.
#[derive(Drop)]
pub struct Events {
    alloc: Global,
    random: Random,
    // The number of selection addresses of each terminal.
    selects: Vec<usize>,
    // The number of characters of a full record.
    full: usize,
    spoiling: Spoiling,
    // Out of 16 transmissions, this many are not heard as they were sent.
    spoiled: usize,
    // The codes of the record to offer.
    codes: Vec<u8>,
    // What is pending, and what was pending some time before.
    octets: Vec<u8>,
    earlier: Vec<u8>,
    // What all stations hear, and what each terminal hears.
    heard: Vec<u8>,
    hearings: Vec<Option<Vec<u8>>>,
}

/// The next event.
pub enum Next<'a> {
    /// An event.
    Event(Event<'a>),

    /// Each terminal hears its own item.
    Each(&'a [Option<Vec<u8>>]),
}

/// The one of 32 choices that is a release.
pub const RELEASE: usize = 11;

/// Two hearings of nothing.
const NOTHING_BY_TWO: &[Option<&[u8]>] = &[None, None];

impl Events {
    /// Makes events of a line on which full records have this many characters and the terminals
    /// these numbers of selection addresses.
    pub fn new(alloc: Global, mut random: Random, full: usize, selects: Vec<usize>) -> Events {
        Events {
            alloc,
            selects,
            full,
            spoiling: any_spoiling(&mut random),
            spoiled: random.below(8),
            codes: Vec::new(alloc),
            octets: Vec::new(alloc),
            earlier: Vec::new(alloc),
            heard: Vec::new(alloc),
            hearings: Vec::new(alloc),
            random,
        }
    }

    /// A random number below the bound.
    pub fn below(&mut self, bound: usize) -> usize {
        self.random.below(bound)
    }

    /// The next event for this choice of 32, if this channel is the first in doubt and this is
    /// pending.
    pub fn next(
        &mut self,
        choice: usize,
        doubtful: Option<(usize, Way)>,
        pending: Option<Transmission<'_>>,
    ) -> Result<Next<'_>, AllocError> {
        match choice {
            0..=9 => self.offer(choice < 5),
            10 => Ok(Next::Event(self.flag())),
            RELEASE => Ok(Next::Event(self.release(doubtful))),
            12 => Ok(Next::Event(self.any_turn())),
            13 => Ok(Next::Event(self.restart())),
            _ => self.turn(pending),
        }
    }

    /// A number below the count, or sometimes the count itself.
    fn one_of(&mut self, count: usize) -> usize {
        if self.random.one_in(32) {
            self.random.below(count.saturating_add(1))
        } else {
            self.random.below(count)
        }
    }

    /// The number of a terminal, sometimes of one that does not exist.
    fn terminal(&mut self) -> usize {
        let count = self.selects.len();
        self.one_of(count)
    }

    /// The number of an address of a terminal, sometimes of one that does not exist.
    fn select(&mut self, terminal: usize) -> usize {
        let count = match self.selects.get(terminal) {
            Some(count) => *count,
            None => 1,
        };
        self.one_of(count)
    }

    /// The number of characters of the next record: few, the greatest number, or up to one too
    /// many.
    fn record_len(&mut self) -> usize {
        match self.random.below(4) {
            0 => self.random.below(self.full.saturating_add(2)),
            1 => self.full,
            _ => self.random.below(4),
        }
    }

    /// Makes the codes of a record, one of which is sometimes replaced by any octet.
    fn make_record(&mut self) -> Result<(), AllocError> {
        self.codes.clear();
        for _ in 0..self.record_len() {
            self.codes.push(0x20 | self.random.octet() & 0x5f)?;
        }
        if self.random.one_in(32) {
            change(&mut self.random, &mut self.codes);
        }
        Ok(())
    }

    /// Offers a record at a terminal, or for one of the addresses of a terminal.
    fn offer(&mut self, is_at: bool) -> Result<Next<'_>, AllocError> {
        let terminal = self.terminal();
        let select = if is_at { 0 } else { self.select(terminal) };
        self.make_record()?;
        let codes = self.codes.as_slice();
        Ok(Next::Event(if is_at {
            Event::OfferAt { terminal, codes }
        } else {
            Event::OfferFor {
                terminal,
                select,
                codes,
            }
        }))
    }

    /// Makes a terminal ready or not ready, polled or not polled, or asks for the line.
    fn flag(&mut self) -> Event<'_> {
        let terminal = self.terminal();
        let on = !self.random.one_in(3);
        match self.random.below(4) {
            0 => Event::Ready {
                terminal,
                ready: on,
            },
            1 => Event::Polled {
                terminal,
                polled: on,
            },
            2 => Event::UrgentAt { terminal },
            _ => Event::UrgentFor { terminal },
        }
    }

    /// A release of this channel that is in doubt, or of any channel.
    fn release(&mut self, doubtful: Option<(usize, Way)>) -> Event<'_> {
        if let Some((terminal, way)) = doubtful {
            return Event::Release { terminal, way };
        }
        let terminal = self.terminal();
        let select = self.select(terminal);
        let way = if self.random.one_in(2) {
            Way::FromTerminal
        } else {
            Way::ToTerminal(select)
        };
        Event::Release { terminal, way }
    }

    /// A station begins again: the control station, or any terminal.
    fn restart(&mut self) -> Event<'_> {
        let party = if self.random.one_in(3) {
            Speaker::Control
        } else {
            Speaker::Terminal {
                number: self.terminal(),
            }
        };
        Event::Restart { party }
    }

    /// An event that ignores what is pending.
    fn any_turn(&mut self) -> Event<'_> {
        match self.random.below(4) {
            0 => Event::Silence,
            1 => Event::Carry { heard: None },
            2 => Event::CarryEach {
                heard: NOTHING_BY_TWO,
            },
            _ => Event::CarrySent,
        }
    }

    /// What is pending is carried or lost; if nothing is pending, a silence passes. Its octets are
    /// kept, and sometimes those of what was pending before it.
    fn turn(&mut self, pending: Option<Transmission<'_>>) -> Result<Next<'_>, AllocError> {
        if self.random.one_in(4) {
            mem::swap(&mut self.octets, &mut self.earlier);
        }
        self.octets.clear();
        let Some(sent) = pending else {
            return Ok(Next::Event(Event::Silence));
        };
        self.octets
            .extend_from_slice(octets_of(&sent.message).as_slice())?;
        if self.random.below(16) >= self.spoiled {
            return Ok(Next::Event(Event::CarrySent));
        }
        match self.random.below(4) {
            0 => Ok(Next::Event(Event::Carry { heard: None })),
            1 | 2 if sent.speaker == Speaker::Control => {
                self.hear_each(matches!(sent.message, Message::Call(_)))
            }
            _ => self.hear(),
        }
    }

    /// All stations that hear what is pending hear it spoiled in the same way.
    fn hear(&mut self) -> Result<Next<'_>, AllocError> {
        self.heard = self.spoiled_octets()?;
        let heard = Some(self.heard.as_slice());
        Ok(Next::Event(Event::Carry { heard }))
    }

    /// Each terminal hears what is pending differently.
    fn hear_each(&mut self, is_call: bool) -> Result<Next<'_>, AllocError> {
        self.hearings.clear();
        for _ in 0..self.selects.len() {
            let hearing = self.hearing(is_call)?;
            self.hearings.push(hearing)?;
        }
        Ok(Next::Each(self.hearings.as_slice()))
    }

    /// What one terminal hears of what is pending. If it is a call and everything has to be heard
    /// fairly, no terminal hears the call: each hears EOT or nothing.
    fn hearing(&mut self, is_call: bool) -> Result<Option<Vec<u8>>, AllocError> {
        let is_eot = is_call && self.spoiling.is_fair();
        match self.random.below(if is_eot { 2 } else { 4 }) {
            0 => Ok(None),
            _ if is_eot => Ok(Some(Vec::from_slice(self.alloc, EOT)?)),
            1 => Ok(Some(self.spoiled_octets()?)),
            _ => Ok(Some(self.octets.clone()?)),
        }
    }

    /// What is heard in place of what is pending.
    fn spoiled_octets(&mut self) -> Result<Vec<u8>, AllocError> {
        let mut octets = self.octets.clone()?;
        self.spoiling
            .spoil(&mut self.random, &mut octets, &self.earlier)?;
        Ok(octets)
    }
}
