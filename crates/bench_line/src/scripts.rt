//! Random scripts of events of all kinds.

ghost use Rattle.std.specs.Prelude.{◌<◌};

use crate::report;
use crate::report::Digest;
use anyhow::bail;
use bsc_bid::{Setup, Speaker, Terminal};
use bsc_control::{SetupError, Way};
use bsc_frame::{Address, Wire, encode};
use bsc_line::{Line, LineError};
use std::alloc::{AllocError, Global};
use std::io::Write;
use std::mem;
use test_fixtures::Random;

/// A script that is being played.
#[derive(Drop)]
struct Script {
    alloc: Global,
    random: Random,
    line: Box<Line<Global>>,
    full: usize,

    /// Out of eight transmissions, this many are not heard as they were sent.
    spoiled: usize,

    /// The number of ways of spoiling.
    ways: usize,

    /// The record to offer next.
    record: Vec<u8>,

    /// What is pending, and what was pending some time before.
    octets: Vec<u8>,
    earlier: Vec<u8>,
}

/// The answer to an event; the outer error is that memory ran out outside the line.
type Answer = Result<Result<(), LineError>, AllocError>;

/// Plays a number of scripts, and prints the state after each.
pub fn play<W: Write>(
    alloc: Global,
    out: &mut W,
    seed: u64,
    scripts: u64,
    events: usize,
) -> anyhow::Result<()> {
    for number in 0..scripts {
        play_one(alloc, out, seed.wrapping_add(number), events)?;
    }
    Ok(())
}

/// Plays the script of this seed, and prints the state after it.
fn play_one<W: Write>(alloc: Global, out: &mut W, seed: u64, events: usize) -> anyhow::Result<()> {
    let mut script = Script::new(alloc, seed)?;
    script.play(out, seed, events)
}

impl Script {
    fn new(alloc: Global, seed: u64) -> anyhow::Result<Script> {
        let mut random = Random::new(seed);
        let (full, setup) = setup(&mut random)?;
        let line = line(alloc, &mut random, setup)?;
        Ok(Script {
            alloc,
            line,
            full,
            spoiled: random.below(8),
            ways: ways(random.below(3)),
            record: Vec::new(alloc),
            octets: Vec::new(alloc),
            earlier: Vec::new(alloc),
            random,
        })
    }

    /// Plays this many events, and prints the state after them with this number.
    fn play<W: Write>(&mut self, out: &mut W, number: u64, events: usize) -> anyhow::Result<()> {
        let digest = self.steps(events)?;
        write!(out, "{number}: ")?;
        report::print(out, digest, &self.line)?;
        Ok(())
    }

    /// Plays this many events, and returns the digest of their answers.
    fn steps(&mut self, events: usize) -> Result<Digest, AllocError> {
        let mut digest = Digest::new();
        for _ in 0..events {
            let answer = self.step()?;
            digest.event(answer, &self.line);
        }
        Ok(digest)
    }

    /// Plays one event.
    fn step(&mut self) -> Answer {
        let count = self.line.terminals();
        let terminal = self.one_of(count);
        match self.random.below(16) {
            0 | 1 => {
                self.make_record()?;
                Ok(self.line.offer_at(terminal, &self.record))
            }
            2 | 3 => {
                let select = self.select(terminal);
                self.make_record()?;
                Ok(self.line.offer_for(terminal, select, &self.record))
            }
            4 => Ok(self.flag(terminal)),
            5 => Ok(self.release(terminal)),
            6 => {
                if self.random.one_in(8) {
                    self.any_turn()
                } else {
                    self.turn()
                }
            }
            7 => {
                if self.random.one_in(4) {
                    Ok(self.restart(terminal))
                } else {
                    self.turn()
                }
            }
            _ => self.turn(),
        }
    }

    /// A number below the count, or sometimes the count itself.
    fn one_of(&mut self, count: usize) -> usize {
        if self.random.one_in(16) {
            self.random.below(count.wrapping_add(1))
        } else {
            self.random.below(count)
        }
    }

    /// The number of an address of a terminal, sometimes of one that does not exist.
    fn select(&mut self, terminal: usize) -> usize {
        let selects = if terminal < self.line.terminals() {
            self.line.addresses(terminal)
        } else {
            1
        };
        self.one_of(selects)
    }

    fn make_record(&mut self) -> Result<(), AllocError> {
        let len = if self.random.one_in(2) {
            self.random.below(self.full.wrapping_add(2))
        } else {
            self.random.below(4)
        };
        self.record.clear();
        for _ in 0..len {
            self.record.push(0x20 + self.random.below(0x5f) as u8)?;
        }
        if self.random.one_in(32) && len > 0 {
            let place = self.random.below(len);
            put(&mut self.random, &mut self.record, place);
        }
        Ok(())
    }

    fn flag(&mut self, terminal: usize) -> Result<(), LineError> {
        match self.random.below(4) {
            0 => {
                let ready = !self.random.one_in(3);
                self.line.set_ready(terminal, ready)
            }
            1 => {
                let polled = !self.random.one_in(3);
                self.line.set_polled(terminal, polled)
            }
            2 => self.line.set_urgent_at(terminal),
            _ => self.line.set_urgent_for(terminal),
        }
    }

    fn release(&mut self, terminal: usize) -> Result<(), LineError> {
        let select = self.select(terminal);
        let way = if self.random.one_in(2) {
            Way::FromTerminal
        } else {
            Way::ToTerminal(select)
        };
        self.line.release(terminal, way)
    }

    /// The control station or this terminal begins again.
    fn restart(&mut self, terminal: usize) -> Result<(), LineError> {
        let party = if self.random.one_in(3) {
            Speaker::Control
        } else {
            Speaker::Terminal { number: terminal }
        };
        self.line.restart(party)
    }

    /// What is pending is carried or lost, or a silence passes, even if the line has to refuse it.
    fn any_turn(&mut self) -> Answer {
        match self.random.below(4) {
            0 => Ok(self.line.silence()),
            1 => Ok(self.line.carry(None)),
            2 => Ok(self.line.carry_sent()),
            _ => self.carry_each(),
        }
    }

    /// What is pending is carried or lost; if nothing is pending, a silence passes.
    fn turn(&mut self) -> Answer {
        let Some(speaker) = self.keep_pending()? else {
            return Ok(self.line.silence());
        };
        if self.random.below(8) >= self.spoiled {
            return Ok(self.line.carry_sent());
        }
        match self.random.below(4) {
            0 => Ok(self.line.carry(None)),
            1 if speaker == Speaker::Control => self.carry_each(),
            _ => self.carry_spoiled(),
        }
    }

    /// Keeps the octets of what is pending, and sometimes those of what was pending before. Returns
    /// the station that sent it, or None if nothing is pending.
    fn keep_pending(&mut self) -> Result<Option<Speaker>, AllocError> {
        let Some(sent) = self.line.pending() else {
            return Ok(None);
        };
        let mut octets = Wire::new();
        encode(&sent.message, &mut octets);
        let speaker = sent.speaker;
        if self.random.one_in(4) {
            mem::swap(&mut self.octets, &mut self.earlier);
        }
        self.octets.clear();
        self.octets.extend_from_slice(octets.as_slice())?;
        Ok(Some(speaker))
    }

    /// All stations that hear what is pending hear it spoiled in the same way.
    fn carry_spoiled(&mut self) -> Answer {
        let heard = self.spoil()?;
        Ok(self.line.carry(Some(heard.as_slice())))
    }

    /// Each terminal hears what is pending differently.
    fn carry_each(&mut self) -> Answer {
        let count = self.line.terminals();
        let count = if self.random.one_in(16) {
            count.wrapping_add(1)
        } else {
            count
        };
        let mut hearings = Vec::new(self.alloc);
        self.add_hearings(&mut hearings, count)?;
        self.carry_as(&hearings)
    }

    /// Adds what each of this many terminals hears.
    fn add_hearings(
        &mut self,
        hearings: &mut Vec<Option<Vec<u8>>>,
        count: usize,
    ) -> Result<(), AllocError> {
        for _ in 0..count {
            hearings.push(self.hearing()?)?;
        }
        Ok(())
    }

    /// Each terminal hears its own item.
    fn carry_as(&mut self, hearings: &[Option<Vec<u8>>]) -> Answer {
        let mut items = Vec::new(self.alloc);
        for hearing in hearings {
            items.push(match hearing {
                Some(octets) => Some(octets.as_slice()),
                None => None,
            })?;
        }
        Ok(self.line.carry_each(&items))
    }

    /// What one terminal hears of what is pending.
    fn hearing(&mut self) -> Result<Option<Vec<u8>>, AllocError> {
        match self.random.below(4) {
            0 => Ok(None),
            1 => Ok(Some(self.spoil()?)),
            _ => Ok(Some(self.octets.clone()?)),
        }
    }

    /// What is heard in place of what is pending.
    fn spoil(&mut self) -> Result<Vec<u8>, AllocError> {
        let place = self.random.below(self.octets.len().max(1));
        match self.random.below(self.ways) {
            3 => self.earlier.clone(),
            4 => Vec::from_slice(self.alloc, OTHERS[self.random.below(8)]),
            way => {
                let mut heard = self.octets.clone()?;
                damage(&mut self.random, &mut heard, way, place)?;
                Ok(heard)
            }
        }
    }
}

/// Damages the octets in this way: from this place on, at this place, or after them.
fn damage(
    random: &mut Random,
    octets: &mut Vec<u8>,
    way: usize,
    place: usize,
) -> Result<(), AllocError> {
    match way {
        0 => turn_bit(random, octets, place),
        1 => octets.truncate(place),
        2 => octets.push(0xff)?,
        _ => put(random, octets, place),
    }
    Ok(())
}

/// Inverts a bit of the octet at this place.
fn turn_bit(random: &mut Random, octets: &mut [u8], place: usize) {
    let bit = random.below(8);
    if let Some(octet) = octets.get_mut(place) {
        *octet ^= 1u8 << bit;
    }
}

/// Replaces the octet at this place with any octet.
fn put(random: &mut Random, octets: &mut [u8], place: usize) {
    let new = random.octet();
    if let Some(octet) = octets.get_mut(place) {
        *octet = new;
    }
}

/// The greatest number of characters of a record, and settings with it.
fn setup(random: &mut Random) -> anyhow::Result<(usize, Setup)> {
    let full = if random.one_in(2) {
        80
    } else {
        1 + random.below(144)
    };
    let block_chars = if random.one_in(2) {
        400
    } else {
        146 + random.below(255)
    };
    let tries = 1 + random.below(3);
    let waits = 1 + random.below(3);
    let setup = Setup::new(full as u8, block_chars as u16, tries as u8, waits as u8)?;
    Ok((full, setup))
}

/// A line of one to four terminals, with a poll list of one to six entries.
fn line(alloc: Global, random: &mut Random, setup: Setup) -> anyhow::Result<Box<Line<Global>>> {
    let terminals = terminals(alloc, random)?;
    let poll_list = poll_list(alloc, random, terminals.len())?;
    on_heap(alloc, Line::new(alloc, setup, &terminals, &poll_list))
}

/// Returns what was made, on the heap. What moves a large value takes long to check.
fn on_heap<T: Drop>(alloc: Global, made: Result<T, SetupError>) -> anyhow::Result<Box<T>> {
    match Box::new(alloc, made?) {
        Ok(boxed) => Ok(boxed),
        Err(_) => bail!("out of memory"),
    }
}

fn terminals(alloc: Global, random: &mut Random) -> anyhow::Result<Vec<Terminal>> {
    let mut terminals = Vec::new(alloc);
    for number in 0..1 + random.below(4) {
        terminals.push(terminal(alloc, random, number)?)?;
    }
    Ok(terminals)
}

fn poll_list(alloc: Global, random: &mut Random, terminals: usize) -> Result<Vec<u8>, AllocError> {
    let mut poll_list = Vec::new(alloc);
    for _ in 0..1 + random.below(6) {
        poll_list.push(random.below(terminals).min(3) as u8)?;
    }
    Ok(poll_list)
}

/// The number of ways of spoiling in a script: only inverted bits, also transmissions cut short, or
/// all.
fn ways(choice: usize) -> usize {
    match choice {
        0 => 1,
        1 => 2,
        _ => 6,
    }
}

/// Other messages that may be heard: EOT, ENQ, each reply, and a text that fails
/// its check.
const OTHERS: [&[u8]; 8] = [
    &[0x16, 0x04],
    &[0x16, 0x85],
    &[0x16, 0x15],
    &[0x16, 0x10, 0xb0],
    &[0x16, 0x10, 0x31],
    &[0x16, 0x10, 0x3b],
    &[0x16, 0x10, 0xbc],
    &[0x16, 0x02, 0x85],
];

/// A terminal with one to four selection addresses.
fn terminal(alloc: Global, random: &mut Random, number: usize) -> anyhow::Result<Terminal>
    requires { number < 4 }
{
    let letter = number as u8;
    let poll = address(alloc, random, &[b'A' + letter])?;
    let mut selects = Vec::new(alloc);
    for select in 0..1 + random.below(4) {
        selects.push(address(alloc, random, &[b'a' + letter, b'0' + select as u8])?)?;
    }
    Ok(Terminal::new(poll, &selects)?)
}

/// An address that begins with these codes, followed by up to five more.
fn address(alloc: Global, random: &mut Random, first: &[u8]) -> anyhow::Result<Address> {
    let mut codes = Vec::from_slice(alloc, first)?;
    for _ in 0..random.below(6) {
        codes.push(0x21 + random.below(0x5e) as u8)?;
    }
    Ok(Address::read(&codes)?)
}
