//! The workloads that are timed: polls without records, and texts of seven records in each
//! direction.

ghost use Rattle.std.specs.Prelude.{◌<◌};

use crate::report;
use crate::report::Digest;
use anyhow::{Context, ensure};
use bsc_bid::{Setup, Terminal};
use bsc_frame::{Address, Wire, encode};
use bsc_line::{Line, LineError};
use std::alloc::Global;
use std::fs;
use std::io::Write;
use std::rt::{Clock, Files};
use std::time::{Duration, Instant};

/// How a pending transmission is heard.
#[derive(Clone, Copy)]
pub enum Hearing {
    /// By the function that carries it as it was sent.
    Sent,

    /// As the same octets, which are passed to the line.
    Octets,

    /// As the same octets with one more FF, which is not part of the message.
    Padded,
}

/// The number of records of a text.
const RECORDS: usize = 7;

/// The number of transmissions of a visit of a terminal: two calls, two texts, their replies and
/// EOT.
const TRANSMISSIONS: usize = 8;

/// A line, which is lent to the functions that play on it, and the record that was offered last. It
/// has 55 characters, so that it counts 57, and seven of them fill a block of 400.
#[derive(Drop)]
struct Player {
    line: Line<Global>,
    hearing: Hearing,
    octets: Wire,
    record: [u8; 55],
    terminal: usize,
}

/// The time of a number of events, and the number of octets of memory allocated before.
#[derive(Drop)]
pub struct Measured {
    events: usize,
    time: Duration,
    octets: usize,
}

impl Measured {
    pub fn print(&self, rt: &impl Eprint) -> anyhow::Result<()> {
        let nanos = self.time.as_nanos();
        let (events, octets) = (self.events, self.octets);
        eprintln!(rt; "{events} events, {nanos} ns, {octets} octets")?;
        Ok(())
    }
}

/// Plays polls without records.
pub fn polls<R: AllocGlobal + Clock, W: Write>(
    rt: &R,
    out: &mut W,
    terminals: usize,
    events: usize,
    hearing: Hearing,
) -> anyhow::Result<Measured> {
    let mut player = Player::new(rt.alloc(), terminals, hearing)?;
    player.measure_polls(rt, out, events)
}

/// Plays texts of seven records in each direction, after a history of this many records.
pub fn texts<R: AllocGlobal + Clock + Files, W: Write>(
    rt: &R,
    out: &mut W,
    terminals: usize,
    history: usize,
    visits: usize,
    hearing: Hearing,
) -> anyhow::Result<Measured> {
    let mut player = Player::new(rt.alloc(), terminals, hearing)?;
    player.measure_texts(rt, out, history, visits)
}

/// A terminal for each number below `count`, and a poll list with each of them in turn.
fn stations(alloc: Global, count: u8) -> anyhow::Result<(Vec<Terminal>, Vec<u8>)> {
    let mut terminals = Vec::new(alloc);
    let mut poll_list = Vec::new(alloc);
    for number in 0..count {
        terminals.push(station(number)?)?;
        poll_list.push(number)?;
    }
    Ok((terminals, poll_list))
}

/// The terminal of this number.
fn station(number: u8) -> anyhow::Result<Terminal> {
    let poll = address(b'A', number)?;
    let select = address(b'a', number)?;
    Ok(Terminal::new(poll, &[select])?)
}

/// A line with the terminals of the numbers below `count`, which are polled in turn.
fn line(alloc: Global, count: u8) -> anyhow::Result<Line<Global>> {
    let setup = Setup::new(80, 400, 3, 10)?;
    let (terminals, poll_list) = stations(alloc, count)?;
    Ok(Line::new(alloc, setup, &terminals, &poll_list)?)
}

impl Player {
    fn new(alloc: Global, terminals: usize, hearing: Hearing) -> anyhow::Result<Player> {
        ensure!(terminals <= 64, "more than 64 terminals");
        Ok(Player {
            line: line(alloc, terminals as u8)?,
            hearing,
            octets: Wire::new(),
            record: *b"\x7f\x7f\x7f\x7f---------------------------------------------------",
            terminal: 0,
        })
    }

    /// Measures polls without records, and prints the state after them.
    fn measure_polls<R: Clock, W: Write>(
        &mut self,
        rt: &R,
        out: &mut W,
        events: usize,
    ) -> anyhow::Result<Measured> {
        let measured = self.time_polls(rt, events)?;
        write!(out, "polls: ")?;
        report::print(out, Digest::new(), &self.line)?;
        Ok(measured)
    }

    /// Measures texts after a history, and prints the state after them.
    fn measure_texts<R: AllocGlobal + Clock + Files, W: Write>(
        &mut self,
        rt: &R,
        out: &mut W,
        history: usize,
        visits: usize,
    ) -> anyhow::Result<Measured> {
        let octets = self.remember(rt, history)?;
        let measured = self.time_visits(rt, visits, octets)?;
        write!(out, "texts: ")?;
        report::print(out, Digest::new(), &self.line)?;
        Ok(measured)
    }

    /// Measures the time of this many polls without records.
    fn time_polls<R: Clock>(&mut self, rt: &R, events: usize) -> anyhow::Result<Measured> {
        self.line.silence()?;
        let started = Instant::now(rt)?;
        for _ in 0..events {
            self.carry()?;
        }
        Ok(Measured {
            events,
            time: started.elapsed(rt)?,
            octets: 0,
        })
    }

    /// Calls the first terminal, and delivers this many records. Returns the number of octets of
    /// memory that they take.
    fn remember<R: AllocGlobal + Files>(
        &mut self,
        rt: &R,
        history: usize,
    ) -> anyhow::Result<usize> {
        self.start()?;
        let before = resident(rt)?;
        self.visit_often(history.div_ceil(2 * RECORDS))?;
        Ok(resident(rt)?.saturating_sub(before))
    }

    /// Measures the time of this many visits; `octets` is the memory taken before.
    fn time_visits<R: Clock>(
        &mut self,
        rt: &R,
        visits: usize,
        octets: usize,
    ) -> anyhow::Result<Measured> {
        let started = Instant::now(rt)?;
        self.visit_often(visits)?;
        Ok(Measured {
            events: visits.wrapping_mul(TRANSMISSIONS + 2 * RECORDS),
            time: started.elapsed(rt)?,
            octets,
        })
    }

    /// Offers records from and for the first terminal, and calls it.
    fn start(&mut self) -> Result<(), LineError> {
        self.offer()?;
        self.line.silence()
    }

    fn carry(&mut self) -> Result<(), LineError> {
        match self.hearing {
            Hearing::Sent => return self.line.carry_sent(),
            Hearing::Octets => self.encode_pending(),
            Hearing::Padded => {
                self.encode_pending();
                let _ = self.octets.try_push(0xff);
            }
        }
        self.line.carry(Some(self.octets.as_slice()))
    }

    /// Makes the octets of what is pending, at most 1,033; none if nothing is.
    fn encode_pending(&mut self) {
        match self.line.pending() {
            Some(sent) => encode(&sent.message, &mut self.octets),
            None => self.octets.clear(),
        }
    }

    /// Offers seven records at the next terminal, and seven for it.
    fn offer(&mut self) -> Result<(), LineError> {
        for _ in 0..RECORDS {
            count_on(&mut self.record);
            self.line.offer_at(self.terminal, &self.record)?;
            count_on(&mut self.record);
            self.line.offer_for(self.terminal, 0, &self.record)?;
        }
        let next = self.terminal.wrapping_add(1);
        self.terminal = if next < self.line.terminals() {
            next
        } else {
            0
        };
        Ok(())
    }

    fn visit_often(&mut self, count: usize) -> Result<(), LineError> {
        for _ in 0..count {
            self.visit()?;
        }
        Ok(())
    }

    /// Selects and polls a terminal, and then calls the next one.
    fn visit(&mut self) -> Result<(), LineError> {
        for _ in 1..TRANSMISSIONS {
            self.carry()?;
        }
        self.offer()?;
        self.carry()
    }
}

/// Makes the next record. Its first four characters are its number, in digits from 0x40 to 0x7f,
/// the lowest first.
fn count_on(record: &mut [u8]) {
    for digit in record.iter_mut().take(4) {
        if *digit < 0x7f {
            *digit = digit.wrapping_add(1);
            return;
        }
        *digit = 0x40;
    }
}

/// An address of two characters, from a letter and a number below 64.
fn address(letter: u8, number: u8) -> anyhow::Result<Address> {
    let high = letter.wrapping_add(number / 16);
    let low = b'0'.wrapping_add(number % 16);
    Ok(Address::read(&[high, low])?)
}

/// The number of octets of memory of the process.
fn resident<R: AllocGlobal + Files>(rt: &R) -> anyhow::Result<usize> {
    let pages = fs::read_to_string(rt, "/proc/self/statm")?;
    read_resident(pages.as_str())
}

/// The number of resident octets, from the numbers of pages that the system reports.
fn read_resident(pages: &str) -> anyhow::Result<usize> {
    let resident = pages.split(' ').nth(1).context("no resident pages")?;
    Ok(resident.parse::<usize>()?.saturating_mul(4096))
}
