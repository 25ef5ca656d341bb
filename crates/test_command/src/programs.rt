//! A program that feeds a station on a machine made for tests, and a station that is fed.

use crate::machine::Machine;
use crate::record::Record;
use bsc_clients::Reached;
use bsc_clients::command::{FeedError, Stations};
use bsc_serving::{Called, Programs};
use std::alloc::Global;
use std::collections::VecDeque;
use std::io;
use std::io::{Error, ErrorKind, Read, Write};

/// The programs that reach a station: one, which connects at once.
#[derive(Drop)]
pub(crate) struct Feeders<'a> {
    alloc: Global,

    /// What it sends, if it has not connected yet.
    waiting: Option<&'static str>,

    /// Whether it is still to be told that it has connected.
    is_new: bool,

    /// How many times they are asked for before it connects.
    late: usize,

    record: &'a Record,
}

/// A connection between a station and a program.
#[derive(Drop)]
pub(crate) struct Feeding<'a> {
    left: VecDeque<u8>,

    /// Whether it is closed after these octets.
    is_closed: bool,

    record: &'a Record,
}

/// Returns the octets of this text, in which a bar stands for a line feed.
fn octets_of(alloc: Global, text: &str) -> io::Result<VecDeque<u8>> {
    let mut octets = VecDeque::new(alloc);
    let mut is_first = true;
    for line in text.split('|') {
        if !is_first {
            octets.write_all(b"\n")?;
        }
        octets.write_all(line.as_bytes())?;
        is_first = false;
    }
    Ok(octets)
}

impl<'a> Machine<'a> {
    /// Returns the programs that reach a station: one that sends this, and connects after they were
    /// asked for this many times.
    pub(crate) fn feeders(&self, says: &'static str, late: usize) -> Feeders<'a> {
        Feeders {
            alloc: self.alloc,
            waiting: Some(says),
            is_new: true,
            late,
            record: self.record,
        }
    }
}

impl<'a> Programs for Feeders<'a> {
    type Stream = Feeding<'a>;

    fn ask(&mut self) {
        self.late = self.late.saturating_sub(1);
    }

    fn next(&mut self) -> Option<Called> {
        if self.is_new && self.late == 0 {
            self.is_new = false;
            return Some(Called::Newcomer);
        }
        None
    }

    fn accept(&mut self, _place: usize) -> Option<Feeding<'a>> {
        if self.late > 0 {
            return None;
        }
        let says = self.waiting.take()?;
        let left = octets_of(self.alloc, says).ok()?;
        Some(Feeding {
            left,
            is_closed: false,
            record: self.record,
        })
    }

    fn turn_away(&mut self) -> bool {
        false
    }

    fn call(&mut self) {}
}

impl Read for Feeding<'_> {
    fn read(&mut self, buffer: &mut [u8]) -> io::Result<usize> {
        if self.left.is_empty() && !self.is_closed {
            return Err(Error::from(ErrorKind::WouldBlock));
        }
        self.left.read(buffer)
    }
}

impl Write for Feeding<'_> {
    fn write(&mut self, octets: &[u8]) -> io::Result<usize> {
        self.record.told.try_borrow_mut()?.write(octets)
    }

    fn flush(&mut self) -> io::Result<()> {
        Ok(())
    }
}

impl<'a> Stations for Machine<'a> {
    type Heard = Feeding<'a>;

    type Said = Feeding<'a>;

    /// A station that answers by the text of the scene serves at `p:1` only; `p` is no address.
    fn reach(&mut self, address: &str) -> Result<Reached<Feeding<'a>, Feeding<'a>>, FeedError> {
        match address {
            "p:1" => {}
            "p" => return Err(FeedError::Address),
            _ => return Err(FeedError::NobodyThere),
        }
        let record = self.record;
        let Ok(left) = octets_of(self.alloc, self.scene.says) else {
            return Err(FeedError::Memory);
        };
        let heard = Feeding {
            left,
            is_closed: true,
            record,
        };
        let said = Feeding {
            left: VecDeque::new(self.alloc),
            is_closed: true,
            record,
        };
        Ok(Reached { heard, said })
    }
}
