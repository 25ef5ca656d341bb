//! What is told to a program and its session has not written.

ghost use Rattle.std.specs.Prelude.{◌≡◌, [], length, nat_eq};
ghost use Rattle.bsc_serving.specs.Streams.{Empties};

use arrayvec::ArrayVec;
use std::io::{Result, Write};
use std::marker::Model;

/// The most octets of a line that is told to a program, with its line feed.
pub(crate) const MAX_TOLD: usize = 1024;

/// A line that is told to a program, and how much of it is written.
#[derive(Drop)]
pub(crate) struct Outbox {
    line: ArrayVec<u8, MAX_TOLD>,
    sent: usize,
}

impl Model for Outbox {
    ghost use Rattle.std.specs.Prelude.{ℕ, ◌≤◌, List, drop, length};

    ghost Value = { List ℕ };

    ghost view = { λ o. drop o.sent o.line.items };

    ghost invariant = { λ o. o.sent ≤ length o.line.items };
}

impl Outbox {
    /// Returns the outbox of a program that is told nothing.
    pub fn new() -> Outbox
        ensures { result ≡ [] }
    {
        Outbox {
            line: ArrayVec::new(),
            sent: 0,
        }
    }

    /// Returns whether all of the line is written.
    pub fn is_empty(&self) -> bool
        ensures { result ≡ nat_eq (length self.now) 0 }
    {
        self.sent == self.line.len()
    }

    /// Writes once what is left of the line. Returns how many octets were written.
    pub fn send<W: Write>(&mut self, writer: &mut W) -> Result<usize>
        ensures { Empties W.Write writer.old self.old result self.new writer.new }
    {
        let count = writer.write(&self.line.as_slice()[self.sent..])?;
        self.sent += count;
        if self.sent == self.line.len() {
            self.line.clear();
            self.sent = 0;
        }
        Ok(count)
    }
}

/// What is written to it is told to the program.
impl Write for Outbox {
    ghost use Rattle.std.specs.Prelude.{Some};

    ghost contents = { λ o. Some o };

    fn write(&mut self, octets: &[u8]) -> Result<usize> {
        self.line.write(octets)
    }

    fn flush(&mut self) -> Result<()> {
        Ok(())
    }
}
