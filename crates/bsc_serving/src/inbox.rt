//! What a program has said and its session has not taken.

ghost use Rattle.std.specs.Prelude.{◌≡◌, ◌≤◌, [], drop, length};
ghost use Rattle.bsc_serving.specs.Streams.{Fills};

use std::io::{Read, Result};
use std::marker::Model;

/// How many octets are read at a time.
pub(crate) const MAX_READ: usize = 512;

/// The octets of the last read that are not taken yet.
#[derive(Drop)]
pub(crate) struct Inbox {
    octets: [u8; MAX_READ],
    from: usize,
    to: usize,
}

impl Model for Inbox {
    ghost use Rattle.std.specs.Prelude.{ℕ, ◌≡◌, ◌≤◌, List, drop, length, take};
    ghost use Rattle.bsc_serving.specs.declared.inbox.TheConstants.{MAX_READ};

    ghost Value = { List ℕ };

    ghost view = { λ i. drop i.from (take i.to i.octets) };

    ghost invariant = { λ i. (i.from ≤ i.to) × (i.to ≤ MAX_READ) × (length i.octets ≡ MAX_READ) };
}

impl Inbox {
    /// Returns the inbox of a program that has said nothing.
    pub fn new() -> Inbox
        ensures { result ≡ [] }
    {
        Inbox {
            octets: [0; MAX_READ],
            from: 0,
            to: 0,
        }
    }

    /// Returns the octets that are not taken yet.
    pub fn octets(&self) -> &[u8]
        ensures { result.now ≡ self.now }
    {
        &self.octets[self.from..self.to]
    }

    /// Takes this many octets, of which there must be as many.
    pub fn take(&mut self, count: usize)
        requires { count ≤ length self.old }
        ensures { self.new ≡ drop count self.old }
    {
        self.from += count;
    }

    /// Reads once in place of the octets that are there. Returns how many there are then.
    pub fn fill<R: Read>(&mut self, reader: &mut R) -> Result<usize>
        ensures { Fills R.Read reader.old result self.new reader.new }
    {
        self.from = 0;
        self.to = 0;
        let count = reader.read(self.octets.as_mut_slice())?;
        self.to = count;
        Ok(count)
    }
}
