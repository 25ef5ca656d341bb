//! The receiving end of a channel. Room is made before a text is accepted, so that every accepted
//! text is stored whole.
ghost use Rattle.std.specs.Prelude.{◌≡◌, ◌≤◌, [], ◌++◌, length, true, false, OnOk, OnErr};
ghost use Rattle.std.specs.Prelude.{IfErr};
ghost use Rattle.bsc_spool.specs.Spool.{room_asked, ForgetsRecords, GainsRecord};

use bsc_block::{Block, Record, Records};
use std::alloc::Allocator;
use std::marker::Model;

/// The records that arrived, and the room for more.
#[derive(Drop)]
pub struct Spool<A: Allocator> {
    /// The records that arrived, in order.
    records: Records<A>,

    /// How often room was refused, at most 2^64 - 1. Only contracts read it.
    delays: u64,
}

impl<A: Allocator> Model for Spool<A> {
    ghost use Rattle.bsc_spool.specs.Spool.{SpoolValue};

    ghost Value = { SpoolValue };

    ghost view = { λ s. record {
      records = s.records.items;
      room = s.records.room;
      delays = s.delays;
    } };
}

impl<A: Allocator> Spool<A> {
    /// Creates an empty spool. It does not allocate memory, so it has no room yet.
    pub fn new(alloc: A) -> Self
    where
        A: Copy,
        ensures records { result.records ≡ [] }
        ensures room { result.room ≡ false }
        ensures delays { result.delays ≡ 0 }
    {
        Spool {
            records: Records::new(alloc),
            delays: 0,
        }
    }

    /// Makes room for seven more records, without allocating if there is room already. Returns
    /// false if there is no memory; then only the count of refusals changes.
    pub fn make_room(&mut self) -> bool
        ensures answer { self.new ≡ room_asked self.old result }
        ensures there { self.old.room ≡ true → result ≡ true }
    {
        if self.records.make_room() {
            return true;
        }
        self.delays = self.delays.saturating_add(1);
        false
    }

    /// Returns whether there is room for seven more records.
    pub fn has_room(&self) -> bool
        ensures { result ≡ self.now.room }
    {
        self.records.has_room()
    }

    /// Appends the records of a text. There must be room for seven records; no memory is allocated.
    pub fn store(&mut self, block: &Block)
        requires { self.old.room ≡ true }
        ensures records { self.new.records ≡ self.old.records ++ block.now }
        ensures delays { self.new.delays ≡ self.old.delays }
    {
        self.records.append(block);
    }

    /// Adds a record that arrived at a spool of which this one is made again. Returns the record if
    /// there is no memory for it; nothing is then changed. What arrives from the line is stored by
    /// [`Spool::store`].
    pub fn keep(&mut self, record: Record) -> Result<(), Record>
        ensures ok { OnOk result (GainsRecord self.old «record» self.new) }
        ensures err { OnErr result (self.new ≡ self.old) }
        ensures given_back { IfErr result (λ r. r ≡ «record») }
    {
        match self.records.push(&record) {
            Ok(()) => Ok(()),
            Err(_) => Err(record),
        }
    }

    /// Returns the records that arrived, in order.
    pub fn records(&self) -> &Records<A>
        ensures { result.now.items ≡ self.now.records }
    {
        &self.records
    }

    /// Forgets the first records, this many, at most as many as have arrived. Their places stay. No
    /// memory is allocated.
    pub fn forget(&mut self, count: usize)
        requires { count ≤ length self.old.records }
        ensures { ForgetsRecords self.old count self.new }
    {
        self.records.forget(count);
    }
}
