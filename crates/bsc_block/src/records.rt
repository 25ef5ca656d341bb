//! A list of records, of which the first ones may be forgotten.
ghost use Rattle.std.specs.Prelude.{◌≡◌, ◌<◌, ◌≤◌, [], ◌∷◌, ◌++◌, true, false, length, max};
ghost use Rattle.std.specs.Prelude.{slice_get, Some, OnOk, OnErr};
ghost use Rattle.bsc_block.specs.Records.{IsRecord, forgotten};

use crate::packed::Packed;
use crate::{Block, Record};
use bsc_frame::limits::MAX_UNITS;
use std::alloc::{AllocError, Allocator};
use std::marker::Model;

/// The most records of which a list has room for those of one more text.
const MAX_COUNT: usize = usize::MAX - MAX_UNITS;

/// A list of records. Those that are forgotten have no characters any more; their places stay, so
/// that the numbers of the others do not change.
#[derive(Drop)]
pub struct Records<A: Allocator> {
    /// The number of all records.
    count: usize,

    /// Those that are not forgotten, the last ones.
    rest: Packed<A>,
}

impl<A: Allocator> Model for Records<A> {
    ghost use Rattle.std.specs.Prelude.{◌-◌, ◌≤◌, ◌&&◌, length, nat_le};
    ghost use Rattle.bsc_block.specs.Records.{RecordsValue, after_forgotten};
    ghost use Rattle.bsc_block.specs.declared.records.TheConstants.{MAX_COUNT};

    ghost Value = { RecordsValue };

    ghost view = { λ r. record {
      items = after_forgotten (r.count - length r.rest.items) r.rest.items;
      room = r.rest.room && nat_le r.count MAX_COUNT;
      forgotten = r.count - length r.rest.items;
    } };

    ghost invariant = { λ r. length r.rest.items ≤ r.count };
}

impl<A: Allocator> Records<A> {
    /// Creates a list without records. It does not allocate memory, so it has no room yet.
    pub fn new(alloc: A) -> Self
    where
        A: Copy,
        ensures items { result.items ≡ [] }
        ensures room { result.room ≡ false }
        ensures forgotten { result.forgotten ≡ 0 }
    {
        Records {
            count: 0,
            rest: Packed::new(alloc),
        }
    }

    /// Returns the number of records, with those that are forgotten.
    pub fn len(&self) -> usize
        ensures { result ≡ length self.now.items }
    {
        // Reading a field makes the invariant known here.
        let _ = &self.rest;
        self.count
    }

    /// Returns how many records are forgotten: the first ones.
    pub fn forgotten(&self) -> usize
        ensures { result ≡ self.now.forgotten }
    {
        self.count - self.rest.len()
    }

    /// Returns the characters of the record at a place below the number of records; none if it is
    /// forgotten.
    pub fn chars(&self, place: usize) -> &[u8]
        requires { place < length self.now.items }
        ensures chars { slice_get self.now.items place ≡ Some result.now }
        ensures record { IsRecord result.now }
    {
        // Reading a field makes the invariant known here.
        let rest = &self.rest;
        let forgotten = self.forgotten();
        if place < forgotten {
            return &[];
        }
        rest.chars(place - forgotten)
    }

    /// Returns a copy of the record at a place below the number of records; the empty one if it is
    /// forgotten. It does not allocate memory.
    pub fn record(&self, place: usize) -> Record
        requires { place < length self.now.items }
        ensures { slice_get self.now.items place ≡ Some result }
    {
        Record::of(self.chars(place))
    }

    /// Returns whether there is room for seven more records, each of 144 characters.
    pub fn has_room(&self) -> bool
        ensures { result ≡ self.now.room }
    {
        self.rest.has_room() && self.count <= MAX_COUNT
    }

    /// Makes room for seven more records, each of 144 characters, without allocating if there is
    /// room already. Returns false if there is no memory; the records are unchanged.
    pub fn make_room(&mut self) -> bool
        ensures items { self.new.items ≡ self.old.items }
        ensures room { self.new.room ≡ result }
        ensures there { self.old.room ≡ true → result ≡ true }
        ensures forgotten { self.new.forgotten ≡ self.old.forgotten }
    {
        self.rest.make_room() && self.count <= MAX_COUNT
    }

    /// Appends a record. Fails if there is no memory for it; nothing is then changed.
    pub fn push(&mut self, record: &Record) -> Result<(), AllocError>
        ensures ok { OnOk result (self.new.items ≡ self.old.items ++ «record».now ∷ []) }
        ensures err { OnErr result (self.new ≡ self.old) }
        ensures forgotten { self.new.forgotten ≡ self.old.forgotten }
    {
        if self.count > MAX_COUNT {
            return Err(AllocError);
        }
        self.rest.push(record)?;
        self.count += 1;
        Ok(())
    }

    /// Appends the records of a text. There must be room for seven records; no memory is allocated.
    pub fn append(&mut self, block: &Block)
        requires { self.old.room ≡ true }
        ensures items { self.new.items ≡ self.old.items ++ block.now }
        ensures forgotten { self.new.forgotten ≡ self.old.forgotten }
    {
        self.rest.append(block);
        self.count += block.count();
    }

    /// Forgets the first records, this many, at most as many as there are. Some or all of them may
    /// be forgotten already. No memory is allocated or given back: that of their characters is used
    /// for the records that are appended next. It takes as long as to copy the others.
    pub fn forget(&mut self, count: usize)
        requires { count ≤ length self.old.items }
        ensures items { self.new.items ≡ forgotten count self.old.items }
        ensures forgotten { self.new.forgotten ≡ max self.old.forgotten count }
        ensures room { self.old.room ≡ true → self.new.room ≡ true }
    {
        let forgotten = self.forgotten();
        if count > forgotten {
            self.rest.remove_first(count - forgotten);
        }
    }
}
