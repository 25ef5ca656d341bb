//! The records that a text carries. They are borrowed from the text, so that nothing is copied
//! until they are stored.
ghost use Rattle.std.specs.Prelude.{◌≡◌, ◌<◌, ◌≤◌, Some, length, slice_get};
ghost use Rattle.bsc_block.specs.Records.{IsRecord};
ghost use Rattle.bsc_frame.specs.Units.{text_unit};
ghost use Rattle.bsc_block.specs.Blocks.{holds_record, records_in};

use crate::Record;
use arrayvec::ArrayVec;
use bsc_frame::limits::MAX_UNITS;
use bsc_frame::{Text, Unit};
use std::marker::Model;

/// The records of a text, in order: 0 to 7 slices borrowed from the text.
#[derive(Drop)]
pub struct Block<'a> {
    records: ArrayVec<&'a [u8], MAX_UNITS>,
}

impl<'a> Model for Block<'a> {
    ghost use Rattle.std.specs.Prelude.{ℕ, List, map};
    ghost use Rattle.std.specs.List.{AllByRecursion};
    ghost use Rattle.bsc_block.specs.Records.{IsRecord};

    ghost Value = { List (List ℕ) };

    ghost view = { λ b. map (λ r. r.now) b.records.items };

    ghost invariant = { λ b. AllByRecursion (λ r. IsRecord r.now) b.records.items };
}

/// Returns the records of a text: the characters of each unit that has characters or is marked by
/// EM.
pub fn unpack<'a>(text: &'a Text<'_>) -> Block<'a>
    ensures { result ≡ records_in text.entry.now.units }
{
    let mut records = ArrayVec::new();
    for place in 0..text.count() {
        let unit = text.unit(place);
        if is_record(unit) {
            records.push(unit.chars);
        }
    }
    Block { records }
}

/// Returns whether the unit holds a record.
fn is_record(unit: Unit<'_>) -> bool
    ensures { result ≡ holds_record (text_unit unit.entry) }
{
    unit.em || !unit.chars.is_empty()
}

impl<'a> Block<'a> {
    /// Returns the number of records, 0 to 7.
    pub fn count(&self) -> usize
        ensures count { result ≡ length self.now }
        ensures few { result ≤ MAX_UNITS }
    {
        self.records.len()
    }

    /// Returns the characters of the record at a place below the count, borrowed from the text.
    pub fn chars(&self, place: usize) -> &'a [u8]
        requires { place < length self.now }
        ensures chars { slice_get self.now place ≡ Some result.now }
        ensures record { IsRecord result.now }
    {
        self.records[place]
    }

    /// Returns a copy of the record at a place below the count. It does not allocate memory.
    pub fn record(&self, place: usize) -> Record
        requires { place < length self.now }
        ensures { slice_get self.now place ≡ Some result }
    {
        Record::of(self.chars(place))
    }
}
