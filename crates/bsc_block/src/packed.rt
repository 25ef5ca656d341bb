//! Records in two allocations, however many they are: all characters, and the end of each record.
ghost use Rattle.std.specs.Prelude.{◌≡◌, ◌+◌, ◌-◌, ◌*◌, ◌<◌, ◌≤◌, [], ◌∷◌, ◌++◌, true, false};
ghost use Rattle.std.specs.Prelude.{length, drop, map};
ghost use Rattle.std.specs.Prelude.{slice_get, vec_len, vec_capacity, Some, IsTrue, ◌↔◌};
ghost use Rattle.std.specs.Prelude.{OnOk, OnErr};
ghost use Rattle.bsc_block.specs.Records.{IsRecord};
ghost use Rattle.bsc_block.specs.Pieces.{pieces, start_of, AreRecords};

use crate::{Block, Record};
use bsc_frame::limits::{MAX_CHARS, MAX_UNITS};
use std::alloc::{AllocError, Allocator};
use std::marker::Model;

/// The most characters that the records of one text have.
const MAX_TEXT_CHARS: usize = MAX_UNITS * MAX_CHARS;

/// A list is small while it has fewer elements than this many times those for which it makes room.
/// It then doubles, so that it is copied seldom.
const SMALL: usize = 1_024;

/// A list that is not small grows by one part in as many.
const PARTS: usize = 16;

/// Records in two allocations at most. A record takes its characters and 8 octets more; once there
/// are some seven thousand, at most one part in 16 is not in use, beside the room for a text.
#[derive(Drop)]
pub(crate) struct Packed<A: Allocator> {
    /// The characters of all records, in order.
    chars: Vec<u8, A>,

    /// The place in `chars` at which each record ends.
    ends: Vec<usize, A>,
}

impl<A: Allocator> Model for Packed<A> {
    ghost use Rattle.std.specs.Prelude.{◌+◌, ◌*◌, ◌&&◌, vec_len, vec_capacity, nat_le};
    ghost use Rattle.bsc_frame.specs.declared.limits.TheConstants.{MAX_CHARS, MAX_UNITS};
    ghost use Rattle.bsc_block.specs.Pieces.{PackedValue, pieces, AreRecords};

    ghost Value = { PackedValue };

    ghost view = { λ r. record {
      items = pieces 0 r.ends.items r.chars.items;
      room = nat_le (vec_len r.chars + MAX_UNITS * MAX_CHARS) (vec_capacity r.chars)
          && nat_le (vec_len r.ends + MAX_UNITS) (vec_capacity r.ends);
    } };

    ghost invariant = { λ r. AreRecords r.ends.items r.chars.items };
}

/// Returns for how many more elements a list of this length grows to make room for `more`: for at
/// least twice as many, for as many as it has while it is small, and for a part of these after.
fn growth(len: usize, more: usize) -> usize
    ensures { more ≤ result }
{
    let slack = if len / SMALL < more { len } else { len / PARTS };
    more.saturating_add(slack.max(more))
}

/// Makes room for `few` elements, without allocating if there is room already, else for `more` and
/// some. Returns false if there is no memory; then nothing changes.
fn grow<T, A: Allocator>(list: &mut Vec<T, A>, few: usize, more: usize) -> bool
    requires { few ≤ more }
    ensures items { list.new.items ≡ list.old.items }
    ensures len { vec_len list.new ≡ vec_len list.old }
    ensures capacity { vec_capacity list.old ≤ vec_capacity list.new }
    ensures room { IsTrue result ↔ (vec_len list.new + few ≤ vec_capacity list.new) }
    ensures there { vec_len list.old + few ≤ vec_capacity list.old → IsTrue result }
    ensures refused { result ≡ false → vec_capacity list.new ≡ vec_capacity list.old }
{
    if few <= list.capacity() - list.len() {
        return true;
    }
    list.try_reserve_exact(growth(list.len(), more)).is_ok()
}

/// Appends a record. There must be room for it; no memory is allocated.
fn put<A: Allocator>(chars: &mut Vec<u8, A>, ends: &mut Vec<usize, A>, new: &[u8])
    requires room { vec_len chars.old + length new.now ≤ vec_capacity chars.old }
    requires end_room { vec_len ends.old < vec_capacity ends.old }
    requires records { AreRecords ends.old.items chars.old.items }
    requires new { IsRecord new.now }
    ensures records { AreRecords ends.new.items chars.new.items }
    ensures items { pieces 0 ends.new.items chars.new.items
        ≡ pieces 0 ends.old.items chars.old.items ++ new.now ∷ [] }
    ensures len { vec_len chars.new ≡ vec_len chars.old + length new.now }
    ensures end_len { vec_len ends.new ≡ vec_len ends.old + 1 }
    ensures capacity { vec_capacity chars.old ≤ vec_capacity chars.new }
    ensures end_capacity { vec_capacity ends.new ≡ vec_capacity ends.old }
{
    match chars.extend_from_slice(new) {
        Ok(()) => {}
        Err(_) => unreachable!(),
    }
    ends.push_reserved(chars.len());
}

/// Returns where the record at a place starts.
fn start(ends: &[usize], place: usize) -> usize
    requires { place < length ends.now }
    ensures { result ≡ start_of 0 ends.now place }
{
    if place == 0 {
        return 0;
    }
    ends[place - 1]
}

/// Returns the characters of the record at a place.
fn part<'a>(chars: &'a [u8], ends: &[usize], place: usize) -> &'a [u8]
    requires records { AreRecords ends.now chars.now }
    requires place { place < length ends.now }
    ensures value { slice_get (pieces 0 ends.now chars.now) place ≡ Some result.now }
    ensures record { IsRecord result.now }
{
    let from = start(ends, place);
    let to = ends[place];
    &chars[from..to]
}

/// Removes the first elements, this many, at most as many as there are. No memory is allocated or
/// given back.
fn remove_front<T: Copy, A: Allocator>(list: &mut Vec<T, A>, count: usize)
    requires { count ≤ vec_len list.old }
    ensures items { list.new.items ≡ drop count list.old.items }
    ensures len { vec_len list.new ≡ vec_len list.old - count }
    ensures capacity { vec_capacity list.new ≡ vec_capacity list.old }
{
    let left = list.len() - count;
    list.copy_within(count.., 0);
    list.truncate(left);
}

/// Takes this much from each of these places.
fn lower<A: Allocator>(ends: &mut Vec<usize, A>, by: usize)
    ensures items { ends.new.items ≡ map (λ end. end - by) ends.old.items }
    ensures len { vec_len ends.new ≡ vec_len ends.old }
    ensures capacity { vec_capacity ends.new ≡ vec_capacity ends.old }
{
    for end in ends.iter_mut() {
        *end = end.saturating_sub(by);
    }
}

/// Removes the first records, this many, of which there are at least one. No memory is allocated or
/// given back.
fn remove<A: Allocator>(chars: &mut Vec<u8, A>, ends: &mut Vec<usize, A>, count: usize)
    requires some { 1 ≤ count }
    requires there { count ≤ length ends.old.items }
    requires records { AreRecords ends.old.items chars.old.items }
    ensures records { AreRecords ends.new.items chars.new.items }
    ensures items { pieces 0 ends.new.items chars.new.items
        ≡ drop count (pieces 0 ends.old.items chars.old.items) }
    ensures len { vec_len chars.new ≤ vec_len chars.old }
    ensures end_len { vec_len ends.new ≤ vec_len ends.old }
    ensures capacity { vec_capacity chars.new ≡ vec_capacity chars.old }
    ensures end_capacity { vec_capacity ends.new ≡ vec_capacity ends.old }
{
    let removed = ends[count - 1];
    remove_front(chars, removed);
    remove_front(ends, count);
    lower(ends, removed);
}

impl<A: Allocator> Packed<A> {
    /// Creates a list without records. It does not allocate memory, so it has no room yet.
    pub(crate) fn new(alloc: A) -> Self
    where
        A: Copy,
        ensures items { result.items ≡ [] }
        ensures room { result.room ≡ false }
    {
        Packed {
            chars: Vec::new(alloc),
            ends: Vec::new(alloc),
        }
    }

    /// Returns the number of records.
    pub(crate) fn len(&self) -> usize
        ensures { result ≡ length self.now.items }
    {
        self.ends.len()
    }

    /// Returns the characters of the record at a place below the number of records.
    pub(crate) fn chars(&self, place: usize) -> &[u8]
        requires { place < length self.now.items }
        ensures chars { slice_get self.now.items place ≡ Some result.now }
        ensures record { IsRecord result.now }
    {
        part(self.chars.as_slice(), self.ends.as_slice(), place)
    }

    /// Returns whether there is room for seven more records, each of 144 characters.
    pub(crate) fn has_room(&self) -> bool
        ensures { result ≡ self.now.room }
    {
        self.chars.len() + MAX_TEXT_CHARS <= self.chars.capacity()
            && self.ends.len() + MAX_UNITS <= self.ends.capacity()
    }

    /// Makes room for seven more records, each of 144 characters, without allocating if there is
    /// room already. Returns false if there is no memory; the records are unchanged.
    pub(crate) fn make_room(&mut self) -> bool
        ensures items { self.new.items ≡ self.old.items }
        ensures room { self.new.room ≡ result }
        ensures there { self.old.room ≡ true → result ≡ true }
    {
        grow(&mut self.chars, MAX_TEXT_CHARS, MAX_TEXT_CHARS)
            && grow(&mut self.ends, MAX_UNITS, MAX_UNITS)
    }

    /// Appends a record. Fails if there is no memory for it; nothing is then changed.
    pub(crate) fn push(&mut self, record: &Record) -> Result<(), AllocError>
        ensures ok { OnOk result (self.new.items ≡ self.old.items ++ «record».now ∷ []) }
        ensures err { OnErr result (self.new ≡ self.old) }
    {
        let new = record.chars();
        if !grow(&mut self.chars, new.len(), MAX_CHARS) || !grow(&mut self.ends, 1, MAX_UNITS) {
            return Err(AllocError);
        }
        put(&mut self.chars, &mut self.ends, new);
        Ok(())
    }

    /// Appends the records of a text. There must be room for seven records; no memory is allocated.
    pub(crate) fn append(&mut self, block: &Block)
        requires { self.old.room ≡ true }
        ensures { self.new.items ≡ self.old.items ++ block.now }
    {
        for place in 0..block.count() {
            put(&mut self.chars, &mut self.ends, block.chars(place));
        }
    }

    /// Removes the first records, this many, at most as many as there are. No memory is allocated
    /// or given back.
    pub(crate) fn remove_first(&mut self, count: usize)
        requires { count ≤ length self.old.items }
        ensures items { self.new.items ≡ drop count self.old.items }
        ensures room { self.old.room ≡ true → self.new.room ≡ true }
    {
        if count > 0 {
            remove(&mut self.chars, &mut self.ends, count);
        }
    }
}
