//! Assembles records from the pieces in which a stream gives its octets.

ghost use Rattle.std.specs.Prelude.{◌≡◌, ◌+◌, ◌<◌, ◌≤◌, ◌↔◌, [], ◌++◌, min, length, take, IsTrue};
ghost use Rattle.std.specs.Prelude.{MatchBool, IfOk, IsErrOf};
ghost use Rattle.std.specs.Int.{to_be_bytes, w16};
ghost use Rattle.bsc_carrier.specs.Record.{IsLength, IsWrongLength};
ghost use Rattle.bsc_carrier.specs.Front.{stated_length, HasWrongLength};
ghost use Rattle.bsc_carrier.specs.Assembler.{wanted_after, IsBegun, IsWhole, Gathers, Fed};

use crate::error::CarrierError;
use crate::limits::{MAX_RECORD, MAX_RECORD_OCTETS};
use crate::two_buffers::TwoBuffers;
use std::marker::Model;

/// Two records, each including the two octets of its length.
type TwoRecords = TwoBuffers<MAX_RECORD_OCTETS>;

/// Assembles records from the pieces of a stream.
#[derive(Drop)]
pub struct Assembler {
    // The octets that have arrived since the last complete record, and that record.
    records: TwoRecords,
}

impl Model for Assembler {
    ghost use Rattle.std.specs.Prelude.{drop};
    ghost use Rattle.bsc_carrier.specs.Assembler.{AssemblerValue, IsBegun};

    ghost Value = { AssemblerValue };

    ghost view = { λ a. record {
      begun = a.records.begun;
      complete = drop 2 a.records.complete;
    } };

    ghost invariant = { λ a. IsBegun a.records.begun };
}

/// Returns whether a record may have this length.
fn is_length(length: usize) -> bool
    ensures { MatchBool result (IsLength length) (IsWrongLength length) }
{
    1 <= length && length <= MAX_RECORD
}

/// Returns the length that the first two octets state.
fn length_at_front(begun: &[u8]) -> usize
    requires { 2 ≤ length begun.now }
    ensures value { result ≡ stated_length begun.now }
    ensures spelled { to_be_bytes w16 result ≡ take 2 begun.now }
{
    let high = begun[0];
    let low = begun[1];
    usize::from(u16::from_be_bytes([high, low]))
}

/// Returns the number of octets missing to the end of the length, or once that is there to the end
/// of the record; 0 after a wrong length.
fn missing(begun: &[u8]) -> usize
    ensures { result ≡ wanted_after begun.now }
{
    if begun.len() < 2 {
        return 2 - begun.len();
    }
    let length = length_at_front(begun);
    if is_length(length) {
        (2 + length).saturating_sub(begun.len())
    } else {
        0
    }
}

/// Returns whether these octets from the beginning of a record reach its end. Fails with `Length`
/// if they state a wrong length.
fn is_whole(begun: &[u8]) -> Result<bool, CarrierError>
    ensures { IsWhole begun.now result }
{
    if begun.len() < 2 {
        return Ok(false);
    }
    let length = length_at_front(begun);
    if !is_length(length) {
        return Err(CarrierError::Length);
    }
    Ok(2 + length <= begun.len())
}

/// Appends as many octets of the piece as are missing, or all of the piece if it has fewer. Returns
/// their number.
fn gather(records: &mut TwoRecords, piece: &[u8]) -> usize
    requires { length records.old.begun + wanted_after records.old.begun ≤ MAX_RECORD_OCTETS }
    ensures count { result ≡ min (wanted_after records.old.begun) (length piece.now) }
    ensures begun { records.new.begun ≡ records.old.begun ++ take result piece.now }
    ensures complete { records.new.complete ≡ records.old.complete }
{
    let count = missing(records.begun()).min(piece.len());
    records.append(&piece[..count]);
    count
}

/// Takes octets of the piece up to the end of the record that has begun. Returns their number, and
/// whether they complete the record.
fn advance(records: &mut TwoRecords, piece: &[u8]) -> Result<(usize, bool), CarrierError>
    requires { IsBegun records.old.begun }
    ensures gathers { Gathers records.old.begun piece.now result records.new.begun }
    ensures complete { records.new.complete ≡ records.old.complete }
{
    let head = gather(records, piece);
    let body = gather(records, &piece[head..]);
    let is_whole = is_whole(records.begun())?;
    Ok((head + body, is_whole))
}

impl Assembler {
    /// Creates an assembler for the beginning of a stream.
    pub fn new() -> Assembler
        ensures begun { result.begun ≡ [] }
        ensures complete { result.complete ≡ [] }
    {
        Assembler {
            records: TwoBuffers::new(),
        }
    }

    /// Takes octets of the piece up to the end of a record, and none of the next record. Returns
    /// how many it took, and whether the last of them completed a record. Fails with `Length` at
    /// the second octet of a wrong length, and at every later call.
    pub fn feed(&mut self, piece: &[u8]) -> Result<(usize, bool), CarrierError>
        ensures fed { Fed self.old piece.now result self.new }

        // `Length` is returned exactly if the stream states a wrong length in the place of a
        // record.
        ensures wrong { IsErrOf result CarrierError.Length
            ↔ HasWrongLength (self.old.begun ++ piece.now) }

        // A piece of no more octets than are wanted is taken whole.
        ensures wanted { length piece.now ≤ wanted_after self.old.begun
            → IfOk result (λ r. r.0 ≡ length piece.now) }
    {
        let (taken, is_complete) = advance(&mut self.records, piece)?;
        if is_complete {
            self.records.turn();
        }
        Ok((taken, is_complete))
    }

    /// Returns the octets that the last complete record carried; none at first.
    pub fn octets(&self) -> &[u8]
        ensures { result.now ≡ self.now.complete }
    {
        let record = self.records.complete();
        &record[record.len().min(2)..]
    }

    /// Returns whether no record has begun; false after a wrong length.
    pub fn between(&self) -> bool
        ensures { IsTrue result ↔ (self.now.begun ≡ []) }
    {
        self.records.begun().is_empty()
    }

    /// Returns the length up to which a piece is taken whole: 2 between records, 1 after the first
    /// octet of a length, then the number of octets that the record lacks, and 0 after a wrong
    /// length.
    pub fn wanted(&self) -> usize
        ensures { result ≡ wanted_after self.now.begun }
    {
        missing(self.records.begun())
    }
}
