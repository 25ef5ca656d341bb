//! The records that a station has to send, read from the lines of a text.

ghost use Rattle.std.specs.Prelude.{◌≡◌, ◌≤◌, ◌<◌, ◌∷◌, ℕ, Err, length, IfOk};
ghost use Rattle.std.specs.Str.Lines.{lines};
ghost use Rattle.bsc_block.specs.Blocks.{AreShort};
ghost use Rattle.bsc_block.specs.declared.record.RecordError.{RecordError as Why};
ghost use Rattle.bsc_station.specs.Offers.{AreRecords, IsFirstRefused};

use bsc_block::limits::MAX_FULL;
use bsc_block::{Record, RecordError};
use bsc_text::{split_line, without_return};
use std::alloc::Allocator;
use thiserror::Error;

/// The reason why the lines of a text are not records that can be offered.
#[derive(Clone, Copy, Debug, PartialEq, Eq, Error)]
pub enum OfferError {
    /// The line with this number, counted from 1, is the first that is not a record of at most the
    /// full length.
    #[error("line {line}: {why}")]
    Refused { line: u64, why: RecordError },

    /// An allocation failed.
    #[error("out of memory")]
    Memory,
}

/// Reads the lines of a text as records of at most `full` characters, where `full` is 1 to 144. A
/// line ends with a line feed, before which one carriage return is dropped. Text after the last
/// line feed is a line too, unless it is empty. An empty line is the empty record. Returns
/// `Refused` for the first line that is not a record; `Memory` may come in place of it.
pub fn read_records<A: Allocator>(
    alloc: A,
    text: &[u8],
    full: u8,
) -> Result<Vec<Record, A>, OfferError>
    requires low { 1 ≤ full }
    requires high { full ≤ MAX_FULL }
    ensures lines { IfOk result (λ records. records.items ≡ lines text.now) }
    ensures records { IfOk result (λ records. AreRecords full records.items) }
    ensures short { IfOk result (λ records. AreShort full records.items) }
    ensures refused { (n : ℕ) (why : Why) → result ≡ Err (OfferError.Refused n why) →
        IsFirstRefused full n why (lines text.now) }
{
    let mut records = Vec::new(alloc);
    let mut number = 0u64;
    let mut left = text;
    'lines: loop {
        if left.is_empty() {
            return Ok(records);
        }
        let (line, rest) = next_line(left);
        number += 1;
        match Record::read(line, full) {
            Ok(record) => {
                if records.push(record).is_err() {
                    return Err(OfferError::Memory);
                }
            }
            Err(why) => return Err(OfferError::Refused { line: number, why }),
        }
        left = rest;
    }
}

/// Returns the first line of a non-empty text, and the text after it.
fn next_line(text: &[u8]) -> (&[u8], &[u8])
    requires { 0 < length text.now }
    ensures first { lines text.now ≡ result.0.now ∷ lines result.1.now }
    ensures shorter { length result.1.now < length text.now }
{
    let (line, rest) = split_line(text);
    match rest {
        Some(rest) => (without_return(line), rest),
        None => (line, &[]),
    }
}
