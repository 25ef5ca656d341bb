//! Records from C, and for C.

ghost use Rattle.std.specs.Prelude.{◌≡◌, ◌≤◌, IfOk, length, slice_get};
ghost use Rattle.bsc_frame.specs.declared.limits.TheConstants.{MAX_CHARS};
ghost use Rattle.bsc_embed.specs.Records.{record_in, PutsRecord};

use crate::interface::{Fault, put};
use bsc_block::{Format, Record};
use bsc_frame::limits::MAX_CHARS;
use bsc_spool::Spool;
use std::alloc::Global;

/// The number of characters of the longest record.
const LONGEST: u8 = MAX_CHARS as u8;

/// Returns the record of these codes, for blocks of this format. The fault is `TooLong` if there
/// are more codes than the full length of a record, else `NotText` if one of them is not a record
/// character.
pub fn read_record(codes: &[u8], format: Format) -> Result<Record, Fault>
    ensures value { result ≡ record_in format.full codes.now }
    ensures short { IfOk result (λ r. length r ≤ format.full) }
{
    let record = Record::read(codes, format.full())?;
    Ok(record)
}

/// Returns the record of these codes, which arrived from the line. Other equipment may send records
/// that are longer than the full length, so the fault is `TooLong` only if there are more than 144
/// codes, else `NotText` if one of them is not a record character.
pub fn read_arrived(codes: &[u8]) -> Result<Record, Fault>
    ensures { result ≡ record_in MAX_CHARS codes.now }
{
    let record = Record::read(codes, LONGEST)?;
    Ok(record)
}

/// Puts the characters of the record of this number, counted from 0 in the order in which they
/// arrived, at the front of the buffer, and the number of its characters, 0 to 144, into `len`. The
/// fault is `NoSuchRecord` if fewer records arrived, else `NoRoom` if the buffer is too short for
/// the record; then nothing changes.
pub fn put_record(
    spool: &Spool<Global>,
    index: usize,
    chars: &mut [u8],
    len: &mut usize,
) -> Result<(), Fault>
    ensures { PutsRecord (slice_get spool.now.records index) chars.old len.old chars.new len.new
        result }
{
    let records = spool.records();
    if index >= records.len() {
        return Err(Fault::NoSuchRecord);
    }
    put(records.chars(index), chars, len)
}
