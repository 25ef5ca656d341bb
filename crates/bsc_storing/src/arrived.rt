//! The records that arrived on a channel of a store.
ghost use Rattle.std.specs.Prelude.{◌≡◌, IfOk, OnOk};
ghost use Rattle.std.specs.Io.KnownBytes.{Appends};
ghost use Rattle.bsc_storing.specs.Errors.{print_error};
ghost use Rattle.bsc_storing.specs.Lines.{arrived_line};
ghost use Rattle.bsc_storing.specs.Works.{PrintsLines, PrintsNext};

use crate::error::{StoringError, of_store};
use bsc_block::Record;
use bsc_spool::{Channel, Store, StoreFault};
use bsc_text::{Form, PrintError, put, write_in_form};
use std::alloc::Global;
use std::io::Write;

/// Writes the line for a record.
fn write_record<W: Write>(
    alloc: Global,
    form: Form,
    record: &Record,
    out: &mut W,
) -> Result<(), PrintError>
    ensures { OnOk result
        (Appends (W.contents out.old) (W.contents out.new) (arrived_line form «record».now)) }
{
    write_in_form(alloc, form, record.chars(), out)?;
    put(b"\n", out)
}

/// Returns the error for output that failed.
fn of_print(error: PrintError) -> StoringError
    ensures { result ≡ print_error error }
{
    match error {
        PrintError::Output => StoringError::Output,
        PrintError::Memory => StoringError::Memory,
    }
}

/// Writes a line for the next record that arrived on a channel, and returns its mark; `None` if
/// there is none.
fn write_next<S: Store, W: Write>(
    alloc: Global,
    store: &mut S,
    channel: &Channel,
    place: (i64, u32),
    form: Form,
    out: &mut W,
) -> Result<Option<i64>, StoringError>
    ensures { IfOk result (PrintsNext S.Store channel.now form place.0 place.1
        store.old store.new (W.contents out.old) (W.contents out.new)) }
{
    match store.arrived(channel, place.0, place.1) {
        Ok(Some(found)) => match write_record(alloc, form, &found.record, out) {
            Ok(()) => Ok(Some(found.mark)),
            Err(error) => Err(of_print(error)),
        },
        Ok(None) => Ok(None),
        Err(fault) => Err(of_store(fault)),
    }
}

/// Writes a line for each record that arrived on a channel, but for this many first ones. Fails
/// with `Damaged` after 2^64 - 1 records.
pub(crate) fn write_arrived<S: Store, W: Write>(
    alloc: Global,
    store: &mut S,
    channel: &Channel,
    first: u32,
    form: Form,
    out: &mut W,
) -> Result<(), StoringError>
    ensures { OnOk result (PrintsLines S.Store channel.now first form store.old store.new
        (W.contents out.old) (W.contents out.new)) }
{
    let mut place = (0i64, first);
    'records: for _ in 0..u64::MAX {
        match write_next(alloc, store, channel, place, form, out)? {
            Some(mark) => place = (mark, 0),
            None => return Ok(()),
        }
    }
    let fault = StoreFault::Damaged;
    Err(StoringError::Store { fault })
}
