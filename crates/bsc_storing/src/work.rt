//! What is to be done with a store.

ghost use Rattle.std.specs.Prelude.{◌≡◌, codes, map, IfOk, OnOk, ok_or};
ghost use Rattle.bsc_spool.specs.declared.change.Change.TheVariants.{Offered};
ghost use Rattle.std.specs.Io.KnownBytes.{Appends};
ghost use Rattle.std.specs.Str.{bytes_eq};
ghost use Rattle.std.specs.Str.Lines.{lines};
ghost use Rattle.bsc_storing.specs.declared.error.StoringError.TheVariants.{NoChannel};
ghost use Rattle.bsc_storing.specs.Names.{named_at};
ghost use Rattle.bsc_storing.specs.Works.{Does, EndsDoubt, EndsOne, OffersAll, PrintsArrived};
ghost use Rattle.bsc_storing.specs.Works.{is_other, told};

use crate::arrived::write_arrived;
use crate::error::{StoringError, of_other, of_store};
use crate::kept_line::{KeptLine, read_line_text};
use crate::offering::offer;
use crate::reconciling::{Reconciled, are_two_ends, reconcile};
use crate::releasing::release;
use crate::status::{write_name, write_status};
use crate::stores::{Opened, StoreFiles};
use bsc_bid::ChannelName;
use bsc_block::Record;
use bsc_block::limits::MAX_FULL;
use bsc_options::StoreChannel;
use bsc_spool::{Channel, Store, StoreFault};
use bsc_station::{OfferError, read_records};
use bsc_text::Form;
use std::alloc::Global;
use std::io::Write;

/// What is to be done with a store.
#[derive(Clone, Copy)]
pub enum Work<'a> {
    /// Offer the lines of the text that was at this path on a channel, all or none.
    Offer {
        channel: StoreChannel,
        path: &'a str,
        text: &'a [u8],
    },

    /// Print the records that arrived on a channel, from the one with this number on, counted
    /// from 0.
    Arrived {
        channel: StoreChannel,
        first: u32,
        form: Form,
    },

    /// Print how far each channel is.
    Status,

    /// End the doubt of a channel of which the other end has this many records.
    Release {
        channel: StoreChannel,
        count: u32,
    },

    /// End each doubt between this store and the one at this path by what both have.
    Reconcile {
        other: &'a str,
    },
}

/// Returns the channel with this name of a line, and its name.
fn with_name(
    line: &KeptLine,
    name: Option<ChannelName>,
) -> Result<(ChannelName, Channel), StoringError>
    ensures { result ≡ ok_or (named_at line.now name) NoChannel }
{
    let Some(name) = name else {
        return Err(StoringError::NoChannel);
    };
    match line.channel(name) {
        Some(channel) => Ok((name, channel)),
        None => Err(StoringError::NoChannel),
    }
}

/// Returns the error for a text at this path whose lines are not records.
fn offer_error(alloc: Global, path: &str, error: OfferError) -> StoringError {
    let Ok(path) = String::from_str(alloc, path) else {
        return StoringError::Memory;
    };
    match error {
        OfferError::Memory => StoringError::Memory,
        error => StoringError::Offer { path, error },
    }
}

/// Returns the records on the lines of the text that was at this path.
fn records_in(
    alloc: Global,
    line: &KeptLine,
    path: &str,
    text: &[u8],
) -> Result<Vec<Record>, StoringError>
    ensures { IfOk result (λ records. records.items ≡ lines text.now) }
{
    if line.full < 1 || line.full > MAX_FULL {
        let fault = StoreFault::Damaged;
        return Err(StoringError::Store { fault });
    }
    match read_records(alloc, text, line.full) {
        Ok(records) => Ok(records),
        Err(error) => Err(offer_error(alloc, path, error)),
    }
}

/// Writes what was done with a channel, and a number.
fn tell<W: Write>(
    line: &KeptLine,
    name: ChannelName,
    what: &str,
    count: usize,
    out: &mut W,
) -> Result<(), StoringError>
    ensures { OnOk result (Appends (W.contents out.old) (W.contents out.new)
        (told line.now name what.now count)) }
{
    write_name(line, name, out)?;
    match writeln!(out, ": {what} {count}") {
        Ok(()) => Ok(()),
        Err(_) => Err(StoringError::Output),
    }
}

/// Offers records on a channel, all or none.
fn keep_offers<S: Store>(
    alloc: Global,
    store: &mut S,
    channel: &Channel,
    records: Vec<Record>,
) -> Result<(), StoringError>
    ensures offered { OnOk result
        (S.keeps (map (Offered channel.now) records.items) store.old store.new) }
{
    match offer(alloc, store, channel, records) {
        Ok(()) => Ok(()),
        Err(fault) => Err(of_store(fault)),
    }
}

/// Offers the lines of a text on a channel, and says how many there were.
fn offer_lines<S: Store, W: Write>(
    alloc: Global,
    store: &mut S,
    line: &KeptLine,
    channel: StoreChannel,
    path: &str,
    text: &[u8],
    out: &mut W,
) -> Result<(), StoringError>
    ensures { OnOk result (OffersAll S.Store line.now channel (lines text.now)
        store.old store.new (W.contents out.old) (W.contents out.new)) }
{
    let (name, channel) = with_name(line, line.sending(channel))?;
    let records = records_in(alloc, line, path, text)?;
    let count = records.len();
    keep_offers(alloc, store, &channel, records)?;
    tell(line, name, "offered", count, out)?;
    Ok(())
}

/// Ends the doubt of a channel.
fn end_doubt<S: Store>(store: &mut S, channel: Channel, count: u32) -> Result<(), StoringError>
    ensures { OnOk result (EndsDoubt S.Store channel count store.old store.new) }
{
    let progress = store.progress(&channel).map_err(of_store)?;
    match release(channel, progress, count) {
        Ok(change) => store.commit(&[change]).map_err(of_store),
        Err(error) => Err(StoringError::Release { error }),
    }
}

/// Ends the doubt of a channel, and says at which count.
fn release_at<S: Store, W: Write>(
    store: &mut S,
    line: &KeptLine,
    channel: StoreChannel,
    count: u32,
    out: &mut W,
) -> Result<(), StoringError>
    ensures { OnOk result (EndsOne S.Store line.now channel count
        store.old store.new (W.contents out.old) (W.contents out.new)) }
{
    let (name, channel) = with_name(line, line.sending(channel))?;
    end_doubt(store, channel, count)?;
    tell(line, name, "released at", count as usize, out)
}

/// Prints the records that arrived on a channel.
fn print_arrived<S: Store, W: Write>(
    alloc: Global,
    store: &mut S,
    line: &KeptLine,
    channel: StoreChannel,
    first: u32,
    form: Form,
    out: &mut W,
) -> Result<(), StoringError>
    ensures { OnOk result (PrintsArrived S.Store line.now channel first form
        store.old store.new (W.contents out.old) (W.contents out.new)) }
{
    let (_, channel) = with_name(line, line.receiving(channel))?;
    write_arrived(alloc, store, &channel, first, form, out)
}

/// Does what is to be done with one store.
fn do_at<S: Store, W: Write>(
    alloc: Global,
    store: &mut S,
    line: &KeptLine,
    work: Work<'_>,
    out: &mut W,
) -> Result<(), StoringError>
    ensures { OnOk result (Does S.Store line.now work.entry store.old store.new
        (W.contents out.old) (W.contents out.new)) }
{
    match work {
        Work::Offer {
            channel,
            path,
            text,
        } => offer_lines(alloc, store, line, channel, path, text, out),
        Work::Arrived {
            channel,
            first,
            form,
        } => print_arrived(alloc, store, line, channel, first, form, out),
        Work::Status => write_status(store, line, out),
        Work::Release { channel, count } => release_at(store, line, channel, count, out),
        Work::Reconcile { .. } => Ok(()),
    }
}

/// Returns the text of a line without its first line, which names the station.
fn stations(text: &str) -> &str {
    match text.split_once('\n') {
        Some((_, rest)) => rest,
        None => "",
    }
}

/// Ends each doubt between two open stores.
fn reconcile_open<S: Store, W: Write>(
    alloc: Global,
    one: &mut Opened<S>,
    two: &mut Opened<S>,
    out: &mut W,
) -> Result<(), StoringError> {
    let line = read_line_text(alloc, one.line.as_str()).map_err(of_store)?;
    let other = read_line_text(alloc, two.line.as_str()).map_err(of_other)?;
    let alike = stations(one.line.as_str()) == stations(two.line.as_str());
    if !alike || !are_two_ends(line.station, other.station) {
        return Err(StoringError::NotTwoEnds);
    }
    match reconcile(alloc, &mut one.store, &mut two.store, &line, &other, out)? {
        Reconciled::Ended => Ok(()),
        Reconciled::Apart => Err(StoringError::Apart),
    }
}

/// Does what is to be done with an open store, other than to reconcile it.
fn do_open<S: Store, W: Write>(
    alloc: Global,
    opened: &mut Opened<S>,
    work: Work<'_>,
    out: &mut W,
) -> Result<(), StoringError> {
    let line = read_line_text(alloc, opened.line.as_str()).map_err(of_store)?;
    do_at(alloc, &mut opened.store, &line, work, out)
}

/// Opens the store at another path, and ends each doubt between both.
fn reconcile_with<M: StoreFiles, W: Write>(
    alloc: Global,
    one: &mut Opened<M::Kept>,
    other: &str,
    machine: &mut M,
    out: &mut W,
) -> Result<(), StoringError> {
    let mut two = machine.open_kept(other).map_err(of_other)?;
    let done = reconcile_open(alloc, one, &mut two, out);
    // What was kept is kept in the log, also if it cannot be copied into the file.
    let _ = machine.close_kept(two);
    done
}

/// Fails if the store at this path is to be reconciled with itself.
fn check_other(path: &str, work: &Work<'_>) -> Result<(), StoringError>
    ensures { result ≡ is_other path.now work.now }
{
    match work {
        Work::Reconcile { other } if are_same(path, *other) => Err(StoringError::SameStore),
        _ => Ok(()),
    }
}

/// Whether two texts are the same.
fn are_same(one: &str, other: &str) -> bool
    ensures { result ≡ bytes_eq one.now other.now }
{
    one == other
}

/// Does what is to be done with the store at a path, and says what it did. All that can be refused
/// is found before anything is kept. After `Output` what was to be kept is kept; after a fault of
/// the store, `Unreachable`, `Full` or `OutOfMemory`, it may be; after any other error the store
/// keeps what it had.
pub fn do_work<M: StoreFiles, W: Write>(
    alloc: Global,
    path: &str,
    work: Work<'_>,
    machine: &mut M,
    out: &mut W,
) -> Result<(), StoringError> {
    check_other(path, &work)?;
    let mut one = machine.open_kept(path).map_err(of_store)?;
    let done = match work {
        Work::Reconcile { other } => reconcile_with(alloc, &mut one, other, machine, out),
        work => do_open(alloc, &mut one, work, out),
    };
    // What was kept is kept in the log, also if it cannot be copied into the file.
    let _ = machine.close_kept(one);
    done
}
