//! A station whose records are kept in a store.

ghost use Rattle.std.specs.Prelude.{◌≡◌, IfErr, IfOk, slice_get};
ghost use Rattle.bsc_keeping.specs.Changes.{printed_of};
ghost use Rattle.bsc_attending.specs.Ending.{IsSameKind};
ghost use Rattle.bsc_attending.specs.Errors.{IsStoreError, with_fault};
ghost use Rattle.bsc_attending.specs.Preparing.{Suits};
ghost use Rattle.bsc_attending.specs.Printer.{AreAllPrinted, counts_below, followed_of};
ghost use Rattle.bsc_attending.specs.Runs.{BeginsFrom};

use crate::cut_short::CutShort;
use crate::preparing::Prepared;
use crate::printer::Printer;
use crate::running::Running;
use crate::{AttendingError, Readiness, Stores};
use bsc_connections::LiveError;
use bsc_keeping::{Keeper, Own, Stored, begin_control, begin_terminal};
use bsc_spool::{Store, StoreFault};
use bsc_station::LineStation;
use std::alloc::{AllocError, Global};
use std::io::Write;

/// How many records are printed at once, at most, when a station has ended.
const AT_END: usize = 1_024;

/// Fills the station with what the store at this path has, and returns what keeps its records.
/// `forgets_printed` says whether the station forgets the records that it has printed.
pub(crate) fn begin<H: Stores>(
    alloc: Global,
    path: &str,
    own: Own,
    prepared: &mut Prepared,
    forgets_printed: bool,
    machine: &mut H,
) -> Result<Keeper<H::Store>, AttendingError>
    requires { Suits own.full prepared.old }
    ensures kind { IsSameKind prepared.old prepared.new }
    ensures error { IfErr result IsStoreError }
    ensures begins { IfOk result (BeginsFrom H.Store.Store forgets_printed own.sending.items
        own.receiving.items prepared.old prepared.new) }
{
    match open_and_fill(alloc, path, own, prepared, forgets_printed, machine) {
        Ok(keeper) => Ok(keeper),
        Err(error) => Err(AttendingError::from(error)),
    }
}

/// Opens the store and fills the station.
fn open_and_fill<H: Stores>(
    alloc: Global,
    path: &str,
    own: Own,
    prepared: &mut Prepared,
    forgets_printed: bool,
    machine: &mut H,
) -> Result<Keeper<H::Store>, StoreFault>
    requires { Suits own.full prepared.old }
    ensures kind { IsSameKind prepared.old prepared.new }
    ensures begins { IfOk result (BeginsFrom H.Store.Store forgets_printed own.sending.items
        own.receiving.items prepared.old prepared.new) }
{
    let store = machine.open_store(path, own.text())?;
    match prepared {
        Prepared::Control { control } => {
            begin_control(alloc, control, own, store, forgets_printed)
        }
        Prepared::Terminal { terminal } => {
            begin_terminal(alloc, terminal, own, store, forgets_printed)
        }
    }
}

/// Returns how many records of each of the first channels, this many, were printed before the
/// station began.
pub(crate) fn printed_before<K: Store + Drop>(
    alloc: Global,
    keeper: &Keeper<K>,
    channels: usize,
) -> Result<Vec<usize>, AllocError>
    ensures printed { IfOk result (λ counts. counts.items
        ≡ counts_below (λ number.
        printed_of (slice_get keeper.now.receiving.items number)) channels) }
{
    let mut counts = Vec::new(alloc);
    'channels: for number in 0..channels {
        counts.push(keeper.printed(number))?;
    }
    Ok(counts)
}

/// Prints all records that arrived at a station and are not printed yet, and keeps how many were.
/// It waits for standard output. `Unprinted` says that this does not accept them.
fn print_all<S: LineStation, K: Store + Drop, W: Write, D: Write + Drop, R: Readiness + Drop>(
    station: &S,
    stored: &mut Stored<K, Printer<'_, W, D, R>>,
) -> Result<(), CutShort>
    ensures printed { IfOk result (λ _.
        AreAllPrinted S.Party station.now (followed_of W.contents stored.new.printer)) }
{
    'turns: for _ in 0..u64::MAX {
        let more = stored.printer.print_turn(station, AT_END);
        if stored.keeper.keep(station, &stored.printer).is_err() {
            let cut = CutShort::from(LiveError::Unkept);
            return Err(with_fault(&stored.keeper, cut));
        }
        if !more {
            return stored.printer.outcome();
        }
    }
    Err(CutShort::from(LiveError::Count))
}

/// Prints what is left of the records that arrived at a station that has ended.
pub(crate) fn print_rest<K: Store + Drop, W: Write, D: Write + Drop, R: Readiness + Drop>(
    prepared: &Prepared,
    stored: &mut Stored<K, Printer<'_, W, D, R>>,
) -> Result<(), CutShort>
    ensures printed { IfOk result (λ _. ⟦<Prepared as Running>⟧.are_all_printed prepared.now
        (followed_of W.contents stored.new.printer)) }
{
    match prepared {
        Prepared::Control { control } => print_all(control, stored),
        Prepared::Terminal { terminal } => print_all(terminal, stored),
    }
}

/// Returns what cut a station short, with the fault of its store if its records could not be kept.
pub(crate) fn with_fault<K: Store + Drop>(keeper: &Keeper<K>, cut: CutShort) -> CutShort
    ensures { result ≡ with_fault cut keeper.now.fault }
{
    match (cut, keeper.fault()) {
        (CutShort::Unkept { .. }, Some(error)) => CutShort::Unkept { error },
        (cut, _) => cut,
    }
}
