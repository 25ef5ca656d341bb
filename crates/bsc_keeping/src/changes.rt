//! What a step of a station has changed of its records since what is kept.

ghost use Rattle.std.specs.Prelude.{◌≡◌, ◌++◌, ◌∷◌, [], IfOk, OnOk};
ghost use Rattle.std.specs.List.{flat_map};
ghost use Rattle.bsc_spool.specs.declared.change.Change.TheVariants.{Arrived};
ghost use Rattle.bsc_keeping.specs.Changes.{in_doubt_of, known_changes, printed_changes};
ghost use Rattle.bsc_keeping.specs.Changes.{arrived_changes, sending_changes, receiving_changes};
ghost use Rattle.bsc_keeping.specs.Changes.{changes_of, number_kept};

use crate::Prints;
use bsc_bid::KeptSender;
use bsc_block::{Record, Records};
use bsc_spool::{Change, Channel, Receiving, Sending, StoreFault};
use bsc_station::{LineStation, Party};
use std::alloc::{Allocator, Global};

/// Returns a number as a store keeps it. Fails with `Refused` if it is 2^32 or more.
fn number_of(count: usize) -> Result<u32, StoreFault>
    ensures { result ≡ number_kept count }
{
    match u32::try_from(count) {
        Ok(number) => Ok(number),
        Err(_) => Err(StoreFault::Refused),
    }
}

/// Adds a change to those of the step.
fn add(step: &mut Vec<Change>, change: Change) -> Result<(), StoreFault>
    ensures { OnOk result (step.new.items ≡ step.old.items ++ change ∷ []) }
{
    match step.push(change) {
        Ok(()) => Ok(()),
        Err(_) => Err(StoreFault::OutOfMemory),
    }
}

/// Returns how many records are unanswered or in doubt.
pub(crate) fn in_doubt(kept: &KeptSender) -> usize
    ensures { result ≡ in_doubt_of kept.now.doubt }
{
    match kept.doubt {
        Some(count) => count,
        None => 0,
    }
}

/// Adds what is to be kept of a channel on which the station sends, if that is another than is
/// kept.
fn add_known(
    end: &Sending,
    kept: Option<KeptSender>,
    step: &mut Vec<Change>,
) -> Result<(), StoreFault>
    ensures { OnOk result (step.new.items ≡ step.old.items ++ known_changes end.now kept) }
{
    let Some(kept) = kept else {
        return Ok(());
    };
    let in_doubt = in_doubt(&kept);
    if kept.known == end.known && in_doubt == end.in_doubt {
        return Ok(());
    }
    let change = Change::Known {
        channel: end.channel,
        known: number_of(kept.known)?,
        in_doubt: number_of(in_doubt)?,
    };
    add(step, change)
}

/// Adds how many records were printed of a channel on which the station receives, if that is
/// another number than is kept.
fn add_printed(
    end: &Receiving,
    printed: Option<usize>,
    step: &mut Vec<Change>,
) -> Result<(), StoreFault>
    ensures { OnOk result (step.new.items ≡ step.old.items ++ printed_changes end.now printed) }
{
    let Some(printed) = printed else {
        return Ok(());
    };
    if printed == end.printed {
        return Ok(());
    }
    let change = Change::Printed {
        channel: end.channel,
        count: number_of(printed)?,
    };
    add(step, change)
}

/// Adds a record that has arrived on a channel.
fn add_record(channel: &Channel, record: Record, step: &mut Vec<Change>) -> Result<(), StoreFault>
    ensures { OnOk result (step.new.items ≡ step.old.items ++ Arrived channel.now «record» ∷ []) }
{
    let change = Change::Arrived {
        channel: *channel,
        record,
    };
    add(step, change)
}

/// Adds the records that have arrived on a channel after those that are kept.
fn add_arrived<A: Allocator>(
    end: &Receiving,
    records: &Records<A>,
    step: &mut Vec<Change>,
) -> Result<(), StoreFault>
    ensures { OnOk result (step.new.items
        ≡ step.old.items ++ arrived_changes end.now records.now.items) }
{
    'records: for place in end.arrived..records.len() {
        add_record(&end.channel, records.record(place), step)?;
    }
    Ok(())
}

/// Adds what has changed of a channel on which the station receives.
fn add_received<P: Party, V: Prints>(
    station: &P,
    printer: &V,
    end: &Receiving,
    step: &mut Vec<Change>,
) -> Result<(), StoreFault>
    ensures { OnOk result (step.new.items ≡ step.old.items
        ++ receiving_changes P.Party station.now (V.printed printer.now) end.now) }
{
    add_printed(end, printer.printed(end.number), step)?;
    if end.number < station.spools() {
        let received = station.received(end.number);
        return add_arrived(end, received.records, step);
    }
    Ok(())
}

/// Adds what has changed of the channels on which the station sends.
fn add_all_known<P: LineStation>(
    station: &P,
    ends: &[Sending],
    step: &mut Vec<Change>,
) -> Result<(), StoreFault>
    ensures { OnOk result (step.new.items ≡ step.old.items ++ flat_map
        (sending_changes P.kept_at station.now) ends.now) }
{
    'ends: for end in ends {
        add_known(end, station.kept_at(end.terminal, end.select), step)?;
    }
    Ok(())
}

/// Adds what has changed of the channels on which the station receives.
fn add_all_received<P: Party, V: Prints>(
    station: &P,
    printer: &V,
    ends: &[Receiving],
    step: &mut Vec<Change>,
) -> Result<(), StoreFault>
    ensures { OnOk result (step.new.items ≡ step.old.items ++ flat_map
        (receiving_changes P.Party station.now (V.printed printer.now)) ends.now) }
{
    'ends: for end in ends {
        add_received(station, printer, end, step)?;
    }
    Ok(())
}

/// Returns all that the station has changed since what is kept, in order. Fails with `Refused` if a
/// number is 2^32 or more, and with `OutOfMemory`.
pub(crate) fn changes_since<P: LineStation, V: Prints>(
    alloc: Global,
    station: &P,
    printer: &V,
    sending: &[Sending],
    receiving: &[Receiving],
) -> Result<Vec<Change>, StoreFault>
    ensures { IfOk result (λ step. step.items
        ≡ changes_of P.Party station.now (V.printed printer.now) P.kept_at sending.now
        receiving.now) }
{
    let mut step = Vec::new(alloc);
    add_all_known(station, sending, &mut step)?;
    add_all_received(station, printer, receiving, &mut step)?;
    Ok(step)
}
