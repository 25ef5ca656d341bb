//! What stations forget: at least 1,024 records at once, and no fewer than are left.

use crate::stations::{add, card, control_of, offer_for, terminal_of};
use bsc_bid::KeptSender;
use bsc_control::Control;
use bsc_station::{LineStation, LineTerminal, Party};
use std::alloc::Global;
use std::test::Fail;
use test_fixtures::configurations::{THREE_ADDRESSES, TWO_TERMINALS};

/// How many records have arrived, how many of these are to be forgotten, once or twice, and how
/// many are forgotten after that.
type Row = (usize, &'static [usize], usize);

const ROWS: &[Row] = &[
    (1_023, &[1_023], 0),
    (1_024, &[1_024], 1_024),
    (1_024, &[1_023], 0),
    (1_024, &[1_025], 0),
    (2_048, &[1_024], 1_024),
    (2_049, &[1_024], 0),
    (2_049, &[1_024, 1_025], 1_025),
    (2_048, &[1_024, 2_047], 1_024),
    (2_048, &[1_024, 2_048], 2_048),
];

/// Adds this many records to those that arrived at the first selection address, if there is memory
/// for them.
fn add_to_terminal(terminal: &mut LineTerminal<Global>, count: usize) -> Option<()> {
    for _ in 0..count {
        if terminal.spools() == 0 {
            return None;
        }
        terminal.keep_arrived(0, card(b"HI")?).ok()?;
    }
    Some(())
}

/// Forgets these numbers of records that arrived on the first channel. Returns how many have
/// arrived, and how many of them are forgotten.
fn forgotten_of<S: LineStation>(station: &mut S, counts: &[usize]) -> Option<(usize, usize)> {
    for count in counts {
        station.forget_first(0, *count);
        station.forget_first(9, *count);
    }
    if station.spools() == 0 {
        return None;
    }
    let records = station.received(0).records;
    Some((records.len(), records.forgotten()))
}

/// Whether a control station forgets as many records as the row says.
fn control_forgets(alloc: Global, row: &Row) -> Result<bool, Fail> {
    let (arrived, counts, forgotten) = *row;
    let mut control = control_of(alloc, TWO_TERMINALS)?;
    let is_full = add(&mut control, 0, b"HI", arrived).is_some();
    Ok(is_full && forgotten_of(&mut *control, counts) == Some((arrived, forgotten)))
}

/// Whether a terminal forgets as many records as the row says.
fn terminal_forgets(alloc: Global, row: &Row) -> Result<bool, Fail> {
    let (arrived, counts, forgotten) = *row;
    let mut terminal = terminal_of(alloc, b"")?;
    let is_full = add_to_terminal(&mut terminal, arrived).is_some();
    Ok(is_full && forgotten_of(&mut *terminal, counts) == Some((arrived, forgotten)))
}

#[test]
fn stations_forget_many_records_at_once(rt: HostRuntime) -> Result<(), Fail> {
    for row in ROWS {
        let is_right = control_forgets(rt.alloc(), row)? && terminal_forgets(rt.alloc(), row)?;
        assert!(rt; is_right, "{}", row.0);
    }
    Ok(())
}

/// The terminals and the selection addresses of the channels from the control station.
const CHANNELS: &[(usize, usize)] = &[(0, 0), (0, 1), (1, 0)];

/// Offers this many records on a channel, and recalls that all but 100 are known to have arrived.
fn offer_and_recall(
    alloc: Global,
    control: &mut Control<Global>,
    (terminal, select): (usize, usize),
    count: usize,
) -> Result<(), Fail> {
    for _ in 0..count {
        offer_for(alloc, control, terminal, select)?;
    }
    if control.terminals() <= terminal || control.addresses(terminal) <= select {
        return Err(Fail::new("no such address"));
    }
    let known = count.saturating_sub(100);
    let kept = KeptSender { known, doubt: None };
    Ok(control.recall(terminal, select, kept)?)
}

/// How many records of a channel are forgotten.
fn forgotten_on(control: &Control<Global>, (terminal, select): (usize, usize)) -> Option<usize> {
    if control.terminals() <= terminal || control.addresses(terminal) <= select {
        return None;
    }
    Some(control.queue(terminal, select).offered().forgotten())
}

/// How many records are offered, and how many are forgotten if all but 100 are known.
const KNOWN: &[(usize, usize)] = &[(1_123, 0), (1_124, 1_024), (3_000, 2_900)];

/// Whether a control station forgets this many of the records of each channel.
fn forgets_known(alloc: Global, count: usize, forgotten: usize) -> Result<bool, Fail> {
    let mut control = control_of(alloc, THREE_ADDRESSES)?;
    for channel in CHANNELS {
        offer_and_recall(alloc, &mut control, *channel, count)?;
    }
    control.forget_known();
    for channel in CHANNELS {
        if forgotten_on(&control, *channel) != Some(forgotten) {
            return Ok(false);
        }
    }
    Ok(true)
}

#[test]
fn a_control_station_forgets_what_is_known(rt: HostRuntime) -> Result<(), Fail> {
    for (count, forgotten) in KNOWN {
        assert!(rt; forgets_known(rt.alloc(), *count, *forgotten)?, "{count}");
    }
    Ok(())
}
