//! How far a station has come.

ghost use Rattle.std.specs.Prelude.{◌≡◌, ◌<◌};
ghost use Rattle.bsc_station.specs.Counting.{counts_at, station_counts, terminal_counts};
ghost use Rattle.bsc_station.specs.EndValues.{end_of};

use crate::{ChannelEnd, Party};
use bsc_control::Way;
use bsc_text::progress::Counts;
use std::alloc::Allocator;

/// Returns how far a station has come that has done this many events or rounds.
pub fn station_counts<P: Party>(station: &P, done: u64) -> Counts
    ensures { let s = station.now in
        result ≡ station_counts done (P.selects s) (P.ends s) (P.count s) }
{
    let mut counts = Counts::of(done);
    'terminals: for terminal in 0..station.terminals() {
        counts = counts.and(terminal_counts(station, terminal));
    }
    counts
}

/// Returns the counts of the channels of one terminal.
fn terminal_counts<P: Party>(station: &P, terminal: usize) -> Counts
    requires { terminal < P.count station.now }
    ensures { let s = station.now in
        result ≡ terminal_counts (P.selects s terminal) (P.ends s terminal) }
{
    let mut counts = counts_at(station.end(terminal, Way::FromTerminal));
    'selects: for select in 0..station.addresses(terminal) {
        counts = counts.and(counts_at(station.end(terminal, Way::ToTerminal(select))));
    }
    counts
}

/// Returns the counts of the channel with this end.
fn counts_at<A: Allocator>(end: ChannelEnd<'_, A>) -> Counts
    ensures { result ≡ counts_at (end_of end.entry) }
{
    match end {
        ChannelEnd::Sending { known, doubt, .. } => Counts::sending(known, doubt),
        ChannelEnd::Receiving { records } => Counts::receiving(records.len()),
    }
}
