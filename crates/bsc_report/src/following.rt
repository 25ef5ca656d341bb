//! Prints the records that arrive at a station a few at a time.

ghost use Rattle.std.specs.Prelude.{◌≡◌, ◌<◌, ◌+◌, ◌-◌, length, min, IfOk, OnOk};
ghost use Rattle.std.specs.Io.KnownBytes.{Appends};
ghost use Rattle.bsc_text.specs.Channels.{each_below};
ghost use Rattle.bsc_report.specs.Following.{AreSomeCounted, left_after, next_lines, some_lines};
ghost use Rattle.bsc_report.specs.Following.{unprinted_on};

use crate::RecordLines;
use crate::arrivals::{channel_of, print_records};
use bsc_station::Party;
use bsc_text::PrintError;
use std::alloc::Allocator;
use std::io::Write;

/// Prints records that arrived at a station after those that were printed before, in order, one
/// line each, channel by channel: all, or if these are more than `most`, the first of them.
/// `printed` has the number of records printed so far for each channel on which the station
/// receives. Returns how many more could have been printed. After an error a part of the output may
/// have been written.
pub fn print_some<A: Allocator + Copy, P: Party, W: Write>(
    alloc: A,
    lines: RecordLines,
    station: &P,
    printed: &mut [usize],
    most: usize,
    out: &mut W,
) -> Result<usize, PrintError>
    requires { length printed.old ≡ P.receives station.now }
    ensures text { OnOk result (Appends (W.contents out.old) (W.contents out.new)
        (each_below (some_lines P.Party station.now lines printed.old most)
        (P.receives station.now))) }
    ensures counts { OnOk result
        (AreSomeCounted P.Party station.now printed.old most printed.new
        (P.receives station.now)) }
    ensures left { IfOk result (λ left.
        left ≡ left_after P.Party station.now printed.old most (P.receives station.now)) }
{
    let mut left = most;
    'channels: for number in 0..station.spools() {
        left = print_next(
            alloc,
            lines,
            station,
            number,
            &mut printed[number],
            left,
            out,
        )?;
    }
    Ok(left)
}

/// Prints the next records of one channel, at most `most`, and updates their number. Returns how
/// many more could have been printed.
fn print_next<A: Allocator + Copy, P: Party, W: Write>(
    alloc: A,
    lines: RecordLines,
    station: &P,
    number: usize,
    printed: &mut usize,
    most: usize,
    out: &mut W,
) -> Result<usize, PrintError>
    requires { number < P.receives station.now }
    ensures text { OnOk result (Appends (W.contents out.old) (W.contents out.new)
        (next_lines P.Party station.now lines number printed.old
        (min (unprinted_on P.Party station.now number printed.old) most))) }
    ensures count { OnOk result (printed.new
        ≡ printed.old + min (unprinted_on P.Party station.now number printed.old) most) }
    ensures left { IfOk result (λ left.
        left ≡ most - unprinted_on P.Party station.now number printed.old) }
{
    let received = station.received(number);
    let records = received.records;
    let count = records.len().saturating_sub(*printed).min(most);
    if count == 0 {
        return Ok(most);
    }
    let channel = channel_of(station, received.terminal, received.way);
    let to = *printed + count;
    print_records(alloc, lines, channel, records, *printed, to, out)?;
    *printed = to;
    Ok(most - count)
}
