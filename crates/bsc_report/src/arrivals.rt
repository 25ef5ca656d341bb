//! Prints the records that arrive at a station.

ghost use Rattle.std.specs.Prelude.{◌≡◌, ◌<◌, ◌≤◌, ◌-◌, length, drop, take, Ok, OnOk, false, true};
ghost use Rattle.std.specs.Io.KnownBytes.{Appends};
ghost use Rattle.bsc_text.specs.Channels.{channel_name, each_below};
ghost use Rattle.bsc_report.specs.Printed.{arrival_line, lines_from, number_shown};
ghost use Rattle.bsc_report.specs.Arrivals.{AreCounted, AsManyArePrinted, MoreArePrinted};
ghost use Rattle.bsc_report.specs.Arrivals.{arrivals_of};
ghost use Rattle.bsc_report.specs.Arrivals.{channel_arrivals, channel_at, counted};

use crate::RecordLines;
use bsc_bid::ChannelName;
use bsc_block::Records;
use bsc_control::Way;
use bsc_station::{Party, Received};
use bsc_text::{PrintError, put, write_channel_name, write_in_form};
use std::alloc::Allocator;
use std::io::Write;

/// The name of a channel of a terminal that has this many selection addresses.
#[derive(Clone, Copy)]
pub(crate) struct ShownName {
    addresses: usize,
    name: ChannelName,
}

/// Returns the name of a channel on which this station receives.
pub(crate) fn channel_of<P: Party>(station: &P, terminal: usize, way: Way) -> ShownName
    requires { terminal < P.count station.now }
    ensures { result ≡ channel_at P.Party station.now terminal way }
{
    ShownName {
        addresses: station.addresses(terminal),
        name: ChannelName {
            terminal: station.number(terminal),
            way,
        },
    }
}

/// Prints the records that arrived at a station after those that were printed before, in order, one
/// line each, channel by channel. `printed` holds the number of records printed so far for each
/// channel on which the station receives. Returns whether there was a new record. After an error a
/// part of the output may have been written.
pub fn print_arrivals<A: Allocator + Copy, P: Party, W: Write>(
    alloc: A,
    lines: RecordLines,
    station: &P,
    printed: &mut [usize],
    out: &mut W,
) -> Result<bool, PrintError>
    requires { length printed.old ≡ P.receives station.now }
    ensures text { OnOk result (Appends (W.contents out.old) (W.contents out.new)
        (each_below (arrivals_of P.Party station.now lines printed.old) (P.receives station.now))) }
    ensures counts { OnOk result
        (AreCounted P.Party station.now printed.old printed.new (P.receives station.now)) }
    ensures some { result ≡ Ok true →
        MoreArePrinted printed.old printed.new (P.receives station.now) }
    ensures none { result ≡ Ok false →
        AsManyArePrinted printed.old printed.new (P.receives station.now) }
{
    let mut found = false;
    'channels: for number in 0..station.spools() {
        found |= print_channel(alloc, lines, station, number, &mut printed[number], out)?;
    }
    Ok(found)
}

/// Prints the new records of one channel, updates their number, and returns whether there was one.
fn print_channel<A: Allocator + Copy, P: Party, W: Write>(
    alloc: A,
    lines: RecordLines,
    station: &P,
    number: usize,
    printed: &mut usize,
    out: &mut W,
) -> Result<bool, PrintError>
    requires { number < P.receives station.now }
    ensures text { OnOk result (Appends (W.contents out.old) (W.contents out.new)
        (channel_arrivals P.Party station.now lines number printed.old)) }
    ensures count { OnOk result
        (printed.new ≡ counted P.Party station.now number printed.old) }
    ensures some { result ≡ Ok true → printed.old < printed.new }
    ensures none { result ≡ Ok false → printed.new ≡ printed.old }
{
    let received = station.received(number);
    let records = received.records;
    if records.len() <= *printed {
        return Ok(false);
    }
    let channel = channel_of(station, received.terminal, received.way);
    print_records(alloc, lines, channel, records, *printed, records.len(), out)?;
    *printed = records.len();
    Ok(true)
}

/// Prints a line for each of these records from one place up to another, which is not counted in.
pub(crate) fn print_records<A: Allocator + Copy, B: Allocator, W: Write>(
    alloc: A,
    lines: RecordLines,
    channel: ShownName,
    records: &Records<B>,
    from: usize,
    to: usize,
    out: &mut W,
) -> Result<(), PrintError>
    requires ordered { from ≤ to }
    requires within { to ≤ length records.now.items }
    ensures { OnOk result (Appends (W.contents out.old) (W.contents out.new)
        (lines_from lines
        (channel_name channel.addresses channel.name.terminal channel.name.way) from
        (take (to - from) (drop from records.now.items)))) }
{
    'records: for place in from..to {
        print_record(alloc, lines, channel, place, records.chars(place), out)?;
    }
    Ok(())
}

/// Prints the line for the record at this place, which has these characters.
fn print_record<A: Allocator, W: Write>(
    alloc: A,
    lines: RecordLines,
    channel: ShownName,
    place: usize,
    chars: &[u8],
    out: &mut W,
) -> Result<(), PrintError>
    ensures { OnOk result (Appends (W.contents out.old) (W.contents out.new)
        (arrival_line lines
        (channel_name channel.addresses channel.name.terminal channel.name.way) place chars.now)) }
{
    let name = channel.name;
    write_channel_name(channel.addresses, name.terminal, name.way, out)?;
    write_number(lines.numbers, place, out)?;
    put(b": ", out)?;
    write_in_form(alloc, lines.form, chars, out)?;
    put(b"\n", out)
}

/// Writes the number of a record, if lines have numbers.
fn write_number<W: Write>(numbers: bool, place: usize, out: &mut W) -> Result<(), PrintError>
    ensures { OnOk result
        (Appends (W.contents out.old) (W.contents out.new) (number_shown numbers place)) }
{
    if !numbers {
        return Ok(());
    }
    Ok(write!(out, " {place}")?)
}
