//! The report of a station: the channels that end at it.

ghost use Rattle.std.specs.Prelude.{◌≡◌, ◌++◌, ◌<◌, codes, length, OnOk};
ghost use Rattle.std.specs.Fmt.{decimal};
ghost use Rattle.std.specs.Io.KnownBytes.{Appends};
ghost use Rattle.bsc_text.specs.Channels.{doubt_shown};
ghost use Rattle.bsc_station.specs.Ends.{IsWay};
ghost use Rattle.bsc_station.specs.EndValues.{end_of};
ghost use Rattle.bsc_report.specs.Printed.{end_shown, channel_lines, repeated_lines};
ghost use Rattle.bsc_report.specs.Printed.{station_report, terminal_lines};

use bsc_block::Records;
use bsc_control::Way;
use bsc_station::{ChannelEnd, Party};
use bsc_text::{Form, PrintError, doubt_text, put, write_channel_name, write_records};
use std::alloc::Allocator;
use std::io::Write;

/// Writes the report of a station. For each channel on which it sends: the number of records
/// offered, the number known to have arrived, and whether the channel is in doubt. For each channel
/// on which it receives: the number of records that arrived, and the records in the form
/// `repeated`, if there is one. The channels are in the order of the report of a run. After an
/// error a part of the report may have been written.
pub fn write_report<A: Allocator + Copy, P: Party, W: Write>(
    alloc: A,
    repeated: Option<Form>,
    station: &P,
    out: &mut W,
) -> Result<(), PrintError>
    ensures { let s = station.now in OnOk result
        (Appends (W.contents out.old) (W.contents out.new)
        (station_report repeated (P.selects s) (P.numbers s) (P.ends s) (P.count s))) }
{
    'terminals: for terminal in 0..station.terminals() {
        write_terminal(alloc, repeated, station, terminal, out)?;
    }
    Ok(())
}

/// Writes the lines for a terminal.
fn write_terminal<A: Allocator + Copy, P: Party, W: Write>(
    alloc: A,
    repeated: Option<Form>,
    station: &P,
    terminal: usize,
    out: &mut W,
) -> Result<(), PrintError>
    requires { terminal < P.count station.now }
    ensures { let s = station.now in OnOk result
        (Appends (W.contents out.old) (W.contents out.new)
        (terminal_lines repeated (P.selects s terminal) (P.numbers s terminal)
        (P.ends s terminal))) }
{
    write_channel(alloc, repeated, station, terminal, Way::FromTerminal, out)?;
    'selects: for select in 0..station.addresses(terminal) {
        write_channel(
            alloc,
            repeated,
            station,
            terminal,
            Way::ToTerminal(select),
            out,
        )?;
    }
    Ok(())
}

/// Writes the lines for a channel.
fn write_channel<A: Allocator + Copy, P: Party, W: Write>(
    alloc: A,
    repeated: Option<Form>,
    station: &P,
    terminal: usize,
    way: Way,
    out: &mut W,
) -> Result<(), PrintError>
    requires known { terminal < P.count station.now }
    requires its_way { IsWay way (P.selects station.now terminal) }
    ensures { let s = station.now in OnOk result
        (Appends (W.contents out.old) (W.contents out.new)
        (channel_lines repeated (P.selects s terminal) (P.numbers s terminal) (P.ends s terminal)
        way)) }
{
    let addresses = station.addresses(terminal);
    let number = station.number(terminal);
    write_channel_name(addresses, number, way, out)?;
    write_end(alloc, repeated, station.end(terminal, way), out)
}

/// Writes the state of a channel at its end.
fn write_end<A: Allocator + Copy, B: Allocator, W: Write>(
    alloc: A,
    repeated: Option<Form>,
    end: ChannelEnd<'_, B>,
    out: &mut W,
) -> Result<(), PrintError>
    ensures { OnOk result
        (Appends (W.contents out.old) (W.contents out.new)
        (end_shown repeated (end_of end.entry))) }
{
    match end {
        ChannelEnd::Sending {
            offered,
            known,
            doubt,
        } => write_sending(offered, known, doubt, out),
        ChannelEnd::Receiving { records } => write_receiving(alloc, repeated, records, out),
    }
}

/// Writes the state of a channel on which the station sends.
fn write_sending<W: Write>(
    offered: usize,
    known: usize,
    doubt: bool,
    out: &mut W,
) -> Result<(), PrintError>
    ensures { OnOk result
        (Appends (W.contents out.old) (W.contents out.new)
        (codes ": offered " ++ decimal offered ++ codes ", known " ++ decimal known
        ++ doubt_shown doubt)) }
{
    write_counts(offered, known, out)?;
    put(doubt_text(doubt), out)
}

/// Writes the number of records offered and the number known to have arrived.
fn write_counts<W: Write>(offered: usize, known: usize, out: &mut W) -> Result<(), PrintError>
    ensures { OnOk result
        (Appends (W.contents out.old) (W.contents out.new)
        (codes ": offered " ++ decimal offered ++ codes ", known " ++ decimal known)) }
{
    Ok(write!(out, ": offered {offered}, known {known}")?)
}

/// Writes the number of records that arrived on a channel, and the records if they are repeated.
fn write_receiving<A: Allocator + Copy, B: Allocator, W: Write>(
    alloc: A,
    repeated: Option<Form>,
    records: &Records<B>,
    out: &mut W,
) -> Result<(), PrintError>
    ensures { OnOk result
        (Appends (W.contents out.old) (W.contents out.new)
        (codes ": spooled " ++ decimal (length records.now.items) ++ codes "\n"
        ++ repeated_lines repeated records.now.items)) }
{
    write_count(records.len(), out)?;
    write_repeated(alloc, repeated, records, out)
}

/// Writes the records in a form; nothing without a form.
fn write_repeated<A: Allocator + Copy, B: Allocator, W: Write>(
    alloc: A,
    repeated: Option<Form>,
    records: &Records<B>,
    out: &mut W,
) -> Result<(), PrintError>
    ensures { OnOk result
        (Appends (W.contents out.old) (W.contents out.new)
        (repeated_lines repeated records.now.items)) }
{
    match repeated {
        Some(form) => write_records(alloc, form, records, out),
        None => Ok(()),
    }
}

/// Writes the number of records that arrived.
fn write_count<W: Write>(spooled: usize, out: &mut W) -> Result<(), PrintError>
    ensures { OnOk result
        (Appends (W.contents out.old) (W.contents out.new)
        (codes ": spooled " ++ decimal spooled ++ codes "\n")) }
{
    Ok(write!(out, ": spooled {spooled}\n")?)
}
