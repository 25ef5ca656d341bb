//! The lines of the trace for what an event changed: the records that landed, each doubt that
//! begins, and the end of trust.

ghost use Rattle.std.specs.Prelude.{OnOk, IfErr, IsTrue, drop, is_some};
ghost use Rattle.std.specs.List.{All, flat_map};
ghost use Rattle.std.specs.Io.KnownBytes.{Appends};
ghost use Rattle.bsc_line_model.specs.Line.{IsChannel};
ghost use Rattle.bsc_run.specs.Changes.{changes_since, channel_changes, doubt_line, end_shown};
ghost use Rattle.bsc_run.specs.Changes.{if_begins, landed_line, trust_changes};
ghost use Rattle.bsc_run.specs.Traces.{if_traced};

use crate::marks::{write_doubt, write_place, write_record};
use crate::standing::{ChannelStanding, LineStanding};
use bsc_block::Records;
use bsc_control::Way;
use bsc_line::Line;
use bsc_text::{PrintError, put, write_time};
use std::alloc::Allocator;
use std::io::Write;

/// Writes the receiving end of a channel.
fn write_end<W: Write>(terminal: usize, way: Way, out: &mut W) -> Result<(), PrintError>
    ensures { OnOk result
        (Appends (W.contents out.old) (W.contents out.new) (end_shown terminal way)) }
{
    match way {
        Way::FromTerminal => Ok(write!(out, "from {terminal}")?),
        Way::ToTerminal(select) => {
            put(b"to ", out)?;
            write_place(terminal, select, out)
        }
    }
}

/// Writes the line for a record that landed.
fn write_landed<A: Allocator, W: Write>(
    alloc: A,
    number: u64,
    before: &ChannelStanding,
    codes: &[u8],
    out: &mut W,
) -> Result<(), PrintError>
    ensures { OnOk result (Appends (W.contents out.old) (W.contents out.new)
        (landed_line number before.now.terminal before.now.way codes.now)) }
{
    write_time(number, out)?;
    put(b"arrived ", out)?;
    write_end(before.terminal, before.way, out)?;
    put(b": ", out)?;
    write_record(alloc, codes, out)?;
    put(b"\n", out)
}

/// Writes a line for each record of a channel that landed since.
fn write_records<A: Allocator + Copy, B: Allocator, W: Write>(
    alloc: A,
    number: u64,
    before: &ChannelStanding,
    records: &Records<B>,
    out: &mut W,
) -> Result<(), PrintError>
    ensures { OnOk result (Appends (W.contents out.old) (W.contents out.new)
        (flat_map (landed_line number before.now.terminal before.now.way)
        (drop before.now.arrived records.now.items))) }
{
    'records: for place in before.arrived..records.len() {
        write_landed(alloc, number, before, records.chars(place), out)?;
    }
    Ok(())
}

/// Writes the line for the doubt about a channel, if it began since.
fn write_new_doubt<W: Write>(
    number: u64,
    before: &ChannelStanding,
    doubt: bool,
    out: &mut W,
) -> Result<(), PrintError>
    ensures { OnOk result (Appends (W.contents out.old) (W.contents out.new)
        (if_begins before.now.doubt doubt
        (doubt_line number before.now.terminal before.now.way))) }
{
    if !before.doubt && doubt {
        write_begins(number, before, out)
    } else {
        Ok(())
    }
}

/// Writes the line for the doubt about a channel.
fn write_begins<W: Write>(
    number: u64,
    before: &ChannelStanding,
    out: &mut W,
) -> Result<(), PrintError>
    ensures { OnOk result (Appends (W.contents out.old) (W.contents out.new)
        (doubt_line number before.now.terminal before.now.way)) }
{
    write_time(number, out)?;
    write_doubt(before.terminal, before.way, out)?;
    put(b" begins\n", out)
}

/// Writes what changed on a channel since.
fn write_channel<A: Allocator + Copy, B: Allocator, W: Write>(
    alloc: A,
    number: u64,
    before: &ChannelStanding,
    line: &Line<B>,
    out: &mut W,
) -> Result<(), PrintError>
    requires { IsChannel line.now before.now.terminal before.now.way }
    ensures { OnOk result (Appends (W.contents out.old) (W.contents out.new)
        (channel_changes number line.now before.now)) }
{
    let records = line.spooled(before.terminal, before.way);
    let doubt = line.in_doubt(before.terminal, before.way);
    write_records(alloc, number, before, records, out)?;
    write_new_doubt(number, before, doubt, out)
}

/// Writes the line for the end of trust, if it ended since.
fn write_trust<W: Write>(
    number: u64,
    before: bool,
    trusted: bool,
    out: &mut W,
) -> Result<(), PrintError>
    ensures { OnOk result (Appends (W.contents out.old) (W.contents out.new)
        (trust_changes number before trusted)) }
{
    if before && !trusted {
        write_time(number, out)?;
        put(b"the line is no longer trusted\n", out)
    } else {
        Ok(())
    }
}

/// Writes what changed on these channels since.
fn write_channels<A: Allocator + Copy, B: Allocator, W: Write>(
    alloc: A,
    number: u64,
    channels: &[ChannelStanding],
    line: &Line<B>,
    out: &mut W,
) -> Result<(), PrintError>
    requires { All (λ before. IsChannel line.now before.terminal before.way) channels.now }
    ensures { OnOk result (Appends (W.contents out.old) (W.contents out.new)
        (flat_map (channel_changes number line.now) channels.now)) }
{
    'channels: for before in channels {
        write_channel(alloc, number, before, line, out)?;
    }
    Ok(())
}

/// Writes the lines for what changed since, if there is a trace.
pub(crate) fn trace_changes<A: Allocator + Copy, B: Allocator, C: Allocator, W: Write>(
    alloc: A,
    number: Option<u64>,
    before: &LineStanding<C>,
    line: &Line<B>,
    out: &mut W,
) -> Result<(), PrintError>
    requires { All (λ one. IsChannel line.now one.terminal one.way) before.now.channels.items }
    ensures traced { OnOk result (Appends (W.contents out.old) (W.contents out.new)
        (if_traced number (λ n.
        changes_since n before.now.channels.items before.now.trusted line.now))) }
    ensures cause { IfErr result (λ error. IsTrue (is_some number)) }
{
    let Some(number) = number else {
        return Ok(());
    };
    write_channels(alloc, number, &before.channels, line, out)?;
    write_trust(number, before.trusted, line.trusted(), out)
}
