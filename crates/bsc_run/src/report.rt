//! The report of a line: the records offered, known and spooled on each channel, the records that
//! arrived, and whether the line is trusted.

ghost use Rattle.std.specs.Prelude.{◌≡◌, ◌<◌, OnOk};
ghost use Rattle.std.specs.Io.KnownBytes.{Appends};
ghost use Rattle.bsc_line_model.specs.Line.{terminal_count, IsChannel, channel_of};
ghost use Rattle.bsc_text.specs.Fronts.{Extends};
ghost use Rattle.bsc_run.specs.Printed.{counts_shown, channel_lines, terminal_lines, trust_line};
ghost use Rattle.bsc_run.specs.Printed.{report_of};

use bsc_control::Way;
use bsc_line::Line;
use bsc_text::{
    Form, PrintError, doubt_text, put, put_numbered, write_channel_name, write_records,
};
use std::alloc::Allocator;
use std::io::Write;

/// Writes the report of a line: the counts of each channel of each terminal with the records that
/// arrived on it, and whether the line is trusted. After an error a part of the report may have
/// been written. What was written before stays.
pub fn write_report<A: Allocator + Copy, B: Allocator, W: Write>(
    alloc: A,
    line: &Line<B>,
    out: &mut W,
) -> Result<(), PrintError>
    ensures ok { OnOk result
        (Appends (W.contents out.old) (W.contents out.new) (report_of line.now)) }
    ensures stays { Extends (W.contents out.old) (W.contents out.new) }
{
    'terminals: for terminal in 0..line.terminals() {
        write_terminal(alloc, line, terminal, out)?;
    }
    put(trust_text(line.trusted()), out)
}

/// Returns the last line of the report.
fn trust_text(trusted: bool) -> &'static [u8]
    ensures { result.now ≡ trust_line trusted }
{
    if trusted {
        b"trusted\n"
    } else {
        b"not trusted\n"
    }
}

/// Writes the lines for a terminal.
fn write_terminal<A: Allocator + Copy, B: Allocator, W: Write>(
    alloc: A,
    line: &Line<B>,
    terminal: usize,
    out: &mut W,
) -> Result<(), PrintError>
    requires { terminal < terminal_count line.now }
    ensures ok { OnOk result
        (Appends (W.contents out.old) (W.contents out.new) (terminal_lines line.now terminal)) }
    ensures stays { Extends (W.contents out.old) (W.contents out.new) }
{
    write_channel(alloc, line, terminal, Way::FromTerminal, out)?;
    'selects: for select in 0..line.addresses(terminal) {
        write_channel(alloc, line, terminal, Way::ToTerminal(select), out)?;
    }
    Ok(())
}

/// Writes the lines for a channel.
fn write_channel<A: Allocator + Copy, B: Allocator, W: Write>(
    alloc: A,
    line: &Line<B>,
    terminal: usize,
    way: Way,
    out: &mut W,
) -> Result<(), PrintError>
    requires { IsChannel line.now terminal way }
    ensures ok { OnOk result
        (Appends (W.contents out.old) (W.contents out.new) (channel_lines line.now terminal way)) }
    ensures stays { Extends (W.contents out.old) (W.contents out.new) }
{
    write_channel_name(line.addresses(terminal), terminal, way, out)?;
    write_counts(line, terminal, way, out)?;
    put(doubt_text(line.in_doubt(terminal, way)), out)?;
    let records = line.spooled(terminal, way);
    write_records(alloc, Form::Hexadecimal, records, out)
}

/// Writes the numbers of records offered, known and spooled on a channel.
fn write_counts<B: Allocator, W: Write>(
    line: &Line<B>,
    terminal: usize,
    way: Way,
    out: &mut W,
) -> Result<(), PrintError>
    requires { IsChannel line.now terminal way }
    ensures ok { OnOk result
        (Appends (W.contents out.old) (W.contents out.new)
        (counts_shown (channel_of line.now terminal way))) }
    ensures stays { Extends (W.contents out.old) (W.contents out.new) }
{
    let offered = line.offered(terminal, way).len();
    let known = line.known(terminal, way);
    let spooled = line.spooled(terminal, way).len();
    put_numbered(b": offered ", offered as u64, out)?;
    put_numbered(b", known ", known as u64, out)?;
    put_numbered(b", spooled ", spooled as u64, out)
}
