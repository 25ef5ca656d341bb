//! The lines of the trace for the addresses of the terminals.

ghost use Rattle.std.specs.Prelude.{◌++◌, OnOk, IfErr, IsTrue, codes, slice_get};
ghost use Rattle.std.specs.Fmt.{decimal};
ghost use Rattle.std.specs.List.{flat_map};
ghost use Rattle.std.specs.Io.KnownBytes.{Appends};
ghost use Rattle.bsc_run.specs.Addresses.{address_line, address_line_of, address_lines};
ghost use Rattle.bsc_run.specs.Addresses.{address_shown, addresses_traced};

use bsc_bid::Terminal;
use bsc_text::{PrintError, put, write_time};
use std::io::Write;

/// Writes the selection addresses of a terminal, each after a space.
fn write_selects<W: Write>(terminal: &Terminal, out: &mut W) -> Result<(), PrintError>
    ensures { OnOk result (Appends (W.contents out.old) (W.contents out.new)
        (flat_map address_shown terminal.now.selects)) }
{
    'selects: for select in 0..terminal.selects() {
        put(b" ", out)?;
        put(terminal.select(select).codes(), out)?;
    }
    Ok(())
}

/// Writes that a line is about the terminal with this number.
fn write_terminal_number<W: Write>(number: usize, out: &mut W) -> Result<(), PrintError>
    ensures { OnOk result (Appends (W.contents out.old) (W.contents out.new)
        (codes "terminal " ++ decimal number ++ codes " is ")) }
{
    Ok(write!(out, "terminal {number} is ")?)
}

/// Writes the line for the terminal with this number.
fn write_terminal<W: Write>(
    number: usize,
    terminal: &Terminal,
    out: &mut W,
) -> Result<(), PrintError>
    ensures { OnOk result
        (Appends (W.contents out.old) (W.contents out.new) (address_line number terminal.now)) }
{
    write_time(0, out)?;
    write_terminal_number(number, out)?;
    put(terminal.poll().codes(), out)?;
    put(b", selected as", out)?;
    write_selects(terminal, out)?;
    put(b".\n", out)
}

/// Writes the line for the terminal with this number, if there is one.
fn write_numbered<W: Write>(
    terminals: &[Terminal],
    number: usize,
    out: &mut W,
) -> Result<(), PrintError>
    ensures { OnOk result (Appends (W.contents out.old) (W.contents out.new)
        (address_line_of number (slice_get terminals.now number))) }
{
    match terminals.get(number) {
        Some(terminal) => write_terminal(number, terminal, out),
        None => Ok(()),
    }
}

/// Writes the lines for the addresses of these terminals, if there is a trace.
pub(crate) fn trace_addresses<W: Write>(
    tracing: bool,
    terminals: &[Terminal],
    out: &mut W,
) -> Result<(), PrintError>
    ensures traced { OnOk result (Appends (W.contents out.old) (W.contents out.new)
        (addresses_traced tracing terminals.now)) }
    ensures cause { IfErr result (λ error. IsTrue tracing) }
{
    if !tracing {
        return Ok(());
    }
    write_addresses(terminals, out)
}

/// Writes the lines for the addresses of these terminals.
fn write_addresses<W: Write>(terminals: &[Terminal], out: &mut W) -> Result<(), PrintError>
    ensures { OnOk result
        (Appends (W.contents out.old) (W.contents out.new) (address_lines terminals.now)) }
{
    'terminals: for number in 0..terminals.len() {
        write_numbered(terminals, number, out)?;
    }
    Ok(())
}
