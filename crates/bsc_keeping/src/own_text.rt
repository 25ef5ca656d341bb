//! The text by which a store belongs to a station of a line.

ghost use Rattle.std.specs.Prelude.{◌≡◌, ◌<◌, [], IfOk, OnOk, length, slice_index_or, string_bytes};
ghost use Rattle.std.specs.Io.KnownBytes.{Appends};
ghost use Rattle.std.specs.List.{flat_map};
ghost use Rattle.bsc_keeping.specs.OwnText.{owner_line, full_line, select_shown, terminal_line};
ghost use Rattle.bsc_keeping.specs.OwnText.{own_text_of};

use bsc_bid::{Speaker, Terminal};
use bsc_config::Config;
use bsc_text::{Form, PrintError, put, write_in_form};
use std::alloc::{AllocError, Global};
use std::io::Write;

/// Writes which station it is.
fn write_owner<W: Write>(owner: Speaker, out: &mut W) -> Result<(), PrintError>
    ensures { OnOk result
        (Appends (W.contents out.old) (W.contents out.new) (owner_line owner)) }
{
    match owner {
        Speaker::Control => put(b"control station\n", out),
        Speaker::Terminal { number } => Ok(write!(out, "terminal {number}\n")?),
    }
}

/// Returns the full length of a record.
fn full_of(config: &Config) -> u8
    ensures { result ≡ config.now.setup.format.full }
{
    config.setup().format().full()
}

/// Writes the full length of a record.
fn write_full<W: Write>(full: u8, out: &mut W) -> Result<(), PrintError>
    ensures { OnOk result (Appends (W.contents out.old) (W.contents out.new) (full_line full)) }
{
    Ok(write!(out, "full length {full}\n")?)
}

/// Writes a selection address.
fn write_select<W: Write>(
    alloc: Global,
    terminal: &Terminal,
    place: usize,
    out: &mut W,
) -> Result<(), PrintError>
    requires { place < length terminal.now.selects }
    ensures { OnOk result (Appends (W.contents out.old) (W.contents out.new)
        (select_shown (slice_index_or terminal.now.selects place []))) }
{
    put(b" ", out)?;
    write_in_form(
        alloc,
        Form::Hexadecimal,
        terminal.select(place).codes(),
        out,
    )
}

/// Writes the addresses of a terminal.
fn write_terminal<W: Write>(
    alloc: Global,
    terminal: &Terminal,
    out: &mut W,
) -> Result<(), PrintError>
    ensures { OnOk result
        (Appends (W.contents out.old) (W.contents out.new) (terminal_line terminal.now)) }
{
    put(b"polled ", out)?;
    write_in_form(alloc, Form::Hexadecimal, terminal.poll().codes(), out)?;
    put(b" selected", out)?;
    'selects: for place in 0..terminal.selects() {
        write_select(alloc, terminal, place, out)?;
    }
    put(b"\n", out)
}

/// Writes the addresses of all terminals.
fn write_terminals<W: Write>(
    alloc: Global,
    terminals: &[Terminal],
    out: &mut W,
) -> Result<(), PrintError>
    ensures { OnOk result (Appends (W.contents out.old) (W.contents out.new)
        (flat_map terminal_line terminals.now)) }
{
    'terminals: for terminal in terminals {
        write_terminal(alloc, terminal, out)?;
    }
    Ok(())
}

/// Writes the text by which a store belongs to a station of this line.
fn write_own_text<W: Write>(
    alloc: Global,
    config: &Config,
    owner: Speaker,
    out: &mut W,
) -> Result<(), PrintError>
    ensures { OnOk result (Appends (W.contents out.old) (W.contents out.new)
        (own_text_of config.now owner)) }
{
    write_owner(owner, out)?;
    write_full(full_of(config), out)?;
    write_terminals(alloc, config.terminal_list(), out)?;
    Ok(())
}

/// Returns the text by which a store belongs to a station of this line: which station it is, the
/// full length of a record, and the addresses of all terminals, a line each. The other settings may
/// change from run to run. Fails only if an allocation fails.
pub(crate) fn own_text(alloc: Global, config: &Config, owner: Speaker) -> Result<String, AllocError>
    ensures { IfOk result (λ text. string_bytes text ≡ own_text_of config.now owner) }
{
    let mut octets = Vec::new(alloc);
    if write_own_text(alloc, config, owner, &mut octets).is_err() {
        return Err(AllocError);
    }
    match String::from_utf8(octets) {
        Ok(text) => Ok(text),
        // Every octet of the text is that of an ASCII character.
        Err(_) => Err(AllocError),
    }
}
