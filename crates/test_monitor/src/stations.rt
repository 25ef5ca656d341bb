//! Stations of a line with a record to send.

ghost use Rattle.std.specs.Prelude.{◌≡◌};

use bsc_bid::Setup;
use bsc_block::Record;
use bsc_config::read_config;
use bsc_control::Control;
use bsc_station::{
    LineTerminal, new_control, new_terminal, offer_at_terminal, offer_for_terminal, read_records,
};
use std::alloc::Global;
use std::test::Fail;
use test_fixtures::configurations::TWO_TERMINALS;
use test_fixtures::on_heap;

/// Offers the records of this text at a terminal of a line with these settings.
fn offer_at(
    alloc: Global,
    terminal: &mut LineTerminal<Global>,
    setup: Setup,
    text: &[u8],
) -> Result<(), Fail>
    requires { terminal.old.tributary.queue.format ≡ setup.format }
{
    let records = read_records(alloc, text, setup.format().full())?;
    Ok(offer_at_terminal(terminal, records)?)
}

/// Terminal 0 of a line of two, with the records of this text to send.
pub(crate) fn terminal_of(alloc: Global, text: &[u8]) -> Result<Box<LineTerminal<Global>>, Fail> {
    let config = read_config(alloc, TWO_TERMINALS.as_bytes())?;
    if config.terminals() == 0 {
        return Err(Fail::new("no terminal"));
    }
    let mut terminal = Box::new(alloc, new_terminal(alloc, &config, 0))?;
    offer_at(alloc, &mut terminal, config.setup(), text)?;
    Ok(terminal)
}

/// The control station of the line that a document describes, with nothing to send.
pub(crate) fn control_of(alloc: Global, document: &str) -> Result<Box<Control<Global>>, Fail> {
    let config = read_config(alloc, document.as_bytes())?;
    on_heap(alloc, new_control(alloc, &config))
}

/// Offers the record HI for this selection address of this terminal.
pub(crate) fn offer_for(
    alloc: Global,
    control: &mut Control<Global>,
    terminal: usize,
    select: usize,
) -> Result<(), Fail> {
    if control.terminals() <= terminal || control.addresses(terminal) <= select {
        return Err(Fail::new("no such address"));
    }
    let records = read_records(alloc, b"HI\n", control.setup().format().full())?;
    Ok(offer_for_terminal(control, terminal, select, records)?)
}

/// The control station of a line of two terminals, with the record HI to send to terminal 0.
pub(crate) fn sending_control(alloc: Global) -> Result<Box<Control<Global>>, Fail> {
    let mut control = control_of(alloc, TWO_TERMINALS)?;
    offer_for(alloc, &mut control, 0, 0)?;
    Ok(control)
}

/// The record of these characters, if they are one.
pub(crate) fn card(chars: &[u8]) -> Option<Record> {
    Record::read(chars, 144).ok()
}

/// Adds this many of these records to those that arrived from this terminal, if there is memory for
/// them.
pub(crate) fn add(
    control: &mut Control<Global>,
    terminal: usize,
    chars: &[u8],
    count: usize,
) -> Option<()> {
    for _ in 0..count {
        if control.terminals() <= terminal {
            return None;
        }
        control.keep_arrived(terminal, card(chars)?).ok()?;
    }
    Some(())
}
