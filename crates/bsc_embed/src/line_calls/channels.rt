//! The channels of a line are read.

ghost use Rattle.std.specs.Prelude.{◌≡◌};
ghost use Rattle.bsc_embed.specs.LineChannels.{IsFound, SendingOn, ArrivalsOn, ArrivedOn};
ghost use Rattle.bsc_embed.specs.LineChannels.{SendingFrom, SendingTo, ArrivalsFrom, ArrivalsTo};
ghost use Rattle.bsc_embed.specs.LineChannels.{ArrivedFrom, ArrivedTo};

use crate::interface::{Fault, Sending, put};
use bsc_control::Way;
use bsc_line::Line;
use std::alloc::Global;

/// Gives what a terminal, counted from 0, has as the sending end of its channel. Fault:
/// `NoSuchTerminal`.
pub fn sending_from(
    line: &Line<Global>,
    terminal: usize,
    sending: &mut Sending,
) -> Result<(), Fault>
    ensures { SendingFrom terminal sending.new sending.old line.now result }
{
    sending_on(line, terminal, Way::FromTerminal, sending)
}

/// Gives what the control station has as the sending end of its channel to a selection address of a
/// terminal, both counted from 0. Faults, in this order: `NoSuchTerminal`, `NoSuchAddress`.
pub fn sending_to(
    line: &Line<Global>,
    terminal: usize,
    select: usize,
    sending: &mut Sending,
) -> Result<(), Fault>
    ensures { SendingTo terminal select sending.new sending.old line.now result }
{
    sending_on(line, terminal, Way::ToTerminal(select), sending)
}

/// Gives the number of records that arrived at the control station from a terminal. Fault:
/// `NoSuchTerminal`.
pub fn arrivals_from(line: &Line<Global>, terminal: usize, count: &mut usize) -> Result<(), Fault>
    ensures { ArrivalsFrom terminal count.new count.old line.now result }
{
    arrivals_on(line, terminal, Way::FromTerminal, count)
}

/// Gives the number of records that arrived at a terminal for a selection address. Faults, in this
/// order: `NoSuchTerminal`, `NoSuchAddress`.
pub fn arrivals_to(
    line: &Line<Global>,
    terminal: usize,
    select: usize,
    count: &mut usize,
) -> Result<(), Fault>
    ensures { ArrivalsTo terminal select count.new count.old line.now result }
{
    arrivals_on(line, terminal, Way::ToTerminal(select), count)
}

/// Puts the characters of the record that arrived at the control station from a terminal at this
/// index, counted from 0, at the front of the buffer, and their number, at most 144, into `len`.
/// Faults, in this order: `NoSuchTerminal`, `NoSuchRecord`, `NoRoom`.
pub fn arrived_from(
    line: &Line<Global>,
    terminal: usize,
    index: usize,
    chars: &mut [u8],
    len: &mut usize,
) -> Result<(), Fault>
    ensures { ArrivedFrom terminal index chars.new len.new chars.old len.old line.now result }
{
    arrived_on(line, terminal, Way::FromTerminal, index, chars, len)
}

/// Puts the characters of the record that arrived at a terminal for a selection address at this
/// index, counted from 0, at the front of the buffer, and their number, at most 144, into `len`.
/// Faults, in this order: `NoSuchTerminal`, `NoSuchAddress`, `NoSuchRecord`, `NoRoom`.
pub fn arrived_to(
    line: &Line<Global>,
    terminal: usize,
    select: usize,
    index: usize,
    chars: &mut [u8],
    len: &mut usize,
) -> Result<(), Fault>
    ensures { ArrivedTo terminal select index chars.new len.new chars.old len.old line.now result }
{
    arrived_on(line, terminal, Way::ToTerminal(select), index, chars, len)
}

/// Tests whether the line has this channel. Faults, in this order: `NoSuchTerminal`,
/// `NoSuchAddress`.
fn find(line: &Line<Global>, terminal: usize, way: Way) -> Result<(), Fault>
    ensures { IsFound line.now terminal way result }
{
    if terminal >= line.terminals() {
        return Err(Fault::NoSuchTerminal);
    }
    match way {
        Way::FromTerminal => Ok(()),
        Way::ToTerminal(select) => {
            if select >= line.addresses(terminal) {
                return Err(Fault::NoSuchAddress);
            }
            Ok(())
        }
    }
}

/// Gives what the sending end of a channel has.
fn sending_on(
    line: &Line<Global>,
    terminal: usize,
    way: Way,
    sending: &mut Sending,
) -> Result<(), Fault>
    ensures { SendingOn terminal way sending.new sending.old line.now result }
{
    find(line, terminal, way)?;
    *sending = Sending {
        offered: line.offered(terminal, way).len(),
        known: line.known(terminal, way),
        in_doubt: u32::from(line.in_doubt(terminal, way)),
    };
    Ok(())
}

/// Gives the number of records that arrived on a channel.
fn arrivals_on(
    line: &Line<Global>,
    terminal: usize,
    way: Way,
    count: &mut usize,
) -> Result<(), Fault>
    ensures { ArrivalsOn terminal way count.new count.old line.now result }
{
    find(line, terminal, way)?;
    *count = line.spooled(terminal, way).len();
    Ok(())
}

/// Puts the characters of a record that arrived on a channel at the front of the buffer.
fn arrived_on(
    line: &Line<Global>,
    terminal: usize,
    way: Way,
    index: usize,
    chars: &mut [u8],
    len: &mut usize,
) -> Result<(), Fault>
    ensures { ArrivedOn terminal way index chars.new len.new chars.old len.old line.now result }
{
    find(line, terminal, way)?;
    let records = line.spooled(terminal, way);
    if index >= records.len() {
        return Err(Fault::NoSuchRecord);
    }
    put(records.chars(index), chars, len)
}
