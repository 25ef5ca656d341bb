//! The records that arrived at a terminal.

ghost use Rattle.bsc_embed.specs.TerminalArrivals.{GetsArrivals, GetsArrived};

use crate::interface::Fault;
use crate::station_calls::put_record;
use crate::terminal_calls::MadeTerminal;

/// Puts into `count` how many records arrived for the selection address of this number, counted
/// from 0. The fault is `NoSuchAddress` if the terminal has no such address.
pub fn arrivals(terminal: &MadeTerminal, select: usize, count: &mut usize) -> Result<(), Fault>
    ensures { GetsArrivals select count.old count.new terminal.now result }
{
    if select >= terminal.addresses.selects() {
        return Err(Fault::NoSuchAddress);
    }
    *count = terminal.station.spool(select).records().len();
    Ok(())
}

/// Puts a record that arrived for the selection address of this number at the front of `chars`, and
/// the number of its characters, 0 to 144, into `len`. The record is given by its number, counted
/// from 0 in the order in which they arrived. The fault is `NoSuchAddress` if the terminal has no
/// such address, else `NoSuchRecord` if fewer records arrived, else `NoRoom` if `chars` is too
/// short for the record; a buffer of 144 octets is long enough for each.
pub fn arrived(
    terminal: &MadeTerminal,
    select: usize,
    index: usize,
    chars: &mut [u8],
    len: &mut usize,
) -> Result<(), Fault>
    ensures { GetsArrived select index chars.old len.old chars.new len.new terminal.now result }
{
    if select >= terminal.addresses.selects() {
        return Err(Fault::NoSuchAddress);
    }
    put_record(terminal.station.spool(select), index, chars, len)
}
