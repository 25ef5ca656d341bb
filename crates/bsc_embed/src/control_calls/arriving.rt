//! The records that arrived at a control station.

ghost use Rattle.bsc_embed.specs.ControlArrivals.{GetsArrivals, GetsArrived};

use crate::control_calls::addressing::find_terminal;
use crate::interface::Fault;
use crate::station_calls::put_record;
use bsc_control::Control;
use std::alloc::Global;

/// Puts into `count` how many records arrived from the terminal of this number. The fault is
/// `NoSuchTerminal` if there is no such terminal.
pub fn arrivals(control: &Control<Global>, terminal: usize, count: &mut usize) -> Result<(), Fault>
    ensures { GetsArrivals terminal count.old count.new control.now result }
{
    find_terminal(control, terminal)?;
    *count = control.spool(terminal).records().len();
    Ok(())
}

/// Puts a record that arrived from the terminal of this number at the front of `chars`, and the
/// number of its characters, 0 to 144, into `len`. The record is given by its number, counted from
/// 0 in the order in which they arrived. The fault is `NoSuchTerminal` if there is no such
/// terminal, else `NoSuchRecord` if fewer records arrived, else `NoRoom` if `chars` is too short
/// for the record; a buffer of 144 octets is long enough for each.
pub fn arrived(
    control: &Control<Global>,
    terminal: usize,
    index: usize,
    chars: &mut [u8],
    len: &mut usize,
) -> Result<(), Fault>
    ensures { GetsArrived terminal index chars.old len.old chars.new len.new control.now result }
{
    find_terminal(control, terminal)?;
    put_record(control.spool(terminal), index, chars, len)
}
