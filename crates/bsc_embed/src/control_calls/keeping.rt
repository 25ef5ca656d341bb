//! What is kept of a control station for the case that its process ends, and how a new one recalls
//! it.

ghost use Rattle.bsc_embed.specs.ControlKeeping.{GetsKept, KeepsArrived, Recalls};

use crate::control_calls::addressing::{find_address, find_terminal};
use crate::interface::{Fault, StoredKept};
use crate::station_calls::laws::refusals_change_nothing;
use crate::station_calls::read_arrived;
use bsc_control::Control;
use std::alloc::Global;

/// Puts into `kept` what is to be kept now of the sending side of a selection address, beside the
/// records of its queue and those that arrived. With these a new station becomes the restarted one:
/// they are offered again, those that arrived are given to [`keep_arrived`], and then this to
/// [`recall`]. The fault is `NoSuchTerminal` or else `NoSuchAddress` if there is no such address.
pub fn kept(
    control: &Control<Global>,
    terminal: usize,
    select: usize,
    kept: &mut StoredKept,
) -> Result<(), Fault>
    ensures { GetsKept terminal select kept.old kept.new control.now result }
{
    find_address(control, terminal, select)?;
    *kept = StoredKept::of(control.kept(terminal, select));
    Ok(())
}

/// Adds the record of these codes, which had arrived from the terminal of this number before the
/// process of the control station ended. The fault is `NoSuchTerminal` if there is no such
/// terminal, else `TooLong` if there are more than 144 codes, which other equipment may send
/// whatever the full length is, else `NotText` if one of them is not a record character, else
/// `Memory` if there is no memory for the record.
pub fn keep_arrived(
    control: &mut Control<Global>,
    terminal: usize,
    chars: &[u8],
) -> Result<(), Fault>
    ensures { KeepsArrived terminal chars.now control.old control.new result }
{
    find_terminal(control, terminal)?;
    let record = read_arrived(chars)?;
    match control.keep_arrived(terminal, record) {
        Ok(()) => Ok(()),
        Err(_) => Err(Fault::Memory),
    }
}

/// Recalls what was kept of the sending side of a selection address, once the records that had been
/// offered for it are offered again. The fault is `NoSuchTerminal` or else `NoSuchAddress` if there
/// is no such address; else `NotNew` if the station is not at rest, a block is in doubt, or a
/// record is known to have arrived; else `Known` if more records are known than were offered; else
/// `Doubt` if the doubtful block does not have 1 to 7 records, or more than are not known.
pub fn recall(
    control: &mut Control<Global>,
    terminal: usize,
    select: usize,
    kept: &StoredKept,
) -> Result<(), Fault>
    ensures { Recalls terminal select kept.now control.old control.new result }
{
    refusals_change_nothing();
    find_address(control, terminal, select)?;
    control.recall(terminal, select, kept.kept())?;
    Ok(())
}
