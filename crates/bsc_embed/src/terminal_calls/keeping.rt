//! What is kept of a terminal for the case that its process ends, and how a new one recalls it.

ghost use Rattle.bsc_embed.specs.TerminalKeeping.{GetsKept, KeepsArrived, Recalls};

use crate::interface::{Fault, StoredKept};
use crate::station_calls::laws::refusals_change_nothing;
use crate::station_calls::read_arrived;
use crate::terminal_calls::MadeTerminal;

/// Puts into `kept` what is to be kept of the terminal now, beside the records of its queue and
/// those that arrived. With these a new terminal becomes the restarted one: they are offered again,
/// those that arrived are given to [`keep_arrived`], and then this to [`recall`]. There is no
/// fault.
pub fn kept(terminal: &MadeTerminal, kept: &mut StoredKept) -> Result<(), Fault>
    ensures { GetsKept kept.new terminal.now result }
{
    *kept = StoredKept::of(terminal.station.kept());
    Ok(())
}

/// Adds the record of these codes, which had arrived for the selection address of this number,
/// counted from 0, before the process of the terminal ended. The fault is `NoSuchAddress` if the
/// terminal has no such address, else `TooLong` if there are more than 144 codes, which other
/// equipment may send whatever the full length is, else `NotText` if one of them is not a record
/// character, else `Memory` if there is no memory for the record.
pub fn keep_arrived(terminal: &mut MadeTerminal, select: usize, chars: &[u8]) -> Result<(), Fault>
    ensures { KeepsArrived select chars.now terminal.old terminal.new result }
{
    if select >= terminal.addresses.selects() {
        return Err(Fault::NoSuchAddress);
    }
    let record = read_arrived(chars)?;
    match terminal.station.keep_arrived(select, record) {
        Ok(()) => Ok(()),
        Err(_) => Err(Fault::Memory),
    }
}

/// Recalls what was kept, once the records that had been offered are offered again: how many of
/// them are known to have arrived, and the doubt. The fault is `NotNew` if a bid is in progress, a
/// block is in doubt, or a record is known to have arrived; else `Known` if more records are known
/// than were offered; else `Doubt` if the doubtful block does not have 1 to 7 records, or more than
/// are not known.
pub fn recall(terminal: &mut MadeTerminal, kept: &StoredKept) -> Result<(), Fault>
    ensures { Recalls kept.now terminal.old terminal.new result }
{
    refusals_change_nothing();
    terminal.station.recall(kept.kept())?;
    Ok(())
}
