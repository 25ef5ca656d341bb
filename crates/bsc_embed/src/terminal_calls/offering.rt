//! The records that a terminal has to send, and its doubt about them.

ghost use Rattle.bsc_embed.specs.TerminalOffering.{Offers, GetsSending, Releases};

use crate::interface::{Fault, Sending};
use crate::station_calls::laws::refusals_change_nothing;
use crate::station_calls::{read_record, sending_of};
use crate::terminal_calls::MadeTerminal;

/// Adds the record of these codes to those that the terminal has to send. The fault is `TooLong` if
/// there are more codes than the full length of a record, else `NotText` if one of them is not a
/// record character, else `Memory` if there is no memory for the record.
pub fn offer(terminal: &mut MadeTerminal, chars: &[u8]) -> Result<(), Fault>
    ensures { Offers chars.now terminal.old terminal.new result }
{
    let record = read_record(chars, terminal.setup.format())?;
    match terminal.station.offer(record) {
        Ok(()) => Ok(()),
        Err(_) => Err(Fault::Memory),
    }
}

/// Puts into `sending` how many records were offered to the terminal, how many of them are known to
/// have arrived, and whether its last block is in doubt. There is no fault.
pub fn sending(terminal: &MadeTerminal, sending: &mut Sending) -> Result<(), Fault>
    ensures { GetsSending sending.new terminal.now result }
{
    *sending = sending_of(terminal.station.queue(), terminal.station.in_doubt());
    Ok(())
}

/// Ends the doubt: the other end has `count` records of this terminal. The fault is `NotInDoubt` if
/// there is no doubt, else `CountMismatch` if `count` is neither the number of the known records
/// nor that number with the doubtful block.
pub fn release(terminal: &mut MadeTerminal, count: usize) -> Result<(), Fault>
    ensures { Releases count terminal.old terminal.new result }
{
    refusals_change_nothing();
    terminal.station.release(count)?;
    Ok(())
}
