//! The records that a control station has to send, and its doubts about them.

ghost use Rattle.bsc_embed.specs.ControlOffering.{Offers, GetsSending, Releases};

use crate::control_calls::addressing::find_address;
use crate::interface::{Fault, Sending};
use crate::station_calls::laws::refusals_change_nothing;
use crate::station_calls::{read_record, sending_of};
use bsc_control::{Control, Way};
use std::alloc::Global;

/// Adds the record of these codes to those for a selection address of a terminal. The fault is
/// `NoSuchTerminal` or else `NoSuchAddress` if there is no such address, else `TooLong` if there
/// are more codes than the full length of a record, else `NotText` if one of them is not a record
/// character, else `Memory` if there is no memory for the record.
pub fn offer(
    control: &mut Control<Global>,
    terminal: usize,
    select: usize,
    chars: &[u8],
) -> Result<(), Fault>
    ensures { Offers terminal select chars.now control.old control.new result }
{
    find_address(control, terminal, select)?;
    let record = read_record(chars, control.setup().format())?;
    match control.offer(terminal, select, record) {
        Ok(()) => Ok(()),
        Err(_) => Err(Fault::Memory),
    }
}

/// Puts into `sending` how many records were offered for a selection address of a terminal, how
/// many of them are known to have arrived, and whether the last block for it is in doubt. The fault
/// is `NoSuchTerminal` or else `NoSuchAddress` if there is no such address.
pub fn sending(
    control: &Control<Global>,
    terminal: usize,
    select: usize,
    sending: &mut Sending,
) -> Result<(), Fault>
    ensures { GetsSending terminal select sending.old sending.new control.now result }
{
    find_address(control, terminal, select)?;
    let doubt = control.in_doubt(terminal, Way::ToTerminal(select));
    *sending = sending_of(control.queue(terminal, select), doubt);
    Ok(())
}

/// Ends the doubt about a selection address of a terminal: the terminal has `count` records that
/// came by it. The fault is `NoSuchTerminal` or else `NoSuchAddress` if there is no such address,
/// else `NotInDoubt` if there is no doubt, else `CountMismatch` if `count` is neither the number of
/// the known records nor that number with the doubtful block.
pub fn release(
    control: &mut Control<Global>,
    terminal: usize,
    select: usize,
    count: usize,
) -> Result<(), Fault>
    ensures { Releases terminal select count control.old control.new result }
{
    refusals_change_nothing();
    find_address(control, terminal, select)?;
    control.release(terminal, Way::ToTerminal(select), count)?;
    Ok(())
}
