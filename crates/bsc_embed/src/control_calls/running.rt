//! The flags that a control station has for a terminal, and the restart of the station.

ghost use Rattle.bsc_embed.specs.ControlRunning.{SetsPolled, SetsUrgent, Restarts};

use crate::control_calls::addressing::find_terminal;
use crate::interface::Fault;
use bsc_control::Control;
use std::alloc::Global;

/// Asks a terminal for the line: the next text taken from it is answered by a reverse interrupt,
/// unless the last reply was one too. A new selection of the terminal clears the request. The fault
/// is `NoSuchTerminal` if there is no such terminal. (GA27-3004: reverse interrupt.)
pub fn set_urgent(control: &mut Control<Global>, terminal: usize) -> Result<(), Fault>
    ensures { SetsUrgent terminal control.old control.new result }
{
    find_terminal(control, terminal)?;
    control.set_urgent(terminal);
    Ok(())
}

/// Sets whether a terminal is polled; if it is not, its entries of the poll list are passed over.
/// What is under way with it goes on to its end. The fault is `NoSuchTerminal` if there is no such
/// terminal. (GA27-3004: poll list.)
pub fn set_polled(control: &mut Control<Global>, terminal: usize, polled: bool) -> Result<(), Fault>
    ensures { SetsPolled terminal polled control.old control.new result }
{
    find_terminal(control, terminal)?;
    control.set_polled(terminal, polled);
    Ok(())
}

/// Begins again, as after the end of the process: the station is at rest at the first entry of the
/// poll list, with its counters at 0, each terminal polled and no urgent flag up, and its next
/// silence makes the first call. It keeps its settings, poll list and terminals, the records that
/// it has to send, its doubts, and the records that arrived; an unanswered block is in doubt. There
/// is no fault.
pub fn restart(control: &mut Control<Global>) -> Result<(), Fault>
    ensures { Restarts control.old control.new result }
{
    control.restart();
    Ok(())
}
