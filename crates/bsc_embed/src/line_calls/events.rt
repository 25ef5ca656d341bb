//! Events of a line.

ghost use Rattle.bsc_embed.specs.LineEvents.{Carries, CarriesSent, Loses, OffersAt, OffersFor};
ghost use Rattle.bsc_embed.specs.LineEvents.{PassesSilence, ReleasesFrom, ReleasesTo};
ghost use Rattle.bsc_embed.specs.LineEvents.{RestartsControl, RestartsTerminal, SetsPolled};
ghost use Rattle.bsc_embed.specs.LineEvents.{SetsReady, SetsUrgentAt, SetsUrgentFor};

use crate::interface::Fault;
use bsc_bid::Speaker;
use bsc_control::Way;
use bsc_line::Line;
use std::alloc::Global;

/// Offers the record of these characters at a terminal, counted from 0, for the control station.
/// Faults, in this order: `NoSuchTerminal`, `TooLong`, `NotText`, `Memory`.
pub fn offer_at(line: &mut Line<Global>, terminal: usize, chars: &[u8]) -> Result<(), Fault>
    ensures { OffersAt terminal chars.now line.old line.new result }
{
    line.offer_at(terminal, chars)?;
    Ok(())
}

/// Offers the record of these characters at the control station, for a selection address of a
/// terminal, both counted from 0. Faults, in this order: `NoSuchTerminal`, `NoSuchAddress`,
/// `TooLong`, `NotText`, `Memory`.
pub fn offer_for(
    line: &mut Line<Global>,
    terminal: usize,
    select: usize,
    chars: &[u8],
) -> Result<(), Fault>
    ensures { OffersFor terminal select chars.now line.old line.new result }
{
    line.offer_for(terminal, select, chars)?;
    Ok(())
}

/// Lets the pending transmission be heard as these octets, by all terminals or by the control
/// station. Octets that spell no message, also none at all, are noise. Fault: `NothingSent` if
/// nothing is pending.
pub fn carry(line: &mut Line<Global>, octets: &[u8]) -> Result<(), Fault>
    ensures { Carries octets.now line.old line.new result }
{
    line.carry(Some(octets))?;
    Ok(())
}

/// Loses the pending transmission: nobody hears it. Fault: `NothingSent` if nothing is pending.
pub fn lose(line: &mut Line<Global>) -> Result<(), Fault>
    ensures { Loses line.old line.new result }
{
    line.carry(None)?;
    Ok(())
}

/// Lets the pending transmission be heard as it was sent. Fault: `NothingSent` if nothing is
/// pending.
pub fn carry_sent(line: &mut Line<Global>) -> Result<(), Fault>
    ensures { CarriesSent line.old line.new result }
{
    line.carry_sent()?;
    Ok(())
}

/// Lets a silence pass, that is, nothing is heard for the time of a time-out: the terminal that
/// holds the line acts, or else the control station. Fault: `Pending` if a transmission is pending.
/// (GA27-3004, time-outs.)
pub fn silence(line: &mut Line<Global>) -> Result<(), Fault>
    ensures { PassesSilence line.old line.new result }
{
    line.silence()?;
    Ok(())
}

/// Sets whether a terminal accepts selections; if it is not ready, it answers them by NAK. Fault:
/// `NoSuchTerminal`. (GA27-3004, NAK to a selection.)
pub fn set_ready(line: &mut Line<Global>, terminal: usize, ready: bool) -> Result<(), Fault>
    ensures { SetsReady terminal ready line.old line.new result }
{
    line.set_ready(terminal, ready)?;
    Ok(())
}

/// Sets whether the control station polls a terminal; if it does not, it passes over its entries of
/// the poll list. Fault: `NoSuchTerminal`. (GA27-3004, poll list.)
pub fn set_polled(line: &mut Line<Global>, terminal: usize, polled: bool) -> Result<(), Fault>
    ensures { SetsPolled terminal polled line.old line.new result }
{
    line.set_polled(terminal, polled)?;
    Ok(())
}

/// Makes a terminal ask the control station for the line, by a reverse interrupt to the next text
/// that it takes. Fault: `NoSuchTerminal`. (GA27-3004, reverse interrupt.)
pub fn set_urgent_at(line: &mut Line<Global>, terminal: usize) -> Result<(), Fault>
    ensures { SetsUrgentAt terminal line.old line.new result }
{
    line.set_urgent_at(terminal)?;
    Ok(())
}

/// Makes the control station ask a terminal for the line, by a reverse interrupt to the next text
/// that it takes from it. Fault: `NoSuchTerminal`. (GA27-3004, reverse interrupt.)
pub fn set_urgent_for(line: &mut Line<Global>, terminal: usize) -> Result<(), Fault>
    ensures { SetsUrgentFor terminal line.old line.new result }
{
    line.set_urgent_for(terminal)?;
    Ok(())
}

/// Ends a terminal's doubt by the count of the records that arrived at the control station. Faults,
/// in this order: `NoSuchTerminal`, `NotInDoubt`, `CountMismatch` if that count is neither the
/// number of the known records nor that number with the doubtful block.
pub fn release_from(line: &mut Line<Global>, terminal: usize) -> Result<(), Fault>
    ensures { ReleasesFrom terminal line.old line.new result }
{
    line.release(terminal, Way::FromTerminal)?;
    Ok(())
}

/// Ends the control station's doubt about a selection address of a terminal by the count of the
/// records that arrived there. Faults, in this order: `NoSuchTerminal`, `NoSuchAddress`,
/// `NotInDoubt`, `CountMismatch` as of `release_from`.
pub fn release_to(line: &mut Line<Global>, terminal: usize, select: usize) -> Result<(), Fault>
    ensures { ReleasesTo terminal select line.old line.new result }
{
    line.release(terminal, Way::ToTerminal(select))?;
    Ok(())
}

/// Lets the control station begin again, as after the end of its process. It keeps its records and
/// its doubts; a block that nobody answered yet is in doubt, and what it sent and nobody has heard
/// yet is lost. It has no fault.
pub fn restart_control(line: &mut Line<Global>) -> Result<(), Fault>
    ensures { RestartsControl line.old line.new result }
{
    line.restart(Speaker::Control)?;
    Ok(())
}

/// Lets a terminal begin again, as `restart_control` does the control station. Fault:
/// `NoSuchTerminal`.
pub fn restart_terminal(line: &mut Line<Global>, terminal: usize) -> Result<(), Fault>
    ensures { RestartsTerminal terminal line.old line.new result }
{
    line.restart(Speaker::Terminal { number: terminal })?;
    Ok(())
}
