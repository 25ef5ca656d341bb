//! Whether a terminal or a selection address exists.

ghost use Rattle.std.specs.Prelude.{OnOk, OnErr};
ghost use Rattle.bsc_embed.specs.ControlAddressing.{HasTerminal, HasAddress};
ghost use Rattle.bsc_embed.specs.ControlAddressing.{LacksTerminal, LacksAddress};

use crate::interface::Fault;
use bsc_control::Control;
use std::alloc::Global;

/// Tests that the station has a terminal of this number. The fault is `NoSuchTerminal`.
pub(crate) fn find_terminal(control: &Control<Global>, terminal: usize) -> Result<(), Fault>
    ensures there { OnOk result (HasTerminal control.now terminal) }
    ensures missing { OnErr result (LacksTerminal control.now terminal result) }
{
    if terminal >= control.terminals() {
        return Err(Fault::NoSuchTerminal);
    }
    Ok(())
}

/// Tests that the station has a terminal of this number, with a selection address of this number.
/// The fault is `NoSuchTerminal`, else `NoSuchAddress`.
pub(crate) fn find_address(
    control: &Control<Global>,
    terminal: usize,
    select: usize,
) -> Result<(), Fault>
    ensures there { OnOk result (HasAddress control.now terminal select) }
    ensures missing { OnErr result (LacksAddress control.now terminal select result) }
{
    if terminal >= control.terminals() {
        return Err(Fault::NoSuchTerminal);
    }
    if select >= control.addresses(terminal) {
        return Err(Fault::NoSuchAddress);
    }
    Ok(())
}
