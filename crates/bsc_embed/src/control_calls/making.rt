//! Making a control station.

ghost use Rattle.bsc_embed.specs.ControlMaking.{IsMade};

use crate::interface::{Fault, Settings, StoredAddresses, read_terminals};
use bsc_control::Control;
use std::alloc::Global;

/// Returns a control station at rest with these settings, terminals (1 to 64) and poll list (1 to
/// 255 entries, each the number of a terminal); its first silence makes the first call. The fault
/// is the first of these: `Full`, `BlockChars`, `Tries` or `Waits` if that setting is outside its
/// limits; of the first terminal that is none, `Selects` if there are not one to four selection
/// addresses, or `Address` if one of the addresses is none; `NoTerminal`; `TooManyTerminals`;
/// `SameAddress` if two addresses of the line are the same; `EmptyPollList`; `PollList` if the poll
/// list is too long or an entry is not the number of a terminal. `Memory` may come in place of any
/// of them after the settings, or if there is no other fault. (GA27-3004: poll list.)
pub fn new_control(
    alloc: Global,
    settings: &Settings,
    terminals: &[StoredAddresses],
    poll_list: &[u8],
) -> Result<Control<Global>, Fault>
    ensures { IsMade settings.now terminals.now poll_list.now result }
{
    let setup = settings.setup()?;
    let terminals = read_terminals(alloc, terminals)?;
    let control = Control::new(alloc, setup, terminals.as_slice(), poll_list)?;
    Ok(control)
}
