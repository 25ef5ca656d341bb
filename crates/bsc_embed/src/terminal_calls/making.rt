//! Making a terminal.

ghost use Rattle.bsc_embed.specs.TerminalMaking.{IsMade};

use crate::interface::{Fault, Settings, StoredAddresses};
use crate::terminal_calls::MadeTerminal;
use bsc_tributary::{Tributary, addresses_differ};
use std::alloc::Global;

/// Returns a terminal with these settings and addresses: in control mode, ready, not urgent, with
/// nothing to send and nothing received. It allocates nothing. The fault is the first of these:
/// `Full`, `BlockChars`, `Tries` or `Waits` if that setting is outside its limits; `Selects` if
/// there are not one to four selection addresses; `Address` if one of the addresses is none;
/// `SameAddress` if two of them are the same.
pub fn new_terminal(
    alloc: Global,
    settings: &Settings,
    addresses: &StoredAddresses,
) -> Result<MadeTerminal, Fault>
    ensures { IsMade settings.now addresses.now result }
{
    let setup = settings.setup()?;
    let terminal = addresses.terminal()?;
    if !addresses_differ(&terminal) {
        return Err(Fault::SameAddress);
    }
    Ok(MadeTerminal {
        station: Tributary::new(alloc, setup, terminal),
        setup,
        addresses: terminal,
    })
}
