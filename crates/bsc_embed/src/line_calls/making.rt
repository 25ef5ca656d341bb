//! A line is made.

ghost use Rattle.bsc_embed.specs.LineMaking.{MakesLine};

use crate::interface::{Fault, Settings, StoredAddresses, read_terminals};
use bsc_line::Line;
use std::alloc::Global;

/// Returns a line of new stations with these settings, the addresses of 1 to 64 terminals, and a
/// poll list of 1 to 255 entries, each the number of a terminal. Nothing is pending; the first
/// silence makes the first call. Faults, in this order: `Full`, `BlockChars`, `Tries`, `Waits`; of
/// the first terminal that is none `Selects` or `Address`; `NoTerminal`, `TooManyTerminals`,
/// `SameAddress`, `EmptyPollList`, `PollList`. `Memory` may come in place of any after the
/// settings.
pub fn new_line(
    alloc: Global,
    settings: &Settings,
    terminals: &[StoredAddresses],
    poll_list: &[u8],
) -> Result<Line<Global>, Fault>
    ensures { MakesLine settings.now terminals.now poll_list.now result }
{
    let setup = settings.setup()?;
    let terminals = read_terminals(alloc, terminals)?;
    let line = Line::new(alloc, setup, terminals.as_slice(), poll_list)?;
    Ok(line)
}
