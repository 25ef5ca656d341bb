//! The stations of a configuration.

ghost use Rattle.std.specs.Prelude.{◌≡◌, ◌<◌, length, slice_index_or, IfOk};
ghost use Rattle.bsc_control.specs.Kept.{IsNewControl};
ghost use Rattle.bsc_control.specs.Peer.{no_peer};
ghost use Rattle.bsc_tributary.specs.Kept.{IsNewTerminal};

use crate::LineTerminal;
use bsc_bid::directory_laws::distinct_addresses;
use bsc_config::Config;
use bsc_control::Control;
use std::alloc::{AllocError, Allocator};

/// Returns the control station of the line, with nothing to send. Fails only if an allocation
/// fails.
pub fn new_control<A: Allocator + Copy>(alloc: A, config: &Config) -> Result<Control<A>, AllocError>
    ensures { let line = config.now in IfOk result (λ control.
        IsNewControl line.setup line.terminals line.poll_list control) }
{
    let (terminals, poll_list) = (config.terminal_list(), config.poll_list());
    match Control::new(alloc, config.setup(), terminals, poll_list) {
        Ok(control) => Ok(control),
        // A control station can be made of every configuration, if there is enough memory.
        Err(_) => Err(AllocError),
    }
}

/// Returns the terminal with this number, with nothing to send. The line must have such a terminal.
pub fn new_terminal<A: Allocator + Copy>(
    alloc: A,
    config: &Config,
    number: usize,
) -> LineTerminal<A>
    requires { number < length config.now.terminals }
    ensures number { result.number ≡ number }
    ensures terminal { IsNewTerminal config.now.setup
        (slice_index_or config.now.terminals number no_peer.terminal) result.tributary }
{
    distinct_addresses();
    let terminals = config.terminal_list();
    LineTerminal::new(alloc, config.setup(), number, terminals[number])
}
