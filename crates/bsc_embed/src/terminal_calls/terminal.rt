//! A terminal, and what it was made with.

use bsc_bid::{Setup, Terminal};
use bsc_tributary::Tributary;
use std::alloc::Global;
use std::marker::Model;

/// A terminal with the settings and the addresses that it was made with, by which codes and numbers
/// of addresses from C are tested. It is seen as the terminal.
#[derive(Drop)]
pub struct MadeTerminal {
    /// The terminal.
    pub(crate) station: Tributary<Global>,

    /// Its settings.
    pub(crate) setup: Setup,

    /// Its addresses.
    pub(crate) addresses: Terminal,
}

impl Model for MadeTerminal {
    ghost use Rattle.bsc_tributary.specs.Tributary.{TributaryValue};
    ghost use Rattle.bsc_embed.specs.TerminalMadeWith.{IsMadeWith};

    ghost Value = { TributaryValue };

    ghost view = { λ t. t.station };

    ghost invariant = { λ t. IsMadeWith t.setup t.addresses t.station };
}
