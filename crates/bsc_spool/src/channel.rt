//! Channels: what goes from one station of a line to another, in one direction.

use bsc_frame::Address;

/// A channel of a line, by the address of the terminal at one of its ends.
#[derive(Clone, Copy, Debug, PartialEq, Eq)]
pub enum Channel {
    /// From the terminal with this address to the control station.
    From { terminal: Address },

    /// From the control station to the terminal with this selection address.
    To { selection: Address },
}
