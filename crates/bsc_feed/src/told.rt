//! What is told to a client.

use crate::Fault;

/// What one line tells a client. Channels are named by their places in the report of the station.
#[derive(Clone, Copy, Debug, PartialEq, Eq)]
pub(crate) enum Told {
    /// A record was offered and kept, with this number on its channel.
    Kept { number: usize },

    /// A command was obeyed.
    Done,

    /// A command was refused.
    Refused { fault: Fault },

    /// The state of the channel at this place.
    State { place: usize },

    /// The record with this number arrived on the channel at this place.
    Arrived { place: usize, number: usize },

    /// This many records of the channel at this place are known to have arrived.
    Delivered { place: usize, known: usize },
}
