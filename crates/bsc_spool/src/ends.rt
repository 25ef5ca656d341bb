//! The ends of channels at a station, and how much is kept of each.

use crate::Channel;

/// A channel on which the station sends, and what is kept of it beside the offered records.
#[derive(Debug, Drop)]
pub struct Sending {
    /// The channel.
    pub channel: Channel,

    /// The terminal of the channel, and the number of its selection address, as the station counts
    /// them; a terminal has one channel on which it sends, and 0 for both.
    pub terminal: usize,
    pub select: usize,

    /// How many records are kept as known to have arrived.
    pub known: usize,

    /// How many of those that follow are kept as unanswered or in doubt.
    pub in_doubt: usize,
}

/// A channel on which the station receives, and how many records are kept of it.
#[derive(Debug, Drop)]
pub struct Receiving {
    /// The channel.
    pub channel: Channel,

    /// Its number among the channels on which the station receives.
    pub number: usize,

    /// How many records that arrived are kept.
    pub arrived: usize,

    /// How many of them are kept as printed.
    pub printed: usize,
}
