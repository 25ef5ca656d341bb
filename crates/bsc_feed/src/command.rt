//! The commands of a client.

use bsc_bid::ChannelName;
use std::alloc::Allocator;

/// What a line of a client asks for. Whether the station can do it is not said.
#[derive(Drop)]
pub enum Command<'a, A: Allocator> {
    /// A record with these codes is offered on a channel.
    Offer {
        channel: ChannelName,
        codes: &'a [u8],
    },

    /// The same, with codes that were given in hexadecimal text.
    OfferHex {
        channel: ChannelName,
        codes: Vec<u8, A>,
    },

    /// The state of each channel is told.
    Status,

    /// The doubt of a channel is ended, of which the other end has this many records.
    Release {
        channel: ChannelName,
        count: u32,
    },

    /// The station starts or stops accepting selections.
    Ready {
        ready: bool,
    },

    /// The station asks for the line.
    Urgent,

    /// The terminal with this number is called again, or no more.
    Poll {
        terminal: u32,
        polled: bool,
    },

    /// What happens on a channel is told from now on: the records that arrive, from the one with
    /// this number on, or how many are known to have arrived once they are more than this number.
    /// Without a number, from now on.
    Follow {
        channel: ChannelName,
        from: Option<u32>,
    },

    /// The station ends after the present visit.
    Stop,
}
