//! The events of a script.

use crate::script::HeardOctets;
use bsc_bid::Way;
use std::alloc::Allocator;

/// The event that one line of a script describes. Terminals, and the selection addresses of each,
/// are counted from 0. Whether the terminal and the address exist, whether the record is accepted
/// and whether a transmission is pending is checked only when the event is run.
#[derive(Drop)]
pub enum Action<'a, A: Allocator> {
    /// A record with these codes is offered at a terminal, for the control station.
    OfferAt {
        terminal: usize,
        codes: &'a [u8],
    },

    /// A record with these codes is offered at the control station, for a selection address of a
    /// terminal.
    OfferFor {
        terminal: usize,
        select: usize,
        codes: &'a [u8],
    },

    /// The pending transmission is heard as it was sent.
    Carry,

    /// The pending transmission is lost.
    Lose,

    /// The pending transmission is heard as these octets by all its listeners.
    Heard {
        octets: HeardOctets<A>,
    },

    /// Each terminal hears the item with its number in place of the pending transmission of the
    /// control station; `None` means that it hears nothing. There is at least one item.
    HeardEach {
        items: Vec<Option<HeardOctets<A>>, A>,
    },

    /// A time-out passes in which nothing is heard.
    Silence,

    /// A terminal starts or stops accepting selections.
    Ready {
        terminal: usize,
        ready: bool,
    },

    /// The control station starts or stops polling a terminal.
    Polled {
        terminal: usize,
        polled: bool,
    },

    /// A terminal asks the control station for the line.
    UrgentAt {
        terminal: usize,
    },

    /// The control station asks a terminal for the line.
    UrgentFor {
        terminal: usize,
    },

    /// A doubt about the records sent in this direction is released.
    Release {
        terminal: usize,
        way: Way,
    },
}

/// One event of a script.
#[derive(Drop)]
pub struct Step<'a, A: Allocator> {
    /// The number of its line, counted from 1.
    pub line: u64,

    /// The event.
    pub action: Action<'a, A>,
}
