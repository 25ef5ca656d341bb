//! The events of a line.

use bsc_bid::Speaker;
use bsc_control::Way;

/// One event of a line: one call of a method of it. Terminals are counted from 0, and so are the
/// selection addresses of each terminal.
#[derive(Clone, Copy)]
pub enum Event<'a> {
    /// A record of these codes is offered at a terminal, for the control station.
    OfferAt {
        terminal: usize,
        codes: &'a [u8],
    },

    /// A record of these codes is offered at the control station, for a selection address of a
    /// terminal.
    OfferFor {
        terminal: usize,
        select: usize,
        codes: &'a [u8],
    },

    /// The pending transmission is heard as these octets, by all terminals or by the control
    /// station; `None` means that it is lost.
    Carry {
        heard: Option<&'a [u8]>,
    },

    /// The control station's transmission is heard by each terminal as the item of its number;
    /// `None` means that it is lost there.
    CarryEach {
        heard: &'a [Option<&'a [u8]>],
    },

    /// The pending transmission is heard as it was sent.
    CarrySent,

    /// Nothing is heard for the time of a time-out.
    Silence,

    /// A terminal is set to accept selections, or to refuse them.
    Ready {
        terminal: usize,
        ready: bool,
    },

    /// A terminal asks the control station for the line.
    UrgentAt {
        terminal: usize,
    },

    /// The control station asks a terminal for the line.
    UrgentFor {
        terminal: usize,
    },

    /// The control station is set to poll a terminal, or to pass over it.
    Polled {
        terminal: usize,
        polled: bool,
    },

    /// A doubt is ended by the count of the records at the other end.
    Release {
        terminal: usize,
        way: Way,
    },

    /// A station begins again with its records and its doubts only. What it sent and nobody has
    /// heard yet is lost.
    Restart {
        party: Speaker,
    },
}
