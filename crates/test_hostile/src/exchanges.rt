//! The exchanges in which each transmission is heard as something else, and their transmissions.

use crate::fixtures::Watched;
use bsc_bid::Speaker;
use bsc_frame::Wire;
use bsc_line::Event;
use std::alloc::Global;
use std::test::Fail;
use test_watch::octets_of;

/// An exchange: the events before the first silence, each with the number of times that it is
/// played, and the number of transmissions after it.
pub(crate) struct Exchange {
    pub(crate) offers: &'static [(usize, Event<'static>)],
    transmissions: usize,
}

/// Offers an empty record for terminal 0.
const EMPTY_FOR: Event<'static> = Event::OfferFor {
    terminal: 0,
    select: 0,
    codes: b"",
};

/// Offers HI at terminal 0.
pub(crate) const HI_AT: Event<'static> = Event::OfferAt {
    terminal: 0,
    codes: b"HI",
};

/// Terminal 0 sends HI in a poll: the call of A, the text, ACK1, EOT, the call of B, EOT, and the
/// call of A.
pub(crate) const POLLED: Exchange = Exchange {
    offers: &[(1, HI_AT)],
    transmissions: 7,
};

/// Terminal 0 takes a block of seven records: the call of a, ACK0, the text, ACK1, the call of A.
pub(crate) const SELECTED: Exchange = Exchange {
    offers: &[(7, EMPTY_FOR)],
    transmissions: 5,
};

/// Terminal 0 takes two blocks: the call of a, ACK0, the first text, ACK1, the second text, ACK0,
/// and the call of A.
pub(crate) const SELECTED_TWICE: Exchange = Exchange {
    offers: &[(8, EMPTY_FOR)],
    transmissions: 7,
};

/// Terminal 0 asks for the line and then sends HI: the call of a, ACK0, the text, a reverse
/// interrupt, the call of A, the text of HI, ACK1, EOT, the call of B, EOT, and the call of a.
pub(crate) const INTERRUPTED: Exchange = Exchange {
    offers: &[
        (8, EMPTY_FOR),
        (1, HI_AT),
        (1, Event::UrgentAt { terminal: 0 }),
    ],
    transmissions: 11,
};

/// A transmission of an exchange, with the number of those before it.
#[derive(Drop)]
pub(crate) struct Sent {
    pub(crate) place: usize,
    pub(crate) by_control: bool,
    pub(crate) octets: Wire,
}

/// The transmission of this number, when the exchange is played on a new line.
fn sent_on(watched: &mut Watched, exchange: &Exchange, place: usize) -> Result<Sent, Fail> {
    watched.begin(exchange, place)?;
    let Some(sent) = watched.line.pending() else {
        return Err("nothing is pending".into());
    };
    Ok(Sent {
        place,
        by_control: sent.speaker == Speaker::Control,
        octets: octets_of(&sent.message),
    })
}

/// The transmissions of the exchange, in order.
pub(crate) fn transmissions(alloc: Global, exchange: &Exchange) -> Result<Vec<Sent>, Fail> {
    let mut all = Vec::new(alloc);
    for place in 0..exchange.transmissions {
        let mut watched = Watched::new(alloc)?;
        all.push(sent_on(&mut watched, exchange, place)?)?;
    }
    Ok(all)
}
