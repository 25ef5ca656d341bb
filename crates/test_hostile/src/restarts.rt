//! Stations begin again at each transmission of an exchange, which goes on for some events; then
//! each doubt is released, and it goes on again. All rules of a line have to hold after each event,
//! and at the end each record that was offered has arrived.

use crate::exchanges::{Exchange, INTERRUPTED, POLLED, SELECTED, SELECTED_TWICE, transmissions};
use crate::fixtures::Watched;
use bsc_bid::Speaker;
use bsc_bid::Speaker::{Control, Terminal};
use bsc_control::Way;
use bsc_line::Event;
use std::alloc::Global;
use std::test::Fail;
use test_watch::{Broken, look};

/// The stations that begin again, in this order.
const PARTIES: &[&[Speaker]] = &[
    &[Control],
    &[Terminal { number: 0 }],
    &[Terminal { number: 1 }],
    &[Control, Terminal { number: 0 }],
    &[Terminal { number: 0 }, Control],
    &[Terminal { number: 0 }, Terminal { number: 1 }],
    &[
        Control,
        Terminal { number: 0 },
        Terminal { number: 1 },
        Control,
    ],
];

/// Plays the exchange up to the transmission of this number, lets these stations begin again, and
/// goes on.
fn play_on(
    watched: &mut Watched,
    exchange: &Exchange,
    place: usize,
    parties: &[Speaker],
) -> Result<(), Broken> {
    watched.begin(exchange, place)?;
    for party in parties {
        watched.repeat(1, &Event::Restart { party: *party })?;
    }
    watched.go_on()?;
    watched.release_each()?;
    watched.go_on()
}

/// Whether each record that was offered on this channel arrived, and the sending end knows it.
fn is_delivered(watched: &Watched, way: Way) -> bool {
    match look(&watched.line, 0, way) {
        Some(shown) => {
            let view = shown.view;
            view.spooled == view.offered && view.known == view.offered
        }
        None => false,
    }
}

/// Whether all is delivered on a trusted line, after these stations began again.
fn is_whole(
    alloc: Global,
    exchange: &Exchange,
    place: usize,
    parties: &[Speaker],
) -> Result<bool, Fail> {
    let mut watched = Watched::new(alloc)?;
    play_on(&mut watched, exchange, place, parties)?;
    let (from, to) = (Way::FromTerminal, Way::ToTerminal(0));
    Ok(watched.line.trusted() && is_delivered(&watched, from) && is_delivered(&watched, to))
}

#[test]
fn stations_begin_again_at_any_transmission(rt: HostRuntime) -> Result<(), Fail> {
    for exchange in [&POLLED, &SELECTED, &SELECTED_TWICE, &INTERRUPTED] {
        for place in 0..transmissions(rt.alloc(), exchange)?.len() {
            for parties in PARTIES {
                let whole = is_whole(rt.alloc(), exchange, place, parties)?;
                assert!(rt; whole, "{place} and {parties:?}");
            }
        }
    }
    Ok(())
}
