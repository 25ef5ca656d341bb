//! Which stations take no part in what goes on.

use bsc_bid::Speaker;
use bsc_bid::limits::MAX_TERMINALS;

/// The control station, and each terminal.
const STATIONS: usize = MAX_TERMINALS + 1;

/// The stations that began, or began again, and have taken no part since: the control station
/// before its next call, and each terminal before it hears a call. Such a station sends nothing but
/// a call, and its ends of channels do not change.
#[derive(Clone, Copy)]
pub(crate) struct Aside {
    // The control station, and then the terminals.
    stations: [bool; STATIONS],
}

/// The place of a station among all of them.
fn place_of(party: Speaker) -> usize {
    match party {
        Speaker::Control => 0,
        Speaker::Terminal { number } => number.saturating_add(1),
    }
}

impl Aside {
    /// All stations.
    pub(crate) fn all() -> Aside {
        Aside {
            stations: [true; STATIONS],
        }
    }

    /// Whether this station is one of them.
    pub(crate) fn has(&self, party: Speaker) -> bool {
        match self.stations.get(place_of(party)) {
            Some(aside) => *aside,
            None => true,
        }
    }

    /// Adds or removes this station.
    pub(crate) fn set(&mut self, party: Speaker, aside: bool) {
        if let Some(place) = self.stations.get_mut(place_of(party)) {
            *place = aside;
        }
    }
}
