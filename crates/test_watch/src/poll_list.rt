//! Which terminal may be called next.

use bsc_bid::limits::{MAX_ENTRIES, MAX_TERMINALS};
use bsc_control::Way;
use std::alloc::{AllocError, Global};

/// The poll list, the terminals in it that are polled, and how far the control station can be.
#[derive(Drop)]
pub(crate) struct PollList {
    entries: Vec<u8>,
    // Whether each terminal is polled.
    polled: [bool; MAX_TERMINALS],
    // The entries at one of which the control station is.
    places: [bool; MAX_ENTRIES],
    // The channel that it called last, if it has sent nothing since, and how often it has called it
    // again since its terminal is not polled.
    called: Option<(usize, Way)>,
    repeats: usize,
}

/// Only the first entry.
fn first_place() -> [bool; MAX_ENTRIES] {
    let mut places = [false; MAX_ENTRIES];
    places[0] = true;
    places
}

impl PollList {
    /// The poll list of a new control station, which polls all terminals.
    pub(crate) fn new(alloc: Global, entries: &[u8]) -> Result<PollList, AllocError> {
        Ok(PollList {
            entries: Vec::from_slice(alloc, entries)?,
            polled: [true; MAX_TERMINALS],
            places: first_place(),
            called: None,
            repeats: 0,
        })
    }

    /// Sets whether a terminal is polled.
    pub(crate) fn set(&mut self, terminal: usize, polled: bool) {
        if let Some(flag) = self.polled.get_mut(terminal) {
            *flag = polled;
        }
    }

    /// The control station begins again.
    pub(crate) fn restart(&mut self) {
        self.polled = [true; MAX_TERMINALS];
        self.places = first_place();
        self.called = None;
    }

    /// Whether a terminal is polled.
    fn is_polled(&self, terminal: usize) -> bool {
        self.polled.get(terminal) == Some(&true)
    }

    /// The first entry, from this one on, whose terminal is polled, and the terminal.
    fn polled_from(&self, place: usize) -> Option<(usize, usize)> {
        for at in (place..self.entries.len()).chain(0..place) {
            match self.entries.get(at) {
                Some(entry) if self.is_polled(usize::from(*entry)) => {
                    return Some((at, usize::from(*entry)));
                }
                _ => {}
            }
        }
        None
    }

    /// Whether a terminal in the poll list is polled.
    pub(crate) fn is_any_polled(&self) -> bool {
        self.polled_from(0).is_some()
    }

    /// Goes on to the entries of this terminal at which the control station can be after a new
    /// call: from each entry at which it was before, that entry or the one after it, without those
    /// that are passed over. Returns whether there is one.
    fn go_to(&mut self, terminal: usize) -> bool {
        let before = self.places;
        self.places = [false; MAX_ENTRIES];
        for (place, is_before) in before.iter().enumerate() {
            if *is_before {
                self.go_from(place, terminal);
                self.go_from(place.saturating_add(1), terminal);
            }
        }
        self.places.contains(&true)
    }

    /// Adds the first entry, from this one on, whose terminal is polled, if this is its terminal.
    fn go_from(&mut self, place: usize, terminal: usize) {
        match self.polled_from(place) {
            Some((at, polled)) if polled == terminal => {
                if let Some(place) = self.places.get_mut(at) {
                    *place = true;
                }
            }
            _ => {}
        }
    }

    /// Stores that the control station sends something, which may be a call of this channel, after
    /// a silence or another event. Returns whether it may: a call is of the terminal that is next
    /// in the poll list. One that is not polled may be called only once more after each silence, up
    /// to `tries` times, if nothing but this call was sent before.
    pub(crate) fn may_send(
        &mut self,
        called: Option<(usize, Way)>,
        is_silence: bool,
        tries: usize,
    ) -> bool {
        let again = is_silence && self.called == called;
        self.called = called;
        let Some((terminal, _)) = called else {
            return true;
        };
        if self.is_polled(terminal) {
            self.repeats = 0;
            return self.go_to(terminal);
        }
        self.repeats = self.repeats.saturating_add(1);
        again && self.repeats <= tries
    }
}
