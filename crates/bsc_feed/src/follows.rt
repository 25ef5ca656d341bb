//! The channels that a client follows.

ghost use Rattle.std.specs.Prelude.{◌≡◌, ◌<◌, ◌≤◌, None, Some, length, replicate, slice_set};
ghost use Rattle.bsc_feed.specs.Following.{TellsNext};
ghost use Rattle.bsc_feed.specs.declared.limits.TheConstants.{MAX_PLACES};

use crate::limits::MAX_PLACES;
use crate::news::first_news;
use crate::told::Told;
use bsc_station::Party;
use std::marker::Model;

/// For each place of the report of a station, the number from which its channel is followed, if it
/// is followed: the next record to be told, or the known count that was told last.
#[derive(Drop)]
pub(crate) struct Follows {
    next: [Option<usize>; MAX_PLACES],

    /// The place at which the search for news begins, so that no channel keeps others waiting.
    turn: usize,

    /// Whether a channel is followed. A search for news costs nothing where none is.
    any: bool,
}

impl Model for Follows {
    ghost use Rattle.std.specs.Prelude.{ℕ, ◌≤◌, ◌≡◌, List, Option, None, false, length, replicate};
    ghost use Rattle.bsc_feed.specs.declared.limits.TheConstants.{MAX_PLACES};

    ghost Value = { List (Option ℕ) };

    ghost view = { λ f. f.next };

    ghost invariant = { λ f. (f.turn ≤ MAX_PLACES) × (length f.next ≡ MAX_PLACES)
        × (f.any ≡ false → f.next ≡ replicate MAX_PLACES None) };
}

impl Follows {
    /// Returns that no channel is followed.
    pub fn new() -> Follows
        ensures { result ≡ replicate MAX_PLACES None }
    {
        Follows {
            next: [None; MAX_PLACES],
            turn: 0,
            any: false,
        }
    }

    /// Follows the channel at a place from a number on, in place of another number if it is
    /// followed.
    pub fn follow(&mut self, place: usize, next: usize)
        requires { place < MAX_PLACES }
        ensures { self.new ≡ slice_set self.old place (Some next) }
    {
        self.next[place] = Some(next);
        self.any = true;
    }

    /// Returns what is to be told next of the channels that are followed, and takes note of it.
    pub fn tell<P: Party>(&mut self, station: &P) -> Option<Told>
        ensures { TellsNext P.Party station.now self.old result self.new }
    {
        if !self.any {
            return None;
        }
        let found = match first_news(station, &self.next, self.turn, MAX_PLACES) {
            Some(found) => found,
            None => first_news(station, &self.next, 0, self.turn)?,
        };
        self.next[found.place] = Some(found.news.next);
        self.turn = found.place + 1;
        Some(found.news.told)
    }
}
