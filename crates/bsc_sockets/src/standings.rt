//! The peers of the connections, and for how long nobody has answered at each place.

ghost use Rattle.std.specs.Prelude.{◌≡◌, ◌+◌, ◌^◌, ◌-◌, min, true, false, length, slice_get};
ghost use Rattle.std.specs.Prelude.{IfOk, option_map};
ghost use Rattle.std.specs.Duration.{as_nanos};
ghost use Rattle.bsc_sockets.specs.Standings.{IsNoQuieter, IsQuietest, after_answer, after_joining};
ghost use Rattle.bsc_sockets.specs.Standings.{is_known, new_standings, peer_of, quiet_at};
ghost use Rattle.bsc_sockets.specs.Standings.{standings_value, turn_at};

use std::alloc::{AllocError, Allocator};
use std::net::SocketAddr;
use std::time::Duration;

/// What is known of the peer at a place.
#[derive(Clone, Copy)]
pub(crate) struct Standing {
    /// The address of the peer, if it is known.
    peer: Option<SocketAddr>,

    /// The time of all silences in nanoseconds, when the station last answered a transmission from
    /// there, or when the peer connected.
    since: u128,

    /// The number of the last answer to a transmission of the peer among all answers of the
    /// station, counted from 1; 0 if there was none. Once there was one the peer counts as a
    /// station of the line.
    turn: u64,
}

/// The peer at each place, and for how much silence the station has answered nothing from there.
#[derive(Drop)]
pub(crate) struct Standings<A: Allocator> {
    places: Vec<Standing, A>,

    /// The time of all silences that were told, in nanoseconds, up to 2^128 - 1.
    silence: u128,

    /// How many answers the station has given, up to 2^64 - 1.
    turns: u64,
}

impl<A: Allocator> Standings<A> {
    /// Returns what is known of this many places before a peer has connected.
    pub(crate) fn new(alloc: A, places: usize) -> Result<Standings<A>, AllocError>
        ensures { IfOk result (λ standings. standings_value standings ≡ new_standings places) }
    {
        let mut standings = Vec::new(alloc);
        for _ in 0..places {
            standings.push(Standing {
                peer: None,
                since: 0,
                turn: 0,
            })?;
        }
        Ok(Standings {
            places: standings,
            silence: 0,
            turns: 0,
        })
    }

    /// Records that this peer connects at this place. The station has not answered it yet.
    pub(crate) fn joined(&mut self, place: usize, peer: Option<SocketAddr>)
        ensures changed { standings_value self.new ≡ after_joining peer
            (standings_value self.old) place (slice_get self.old.places.items place) }
        ensures stranger { is_known (standings_value self.new) place ≡ false }
    {
        if place < self.places.len() {
            self.places[place] = Standing {
                peer,
                since: self.silence,
                turn: 0,
            };
        }
    }

    /// Records that the station answered a transmission from this place.
    pub(crate) fn answered(&mut self, place: usize)
        ensures { standings_value self.new ≡ after_answer
            (standings_value self.old) place (slice_get self.old.places.items place) }
    {
        self.turns = self.turns.saturating_add(1);
        if place < self.places.len() {
            let Standing { peer, .. } = self.places[place];
            self.places[place] = Standing {
                peer,
                since: self.silence,
                turn: self.turns,
            };
        }
    }

    /// Records a silence of this time.
    pub(crate) fn silence(&mut self, time: Duration)
        ensures places { self.new.places ≡ self.old.places }
        ensures turns { self.new.turns ≡ self.old.turns }
        ensures silence { self.new.silence
            ≡ min (self.old.silence + as_nanos time) (2 ^ 128 - 1) }
    {
        self.silence = self.silence.saturating_add(time.as_nanos());
    }

    /// Returns the address of the peer at this place, if it is known.
    pub(crate) fn peer(&self, place: usize) -> Option<SocketAddr>
        ensures { result ≡ peer_of (slice_get self.now.places.items place) }
    {
        match self.places.get(place) {
            Some(standing) => standing.peer,
            None => None,
        }
    }

    /// Whether the station has answered the peer at this place.
    pub(crate) fn is_known(&self, place: usize) -> bool
        ensures { result ≡ is_known (standings_value self.now) place }
    {
        match self.places.get(place) {
            Some(standing) => standing.turn != 0,
            None => false,
        }
    }

    /// Returns the number of the last answer to the peer at this place; 0 if there was none.
    fn turn(&self, place: usize) -> u64
        ensures { result ≡ turn_at (standings_value self.now) place }
    {
        match self.places.get(place) {
            Some(standing) => standing.turn,
            None => 0,
        }
    }

    /// Returns for how much silence the station has answered nothing from this place, in
    /// nanoseconds; 0 if there is no such place.
    fn quiet(&self, place: usize) -> u128
        ensures { result ≡ quiet_at (standings_value self.now) place }
    {
        match self.places.get(place) {
            Some(standing) => self.silence.saturating_sub(standing.since),
            None => 0,
        }
    }

    /// Whether the station has answered nothing for more silence from the first place than from the
    /// second; if for the same, whether it answered the peer at the second later, or only that one.
    /// A silence counts for all places, also for those of terminals that were not called meanwhile:
    /// those answered later than the one that was called.
    fn is_quieter(&self, first: usize, second: usize) -> bool
        ensures quieter { result ≡ true → IsNoQuieter (standings_value self.now) second first }
        ensures no_quieter { result ≡ false → IsNoQuieter (standings_value self.now) first second }
    {
        let (quiet, other) = (self.quiet(first), self.quiet(second));
        if quiet != other {
            return other < quiet;
        }
        self.turn(first) < self.turn(second)
    }

    /// Returns the place from which the station has answered nothing for the most silence, if that
    /// is at least this time. Of several it is the first whose peer is no station of the line, or
    /// if there is no such one, the one whose peer was answered the longest ago.
    pub(crate) fn quietest(&self, least: Duration) -> Option<usize>
        ensures { IsQuietest (standings_value self.now) (length self.now.places.items)
            (as_nanos least) result }
    {
        if self.places.is_empty() {
            return None;
        }
        let mut best = 0;
        'places: for place in 1..self.places.len() {
            if self.is_quieter(place, best) {
                best = place;
            }
        }
        if self.quiet(best) < least.as_nanos() {
            None
        } else {
            Some(best)
        }
    }
}
