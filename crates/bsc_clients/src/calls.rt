//! What the system has reported of the sockets of programs.

ghost use Rattle.std.specs.Prelude.{◌≡◌, false, position};
ghost use Rattle.mio.specs.Events.{items};
ghost use Rattle.bsc_clients.specs.Calls.{IsNext, IsTaken, after_asking, nothing_called};
ghost use Rattle.bsc_clients.specs.Calls.{with_token, with_tokens};

use bsc_serving::{Called, MAX_PROGRAMS};
use mio::Events;
use std::alloc::Allocator;
use std::marker::Model;

/// The token of the listener. Those of the programs are their places, which are fewer.
pub(crate) const LISTENER: usize = MAX_PROGRAMS;

/// The token of what ends a wait of the station. Nobody is told of it.
pub(crate) const WAKER: usize = MAX_PROGRAMS + 1;

/// What the system has reported and nobody was told of yet.
#[derive(Clone, Copy)]
pub(crate) struct Calls {
    /// Whether a program that has connected may still wait to be taken.
    waiting: bool,

    /// Whether it is still to be told that a program may have connected.
    newcomer: bool,

    /// Whether it is still to be told, for each place, that its program may have to be served.
    places: [bool; MAX_PROGRAMS],
}

impl Model for Calls {
    ghost use Rattle.bsc_clients.specs.Calls.{CallsValue};

    ghost Value = { CallsValue };

    ghost view = { λ c. record { waiting = c.waiting; newcomer = c.newcomer; places = c.places } };

    ghost inverse = { λ v.
        record { waiting = v.waiting; newcomer = v.newcomer; places = v.places } };
}

impl Calls {
    /// Creates what is known before the system was asked.
    pub(crate) fn new() -> Calls
        ensures { result ≡ nothing_called }
    {
        Calls {
            waiting: false,
            newcomer: false,
            places: [false; MAX_PROGRAMS],
        }
    }

    /// Records these events: what they report is told once each, and that a program may have
    /// connected also if one may still wait since before.
    pub(crate) fn record<A: Allocator>(&mut self, events: &Events<A>)
        ensures { self.new ≡ after_asking self.old (items events.now) }
    {
        self.record_all(events);
        self.newcomer = self.waiting;
    }

    /// Records that the sockets of these events were reported.
    fn record_all<A: Allocator>(&mut self, events: &Events<A>)
        ensures { self.new ≡ with_tokens self.old (items events.now) }
    {
        'events: for event in events {
            self.record_token(event.token().0);
        }
    }

    /// Records that the socket with this token was reported.
    fn record_token(&mut self, token: usize)
        ensures { self.new ≡ with_token self.old token }
    {
        if token == LISTENER {
            self.waiting = true;
        }
        if token < MAX_PROGRAMS {
            self.places[token] = true;
        }
    }

    /// Records that no program waits to be taken.
    pub(crate) fn nobody_waits(&mut self)
        ensures { self.new ≡ record self.old { waiting = false } }
    {
        self.waiting = false;
    }

    /// Returns what is to be told next: that a program may have connected, or else the first place
    /// whose program may have to be served.
    pub(crate) fn next(&mut self) -> Option<Called>
        ensures { IsNext self.old result self.new }
    {
        if self.newcomer {
            self.newcomer = false;
            return Some(Called::Newcomer);
        }
        match take_first(&mut self.places) {
            Some(place) => Some(Called::Program { place }),
            None => None,
        }
    }
}

/// Returns the first place that is marked, of which the mark is removed.
fn take_first(places: &mut [bool]) -> Option<usize>
    ensures { IsTaken places.old result places.new }
{
    let place = first_marked(places)?;
    places[place] = false;
    Some(place)
}

/// Returns the first place that is marked.
fn first_marked(places: &[bool]) -> Option<usize>
    ensures { result ≡ position (λ marked. marked) places.now }
{
    places.iter().position(|&marked| marked)
}
