//! Takes the peers that connect.

ghost use Rattle.std.specs.Prelude.{◌≡◌, ◌↔◌, ◌&&◌, IfSome, IsNone, IsSome, IsTrue, None, false};
ghost use Rattle.std.specs.Prelude.{is_some, not, true};
ghost use Rattle.std.specs.Option.{option_map_or};
ghost use Rattle.bsc_sockets.specs.Answers.{IsAnswer, listener_event as event_at, peer_event};
ghost use Rattle.bsc_sockets.specs.Calls.{is_call};
ghost use Rattle.bsc_sockets.specs.Listening.{TakesNobody, is_refused, not_taken_by, sought_after};
ghost use Rattle.bsc_sockets.specs.Stopping.{stops_in};
ghost use Rattle.bsc_sockets.specs.Times.{ended_gap};

use crate::Sockets;
use crate::sockets::Peer;
use bsc_connections::Awaited;
use std::alloc::Allocator;
use std::io::ErrorKind;
use std::net::Net;
use std::time::Clock;

impl<'a, N: Net + Clock, A: Allocator + Copy> Sockets<'a, N, A> {
    /// Returns the event of the listener: that of the peer that has connected, or that the system
    /// cannot accept one, if that is new.
    pub(crate) fn listener_event(&mut self) -> Option<Awaited>
        ensures event { result ≡ event_at self.new.settings.allowed self.new.newcomer
            (self.new.refuses && not self.old.refuses) }
        ensures answer { IfSome result
            (IsAnswer self.new.settings.allowed self.new.places self.new.newcomer
            self.new.ready) }
        ensures no_gap { IfSome result (λ awaited. ended_gap awaited ≡ None) }
        ensures no_call { IfSome result (λ awaited. is_call awaited ≡ false) }
        ensures settings { self.new.settings ≡ self.old.settings }
        ensures stopping { self.new.stopping ≡ self.old.stopping }
        ensures asked_nothing { option_map_or stops_in result 0 ≡ 0 }
        ensures times { self.new.times ≡ self.old.times }
        ensures standings { self.new.standings ≡ self.old.standings }
        ensures places { self.new.places ≡ self.old.places }
        ensures listener { self.new.listener ≡ self.old.listener }
        ensures newcomer { IsSome self.old.newcomer → self.new.newcomer ≡ self.old.newcomer }
        ensures called { self.new.called ≡ self.old.called }
        ensures events { self.new.events ≡ self.old.events }
    {
        let refused = self.refuses;
        if self.has_newcomer() {
            return Some(self.newcomer_event());
        }
        if self.refuses && !refused {
            Some(Awaited::NotAccepted)
        } else {
            None
        }
    }

    /// Returns the event of the peer that has connected: `NotAllowed` if it may not.
    pub(crate) fn newcomer_event(&self) -> Awaited
        requires { IsSome self.now.newcomer }
        ensures answer { IsAnswer self.now.settings.allowed self.now.places
            self.now.newcomer
            self.now.ready result }
        ensures event { IfSome self.now.newcomer
            (λ peer. result ≡ peer_event self.now.settings.allowed peer) }
        ensures stops { stops_in result ≡ 0 }
        ensures no_gap { ended_gap result ≡ None }
        ensures no_call { is_call result ≡ false }
    {
        match &self.newcomer {
            Some(peer) if !self.settings.allowed.allows(peer.address.ip()) => Awaited::NotAllowed,
            _ => Awaited::Newcomer,
        }
    }

    /// Returns whether there is a peer that has connected and has no place yet, and keeps that
    /// peer. If the system is asked for one, records whether it refuses.
    pub(crate) fn has_newcomer(&mut self) -> bool
        ensures answer { IsTrue result ↔ IsSome self.new.newcomer }
        ensures settings { self.new.settings ≡ self.old.settings }
        ensures stopping { self.new.stopping ≡ self.old.stopping }
        ensures times { self.new.times ≡ self.old.times }
        ensures standings { self.new.standings ≡ self.old.standings }
        ensures places { self.new.places ≡ self.old.places }
        ensures listener { self.new.listener ≡ self.old.listener }
        ensures newcomer { IsSome self.old.newcomer → self.new.newcomer ≡ self.old.newcomer }
        ensures was_there { IsSome self.old.newcomer → (result ≡ true)
            × (self.new.refuses ≡ self.old.refuses) }
        ensures accepted { IsNone self.old.newcomer → result ≡ true → self.new.refuses ≡ false }
        ensures nobody { result ≡ false → TakesNobody (is_some self.old.listener) self.old.places
            self.old.ready self.old.refuses self.new.ready self.new.refuses }
        ensures called { self.new.called ≡ self.old.called }
        ensures events { self.new.events ≡ self.old.events }
    {
        if self.newcomer.is_some() {
            return true;
        }
        let Some(listener) = &self.listener else {
            self.ready.clear(self.places);
            return false;
        };
        match listener.accept() {
            Ok((stream, address)) => {
                self.newcomer = Some(Peer { stream, address });
                self.refuses = false;
                true
            }
            Err(error) => {
                self.not_taken(why_not_taken(error.kind()));
                false
            }
        }
    }

    /// Records why no peer could be accepted. If none is waiting, the listener, whose place is
    /// after those of the connections, is not asked until the system reports one.
    fn not_taken(&mut self, why: NotTaken)
        ensures ready { self.new.ready ≡ sought_after why self.old.places self.old.ready }
        ensures refuses { self.new.refuses ≡ is_refused why }
        ensures others { self.new
            ≡ record self.old { ready = self.new.ready; refuses = self.new.refuses } }
    {
        self.refuses = false;
        match why {
            NotTaken::Nobody => self.ready.clear(self.places),
            NotTaken::Gone => {}
            NotTaken::Refused => self.refuses = true,
        }
    }
}

/// Why no peer was accepted.
#[derive(Clone, Copy)]
pub(crate) enum NotTaken {
    /// There is no peer.
    Nobody,

    /// The peer has left, or a signal came: another peer may be waiting.
    Gone,

    /// The system could not accept the peer, for example because no descriptor is left. It is asked
    /// again later.
    Refused,
}

/// Returns why no peer was accepted, by the kind of the error.
fn why_not_taken(kind: ErrorKind) -> NotTaken
    ensures { result ≡ not_taken_by kind }
{
    match kind {
        ErrorKind::WouldBlock => NotTaken::Nobody,
        ErrorKind::ConnectionAborted | ErrorKind::Interrupted => NotTaken::Gone,
        _ => NotTaken::Refused,
    }
}
