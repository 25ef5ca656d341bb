//! The monitor that watches a station.

ghost use Rattle.std.specs.Prelude.{◌≡◌, ℕ, List, Bool, true, not, IfOk, Result};
ghost use Rattle.bsc_connections.specs.declared.awaited.LiveError.{LiveError as LiveErrorValue};
ghost use Rattle.bsc_connections.specs.declared.awaited.Pace.{Pace as PaceValue};
ghost use Rattle.bsc_connections.specs.Histories.{Happening};
ghost use Rattle.bsc_connections.specs.Notes.{told_by};

use crate::{Decoded, LiveError, Pace};
use bsc_carrier::CarrierError;
use std::net::SocketAddr;
use thiserror::Error;

/// Why a peer has no connection.
#[derive(Clone, Copy, Debug, PartialEq, Eq, Error)]
pub enum Refusal {
    /// No connection was closed, and none was to be replaced. The peer was turned away.
    #[error("every place is taken")]
    NoPlace,

    /// The system could not accept the peer, for example because no descriptor is left. That is
    /// tried again later.
    #[error("the system cannot accept it yet")]
    NotAccepted,

    /// The address of the peer may not connect. The peer was turned away.
    #[error("its address is not allowed")]
    NotAllowed,
}

/// What happened. A monitor is told of it after the station has acted, and before the station's
/// answer is sent.
#[derive(Clone, Copy)]
pub enum Note<'a> {
    /// This was heard on the connection at this place.
    Heard {
        connection: usize,
        transmission: &'a Decoded<'a>,
    },

    /// This arrived on the connection at this place, and the station did not hear it, since the
    /// monitor did not admit it.
    Ignored {
        connection: usize,
        transmission: &'a Decoded<'a>,
    },

    /// A time-out has passed.
    Silence,

    /// This was sent on every open connection. The monitor is told of it after that.
    Sent {
        transmission: &'a Decoded<'a>,
    },

    /// This was not sent, since the waiter says that it would be late. To the peers that is as if
    /// it had been lost on the way. The monitor is told in place of `Sent`.
    Withheld {
        transmission: &'a Decoded<'a>,
    },

    /// This peer took the connection at this place. `replaces` tells whether the connection was
    /// open, and so is closed now.
    Joined {
        connection: usize,
        peer: Option<SocketAddr>,
        replaces: bool,
    },

    /// This peer has no connection, for this reason.
    Refused {
        peer: Option<SocketAddr>,
        why: Refusal,
    },

    /// The connection of this peer at this place is closed. `why` is the error, or None if the peer
    /// ended the connection and cut no transmission short.
    Closed {
        connection: usize,
        peer: Option<SocketAddr>,
        why: Option<CarrierError>,
    },

    /// The station was asked to end.
    Stopped,
}

/// Sees what happens to a station of type `S`, decides what it hears, accepts or refuses what
/// happened, and decides when to end.
pub trait Monitor<S> {
    /// Whether the station is no longer to be attended.
    ghost has_ended: { Self → Bool };

    /// Whether the station, as it is then, hears these octets, which arrived on the connection at
    /// this place.
    ghost admits: { Self → S → ℕ → List ℕ → Bool };

    /// Whether the peer of the connection at this place may answer what the station, as it is then,
    /// has sent last.
    ghost may_answer: { Self → S → ℕ → Bool };

    /// How the next wait begins.
    ghost paces: { Self → PaceValue };

    /// What it does when it is told of something: the monitor before, the station as it is then,
    /// what happened, the result, the monitor after.
    ghost is_told: { Self → S → Happening → Result Bool LiveErrorValue → Self → Type 0 };

    /// Takes note of an event. Returns false if the station is no longer to be attended; every
    /// later note then returns false as well. An error refuses the event: the station's answer to
    /// it is not sent, and the station is no longer attended.
    fn note(&mut self, station: &S, note: Note<'_>) -> Result<bool, LiveError>
        ensures told { is_told self.old station.now (told_by note.entry) result self.new }
        ensures answer { IfOk result (λ goes_on. goes_on ≡ not (has_ended self.new)) }
        ensures kept { has_ended self.old ≡ true → has_ended self.new ≡ true };

    /// Returns whether the station hears this transmission, which arrived on the connection at this
    /// place. One that is not admitted is not heard; the monitor is told of it.
    fn admits(&self, station: &S, connection: usize, transmission: &Decoded<'_>) -> bool
        ensures { result ≡ admits self.now station.now connection transmission.now };

    /// Returns whether the peer of the connection at this place may answer what the station has
    /// sent last. It may not if the station knows that it awaits the answer of another peer.
    fn may_answer(&self, station: &S, connection: usize) -> bool
        ensures { result ≡ may_answer self.now station.now connection };

    /// Returns how the wait begins that follows what was noted last.
    fn pace(&self) -> Pace
        ensures { result ≡ paces self.now };
}
