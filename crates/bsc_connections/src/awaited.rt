//! What a station waits for, and the waiter that tells it what happened.

ghost use Rattle.std.specs.Prelude.{ℕ, Bool, Option, Result};
ghost use Rattle.std.specs.declared.net.socket_addr.SocketAddr.{SocketAddr as Address};
ghost use Rattle.bsc_connections.specs.declared.awaited.Awaited.{Awaited as AwaitedValue};
ghost use Rattle.bsc_connections.specs.declared.awaited.Handled.{Handled as HandledValue};
ghost use Rattle.bsc_connections.specs.declared.awaited.LiveError.{LiveError as LiveErrorValue};
ghost use Rattle.bsc_connections.specs.declared.awaited.Pace.{Pace as PaceValue};

use std::net::SocketAddr;
use thiserror::Error;

/// What happened first during a wait.
#[derive(Clone, Copy, Debug, PartialEq, Eq)]
pub enum Awaited {
    /// The connection at this place may have octets to read, or may have ended.
    Octets { connection: usize },

    /// Another peer has connected.
    Newcomer,

    /// Another peer is connecting, and the system cannot accept it, for example because no
    /// descriptor is left. Later waits try again.
    NotAccepted,

    /// Another peer has connected whose address may not.
    NotAllowed,

    /// The gap has passed since the last octets of the connection at this place.
    Gap { connection: usize },

    /// The time-out has passed since its time was begun (GA27-3004, time-outs).
    TimeOut,

    /// The station is asked to end. A waiter returns it once when that is asked, and a second time
    /// when a time-out has passed since then.
    Stopped,

    /// There may be work beside the line: a program that the station serves may have to be served,
    /// or standard output takes more. Nothing has happened on the line.
    Client,
}

/// What a station has handled, after which the time of the time-out may begin anew.
#[derive(Clone, Copy, Debug, PartialEq, Eq)]
pub enum Handled {
    /// A transmission that was heard on the connection at this place, and that the station
    /// answered.
    Answered { connection: usize },

    /// A transmission that was heard on the connection at this place, and that the station did not
    /// answer.
    Unanswered { connection: usize },

    /// A silence.
    Silence,
}

/// How the next wait begins.
#[derive(Clone, Copy, Debug, PartialEq, Eq)]
pub enum Pace {
    /// At once.
    AtOnce,

    /// After a pause.
    AfterPause,
}

/// Why a station is no longer attended.
#[derive(Clone, Copy, Debug, PartialEq, Eq, Error)]
pub enum LiveError {
    /// The system refused to wait.
    #[error("cannot wait for the sockets")]
    Wait,

    /// There were too many steps to count in 64 bits.
    #[error("too much happened")]
    Count,

    /// The monitor could not print what happened.
    #[error("output fault")]
    Output,

    /// The monitor could not print the records that arrived. They are not acknowledged.
    #[error("records that arrived could not be printed")]
    Unprinted,

    /// What the station has changed of its records could not be kept. Nothing that rests on it is
    /// sent.
    #[error("what happened could not be kept")]
    Unkept,

    /// Memory could not be allocated.
    #[error("out of memory")]
    Memory,
}

/// Waits for the next event on a set of connections, and keeps the time of the time-out and of each
/// gap. `R` and `W` are the two directions of a connection.
pub trait Waiter<R, W> {
    /// What a wait may return: the waiter before, whether somebody may answer what the station sent
    /// last, the result, the waiter after.
    ghost waits: { Self → Bool → Result AwaitedValue LiveErrorValue → Self → Type 0 };

    /// The station has handled this, and the next wait begins so: the waiter before, what was
    /// handled, how the next wait begins, the waiter after.
    ghost handles: { Self → HandledValue → PaceValue → Self → Type 0 };

    /// Whether something that is sent now is in time: the waiter before, the result, the waiter
    /// after.
    ghost permits: { Self → Bool → Self → Type 0 };

    /// The gap of the connection at this place begins anew.
    ghost begins_gap: { Self → ℕ → Self → Type 0 };

    /// Nothing is left to read at this place.
    ghost has_nothing_left: { Self → ℕ → Self → Type 0 };

    /// The peer that has connected joins at this place, with these directions if it is still there.
    ghost joins: { Self → ℕ → Option (R × W) → Self → Type 0 };

    /// The peer that has connected is turned away.
    ghost turns_away: { Self → Self → Type 0 };

    /// The place whose connection a newcomer may replace, if there is one.
    ghost may_replace: { Self → Option ℕ → Type 0 };

    /// The address of the peer of the connection at this place, if it is known.
    ghost names: { Self → ℕ → Option Address → Type 0 };

    /// The address of the peer that has connected and has no place yet, if it is known.
    ghost names_newcomer: { Self → Option Address → Type 0 };

    /// Waits until octets arrive, a peer connects, a gap has passed, the time-out has, or the
    /// station is asked to end. It may return `Octets` for a connection that has nothing to read.
    /// Once it has returned `Octets` for a connection it keeps doing so until `nothing_left` is
    /// called. It returns `Gap` once for each gap that was begun, unless the gap is begun anew
    /// before it has passed. `is_reached` tells whether somebody may answer what the station sent
    /// last: a peer that is connected, on whose connection a transmission was written, and that the
    /// monitor says may answer. If there is none, a waiter may take the time-out to have passed.
    fn wait(&mut self, is_reached: bool) -> Result<Awaited, LiveError>
        ensures { waits self.old is_reached result self.new };

    /// Records what the station has handled, and how the next wait begins. The time of the time-out
    /// then begins anew, with the next wait and after its pause, unless the transmission may be
    /// that of a stranger: of a connection on which the station has never answered one. Nothing
    /// else moves it.
    fn handled(&mut self, what: Handled, pace: Pace)
        ensures { handles self.old what pace self.new };

    /// Returns whether something that the station sends now is in time. It is late if so much time
    /// has passed since what it answers may have arrived, or since the time-out, that it could be
    /// heard after the time-out of a peer. What is late is not sent.
    fn may_send(&mut self) -> bool
        ensures { permits self.old result self.new };

    /// Begins the gap of the connection at this place anew, with the next wait.
    fn begin_gap(&mut self, connection: usize)
        ensures { begins_gap self.old connection self.new };

    /// Records that the connection at this place has nothing to read at present, or is closed.
    fn nothing_left(&mut self, connection: usize)
        ensures { has_nothing_left self.old connection self.new };

    /// Returns the two directions of the connection of the peer that has connected, which will be
    /// the connection at this place; None if the peer has gone.
    fn join(&mut self, connection: usize) -> Option<(R, W)>
        ensures { joins self.old connection result self.new };

    /// Turns away the peer that has connected, because no place is free or because it may not
    /// connect.
    fn turn_away(&mut self)
        ensures { turns_away self.old self.new };

    /// Returns the place of the connection that a newcomer may replace, because nobody has answered
    /// on it for long; None if there is none.
    fn replaceable(&self) -> Option<usize>
        ensures { may_replace self.now result };

    /// Returns the address of the peer of the connection at this place, if it is known.
    fn peer(&self, connection: usize) -> Option<SocketAddr>
        ensures { names self.now connection result };

    /// Returns the address of the peer that has connected and has no place yet, if it is known.
    fn newcomer(&self) -> Option<SocketAddr>
        ensures { names_newcomer self.now result };
}
