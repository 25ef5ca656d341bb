//! How a station waits, and for what.

use bsc_trust::Networks;
use std::os::fd::RawFd;
use std::time::Duration;

/// How long a station waits, which peers may connect, and what asks it to end.
#[derive(Clone, Copy, Debug, PartialEq, Eq)]
pub struct ConnectionSettings {
    /// The time-out (GA27-3004, time-outs): a station is told of a silence when it heard no
    /// transmission and sent none for this time. A write also waits no longer.
    pub time_out: Duration,

    /// What the station sends is late when more than this time has passed since what it answers may
    /// have arrived, or since a time-out. It is then not sent.
    pub late_after: Duration,

    /// The gap: a transmission that does not state its length ends when nothing follows for this
    /// time.
    pub gap: Duration,

    /// The time of silence without an answer at a place after which a newcomer may replace the
    /// connection there.
    pub replace_after: Duration,

    /// The pause with which a wait begins if the monitor of the station asks for it.
    pub pause: Duration,

    /// Whether the first time-out passes at once, if nothing has arrived, so that a control station
    /// makes its first call without delay.
    pub begins: bool,

    /// Whether a later time-out passes at once while nobody is connected who may answer what the
    /// station sent last, so that a control station does not wait for what cannot come. A station
    /// may do so only if nobody answers on one connection what it sent on another.
    pub skips: bool,

    /// The addresses of the peers that may connect to a station that listens. A peer with another
    /// address is turned away.
    pub allowed: Networks,

    /// A descriptor, such as 0 for standard input: the station is asked to end when its other end
    /// is closed. It is neither read nor closed.
    pub stops_with: Option<RawFd>,

    /// A descriptor that is readable when a program that the station serves may have to be served,
    /// such as that of another `Poll`. It is neither read nor closed.
    pub serves: Option<RawFd>,

    /// A descriptor that is readable when standard output takes more, such as that of another
    /// `Poll`. It is neither read nor closed.
    pub prints: Option<RawFd>,
}
