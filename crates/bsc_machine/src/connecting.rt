//! How a station connects to a peer that may not listen yet.

ghost use Rattle.std.specs.Prelude.{◌≡◌, length, IfOk};

use bsc_sockets::{Begun, ConnectionSettings, SocketsError, connect};
use std::alloc::Global;
use std::net::Net;
use std::thread::sleep;
use std::time::{Clock, Duration, Instant};

/// The time between two attempts to connect, in milliseconds.
const BETWEEN_ATTEMPTS: u64 = 100;

/// A peer to which a station connects.
pub trait Peer {
    /// The connection.
    type Connection: Drop;

    /// Whether this may be a connection to the peer.
    ghost gives: { Self → Self.Connection → Type 0 };

    /// Makes one attempt to connect, which waits this long at most. The error is `NobodyThere` if
    /// the peer does not listen yet.
    fn connect(&self, patience: Duration) -> Result<Self::Connection, SocketsError>
        ensures { IfOk result (gives self.now) };
}

/// Connects to a peer, and tries again as long as nobody is there and the patience lasts: 100
/// milliseconds after an attempt has failed, or when the patience ends, if that is sooner. An
/// attempt waits for what was left of the patience before this pause. Fails with `NobodyThere` when
/// the patience has ended, at once with any other error of an attempt, and with `Sockets` if the
/// clock cannot be read.
pub fn connect_within<R: Clock, P: Peer>(
    runtime: &R,
    patience: Duration,
    peer: &P,
) -> Result<P::Connection, SocketsError>
    ensures { IfOk result (P.gives peer.now) }
{
    let Ok(start) = Instant::now(runtime) else {
        return Err(SocketsError::Sockets);
    };
    let mut left = patience;
    for _ in 0..u64::MAX {
        match peer.connect(left) {
            Err(SocketsError::NobodyThere) => {}
            result => return result,
        }
        let Ok(passed) = start.elapsed(runtime) else {
            return Err(SocketsError::Sockets);
        };
        left = patience.saturating_sub(passed);
        if left.is_zero() {
            break;
        }
        sleep(runtime, Duration::from_millis(BETWEEN_ATTEMPTS).min(left));
    }
    Err(SocketsError::NobodyThere)
}

/// The peer at an address of the network.
#[derive(Drop)]
pub(crate) struct PeerAt<'a, 'b, R> {
    pub(crate) runtime: &'a R,
    pub(crate) address: &'b str,
    pub(crate) settings: ConnectionSettings,
}

impl<'a, R: AllocGlobal + Clock + Net> Peer for PeerAt<'a, '_, R> {
    type Connection = Begun<'a, R, Global>;

    ghost gives = { λ peer begun. (begun.sockets.settings ≡ peer.settings)
        × (length begun.connections.items ≡ 1) };

    fn connect(&self, patience: Duration) -> Result<Begun<'a, R, Global>, SocketsError> {
        let runtime = self.runtime;
        connect(
            runtime,
            runtime.alloc(),
            self.address,
            patience,
            self.settings,
        )
    }
}
