//! Takes the next of the peers that a station waits for.

ghost use Rattle.std.specs.Prelude.{◌≡◌, IfErr, IfOk, IfSome, Some, slice_get, true};
ghost use Rattle.bsc_sockets.specs.Answers.{may_connect};
ghost use Rattle.bsc_sockets.specs.Beginning.{is_allowed};
ghost use Rattle.bsc_sockets.specs.Listening.{IsPeerError, peer_error};
ghost use Rattle.bsc_sockets.specs.Standings.{after_joining, standings_value};

use crate::directions::{Reading, Writing};
use crate::sockets::Peer;
use crate::time_limit::TimeLimit;
use crate::waiting::Sought;
use crate::{Reception, Sockets, SocketsError};
use bsc_connections::{Awaited, LiveError};
use std::alloc::Allocator;
use std::net::{Net, SocketAddr};
use std::time::{Clock, Duration};

/// A connection that was made.
#[derive(Drop)]
pub(crate) struct Made<'a, N: Clock, A: Allocator> {
    /// Its two directions.
    pub(crate) directions: (Reading, Writing<'a, N, A>),

    /// The address of its peer.
    pub(crate) address: SocketAddr,
}

impl<'a, N: Net + Clock, A: Allocator + Copy> Sockets<'a, N, A> {
    /// Makes the next peer that may connect, within this time, the connection at this place. A peer
    /// for which the system refuses what its connection needs is turned away, as the reception is
    /// told, and another one is waited for. Fails otherwise as `next_peer`, and with `Memory` if
    /// memory cannot be allocated.
    pub(crate) fn next_connection<H: Reception>(
        &mut self,
        place: usize,
        patience: Duration,
        reception: &mut H,
    ) -> Result<Made<'a, N, A>, SocketsError>
        ensures settings { self.new.settings ≡ self.old.settings }
        ensures places { self.new.places ≡ self.old.places }
        ensures listener { self.new.listener ≡ self.old.listener }
        ensures peer { IfOk result (λ made. standings_value self.new.standings
            ≡ after_joining (Some made.address) (standings_value self.old.standings) place
            (slice_get self.old.standings.places.items place)) }
        ensures admitted { IfOk result
            (λ made. is_allowed self.old.settings.allowed made.address ≡ true) }
        ensures failed { IfErr result IsPeerError }
    {
        let limit = TimeLimit::begin(self.runtime, patience)?;
        let mut left = patience;
        'peers: for _ in 0..u64::MAX {
            let Peer { stream, address } = self.next_peer(left, reception)?;
            match self.open(place, stream, Some(address)) {
                Ok(directions) => {
                    return Ok(Made {
                        directions,
                        address,
                    });
                }
                Err(SocketsError::Sockets) => reception.left(place, Some(address)),
                Err(error) => return Err(error),
            }
            left = limit.left(self.runtime)?;
            if left.is_zero() {
                break;
            }
        }
        Err(SocketsError::NobodyConnected)
    }

    /// Returns the next peer that may connect and does so within this time. The reception is told
    /// of each peer that may not, which is turned away. Fails with `Stopped` if the station is
    /// asked to end, and with `NobodyConnected` if no such peer connects in time.
    pub(crate) fn next_peer<H: Reception>(
        &mut self,
        patience: Duration,
        reception: &mut H,
    ) -> Result<Peer, SocketsError>
        ensures settings { self.new.settings ≡ self.old.settings }
        ensures places { self.new.places ≡ self.old.places }
        ensures listener { self.new.listener ≡ self.old.listener }
        ensures standings { self.new.standings ≡ self.old.standings }
        ensures admitted { IfOk result
            (λ peer. may_connect self.old.settings.allowed peer ≡ true) }
        ensures failed { IfErr result IsPeerError }
    {
        let limit = TimeLimit::begin(self.runtime, patience)?;
        let mut left = patience;
        'peers: for _ in 0..u64::MAX {
            if let Some(peer) = self.peer_within(left, reception)? {
                return Ok(peer);
            }
            left = limit.left(self.runtime)?;
            if left.is_zero() {
                break;
            }
        }
        Err(SocketsError::NobodyConnected)
    }

    /// As `next_peer`, but returns `None` after the first peer that may not connect.
    fn peer_within<H: Reception>(
        &mut self,
        left: Duration,
        reception: &mut H,
    ) -> Result<Option<Peer>, SocketsError>
        ensures settings { self.new.settings ≡ self.old.settings }
        ensures places { self.new.places ≡ self.old.places }
        ensures listener { self.new.listener ≡ self.old.listener }
        ensures standings { self.new.standings ≡ self.old.standings }
        ensures admitted { IfOk result (λ found.
            IfSome found (λ peer. may_connect self.old.settings.allowed peer ≡ true)) }
        ensures failed { IfErr result IsPeerError }
    {
        match self.within(left, Sought::Newcomer) {
            Ok(Awaited::Newcomer) => Ok(self.take_admitted()),
            Ok(Awaited::NotAllowed) => {
                if let Some(peer) = self.newcomer.take() {
                    reception.refused(peer.address);
                }
                // Else such peers could hide that the station is asked to end.
                self.unasked = self.unasked.saturating_add(1);
                Ok(None)
            }
            Ok(Awaited::Stopped) => Err(SocketsError::Stopped),
            Ok(_) => Err(SocketsError::NobodyConnected),
            Err(error) => Err(peer_error(error)),
        }
    }
}

/// Returns why the next peer is not taken, if waiting for it fails with this.
fn peer_error(error: LiveError) -> SocketsError
    ensures error { result ≡ peer_error error }
    ensures fault { IsPeerError result }
{
    match error {
        LiveError::Memory => SocketsError::Memory,
        _ => SocketsError::Sockets,
    }
}
