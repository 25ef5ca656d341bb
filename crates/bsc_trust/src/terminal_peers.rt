//! The addresses from which terminals answer.

ghost use Rattle.std.specs.Prelude.{◌≡◌, ◌==◌, None, replicate, slice_set};
ghost use Rattle.bsc_trust.specs.Peers.{number_of, is_given_as, is_given, given_for, forbids};
ghost use Rattle.bsc_bid.specs.declared.limits.TheConstants.{MAX_TERMINALS};

use bsc_bid::limits::MAX_TERMINALS;
use std::net::IpAddr;

/// The addresses from which terminals answer, as far as they are given. An IPv4 address is the same
/// as the IPv4-mapped IPv6 address.
#[derive(Clone, Copy, Debug)]
pub struct TerminalPeers {
    /// The address that is given for each terminal, if one is.
    addresses: [Option<IpAddr>; MAX_TERMINALS],
}

impl TerminalPeers {
    /// Returns the peers of terminals for none of which an address is given.
    pub fn new() -> TerminalPeers
        ensures { result.addresses ≡ replicate MAX_TERMINALS None }
    {
        TerminalPeers {
            addresses: [None; MAX_TERMINALS],
        }
    }

    /// Returns these peers, but with this address for this terminal, in place of one that was given
    /// before. A terminal whose number is 64 or more has none.
    pub fn with(mut self, terminal: usize, address: IpAddr) -> TerminalPeers
        ensures { result.addresses ≡ slice_set self.addresses terminal (Some address) }
    {
        if terminal < MAX_TERMINALS {
            self.addresses[terminal] = Some(address);
        }
        self
    }

    /// Returns the address that is given for this terminal, if one is.
    pub fn address_of(&self, terminal: usize) -> Option<IpAddr>
        ensures { result ≡ given_for self.now.addresses terminal }
    {
        if terminal >= MAX_TERMINALS {
            return None;
        }
        self.addresses[terminal]
    }

    /// Returns whether this peer may not answer for this terminal: an address is given for the
    /// terminal, and the peer has another one, or none that is known; or none is given for the
    /// terminal, and the address of the peer is given for another one.
    pub fn forbids(&self, terminal: usize, peer: Option<IpAddr>) -> bool
        ensures { result ≡ forbids self.now.addresses terminal peer }
    {
        match (self.address_of(terminal), peer) {
            (Some(address), Some(peer)) => number_of(address) != number_of(peer),
            (Some(_), None) => true,
            (None, Some(peer)) => self.are_given(peer),
            (None, None) => false,
        }
    }

    /// Returns whether this address is given for some terminal.
    fn are_given(&self, peer: IpAddr) -> bool
        ensures { result ≡ is_given self.now.addresses peer }
    {
        self.addresses.iter().any(|given| is_given_as(*given, peer))
    }
}

/// Returns whether this address is the one that is given, if one is.
fn is_given_as(given: Option<IpAddr>, peer: IpAddr) -> bool
    ensures { result ≡ is_given_as peer given }
{
    match given {
        Some(address) => number_of(address) == number_of(peer),
        None => false,
    }
}

/// Returns the number of an address as an IPv6 address, which is that of the IPv4-mapped one for an
/// IPv4 address.
fn number_of(address: IpAddr) -> u128
    ensures { result ≡ number_of address }
{
    match address {
        IpAddr::V4(address) => 0xffff_0000_0000 + u128::from(address.to_bits()),
        IpAddr::V6(address) => address.to_bits(),
    }
}
