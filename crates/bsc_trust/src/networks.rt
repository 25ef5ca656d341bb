//! The networks of the peers that may connect.

ghost use Rattle.std.specs.Prelude.{◌≡◌, ◌≤◌};
ghost use Rattle.std.specs.List.{list_any};
ghost use Rattle.bsc_trust.specs.Networks.{contains};

use crate::Network;
use std::net::IpAddr;

/// The maximum number of networks in a list.
pub const MAX_NETWORKS: usize = 16;

/// The networks of the peers that may connect, at most [`MAX_NETWORKS`]. An empty list allows
/// everybody.
#[derive(Clone, Copy, Debug, PartialEq, Eq)]
pub struct Networks {
    /// The networks, and after them places that are not used.
    networks: [Network; MAX_NETWORKS],
    /// The number of networks.
    count: usize,
    ghost fits: { count ≤ 16 },
}

impl Networks {
    ghost use Rattle.std.specs.Prelude.{◌<◌, ◌∷◌, ◌++◌, ◌↔◌, [], length, IfSome, IsSome};
    ghost use Rattle.bsc_trust.specs.Lists.{listed};
    ghost use Rattle.bsc_trust.specs.Networks.{allows as allowed};

    /// Creates an empty list, which allows everybody.
    pub fn new() -> Networks
        ensures { listed result ≡ [] }
    {
        Networks {
            networks: [Network::nobody(); MAX_NETWORKS],
            count: 0,
        }
    }

    /// Returns the list with this network after the others; `None` if there are [`MAX_NETWORKS`]
    /// already.
    pub fn with(&self, network: Network) -> Option<Networks>
        ensures room { IsSome result ↔ (length (listed self.now) < MAX_NETWORKS) }
        ensures listed { IfSome result
            (λ networks. listed networks ≡ listed self.now ++ network ∷ []) }
    {
        if self.count >= MAX_NETWORKS {
            return None;
        }
        let mut networks = self.networks;
        networks[self.count] = network;
        Some(Networks {
            networks,
            count: self.count + 1,
        })
    }

    /// Whether a peer with this address may connect: the list is empty, or a network of it contains
    /// the address.
    pub fn allows(&self, address: IpAddr) -> bool
        ensures { result ≡ allowed (listed self.now) address }
    {
        self.count == 0 || is_in_any(&self.networks[..self.count], address)
    }
}

/// Whether an address is in one of these networks.
fn is_in_any(networks: &[Network], address: IpAddr) -> bool
    ensures { result ≡ list_any (λ network. contains network address) networks.now }
{
    networks.iter().any(|network| network.contains(address))
}
