//! The peers that may connect, and those that answer for terminals.

ghost use Rattle.std.specs.Prelude.{◌≡◌, ℕ, List, Result, map, string_bytes};
ghost use Rattle.bsc_options.specs.Words.{words_value};
ghost use Rattle.bsc_options.specs.Admission.{AddsNetwork, AddsPeer, HasNoNetwork, IsAdmission};
ghost use Rattle.bsc_options.specs.Admission.{IsNobody, ReadsFrom, ReadsPeer};
ghost use Rattle.bsc_options.specs.declared.error.OptionError.{OptionError as OptionErrorValue};

use crate::numbers::octet_in;
use crate::splitting::split_at;
use crate::{OptionError, Words};
use bsc_trust::{Network, Networks, TerminalPeers};
use std::net::IpAddr;

/// The addresses from which terminals answer, as they are given.
#[derive(Clone, Copy)]
pub struct GivenPeers {
    /// The address of each terminal for which one is given.
    pub addresses: TerminalPeers,

    /// One more than the greatest number of a terminal for which one is given; 0 if none is.
    pub terminals: usize,
}

/// The peers of a station, as they are given.
#[derive(Clone, Copy)]
pub struct Admission {
    /// The networks from which peers may connect.
    pub allowed: Networks,

    /// The addresses from which terminals answer.
    pub peers: GivenPeers,
}

/// What the texts of an option that may be given more than once come to.
trait Given: Copy {
    /// Whether this is what no text comes to.
    ghost begins: { Self → Type 0 };

    /// What one more text changes: the text, the value before it, the value after it or why the
    /// text is refused.
    ghost adds: { List ℕ → Self → Result Self OptionErrorValue → Type 0 };

    /// Returns what no text comes to.
    fn nothing() -> Self
        ensures { begins result };

    /// Adds what one more text gives.
    fn with_text(self, text: &str) -> Result<Self, OptionError>
        ensures { adds text.now self result };
}

/// Reads the texts of an option in order.
fn read_each<V: Given>(texts: &[String]) -> Result<V, OptionError>
    ensures { ReadsFrom V.begins V.adds (map string_bytes texts.now) result }
{
    let mut value = V::nothing();
    'texts: for text in texts {
        value = value.with_text(text.as_str())?;
    }
    Ok(value)
}

impl Given for Networks {
    ghost begins = { HasNoNetwork };

    ghost adds = { AddsNetwork };

    fn nothing() -> Networks {
        Networks::new()
    }

    /// Adds the network in a text of `--allow`.
    fn with_text(self, text: &str) -> Result<Networks, OptionError> {
        let Ok(network) = Network::read(text) else {
            return Err(OptionError::AllowForm);
        };
        match self.with(network) {
            Some(networks) => Ok(networks),
            None => Err(OptionError::TooManyNetworks),
        }
    }
}

/// Returns the terminal and the address in `T=ADDRESS`.
fn peer_of(text: &str) -> Option<(usize, IpAddr)>
    ensures { ReadsPeer text.now result }
{
    let (terminal, address) = split_at(text, '=');
    let terminal = octet_in(terminal)?;
    match address?.parse::<IpAddr>() {
        Ok(address) => Some((terminal, address)),
        Err(_) => None,
    }
}

impl Given for GivenPeers {
    ghost begins = { IsNobody };

    ghost adds = { AddsPeer };

    fn nothing() -> GivenPeers {
        GivenPeers {
            addresses: TerminalPeers::new(),
            terminals: 0,
        }
    }

    /// Adds the address in a text of `--peer`.
    fn with_text(self, text: &str) -> Result<GivenPeers, OptionError> {
        let Some((terminal, address)) = peer_of(text) else {
            return Err(OptionError::PeerForm);
        };
        match self.addresses.address_of(terminal) {
            Some(_) => Err(OptionError::RepeatedPeer),
            None => Ok(GivenPeers {
                addresses: self.addresses.with(terminal, address),
                terminals: self.terminals.max(terminal + 1),
            }),
        }
    }
}

/// Reads the peers in the options, or returns the first reason for refusing them: those of
/// `--allow` come before those of `--peer`.
pub fn read_admission(words: &Words) -> Result<Admission, OptionError>
    ensures { IsAdmission (words_value words.now) result }
{
    let allowed: Networks = read_each(words.texts("allow"))?;
    let peers: GivenPeers = read_each(words.texts("peer"))?;
    Ok(Admission { allowed, peers })
}
