//! What is known of the connection at a place.

ghost use Rattle.std.specs.Prelude.{◌≡◌};
ghost use Rattle.bsc_trust.specs.Connections.{nobody, is_this, ignored_on};

use std::net::IpAddr;

/// What is known of the connection at a place.
#[derive(Clone, Copy, Debug)]
pub(crate) struct Connected {
    /// The address of its peer, if it is known.
    pub peer: Option<IpAddr>,

    /// The number of the terminal that owns it, which is the one that answers on it.
    pub owner: Option<usize>,

    /// Whether nothing more is heard on it: something arrived on it out of turn while no terminal
    /// owned it.
    pub barred: bool,

    /// Whether something arrived on it that was not heard, so that the reason was told.
    pub told: bool,
}

impl Connected {
    /// A connection of which nothing is known.
    pub(crate) fn nobodys() -> Connected
        ensures { result ≡ nobody }
    {
        Connected {
            peer: None,
            owner: None,
            barred: false,
            told: false,
        }
    }

    /// Returns whether this terminal owns it.
    pub(crate) fn is_of(&self, terminal: usize) -> bool
        ensures { result ≡ is_this terminal self.now.owner }
    {
        match self.owner {
            Some(owner) => owner == terminal,
            None => false,
        }
    }

    /// Returns what is known of it after something on it was not heard: that this was told, and it
    /// is barred if no terminal owns it, unless all terminals share one connection.
    pub(crate) fn after_ignored(self, shared: bool) -> Connected
        ensures { result ≡ ignored_on shared self }
    {
        let bars = !shared && self.owner.is_none();
        Connected {
            peer: self.peer,
            owner: self.owner,
            barred: self.barred || bars,
            told: true,
        }
    }
}
