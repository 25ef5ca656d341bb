//! The keys of a configuration, and how they are printed.

ghost use Rattle.std.specs.Prelude.{◌≡◌};
ghost use Rattle.bsc_config.specs.Keys.{name_of, owner_of};

use std::fmt;

/// The table to which a key belongs.
#[derive(Clone, Copy, Debug, PartialEq, Eq)]
pub enum Owner {
    /// The document.
    Document,

    /// The terminal with this number, counted from 0.
    Terminal { number: usize },
}

/// A key that a configuration may have.
#[derive(Clone, Copy, Debug, PartialEq, Eq)]
pub enum Key {
    /// `version`, 1 or 2.
    Version,

    /// `full`, the full length of a record in characters.
    Full,

    /// `block_chars`, the largest character count of a block.
    BlockChars,

    /// `tries`, the number of failures in a row that are allowed.
    Tries,

    /// `waits`, the number of WACKs since the last acknowledgement that are allowed.
    Waits,

    /// `poll_list`, the numbers of the terminals in polling order.
    PollList,

    /// `terminals`, a table for each terminal.
    Terminals,

    /// `poll`, the polling address of the terminal with this number, counted from 0.
    Poll { terminal: usize },

    /// `select`, the selection addresses of the terminal with this number, counted from 0.
    Select { terminal: usize },
}

impl Key {
    /// Returns the name of the key in its table, such as `poll`.
    pub fn name(&self) -> &'static str
        ensures { result.now ≡ name_of self.now }
    {
        match self {
            Key::Version => "version",
            Key::Full => "full",
            Key::BlockChars => "block_chars",
            Key::Tries => "tries",
            Key::Waits => "waits",
            Key::PollList => "poll_list",
            Key::Terminals => "terminals",
            Key::Poll { .. } => "poll",
            Key::Select { .. } => "select",
        }
    }

    /// Returns the table to which the key belongs.
    pub fn owner(&self) -> Owner
        ensures { result ≡ owner_of self.now }
    {
        match self {
            Key::Poll { terminal } => Owner::Terminal { number: *terminal },
            Key::Select { terminal } => Owner::Terminal { number: *terminal },
            _ => Owner::Document,
        }
    }
}

/// A key that a configuration may not have.
#[derive(Debug, Drop)]
pub struct UnknownKey {
    /// The table that contains it.
    pub owner: Owner,

    /// Its name, as read from the document.
    pub name: String,
}

impl fmt::Display for Owner {
    ghost use Rattle.std.specs.Prelude.{Some};
    ghost use Rattle.bsc_config.specs.Keys.{prefix_of};

    ghost output = { λ owner. Some (prefix_of owner) };

    /// Writes the prefix of the name of a key: nothing for the document, `terminals[0].` for the
    /// first terminal.
    fn fmt<W: fmt::Write>(&self, f: &mut fmt::Formatter<W>) -> fmt::Result {
        match self {
            Owner::Document => f.write_str(""),
            Owner::Terminal { number } => write!(f, "terminals[{number}]."),
        }
    }
}

impl fmt::Display for Key {
    ghost use Rattle.std.specs.Prelude.{Some, ◌++◌};
    ghost use Rattle.bsc_config.specs.Keys.{name_of, owner_of, prefix_of};

    ghost output = { λ key. Some (prefix_of (owner_of key) ++ name_of key) };

    /// Writes the key with its prefix, such as `full` or `terminals[0].poll`.
    fn fmt<W: fmt::Write>(&self, f: &mut fmt::Formatter<W>) -> fmt::Result {
        let owner = self.owner();
        let name = self.name();
        write!(f, "{owner}{name}")
    }
}

impl fmt::Display for UnknownKey {
    ghost use Rattle.std.specs.Prelude.{Some, ◌++◌, string_bytes};
    ghost use Rattle.bsc_config.specs.Keys.{prefix_of};

    ghost output = { λ key. Some (prefix_of key.owner ++ string_bytes key.name) };

    /// Writes the key with its prefix, such as `colour` or `terminals[0].colour`.
    fn fmt<W: fmt::Write>(&self, f: &mut fmt::Formatter<W>) -> fmt::Result {
        let owner = self.owner;
        let name = self.name.as_str();
        write!(f, "{owner}{name}")
    }
}
