//! The addresses of a terminal.

ghost use Rattle.std.specs.Prelude.{◌≡◌, ◌<◌, length, Some, slice_get, IfOk};
ghost use Rattle.bsc_bid.specs.Terminal.{IsTerminal, terminal_of};

use crate::limits::MAX_SELECTS;
use bsc_frame::Address;
use std::marker::Model;
use thiserror::Error;

/// The address by which a terminal is polled, and the one to four addresses by which it is selected
/// (GA27-3004, polling and selection). Several selection addresses are this project's own.
#[derive(Clone, Copy, Debug, PartialEq, Eq)]
pub struct Terminal {
    /// The polling address.
    poll: Address,

    /// The selection addresses, in the first places.
    selects: [Address; MAX_SELECTS],

    /// The number of selection addresses, 1 to 4.
    count: usize,
}

impl Model for Terminal {
    ghost use Rattle.std.specs.Prelude.{length, take};
    ghost use Rattle.bsc_bid.specs.Terminal.{TerminalValue, HoldsSelects, address_table};

    ghost Value = { TerminalValue };

    ghost view = { λ t. record { poll = t.poll; selects = take t.count t.selects } };

    ghost invariant = { λ t. HoldsSelects t.poll t.selects t.count };

    ghost inverse = { λ t. record {
      poll = t.poll;
      selects = address_table t.poll t.selects;
      count = length t.selects;
    } };

    ghost inverse_ok = { λ t h. λ i.
        record { poll = t.poll; selects = h.rest i; count = h.long i } };
}

/// Why addresses are not those of a terminal.
#[derive(Clone, Copy, Debug, PartialEq, Eq, Error)]
pub enum TerminalError {
    /// There are no selection addresses, or more than four.
    #[error("a terminal has one to four selection addresses")]
    Count,
}

impl Terminal {
    /// Returns the terminal with this polling address and these selection addresses, or the error
    /// `Count` if there are not one to four of them. Whether the addresses differ is not tested.
    /// (GA27-3004, polling and selection.)
    pub fn new(poll: Address, selects: &[Address]) -> Result<Terminal, TerminalError>
        ensures value { result ≡ terminal_of poll selects.now }
    {
        let count = selects.len();
        if count == 0 || count > MAX_SELECTS {
            return Err(TerminalError::Count);
        }
        let mut table = [poll; MAX_SELECTS];
        table[..count].copy_from_slice(selects);
        Ok(Terminal {
            poll,
            selects: table,
            count,
        })
    }

    /// Returns the polling address.
    pub fn poll(&self) -> Address
        ensures { result ≡ self.now.poll }
    {
        self.poll
    }

    /// Returns the number of selection addresses, 1 to 4.
    pub fn selects(&self) -> usize
        ensures count { result ≡ length self.now.selects }
        ensures limits { IsTerminal self.now }
    {
        self.count
    }

    /// Returns the selection address at `place`, counted from 0, which must be less than their
    /// number.
    pub fn select(&self, place: usize) -> Address
        requires { place < length self.now.selects }
        ensures { slice_get self.now.selects place ≡ Some result }
    {
        // A field is read, so that the invariant is known here.
        let _ = &self.count;
        self.selects[place]
    }
}
