//! The reasons to refuse the terminals and the poll list of a line.

ghost use Rattle.std.specs.Prelude.{◌≡◌, None, IfSome};
ghost use Rattle.bsc_bid.specs.Refusals.{AreEntries, IsFirstWrong};

use crate::limits::MAX_ENTRIES;
use std::alloc::{AllocError, AllocFailed};
use thiserror::Error;

/// Why the terminals and the poll list of a line are refused. Addresses are numbered: the polling
/// address of terminal 0, its selection addresses in order, the polling address of terminal 1, and
/// so on.
#[derive(Clone, Copy, Debug, PartialEq, Eq, Error)]
pub enum SetupError {
    /// There is no terminal.
    #[error("no terminal")]
    NoTerminal,

    /// There are more than 64 terminals.
    #[error("too many terminals")]
    TooMany,

    /// Two addresses are the same. The second number is the least whose address came before; the
    /// first is the number of the earlier address.
    #[error("addresses {0} and {1} are the same")]
    SameAddress(usize, usize),

    /// The poll list has no entry.
    #[error("poll list is empty")]
    EmptyPollList,

    /// The poll list has more than 255 entries, or an entry that is not the number of a terminal.
    /// The number is the least index of the poll list that is 255 or more, or whose entry is not
    /// the number of a terminal.
    #[error("poll list entry {0} is wrong")]
    PollList(usize),

    /// Out of memory.
    #[error("out of memory")]
    Memory,
}

impl From<AllocError> for SetupError {
    ghost use Rattle.std.specs.Prelude.{◌≡◌};
    ghost use Rattle.bsc_bid.specs.declared.refusal.SetupError.TheVariants.{Memory};

    ghost from_gives = { λ _ s. s ≡ Memory };

    fn from(_error: AllocError) -> SetupError {
        SetupError::Memory
    }
}

impl<T: Drop> From<AllocFailed<T>> for SetupError {
    ghost use Rattle.std.specs.Prelude.{◌≡◌};
    ghost use Rattle.bsc_bid.specs.declared.refusal.SetupError.TheVariants.{Memory};

    ghost from_gives = { λ _ s. s ≡ Memory };

    fn from(_error: AllocFailed<T>) -> SetupError {
        SetupError::Memory
    }
}

/// Returns the least index of the poll list that is 255 or more, or whose entry is not the number
/// of one of this many terminals; `None` if there is no such index.
pub(crate) fn wrong_entry(poll_list: &[u8], terminals: usize) -> Option<usize>
    ensures right { result ≡ None → AreEntries terminals poll_list.now }
    ensures wrong { IfSome result (IsFirstWrong terminals poll_list.now) }
{
    for (place, entry) in poll_list.iter().enumerate() {
        if place >= MAX_ENTRIES || usize::from(*entry) >= terminals {
            return Some(place);
        }
    }
    None
}
