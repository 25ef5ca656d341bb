//! Why an event is refused.

use bsc_block::RecordError;
use thiserror::Error;

/// Why an event is refused. A refused event changes nothing.
#[derive(Clone, Copy, Debug, PartialEq, Eq, Error)]
pub enum LineError {
    /// A transmission was to be heard, and nothing is pending.
    #[error("nothing sent")]
    NothingSent,

    /// Each terminal was given an item to hear, and a terminal's transmission is pending.
    #[error("control is not sending")]
    NotControl,

    /// The number of items is not that of the terminals.
    #[error("wrong number of hearings")]
    WrongCount,

    /// A silence was to pass, and a transmission is pending.
    #[error("a transmission is pending")]
    Pending,

    /// No terminal has this number.
    #[error("no such terminal")]
    NoSuchTerminal,

    /// The terminal has no selection address of this number.
    #[error("no such address")]
    NoSuchAddress,

    /// The codes are not a record.
    #[error("{0}")]
    BadRecord(RecordError),

    /// Out of memory for the record.
    #[error("out of memory")]
    Memory,

    /// There is no doubt to end.
    #[error("not in doubt")]
    NotInDoubt,

    /// The count at the other end is neither the number of the known records nor that number with
    /// the doubtful block.
    #[error("count mismatch")]
    CountMismatch,
}

/// The first event that was refused. Those before it were accepted.
#[derive(Clone, Copy, Debug, PartialEq, Eq, Error)]
#[error("event {at} is refused: {why}")]
pub struct Stopped {
    /// The index of the event in the list, counted from 0.
    pub at: usize,

    /// Why it was refused.
    pub why: LineError,
}
