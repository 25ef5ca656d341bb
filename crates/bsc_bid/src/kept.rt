//! What is kept of a sender when its process ends.

use thiserror::Error;

/// What is kept of a sender, beside the records that were offered, so that it can be made again
/// after the end of its process. It is this project's own.
#[derive(Clone, Copy, Debug, PartialEq, Eq)]
pub struct KeptSender {
    /// How many of the offered records are known to have arrived.
    pub known: usize,

    /// The number of the records, 1 to 7, of a block that may have arrived or not: it is unanswered
    /// or in doubt. They are the next ones after the known records. `None` if there is no such
    /// block.
    pub doubt: Option<usize>,
}

/// Why a sender does not recall what was kept.
#[derive(Clone, Copy, Debug, PartialEq, Eq, Error)]
pub enum RecallError {
    /// The sender is not new: a bid is in progress, a block is in doubt, or records are known to
    /// have arrived.
    #[error("the sender is not new")]
    NotNew,

    /// More records are known than were offered.
    #[error("more records are known than were offered")]
    Known,

    /// The doubtful block does not have 1 to 7 records, or more than are not known.
    #[error("the doubtful block does not fit")]
    Doubt,
}
