//! The limits of what a client says, and of the channels that it follows.

use bsc_bid::limits::{MAX_SELECTS, MAX_TERMINALS};

/// The most octets of a line before its line feed.
pub const MAX_LINE: usize = 512;

/// How many octets of a line are kept: one more than the most, so that a line that is too long is
/// told from one that is not.
pub(crate) const KEPT: usize = MAX_LINE + 1;

/// The places that the channels of a terminal have in the report of a station: one for the channel
/// from it, and one for each address that it may have.
pub(crate) const PLACES: usize = MAX_SELECTS + 1;

/// The places that the channels of a station have in its report.
pub(crate) const MAX_PLACES: usize = MAX_TERMINALS * PLACES;
