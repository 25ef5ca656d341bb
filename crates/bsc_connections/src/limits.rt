//! The number of octets that are read and kept.

use bsc_carrier::limits::MAX_RECORD;
use bsc_frame::limits::MAX_HEARD;

/// The most octets that one read asks for: the longest transmission that may be heard.
pub(crate) const MAX_READ: usize = MAX_HEARD;

/// The most octets that are kept of a transmission: one more than may be heard, so that a longer
/// transmission is heard as noise.
pub(crate) const KEPT: usize = MAX_HEARD + 1;

/// The most octets that may arrive without a gap.
pub(crate) const MOST_WITHOUT_GAP: usize = 1_048_576;

// A record carries any transmission that may be heard, and nothing longer.
const _: () = prove!(MAX_RECORD == MAX_HEARD);
