//! The limits of what is sent. `Format::new` checks them.

use bsc_frame::limits::MAX_CHARS;

/// The greatest full length of a record, in characters. A record fits into one unit.
pub const MAX_FULL: u8 = MAX_CHARS as u8;

/// The least number of characters that a block may count: enough for any one record, its EM and its
/// ending character.
pub const MIN_BLOCK_CHARS: u16 = MAX_CHARS as u16 + 2;

/// The greatest number of characters that a block may count: the buffer of a terminal.
pub const MAX_BLOCK_CHARS: u16 = 400;
