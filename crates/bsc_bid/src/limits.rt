//! The limits of settings, of a terminal's addresses and of a line, which are this project's own.

/// The greatest limit of failures in a row.
pub const MAX_TRIES: u8 = 15;

/// The greatest limit of WACKs since the last acknowledgement.
pub const MAX_WAITS: u8 = 255;

/// The maximum number of selection addresses of a terminal.
pub const MAX_SELECTS: usize = 4;

/// The maximum number of terminals on a line.
pub const MAX_TERMINALS: usize = 64;

/// The maximum number of entries in a poll list.
pub const MAX_ENTRIES: usize = 255;
