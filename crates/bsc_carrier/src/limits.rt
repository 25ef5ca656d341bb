//! The limits of records and cables, from which all other sizes are computed.

/// The most octets that a record carries after the two octets of its length.
pub const MAX_RECORD: usize = 2048;

/// The most connections of a cable: one for each terminal of a line.
pub const MAX_CONNECTIONS: usize = 64;

/// The most octets of a record, including the two octets of its length.
pub(crate) const MAX_RECORD_OCTETS: usize = MAX_RECORD + 2;
