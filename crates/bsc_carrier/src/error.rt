//! The errors of a carrier, and the octets of a record.

use crate::fault::DeviceFault;
use crate::limits::MAX_RECORD;
use arrayvec::ArrayVec;
use thiserror::Error;

/// The octets that one record carries, at most 2,048.
pub type Octets = ArrayVec<u8, MAX_RECORD>;

/// Why octets were not carried.
#[derive(Clone, Copy, Debug, PartialEq, Eq, Error)]
pub enum CarrierError {
    /// The length of a record is 0 or more than 2,048.
    #[error("the length of a record is wrong")]
    Length,
    /// The input ended before the record did.
    #[error("the input ended within a record")]
    Short,
    /// A read or a write failed, or a write took no octets.
    #[error("{why}")]
    Device { why: DeviceFault },
    /// Two far ends of a cable gave different octets.
    #[error("two far ends gave different octets")]
    Unequal,
}
