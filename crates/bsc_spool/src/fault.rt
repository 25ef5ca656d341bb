//! Why a store is not used.

use crate::NamedChannel;
use thiserror::Error;

/// Why a store was refused, or a step was not kept. What was kept before remains. After `Refused`
/// the step was not kept; after `Unreachable`, `Full` and `OutOfMemory` it was kept whole or not at
/// all, and the store is to be opened again.
#[derive(Clone, Copy, Debug, PartialEq, Eq, Error)]
pub enum StoreFault {
    /// The store keeps the records of another line, or of another station of this line.
    #[error("the store is of another line or another station")]
    OtherLine,

    /// The store was made by a newer version of this program.
    #[error("the store has version {version}, which is newer than this program's")]
    Newer { version: u32 },

    /// Another process or another part of this one has the store open.
    #[error("the store is in use")]
    InUse,

    /// There is no store.
    #[error("there is no store")]
    Missing,

    /// There is something where a store is to be made.
    #[error("there is something in the file already")]
    Taken,

    /// It is no store, or what it holds breaks the rules of a store.
    #[error("the file is damaged or not a store")]
    Damaged,

    /// The record with this number, counted from 0, of those of a channel that were offered or that
    /// arrived, is not as it was kept.
    #[error("record {number} of the channel {channel} is damaged")]
    DamagedRecord { channel: NamedChannel, number: u32 },

    /// A change of the step breaks a rule of the store.
    #[error("the step does not fit what is kept")]
    Refused,

    /// The disk is full.
    #[error("the disk is full")]
    Full,

    /// The store cannot be opened, read or written.
    #[error("the store cannot be read or written")]
    Unreachable,

    /// An allocation was refused.
    #[error("out of memory")]
    OutOfMemory,
}
