//! Records in the manner of the IBM 2780, and the blocks that carry several of them in one text.
//!
//! Blocks with ETB and ETX and the units within a text, intermediate text blocks, are those of
//! GA27-3004. What a record may hold, how it is marked by EM, how a block is counted and the limits
//! of both are this project's own.
#![tactic(auto)]

mod block;
mod format;
pub mod laws;
pub mod limits;
mod packed;
mod packing;
mod record;
mod records;

pub use block::{Block, unpack};
pub use format::{Format, FormatError};
pub use packing::{build, pack};
pub use record::{Record, RecordError};
pub use records::Records;
