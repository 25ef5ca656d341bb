//! What the calls from C of a terminal and of a control station share: codes that become a record,
//! a record that is put into a buffer of the caller, what the sending end of a channel has, and
//! what is said of a transmission that is put into a buffer.
//!
//! Transmissions and their answers are those of GA27-3004. Records, counts, doubt, buffers and
//! faults are this project's own.

pub mod laws;
mod records;
mod sending;

pub use records::{put_record, read_arrived, read_record};
pub use sending::sending_of;
