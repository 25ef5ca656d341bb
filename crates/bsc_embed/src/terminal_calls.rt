//! The calls of a terminal from C: each function is one call of `embed/bsc.h`, over the terminal
//! itself.
//!
//! Each function answers with a fault if it does not do what it was asked to do. Then the terminal
//! and what the caller reads are as they were. The functions require nothing of the caller: a
//! number, a length or a character out of its range is a fault.
//!
//! Polling, selection, time-outs and what a terminal answers are those of GA27-3004. Buffers,
//! numbers of addresses and records, the flags, doubt and what is kept are this project's own.

mod arriving;
mod flags;
mod hearing;
mod keeping;
mod making;
mod offering;
mod terminal;

pub use arriving::{arrivals, arrived};
pub use flags::{restart, set_ready, set_urgent};
pub use hearing::{hear, silence};
pub use keeping::{keep_arrived, kept, recall};
pub use making::new_terminal;
pub use offering::{offer, release, sending};
pub use terminal::MadeTerminal;
