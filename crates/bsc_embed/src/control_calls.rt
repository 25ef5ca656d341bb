//! The calls of a control station from C: each function is one call of `embed/bsc.h`, over the
//! station itself.
//!
//! Each function answers with a fault if it does not do what it was asked to do. Then the station
//! and what the caller reads are as they were. The functions require nothing of the caller: a
//! number, a length or a character out of its range is a fault. Terminals are numbered from 0 in
//! the order in which they were given, and so are the selection addresses of each.
//!
//! Polling and selection by a poll list, time-outs and what a control station answers are those of
//! GA27-3004. Buffers, numbers of terminals, addresses and records, a poll list that can be
//! changed, the urgent flag, doubt and what is kept are this project's own.

mod addressing;
mod arriving;
mod hearing;
mod keeping;
mod making;
mod offering;
mod running;

pub use arriving::{arrivals, arrived};
pub use hearing::{hear, silence};
pub use keeping::{keep_arrived, kept, recall};
pub use making::new_control;
pub use offering::{offer, release, sending};
pub use running::{restart, set_polled, set_urgent};
