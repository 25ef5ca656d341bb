//! The control station of a line as a pure state machine: octets and silences go in, octets come
//! out.
//!
//! A [`Control`] goes through its poll list, entry by entry. It selects those addresses of the
//! entry's terminal for which records wait and sends the records; then it polls the terminal and
//! stores what arrives. It follows its table and its call order exactly and can be used by itself,
//! with terminals of another make.
//!
//! Polling and selection by a poll list, and the control station's side of a bid, are those of
//! GA27-3004. The limits, the order of selections and polls, the urgent flag, several selection
//! addresses to a terminal, and doubt and its release are this project's own.
#![tactic(auto)]

mod control;
pub mod laws;
mod outbound;
mod peer;
mod procedure;
mod task;

pub use bsc_bid::{SetupError, Way};
pub use control::Control;
pub use task::{Replied, Task};
