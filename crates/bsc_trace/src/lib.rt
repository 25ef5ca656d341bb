//! Reads the lines of a trace, as `bscline run --trace` and `bscline station --trace` print them,
//! names the transmissions of such lines, and has the ladder on which they are drawn. Output is
//! flushed before a read that may wait.
//!
//! The transmissions are those of GA27-3004. The form of a trace is this project's own.
#![tactic(auto)]

pub mod ladder;
pub mod laws;
mod line;
mod marks;
pub mod naming;
mod octets;
mod speaking;
mod waiting;
mod words;

pub use line::{TraceLine, read_trace_line};
pub use waiting::{LineError, next_line};
