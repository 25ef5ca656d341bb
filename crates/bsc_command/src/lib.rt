//! The command `bscline`, from its arguments to its exit status, over any reader, writer and
//! machine. `bsc_trace`, `bsc_run` and `bsc_attending` do the work.
//!
//! The names of transmissions are those of GA27-3004. The command, its output, its errors and its
//! exit statuses are this project's own.
#![tactic(auto)]

mod fault;
mod given;
mod help;
pub mod laws;
mod program;
mod telling;
mod whole_command;

pub use fault::{Fault, not_text, status};
pub use given::given_words;
pub use program::perform;
pub use telling::fail;
pub use whole_command::command;
