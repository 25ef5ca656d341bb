//! The code that README.md shows or names, so that it is proved and run.
//!
//! The messages are the standard's (GA27-3004); the functions are this project's own.
#![tactic(auto)]

mod line;
mod terminal;

pub use line::deliver;
pub use terminal::run_terminal;
