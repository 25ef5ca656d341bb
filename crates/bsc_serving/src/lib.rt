//! The programs that feed a station while it runs, as many as 64. It uses no socket, file or clock
//! of its own: what tells of programs, and their connections, are any that the caller has.
//!
//! The protocol is that of `bsc_feed`. This crate has a session for each program: it reads what the
//! program says, has its lines obeyed one at a time, and writes what is told to it. A line is
//! obeyed once the answer before it is written, so a session holds one line at most, and a slow
//! program is told later what it has missed. A half line is never obeyed.
//!
//! What a program offers is kept before the station offers it, and before it is answered, so that
//! an answer `ok N` tells that the record outlives the process of the station. If it cannot be
//! kept, the station offers nothing, the program is not answered, and the station has to end.
//!
//! A station attends its line and serves programs in turn, in one thread: after each step of the
//! station [`Serving`] serves the programs for a short while.
#![tactic(auto)]

mod failing;
mod fed;
mod inbox;
pub mod laws;
mod outbox;
mod programs;
mod serving;
mod session;

pub use fed::Fed;
pub use programs::{Called, MAX_PROGRAMS, Programs};
pub use serving::Serving;
