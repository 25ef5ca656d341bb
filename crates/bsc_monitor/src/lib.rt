//! What watches a station of a configured line while `bscline station` runs it: the control station
//! or one of the terminals. It counts visits and rounds, admits what may be heard, says which
//! terminals are called, has the trace printed, and ends the run.
//!
//! Polling and selection are those of GA27-3004. Visits, rounds, absent terminals and the limits of
//! a run are this project's own.
//!
//! `bsc_connections` attends the station over its connections, and tells a monitor what happens.
//! The monitors are here. This crate uses no sockets, files or clock of its own.
#![tactic(auto)]

mod absences;
mod answering;
mod attendance;
mod control_watch;
mod ended;
pub mod laws;
mod polls;
mod presences;
mod progress;
mod rounds;
mod terminal_watch;
mod trusting;
mod visits;
mod watch;

pub use attendance::{AbsenceLimits, Presence};
pub use control_watch::ControlWatch;
pub use ended::{Ended, LastWatch};
pub use polls::{is_settled, settle};
pub use presences::Presences;
pub use rounds::Limits;
pub use terminal_watch::TerminalWatch;
pub use watch::Watch;
