//! The definitions of a line: what can happen on it, what each event does to it, and what holds of
//! every line.
//!
//! This crate has the types of a line that callers use (a transmission, the events, and why one is
//! refused), and in `specs/` the definitions that the contracts of `bsc_line` cite. The laws are
//! about the definitions only: that every event keeps the invariant of a line, what it does to each
//! channel, and the main promise.
//!
//! That the terminals of a centralised multipoint line hear only the control station, and the
//! checks by VRC and LRC, are those of GA27-3004. Channels, events, trust and fair hearing, the
//! choice of the station that acts on a silence, and the lengths of visits and rounds are this
//! project's own.
#![tactic(auto)]

mod bids;
mod error;
mod event;
pub mod laws;
mod transmission;

pub use error::{LineError, Stopped};
pub use event::Event;
pub use transmission::Transmission;
