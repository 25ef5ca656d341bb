//! One line: a control station, its terminals, and the transmission between them, as a pure state
//! machine.
//!
//! Events go in (a transmission is heard or lost, a silence passes, a record is offered, a flag is
//! set, a doubt is released, a station begins again), and transmissions and spooled records come
//! out. There is no socket, clock or thread here: the caller says what was heard, and when nothing
//! was.
//!
//! A [`Line`] is written against the trait `Station` and the contracts of both stations only. The
//! definitions that its contracts use, and the proofs, are in `bsc_line_model`.
//!
//! The line of one control station and its terminals is that of GA27-3004, centralised multipoint
//! operation. Events and their refusals, trust, the choice of the station that acts on a silence,
//! the ready and urgent flags, a poll list that can be changed, doubt and its release, and what a
//! station that begins again keeps are this project's own.
#![tactic(auto)]

mod addressing;
mod hearing;
mod line;
mod pending;
mod reading;
mod terminals;
mod transmission_buffer;
mod trust;
mod within_limits;

pub use bsc_line_model::{Event, LineError, Stopped, Transmission};
pub use line::Line;
