//! The calls of a line for a program in C: one function for each call of `bsc.h` that makes a line,
//! lets an event happen on it, or reads it.
//!
//! Each function is over the line itself and answers with a `Fault` why it did nothing; what it
//! gives goes through references of the caller. On a fault nothing changes, neither the line nor
//! what was to be given. How C names a line, and the numbers of faults, are layers around this.
//!
//! The line of one control station and its terminals is that of GA27-3004, centralised multipoint
//! operation. Its events and their refusals, and the form of the calls, are this project's own.

mod channels;
mod events;
mod hearings;
mod making;
mod transmission;

pub use channels::{
    arrivals_from, arrivals_to, arrived_from, arrived_to, sending_from, sending_to,
};
pub use events::{
    carry, carry_sent, lose, offer_at, offer_for, release_from, release_to, restart_control,
    restart_terminal, set_polled, set_ready, set_urgent_at, set_urgent_for, silence,
};
pub use hearings::{LOST, carry_each};
pub use making::new_line;
pub use transmission::{CONTROL, pending, trusted};
