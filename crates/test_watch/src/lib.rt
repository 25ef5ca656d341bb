//! Checks what has to hold of a line after each event, whatever is heard, with the public functions
//! of the line only.
//!
//! A watch plays events on a line and compares after each one what the line shows with what the
//! event may do: whether the event is refused, what is pending, whether the line is trusted, and
//! what is offered, known, spooled and in doubt on each channel.
//!
//! The messages, and who may send which one when, are the standard's (GA27-3004); channels, doubt,
//! trust and the refusals of events are this project's own.
#![tactic(auto)]

mod aside;
mod broken;
mod channel;
mod heard;
mod pending;
mod poll_list;
mod records;
mod refusals;
mod step;
mod taking;
mod tally;
mod watch;

pub use broken::Broken;
pub use channel::{Shown, View, look};
pub use heard::octets_of;
pub use tally::{Counted, Tally};
pub use watch::LineWatch;
