//! One station of a line, over connections whose other ends are elsewhere.
//!
//! A station hears what arrives on its connections, sends its answers on all of them, and is told
//! of a silence when a time-out passes. This library has no socket and no clock: a `Waiter` reports
//! the next event, connections are any reader and writer, and a `Monitor` sees everything and
//! decides whether what happened is answered and when to end.
//!
//! GA27-3004 defines the time-outs and what a station answers. The connections, both framings, the
//! order in which events are handled and the limits are this project's own.
#![tactic(auto)]

mod attending;
mod awaited;
mod connection;
mod decoded;
mod framing;
mod gaps;
pub mod laws;
mod limits;
mod monitor;
mod reached;
mod replying;
mod socket_records;

pub use attending::{attend, step};
pub use awaited::{Awaited, Handled, LiveError, Pace, Waiter};
pub use connection::{Connection, Taken};
pub use decoded::Decoded;
pub use framing::Framing;
pub use gaps::Gaps;
pub use monitor::{Monitor, Note, Refusal};
pub use socket_records::SocketRecords;
