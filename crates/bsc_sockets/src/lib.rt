//! The TCP connections of a station, and how it waits for them: the `bsc_connections::Waiter` over
//! the sockets of this machine, in one thread, by the readiness reports of the system. It knows
//! nothing of transmissions.
//!
//! - `Listening` is an address that is bound; `listen` waits there for `Peers`.
//! - `connect` and `connect_to_any` make one connection to a peer that listens.
//! - `Sockets` waits for octets, for a further peer, or until a gap or the time-out has passed. A
//!   peer with an address that is not allowed is turned away.
//! - A descriptor such as that of standard input asks the station to end when its other end is
//!   closed.
//! - Two more, such as those of another `Poll`, tell when there may be work beside the line: a
//!   program may have to be served, or standard output takes more. Both are told as a call of a
//!   program. No call holds up the line: its time-outs and pauses end in their time, and its
//!   connections are served in turn with the programs.
//! - `Reading` and `Writing` are the two directions of a connection. A read does not wait, and a
//!   write waits no longer than the time-out.
//!
//! The time-outs are those of GA27-3004. Everything about sockets, the gap between transmissions
//! and the order in which connections are served is this project's own.
#![tactic(auto)]

mod asking;
mod begin;
mod directions;
mod error;
mod listening;
mod newcomers;
mod next_peer;
mod pausing;
mod ready;
mod settings;
mod silences;
mod sockets;
mod standings;
mod stopping;
mod time_limit;
mod times;
mod unread;
mod waiting;
mod writable;

pub use begin::{Begun, Peers, Reception, connect, connect_to_any, listen};
pub use directions::{Reading, Writing};
pub use error::SocketsError;
pub use listening::Listening;
pub use settings::ConnectionSettings;
pub use sockets::Sockets;
