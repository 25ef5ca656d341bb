//! One bid: the sender of blocks, the receiver of blocks, and what both ends together guarantee.
//!
//! A control station and a terminal each have a sender for what they transmit and a receiver for
//! what they take; a point-to-point user can drive a pair of them. This crate also has what both
//! kinds of station share: which station of a line it is, their settings, the addresses of a
//! terminal, the name of a channel, the [`Directory`] that has the terminal of each address and
//! checks the terminals and the poll list of a line, and the trait of a station of the line.
//!
//! The replies, ENQ, time-outs, polling, selection, their addresses and the poll list are those of
//! GA27-3004. The limits, the numbering of the addresses, the refusals of a line, the urgent flag
//! by which a receiver interrupts the sender, several selection addresses of one terminal, doubt
//! and its release, and the laws of a bid are this project's own.
#![tactic(auto)]

mod alternation;
mod answer;
mod channel;
mod directory;
pub mod directory_laws;
mod kept;
pub mod laws;
pub mod limits;
mod outcome;
mod phase;
mod receiver;
mod refusal;
mod sender;
mod setup;
mod speaker;
mod station;
mod terminal;
mod way;

pub use channel::ChannelName;
pub use directory::Directory;
pub use kept::{KeptSender, RecallError};
pub use outcome::Outcome;
pub use receiver::Receiver;
pub use refusal::SetupError;
pub use sender::{ReleaseError, Sender};
pub use setup::{SettingError, Setup};
pub use speaker::Speaker;
pub use station::{Station, transmit};
pub use terminal::{Terminal, TerminalError};
pub use way::Way;
