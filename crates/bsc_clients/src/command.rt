//! The work of the command `bscline feed`: it sends commands to a station that serves programs, and
//! prints what the station answers and tells. The connection, the input and the output are any
//! readers and writers.
//!
//! - With no words, each line of the input is a command. Empty lines, and lines that begin with
//!   `#`, are not sent.
//! - The words `offer CHANNEL` or `offer-hex CHANNEL`, with no text after them, have each line of
//!   the input offered as a record, also an empty one.
//! - Other words, joined by one space each, are one command.
//!
//! After each command that it sends it prints the lines of the station up to the answer, `ok`,
//! `ok N` or `fault TEXT`, and ends at the first fault. If a `follow` was sent, it then prints what
//! the station tells until the station closes the connection.

mod answers;
mod error;
mod exchange;
mod feeding;
mod given;
mod sending;
mod stations;

pub use error::FeedError;
pub use feeding::feed;
pub use stations::{Stations, feed_at};
