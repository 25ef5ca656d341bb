//! The protocol between a running station and the programs that feed it, its clients. It uses no
//! socket, file or clock.
//!
//! A client sends lines of at most 512 octets. Empty lines, and lines that begin with `#`, are
//! skipped; each other line is a command, and is answered once, in order.
//!
//! | command | what it does | answer |
//! |---|---|---|
//! | `offer CHANNEL TEXT` | a record is offered; the empty one if TEXT is left out | `ok N` |
//! | `offer-hex CHANNEL HEX` | a record is offered, in hexadecimal text | `ok N` |
//! | `status` | the state of each channel is told, a line for each | `ok` |
//! | `release CHANNEL COUNT` | a doubt is ended, of which the other end has COUNT records | `ok` |
//! | `ready on`, `ready off` | a terminal starts or stops accepting selections | `ok` |
//! | `urgent` | a terminal asks for the line | `ok` |
//! | `follow CHANNEL`, `follow CHANNEL FROM` | what happens on a channel is told | `ok` |
//! | `stop` | the station ends after the present visit | `ok` |
//!
//! CHANNEL is `from T`, `to T` or `to T.S`, as a station prints it; `to T` is `to T.0`. N is the
//! number of the record on its channel, counted from 0. COUNT and FROM have one to ten digits and
//! are below 2^32. A command that is refused is answered by `fault` and the text of its [`Fault`].
//!
//! Between answers a client is told `arrived CHANNEL N TEXT` for each record of a followed channel,
//! from FROM on or from the next to arrive, with TEXT on one line as `--text` prints it; and
//! `delivered CHANNEL N` when more than FROM, or than was told, are known to have arrived.
#![tactic(auto)]

mod answering;
mod channel;
mod client;
mod client_lines;
mod command;
mod fault;
mod follows;
mod keyword;
pub mod laws;
mod limits;
mod news;
mod number;
mod places;
mod reading;
mod served;
mod states;
mod text;
mod told;

pub use client::Client;
pub use client_lines::ClientLines;
pub use command::Command;
pub use fault::Fault;
pub use limits::MAX_LINE;
pub use reading::read_command;
pub use served::Served;
