//! Scripts: text that describes what happens on a line, one event on each line of text.
//!
//! A poll, a selection, the reverse interrupt and a time-out are those of GA27-3004. The events and
//! their text are this project's own.
//!
//! | line | event |
//! |---|---|
//! | `offer-at T RECORD` | the record is offered at terminal T, for the control station |
//! | `offer-for T RECORD` | it is offered at the control station, for T's first selection address |
//! | `offer-to T S RECORD` | it is offered at the control station, for T's selection address S |
//! | `carry` | the pending transmission is heard as it was sent |
//! | `lose` | the pending transmission is lost |
//! | `heard HEX` | the pending transmission is heard as these octets |
//! | `heard-each ITEM ITEM ..` | each terminal hears its item in place of it |
//! | `silence` | a time-out passes in which nothing is heard |
//! | `ready T`, `unready T` | terminal T starts or stops accepting selections |
//! | `poll-on T`, `poll-off T` | the control station starts or stops polling terminal T |
//! | `urgent-at T`, `urgent-for T` | terminal T, or the control station for it, asks for the line |
//! | `release T from` | the doubt about the records sent by terminal T is released |
//! | `release T to`, `release T to S` | the same for those sent to its address 0 or S |
//!
//! T has one to three decimal digits, S has one. HEX is hexadecimal text; an ITEM is hexadecimal
//! text without spaces, or `-` if the terminal hears nothing. Words are separated by one space.
//! RECORD is the text after the space before it, up to the end of the line; without that space it
//! is empty. Empty lines, and lines that begin with `#`, are skipped and counted.

mod action;
mod heard_octets;
mod keyword;
mod reading;
mod script;

pub use action::{Action, Step};
pub use heard_octets::HeardOctets;
pub use script::{Script, ScriptError, read_script};
