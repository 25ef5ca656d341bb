//! Texts that are read and printed: inputs of limited length, their lines, words and numbers,
//! octets in hexadecimal text; transmissions, records, channels and the lines of a trace in print;
//! texts from elsewhere, such as words, paths, keys and the lines of another program, in forms in
//! which no text begins a line or is obeyed by a terminal; and the line that shows how far long
//! work has come.
//!
//! The transmissions are those of GA27-3004. All texts are this project's own.
#![tactic(auto)]

mod channels;
mod error;
mod escaped;
mod form;
mod hexadecimal;
mod input;
pub mod laws;
mod lines;
mod numbers;
mod parts;
mod printed;
pub mod progress;
mod reading;
mod texts;
mod trace;
mod unreadable;
mod words;

pub use channels::{doubt_text, write_channel_name, write_records};
pub use error::PrintError;
pub use escaped::{Escaped, Lines};
pub use form::{Form, write_in_form};
pub use hexadecimal::read_octets;
pub use input::{InputError, MAX_INPUT, read_input};
pub use lines::{is_blank, is_skipped, split_line, without_return};
pub use numbers::{has_digits, read_number, select_number, terminal_number};
pub use parts::split_at_first;
pub use printed::{
    Detail, put, put_numbered, write_chars, write_heard_name, write_name, write_shown, write_units,
};
pub use reading::{LineEnd, read_line};
pub use texts::{Files, STANDARD_INPUT, TextError, read_text};
pub use trace::{Fate, Who, write_octets, write_start, write_time, write_who};
pub use unreadable::Unreadable;
pub use words::{spells, split_word};
