//! The messages of a line in octets: what is sent for each, and what is heard.
//!
//! [`encode`] produces exactly the octets of a message. [`decode`] reads octets as the message that
//! they spell, whatever leading pads and SYN fill the equipment at the other end uses, and
//! distinguishes a text that failed from noise. [`decode_short`] does the same without a buffer for
//! octets that do not begin as a text. A [`Message`] is small: the units of a text are borrowed
//! from a [`TextBuffer`] or a [`MessageBuffer`], which the caller has. Nothing here waits,
//! allocates or keeps state between transmissions.
//!
//! The code set, which is the octet of each code, the control characters, the check of a unit and
//! the codes of records and addresses, is `bsc_octet`; here only their order is known. Layers above
//! have from here what they need of it.
//!
//! Control characters and sequences, calls, text and intermediate text blocks, odd parity (VRC),
//! the check characters (LRC), pads and SYN time fill are those of GA27-3004. The limits of
//! messages and transmissions, and how far pads and fill are accepted are this project's own; EM in
//! a unit is used in the manner of the IBM 2780.
#![tactic(auto)]

mod address;
mod body;
mod buffer;
mod decoder;
mod encoder;
mod front;
pub mod laws;
pub mod limits;
mod message;
mod message_buffer;
mod reply;
mod short;
mod squeeze;
mod text;
mod text_buffer;
mod unit_decoder;

pub use address::{Address, AddressError};
pub use bsc_octet::{controls, is_address_code, is_record_char};
pub use decoder::decode;
pub use encoder::{Wire, encode};
pub use message::{Heard, Message};
pub use message_buffer::MessageBuffer;
pub use reply::Reply;
pub use short::{Short, decode_short};
pub use text::{End, Text, Unit};
pub use text_buffer::TextBuffer;
