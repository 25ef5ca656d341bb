//! The code set of the line: USASCII with odd parity (VRC), and a check of one octet for each unit
//! (LRC).
//!
//! A transmission is a list of octets, and it carries a list of codes. All that depends on the code
//! set is here, and `bsc_frame` only asks for it: the octet of a code and the code of an octet,
//! whether octets can be right by themselves (parity), how many octets the check of a unit has, how
//! it is appended and how it is compared, the control characters and sequences, and the codes that
//! a record and an address may hold. Another code set would be another crate with the same
//! functions, constants and definitions, and only `bsc_frame` would see the difference.
//!
//! Odd parity, the longitudinal sum and the control characters are those of GA27-3004. That a
//! record may hold every other character, that a check character is sent with odd parity, and the
//! codes of an address are this project's own.
#![tactic(auto)]

mod check;
pub mod controls;
mod lanes;
mod longitudinal;
mod parity;
mod text_codes;

pub use check::{CHECK_OCTETS, after_check, put_check};
pub use longitudinal::sum;
pub use parity::{all_odd, carried, code_in, from_line, to_line};
pub use text_codes::{is_address_code, is_record_char};
