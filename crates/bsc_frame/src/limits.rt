//! The limits of messages and transmissions, which are this project's own. All other sizes are
//! computed from these.

use bsc_octet::CHECK_OCTETS;

/// The maximum number of units of a text.
pub const MAX_UNITS: usize = 7;

/// The maximum number of characters of a unit.
pub const MAX_CHARS: usize = 144;

/// The maximum number of codes of an address.
pub const MAX_ADDRESS: usize = 7;

/// The maximum number of octets that are heard as one transmission; more are noise.
pub const MAX_HEARD: usize = 2048;

/// The maximum number of codes before the check of a unit: an STX after the check of the unit
/// before, the characters, EM, the ending character.
pub(crate) const MAX_UNIT_CODES: usize = MAX_CHARS + 3;

/// The maximum number of octets that are sent for a unit: its characters, EM, the ending character,
/// the check.
pub(crate) const MAX_UNIT_SENT: usize = MAX_CHARS + 2 + CHECK_OCTETS;

/// The maximum number of characters of a text, in all its units.
pub(crate) const MAX_TEXT_CHARS: usize = MAX_UNITS * MAX_CHARS;

/// The maximum number of octets that are sent for one message. The longest is a text: two SYN, STX,
/// the units, PAD.
pub const MAX_SENT: usize = 3 + MAX_UNITS * MAX_UNIT_SENT + 1;

/// The number of octets for which a [`Wire`](crate::Wire) has room: a round number from
/// [`MAX_SENT`] up, so that the type stays the same if what is sent for a message changes a little.
pub const WIRE_ROOM: usize = 1100;
