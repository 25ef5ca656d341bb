//! The characters and sequences of the line, each named once: the code of seven bits, and the octet
//! that carries it with odd parity (GA27-3004: control characters and sequences in USASCII).
//!
//! A plain name stands for the octet as it appears on the line. Where the code is needed, it has a
//! name of its own; a code with an odd number of ones equals its octet.

/// The bit that is set in an octet if its code has an even number of ones.
const PARITY_BIT: u8 = 0x80;

/// STX: a text begins.
pub const STX: u8 = 0x02;

/// The code of ETX.
pub const ETX_CODE: u8 = 0x03;

/// ETX: ends the last block of a text.
pub const ETX: u8 = ETX_CODE + PARITY_BIT;

/// EOT: the sending station ends its turn. A call also begins with it.
pub const EOT: u8 = 0x04;

/// ENQ: asks for the last reply again. A call also ends with it.
pub const ENQ: u8 = 0x05 + PARITY_BIT;

/// DLE: the first octet of each reply of two octets.
pub const DLE: u8 = 0x10;

/// NAK: asks for the block again, or refuses a selection.
pub const NAK: u8 = 0x15;

/// SYN: fill, and the beginning of each transmission.
pub const SYN: u8 = 0x16;

/// The code of ETB.
pub const ETB_CODE: u8 = 0x17;

/// ETB: ends a block that is followed by others.
pub const ETB: u8 = ETB_CODE + PARITY_BIT;

/// The code of EM.
pub const EM_CODE: u8 = 0x19;

/// EM: ends a record that is not full (in the manner of the IBM 2780).
pub const EM: u8 = EM_CODE;

/// The code of US, which is ITB in USASCII.
pub const US_CODE: u8 = 0x1f;

/// US: ends a unit that is followed by others of the same text (GA27-3004: ITB).
pub const US: u8 = US_CODE;

/// PAD: eight ones, after a transmission.
pub const PAD: u8 = 0xff;

/// The two octets, of alternating ones and zeros, that may stand before the first SYN.
pub const LEADING_PADS: [u8; 2] = [0x55, 0xaa];

/// The beginning of each message that is sent.
pub const START: [u8; 2] = [SYN, SYN];

/// The beginning of a call: EOT with its PAD, and two SYN before the address.
pub const CALL_START: [u8; 4] = [EOT, PAD, SYN, SYN];

/// ACK0, DLE and `0`: positive acknowledgement of the blocks with an even number.
pub const ACK0: [u8; 2] = [DLE, b'0' + PARITY_BIT];

/// ACK1, DLE and `1`: positive acknowledgement of the blocks with an odd number.
pub const ACK1: [u8; 2] = [DLE, b'1'];

/// WACK, DLE and `;`: positive acknowledgement from a station that cannot receive more for now.
pub const WACK: [u8; 2] = [DLE, b';'];

/// RVI, DLE and `<`: positive acknowledgement that asks the sender to end its transmission.
pub const RVI: [u8; 2] = [DLE, b'<' + PARITY_BIT];
