//! Formats, records and addresses at their bounds.

use bsc_block::{Format, FormatError, Record, RecordError};
use bsc_frame::{Address, AddressError};

/// A full length, the characters of a block, and the error of a format of them.
const FORMATS: &[(u8, u16, Option<FormatError>)] = &[
    (0, 145, Some(FormatError::Full)),
    (145, 400, Some(FormatError::Full)),
    (144, 145, Some(FormatError::BlockChars)),
    (144, 401, Some(FormatError::BlockChars)),
    (1, 146, None),
    (144, 400, None),
];

#[test]
fn formats_have_limits(rt: HostRuntime) {
    for (full, block_chars, why) in FORMATS {
        let error = Format::new(*full, *block_chars).err();
        assert!(rt; error == *why, "{full}, {block_chars}");
    }
}

/// Codes, and the error of a record with them if the full length is 80.
const RECORDS: &[(&[u8], Option<RecordError>)] = &[
    (&[0x19; 81], Some(RecordError::TooLong)),
    (&[0x19], Some(RecordError::NotText(0))),
    (&[0x41, 0x80], Some(RecordError::NotText(1))),
    (&[0x41; 80], None),
    (&[], None),
];

#[test]
fn records_have_limits(rt: HostRuntime) {
    for (codes, why) in RECORDS {
        assert!(rt; Record::read(codes, 80).err() == *why, "{codes:?}");
    }
}

/// Codes, and the error of an address with them.
const ADDRESSES: &[(&[u8], Option<AddressError>)] = &[
    (b"", Some(AddressError::Empty)),
    (b"ABCDEFGH", Some(AddressError::TooLong)),
    (b"A B", Some(AddressError::BadChar(1))),
    (b"ABCDEFG", None),
    (b"!~", None),
];

#[test]
fn addresses_have_limits(rt: HostRuntime) {
    for (codes, why) in ADDRESSES {
        assert!(rt; Address::read(codes).err() == *why, "{codes:?}");
    }
}
