//! Calls as C makes them.
use crate::{Content, StoredUnit, bsc_decode, bsc_encode};
use std::test::Fail;

const NOISE: u32 = 0;

const FAILED: u32 = 1;

const CALL: u32 = 3;

const ACK0: u32 = 5;

const TEXT: u32 = 10;

// The text, ended by ETX, of the units HELLO and WORLD.
const HELLO_WORLD: [u8; 19] = [
    0x16, 0x16, 0x02, 0xc8, 0x45, 0x4c, 0x4c, 0x4f, 0x19, 0x1f, 0xc4, 0x57, 0x4f, 0x52, 0x4c, 0xc4,
    0x19, 0x83, 0x58,
];

// Storage that has not been set.
fn no_content() -> Content {
    let unit = StoredUnit {
        chars: [0xee; 144],
        len: 0xee,
        em: 0xee,
    };
    Content {
        units: [unit; 7],
        count: 0xee,
        end: 0xee,
        address: [0xee; 7],
        address_len: 0xee,
    }
}

#[test]
fn text_comes_and_goes(rt: HostRuntime) {
    let mut content = no_content();
    assert_eq!(rt; bsc_decode(&HELLO_WORLD, &mut content), TEXT);
    assert_eq!(rt; content.count, 2);
    assert_eq!(rt; content.end, 0x03);
    assert!(rt; &content.units[0].chars[..5] == b"HELLO".as_slice());
    assert_eq!(rt; content.units[1].len, 5);
    assert_eq!(rt; content.units[1].em, 1);
    let mut octets = [0; 1033];
    assert_eq!(rt; bsc_encode(TEXT, &content, &mut octets), 20);
    assert!(rt; &octets[..19] == HELLO_WORLD.as_slice());
    assert_eq!(rt; octets[19], 0xff);
}

#[test]
fn call_comes_and_goes(rt: HostRuntime) {
    let call = [0x16, 0x16, 0x04, 0xff, 0x16, 0x16, 0xc1, 0x31, 0x85, 0xff];
    let mut content = no_content();
    assert_eq!(rt; bsc_decode(&call, &mut content), CALL);
    assert_eq!(rt; content.address_len, 2);
    assert!(rt; &content.address[..2] == b"A1".as_slice());
    let mut octets = [0; 10];
    assert_eq!(rt; bsc_encode(CALL, &content, &mut octets), 10);
    assert!(rt; octets == call);
}

#[test]
fn content_stays_where_it_is_not_filled(rt: HostRuntime) {
    let mut content = no_content();
    assert_eq!(rt; bsc_decode(&[0x16, 0x10, 0xb0], &mut content), ACK0);
    assert_eq!(rt; bsc_decode(&[], &mut content), NOISE);
    assert_eq!(rt; bsc_decode(&HELLO_WORLD[..12], &mut content), FAILED);
    assert_eq!(rt; content.count, 0xee);
    assert_eq!(rt; content.address_len, 0xee);
}

#[test]
fn no_message_is_sent(rt: HostRuntime) {
    let content = no_content();
    let mut octets = [0x77; 1033];
    assert_eq!(rt; bsc_encode(TEXT, &content, &mut octets), 0);
    assert_eq!(rt; bsc_encode(CALL, &content, &mut octets), 0);
    assert_eq!(rt; bsc_encode(FAILED, &content, &mut octets), 0);
    assert_eq!(rt; bsc_encode(11, &content, &mut octets), 0);
    assert!(rt; octets == [0x77; 1033]);
}

#[test]
fn room_is_just_enough(rt: HostRuntime) {
    let content = no_content();
    let mut octets = [0; 5];
    assert_eq!(rt; bsc_encode(ACK0, &content, &mut octets), 5);
    assert!(rt; octets == [0x16, 0x16, 0x10, 0xb0, 0xff]);
    let mut few = [0x77; 4];
    assert_eq!(rt; bsc_encode(ACK0, &content, &mut few), 0);
    assert!(rt; few == [0x77; 4]);
}
