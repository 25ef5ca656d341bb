//! The characters of the standard, and a comparison of the lanes with plain loops.

use bsc_octet::{all_odd, from_line, is_record_char, sum, to_line};

/// Codes, the octets in which they are sent, and whether they may stand in a record: NUL, SOH, STX,
/// ETX, EOT, ENQ, DLE, NAK, SYN, ETB, EM, US, `0`, `1`, `;` and `<`.
const CARRIED: &[(u8, u8, bool)] = &[
    (0x00, 0x80, true),
    (0x01, 0x01, false),
    (0x02, 0x02, false),
    (0x03, 0x83, false),
    (0x04, 0x04, false),
    (0x05, 0x85, false),
    (0x10, 0x10, false),
    (0x15, 0x15, false),
    (0x16, 0x16, false),
    (0x17, 0x97, false),
    (0x19, 0x19, false),
    (0x1f, 0x1f, false),
    (0x30, 0xb0, true),
    (0x31, 0x31, true),
    (0x3b, 0x3b, true),
    (0x3c, 0xbc, true),
];

#[test]
fn characters_of_the_standard(rt: HostRuntime) {
    for (code, octet, in_record) in CARRIED {
        assert!(rt; to_line(*code) == Some(*octet), "{code}");
        assert!(rt; from_line(*octet) == Some(*code), "{code}");
        assert!(rt; is_record_char(*code) == *in_record, "{code}");
    }
}

// Octets of both parities, the same ones in each run.
fn mixed_octets() -> [u8; 200] {
    let mut octets = [0; 200];
    let mut state = 0x2cu8;
    for octet in octets.iter_mut() {
        state = state.wrapping_mul(0x1d).wrapping_add(0x47);
        *octet = state;
    }
    octets
}

// Whether the sum and the parity of the octets are those that a plain loop finds.
fn lanes_agree(octets: &[u8]) -> bool {
    let mut total = 0;
    let mut odd = true;
    for octet in octets {
        total ^= *octet & 0x7f;
        odd &= octet.count_ones() % 2 == 1;
    }
    sum(octets) == total && all_odd(octets) == odd
}

// What the compiler makes of the lanes is not proved: lists that end at each place in them, of
// octets of both parities and of octets with odd parity only.
#[test]
fn lanes_give_what_plain_loops_give(rt: HostRuntime) {
    let mixed = mixed_octets();
    for len in 0..=200usize {
        assert!(rt; lanes_agree(&mixed[..len]), "{len}");
        assert!(rt; lanes_agree(&[0x16; 200][..len]), "{len}");
    }
}

#[test]
fn codes_of_an_even_count_cancel_out(rt: HostRuntime) {
    assert!(rt; sum(&[]) == 0x00 && sum(&[0xc1; 130]) == 0x00 && sum(&[0xc1; 131]) == 0x41);
}

#[test]
fn one_octet_of_even_parity_is_found_at_each_place(rt: HostRuntime) {
    let mut octets = [0x16; 130];
    assert!(rt; all_odd(&[]) && all_odd(&octets));
    for place in 0..130usize {
        octets[place] = 0x17;
        assert!(rt; !all_odd(&octets), "{place}");
        octets[place] = 0x16;
    }
}
