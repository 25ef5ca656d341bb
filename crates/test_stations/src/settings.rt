//! Settings and terminals at their limits.

use bsc_bid::{SettingError, Setup, Terminal, TerminalError};
use test_fixtures::lines::address;

/// A full length, the characters of a block, tries and waits, and the error of them.
const SETTINGS: &[(u8, u16, u8, u8, Option<SettingError>)] = &[
    (0, 145, 0, 0, Some(SettingError::Full)),
    (145, 400, 3, 10, Some(SettingError::Full)),
    (144, 145, 3, 10, Some(SettingError::BlockChars)),
    (144, 146, 16, 1, Some(SettingError::Tries)),
    (144, 146, 15, 0, Some(SettingError::Waits)),
    (1, 400, 1, 255, None),
];

#[test]
fn the_first_wrong_setting_is_told(rt: HostRuntime) {
    for (full, block_chars, tries, waits, why) in SETTINGS {
        let made = Setup::new(*full, *block_chars, *tries, *waits);
        assert_eq!(rt; made.err(), *why);
    }
}

/// Why a terminal that is polled by A and selected by this many addresses is none.
fn fault_of(count: usize) -> Option<TerminalError> {
    let selects = [
        address(b'a'),
        address(b'c'),
        address(b'd'),
        address(b'e'),
        address(b'f'),
    ];
    Terminal::new(address(b'A'), selects.get(..count)?).err()
}

#[test]
fn a_terminal_has_one_to_four_selection_addresses(rt: HostRuntime) {
    for count in 0..=5usize {
        let is_right = (1..=4).contains(&count);
        assert!(rt; fault_of(count).is_none() == is_right, "{count}");
    }
}
