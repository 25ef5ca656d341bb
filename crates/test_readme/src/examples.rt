//! The output of the examples.

use readme_code::{deliver, run_terminal};
use std::test::Fail;
use test_fixtures::octets::{CALL_POLL_A, CALL_SELECT_A, EOT, TEXT_HI};

/// What the terminal hears when it is polled, selected and sent a text.
const HEARD: &[Option<&[u8]>] = &[
    Some(CALL_POLL_A),
    Some(CALL_SELECT_A),
    Some(TEXT_HI),
    None,
    Some(EOT),
];

/// What it sends: EOT, since it has nothing to send, then ACK0 to the selection, and ACK1 to the
/// text.
const SENT: &[u8] = &[
    0x16, 0x16, 0x04, 0xff, 0x16, 0x16, 0x10, 0xb0, 0xff, 0x16, 0x16, 0x10, 0x31, 0xff,
];

#[test]
fn a_terminal_that_is_selected_prints_the_record(rt: HostRuntime) -> Result<(), Fail> {
    let (mut line, mut printer) = (Vec::new(rt.alloc()), Vec::new(rt.alloc()));
    run_terminal(rt.alloc(), HEARD, &mut line, &mut printer)?;
    let written = (line.as_slice(), printer.as_slice());
    assert_eq!(rt; written, (SENT, b"HI".as_slice()));
    Ok(())
}

#[test]
fn a_record_is_delivered(rt: HostRuntime) -> Result<(), Fail> {
    let mut out = Vec::new(rt.alloc());
    deliver(rt.alloc(), &mut out)?;
    assert_eq!(rt; out.as_slice(), b"HI".as_slice());
    Ok(())
}
