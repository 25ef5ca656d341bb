//! Why a line cannot be made, and each growth of a new line refused.

use bsc_bid::Terminal;
use bsc_control::SetupError;
use bsc_frame::Address;
use bsc_line::Line;
use std::alloc::Global;
use std::test::Fail;
use test_alloc::{Refusal, Refusing};
use test_fixtures::lines::{setup, two_terminals};

/// The codes of a terminal's polling address, and those of its selection addresses.
type Codes<'a> = (&'a [u8], &'a [&'a [u8]]);

const FIRST: Codes<'static> = (b"A", &[b"a"]);

const SECOND: Codes<'static> = (b"B", &[b"b"]);

/// The codes of the terminals of a new line, its poll list, and the error; None if the line can be
/// made.
type Setting<'a> = (&'a [Codes<'a>], &'a [u8], Option<SetupError>);

/// Each error except those of a wrong number of terminals, and the longest poll list.
const SETTINGS: &[Setting<'static>] = &[
    (
        &[(b"A", &[b"A"]), SECOND],
        &[],
        Some(SetupError::SameAddress(0, 1)),
    ),
    (
        &[(b"A", &[b"a", b"c"]), (b"B", &[b"c"])],
        &[],
        Some(SetupError::SameAddress(2, 4)),
    ),
    (&[FIRST, SECOND], &[], Some(SetupError::EmptyPollList)),
    (&[FIRST, SECOND], &[0, 2], Some(SetupError::PollList(1))),
    (&[FIRST, SECOND], &[0; 256], Some(SetupError::PollList(255))),
    (&[FIRST, SECOND], &[0; 255], None),
];

/// The terminal with these codes.
fn terminal_of(alloc: Global, (poll, selects): &Codes<'_>) -> Result<Terminal, Fail> {
    let mut addresses = Vec::new(alloc);
    for address in *selects {
        addresses.push(Address::read(address)?)?;
    }
    Ok(Terminal::new(Address::read(poll)?, &addresses)?)
}

/// The terminals with these codes.
fn terminals_of(alloc: Global, codes: &[Codes<'_>]) -> Result<Vec<Terminal>, Fail> {
    let mut terminals = Vec::new(alloc);
    for codes in codes {
        terminals.push(terminal_of(alloc, codes)?)?;
    }
    Ok(terminals)
}

/// The error of a new line with these terminals and this poll list; None if it can be made.
fn refusal(
    memory: &Refusing,
    terminals: &[Terminal],
    poll_list: &[u8],
) -> Result<Option<SetupError>, Fail> {
    Ok(Line::new(memory, setup(3)?, terminals, poll_list).err())
}

#[test]
fn a_wrong_number_of_terminals_is_told_without_memory(rt: HostRuntime) -> Result<(), Fail> {
    let memory = Refusing::new(rt.alloc());
    memory.refuse_from(1);
    let [first, _] = two_terminals();
    let many = [first; 65];
    assert_eq!(rt;
        refusal(&memory, &many[..0], &[])?,
        Some(SetupError::NoTerminal)
    );
    assert_eq!(rt; refusal(&memory, &many, &[])?, Some(SetupError::TooMany));
    assert_eq!(rt; memory.requests(), 0);
    Ok(())
}

/// Whether a line is answered rightly while growths are refused in this way, from each number in
/// turn: out of memory if one was refused, and otherwise as expected.
fn is_answered(alloc: Global, which: Refusal, setting: &Setting<'_>) -> Result<bool, Fail> {
    let (codes, poll_list, expected) = setting;
    let memory = Refusing::new(alloc);
    let terminals = terminals_of(alloc, codes)?;
    for number in memory.in_turn(which, 1..999) {
        number?;
        let answer = refusal(&memory, &terminals, poll_list)?;
        let due = if memory.refused() > 0 {
            Some(SetupError::Memory)
        } else {
            *expected
        };
        if answer != due {
            return Ok(false);
        }
    }
    Ok(true)
}

#[test]
fn a_new_line_is_refused_by_name_and_without_memory(rt: HostRuntime) -> Result<(), Fail> {
    for setting in SETTINGS {
        for which in [Refusal::Nth, Refusal::From, Refusal::Above { octets: 64 }] {
            assert!(rt; is_answered(rt.alloc(), which, setting)?, "{:?}", setting.2);
        }
    }
    Ok(())
}
