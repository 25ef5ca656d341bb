//! Scripts that are read, lines that are not events, and the longest lines and scripts.

use crate::inputs::repeated;
use bsc_config::script::{ScriptError, read_script};
use bsc_text::MAX_INPUT;
use std::alloc::{AllocError, Global};
use std::test::Fail;
use test_alloc::{Refusal, Refusing};

/// A script with 19 events, one of each form.
const SCRIPT: &[u8] = b"# each form\n
offer-at 0 HI\noffer-for 1\noffer-to 2 9 HI\ncarry\nlose\r\nsilence\nheard 16 04
heard-each -\nheard-each 1604 - 161610B0FF\nready 1\nunready 63\npoll-on 1
poll-off 63\nurgent-at 999
urgent-for 0\nrelease 0 from\nrelease 1 to\nrelease 2 to 3\noffer-at 7";

/// Whether the result is out of memory if a growth was refused, and the script otherwise.
fn is_read_or_refused(alloc: &Refusing, script: &[u8]) -> bool {
    match read_script(alloc, script) {
        Ok(script) => alloc.refused() == 0 && script.steps().len() == 19,
        Err(error) => alloc.refused() > 0 && error == ScriptError::Memory,
    }
}

#[test]
fn each_growth_of_a_script_is_refused_in_turn(rt: HostRuntime) -> Result<(), Fail> {
    let alloc = Refusing::new(rt.alloc());
    for request in alloc.in_turn(Refusal::Nth, 6..49) {
        let number = request?;
        assert!(rt; is_read_or_refused(&alloc, SCRIPT), "{number}");
    }
    Ok(())
}

/// How often parts of a text are repeated, the text, and the number of events of the script that it
/// is, or the number of the first line that is not an event.
type Read = (usize, &'static str, Result<usize, u64>);

/// Texts that are as long as an input may be, or of which a line is as long as it may be, and a
/// text with a wrong line after an empty line and before another one.
const READ: &[Read] = &[
    (174_762, "<carry\n>", Ok(174_762)),
    (MAX_INPUT - 1, "#<A>", Ok(0)),
    (MAX_INPUT - 11, "offer-at 0 <A>", Ok(1)),
    (MAX_INPUT - 12, "offer-for 0 <A>", Ok(1)),
    (MAX_INPUT - 13, "offer-to 0 0 <A>", Ok(1)),
    (2048, "heard <5A>", Ok(1)),
    (2049, "heard <5A>", Err(1)),
    (2048, "heard-each - <5A>", Ok(1)),
    (2049, "heard-each - <5A>", Err(1)),
    (524_000, "heard-each< ->", Ok(1)),
    (MAX_INPUT - 6, "heard <A>", Err(1)),
    (MAX_INPUT, "<A>", Err(1)),
    (1, "# a comment\n\ncarry\nready\ncarry \n", Err(4)),
];

const AFTER_A_MILLION: &Read = &(1_000_000, "<carry\n>carry 0", Err(1_000_001));

/// Whether the text is read so.
fn is_read(alloc: Global, text: &str, expected: Result<usize, u64>) -> bool {
    match read_script(alloc, text.as_bytes()) {
        Ok(script) => expected == Ok(script.steps().len()),
        Err(ScriptError::NotAnEvent { line }) => expected == Err(line),
        Err(ScriptError::Memory) => false,
    }
}

/// Whether the text is read so with its parts repeated.
fn is_long_read(alloc: Global, (count, text, expected): &Read) -> Result<bool, AllocError> {
    Ok(is_read(alloc, &repeated(alloc, text, *count)?, *expected))
}

#[test]
fn long_texts_and_wrong_lines(rt: HostRuntime) -> Result<(), Fail> {
    for read in READ {
        assert!(rt; is_long_read(rt.alloc(), read)?, "{}", read.1);
    }
    Ok(())
}

#[test]
fn a_wrong_line_is_told_after_a_million(rt: HostRuntime) -> Result<(), Fail> {
    assert!(rt; is_long_read(rt.alloc(), AFTER_A_MILLION)?);
    Ok(())
}
