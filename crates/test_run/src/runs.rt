//! Runs over sockets with their complete output and trace, and the texts of errors.

use crate::worked::{POLLED, WORKED, Worked};
use crate::written::run_over_sockets;
use bsc_line::LineError;
use bsc_run::RunError;
use std::alloc::Global;
use std::test::Fail;
use test_fixtures::configurations::TWO_TERMINALS;

/// Whether a run prints its trace and its report.
fn is_printed(rt: &HostRuntime, worked: &Worked) -> Result<bool, Fail> {
    let ended = run_over_sockets(rt, TWO_TERMINALS, worked.script)?;
    Ok(worked.is_whole(&ended) && ended.trace.as_slice() == worked.traced.as_bytes())
}

#[test]
fn each_worked_run_prints_its_trace_and_its_report(rt: HostRuntime) -> Result<(), Fail> {
    for worked in WORKED {
        assert!(rt; is_printed(&rt, worked)?, "{}", worked.script);
    }
    Ok(())
}

#[test]
fn an_event_is_refused_after_those_of_a_run(rt: HostRuntime) -> Result<(), Fail> {
    let script = format!(in rt.alloc(); "{}ready 2\n", POLLED.script)?;
    let ended = run_over_sockets(&rt, TWO_TERMINALS, script.as_str())?;
    let refused = RunError::Refused {
        line: 9,
        why: LineError::NoSuchTerminal,
    };
    assert!(rt; ended.has_printed(POLLED.printed) && ended.answer == Err(refused));
    Ok(())
}

/// The report of a line on which nothing was offered.
pub(crate) const REPORT: &str = "from 0: offered 0, known 0, spooled 0
to 0: offered 0, known 0, spooled 0
from 1: offered 0, known 0, spooled 0
to 1: offered 0, known 0, spooled 0
trusted
";

/// Scripts whose last event is refused, their output before the report, and the messages of the
/// refusals, with a bar between them. The transmissions of a terminal are not heard by other
/// terminals.
const REFUSED: &[&str] = &[
    "carry\n||script line 1: refused: nothing sent",
    "\n# lost\nlose||script line 3: refused: nothing sent",
    "heard 1604||script line 1: refused: nothing sent",
    "heard-each - -||script line 1: refused: nothing sent",
    "silence\nsilence\nlose\n|control CALL A\n|script line 2: refused: a transmission is pending",
    "unready 2||script line 1: refused: no such terminal",
    "poll-off 2||script line 1: refused: no such terminal",
    "offer-for 999 HI||script line 1: refused: no such terminal",
    "offer-at 0 \
    .................................................................................\
    ||script line 1: refused: record too long",
    "offer-at 1 HI\u{3}||script line 1: refused: wrong character at 2",
    "release 1 to||script line 1: refused: not in doubt",
    "silence\nheard-each 16 16 16|control CALL A\n|\
    script line 2: refused: wrong number of hearings",
    "offer-to 0 1 HI||script line 1: refused: no such address",
    "silence\ncarry\nheard-each - -|control CALL A\nterminal 0 EOT\n|\
    script line 3: refused: control is not sending",
];

/// Whether this is the text of the error.
fn has_text(alloc: Global, error: RunError, text: &str) -> Result<bool, Fail> {
    Ok(error.to_string(alloc)?.as_str() == text)
}

/// Whether a script prints this and the report, and its last event is refused with this error.
fn is_refused(rt: &HostRuntime, script: &str, before: &str, error: &str) -> Result<bool, Fail> {
    let ended = run_over_sockets(rt, TWO_TERMINALS, script)?;
    let report = ended.out.as_slice().strip_prefix(before.as_bytes());
    match ended.answer {
        Err(why) if report == Some(REPORT.as_bytes()) => has_text(rt.alloc(), why, error),
        _ => Ok(false),
    }
}

#[test]
fn each_refusal_has_its_text_after_the_report(rt: HostRuntime) -> Result<(), Fail> {
    for row in REFUSED {
        let (script, told) = row.split_once('|').ok_or("no output")?;
        let (before, error) = told.split_once('|').ok_or("no error")?;
        assert!(rt; is_refused(&rt, script, before, error)?, "{script}");
    }
    Ok(())
}

#[test]
fn each_error_has_a_text(rt: HostRuntime) -> Result<(), Fail> {
    let refused = RunError::Refused {
        line: 1,
        why: LineError::Memory,
    };
    for (error, text) in [
        (RunError::Output, "output fault"),
        (RunError::Memory, "out of memory"),
        (RunError::Socket { line: 3 }, "script line 3: socket fault"),
        (refused, "script line 1: refused: out of memory"),
    ] {
        assert!(rt; has_text(rt.alloc(), error, text)?, "{text}");
    }
    Ok(())
}
