//! A run on the largest line: what the first and the last of 64 terminals send and get.

use crate::written::run_over_sockets;
use bsc_line::LineError;
use bsc_run::RunError;
use std::alloc::Global;
use std::test::Fail;

/// The number of terminals.
const COUNT: usize = 64;

/// A configuration with 64 terminals of two selection addresses each. The last and the first are
/// polled.
fn config_of_ends(alloc: Global) -> Result<String, Fail> {
    let mut text = format!(in alloc; "version = 2\ntries = 1\npoll_list = [63, 0]\n")?;
    for number in 0..COUNT {
        write!(
            text,
            "[[terminals]]\npoll = \"A{number}\"\nselect = [\"a{number}\", \"b{number}\"]\n"
        )?;
    }
    Ok(text)
}

/// The last terminal sends two records, the first one gets one at its second address, and a doubt
/// is released that there is not.
const SCRIPT_OF_ENDS: &str = "offer-at 63 HI
offer-at 63
offer-to 0 1 BYE
silence
carry
carry
carry
carry
carry
carry
carry
carry
carry
carry
carry
carry
lose
release 63 from
";

/// What was pending after each event of this script.
const TRACE_OF_ENDS: &str = "control CALL A63
terminal 63 TEXT ETX 2
control ACK1
terminal 63 EOT
control CALL b0
terminal 0 ACK0
control TEXT ETX 1
terminal 0 ACK1
control CALL A0
terminal 0 EOT
control CALL A63
terminal 63 EOT
control CALL A0
quiet
";

/// The output of this script.
fn printed_of_ends(alloc: Global) -> Result<String, Fail> {
    let mut text = String::from_str(alloc, TRACE_OF_ENDS)?;
    for number in 0..COUNT {
        let sent = match number {
            63 => "offered 2, known 2, spooled 2\n  4849\n  -",
            _ => "offered 0, known 0, spooled 0",
        };
        let got = match number {
            0 => "offered 1, known 1, spooled 1\n  425945",
            _ => "offered 0, known 0, spooled 0",
        };
        write!(
            text,
            "from {number}: {sent}\nto {number}.0: offered 0, known 0, spooled 0\n\
            to {number}.1: {got}\n"
        )?;
    }
    text.push_str("trusted\n")?;
    Ok(text)
}

#[test]
fn the_first_and_the_last_of_64_terminals_exchange_records(rt: HostRuntime) -> Result<(), Fail> {
    let config = config_of_ends(rt.alloc())?;
    let ended = run_over_sockets(&rt, &config, SCRIPT_OF_ENDS)?;
    let refused = RunError::Refused {
        line: 18,
        why: LineError::NotInDoubt,
    };
    let printed = printed_of_ends(rt.alloc())?;
    assert!(rt; ended.answer == Err(refused) && ended.has_printed(&printed));
    Ok(())
}
