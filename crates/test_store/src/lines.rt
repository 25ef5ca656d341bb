//! Stores of lines of each length, and stores of two lines that differ in one thing.

use crate::script::{Row, play};
use std::alloc::Global;
use std::test::Fail;

/// A configuration of this many terminals with four selection addresses each.
fn config(alloc: Global, count: u8) -> Result<String, Fail> {
    let last = count.saturating_sub(1);
    let mut text = format!(in alloc; "version = 2\nfull = 144\npoll_list = [{last}]\n")?;
    for number in 0..count {
        write!(
            text,
            "[[terminals]]\npoll = \"A{number}\"\n\
            select = [\"a{number}\", \"b{number}\", \"c{number}\", \"d{number}\"]\n"
        )?;
    }
    Ok(text)
}

/// The store of the control station of such a line.
const OF_EACH_LENGTH: &[Row] = &[
    "control init - --control => control station: store made\n",
    "control status => from 0: arrived 0, printed 0\n\
    to 0.0: offered 0, known 0, in doubt 0\n...",
];

/// The store of the last terminal of the longest line.
const OF_THE_LAST: &[Row] = &[
    "terminal init - --terminal 63 => terminal 63: store made\n",
    "terminal status => from 63: offered 0, known 0, in doubt 0\nto 63.0: arrived 0, printed 0\n\
    to 63.1: arrived 0, printed 0\nto 63.2: arrived 0, printed 0\nto 63.3: arrived 0, printed 0\n",
];

#[test]
fn a_line_of_each_length_has_a_store(rt: HostRuntime) -> Result<(), Fail> {
    for count in 1..=64u8 {
        let text = config(rt.alloc(), count)?;
        play(rt.alloc(), &text, OF_EACH_LENGTH, &[])?;
    }
    let text = config(rt.alloc(), 64)?;
    play(rt.alloc(), &text, OF_THE_LAST, &[])
}

/// The configuration of the line of the control station.
pub(crate) const OWN: &str = "version = 2\nfull = 80\npoll_list = [0]\n\
    [[terminals]]\npoll = \"A\"\nselect = [\"a\", \"c\"]\n";

/// A part of it, and what stands there in that of another line: in the full length, an address, the
/// order of addresses, and the number of addresses and of terminals.
const CHANGES: &[(&str, &str)] = &[
    ("80", "81"),
    ("\"A\"", "\"B\""),
    ("\"c\"", "\"d\""),
    ("\"a\", \"c\"", "\"c\", \"a\""),
    (", \"c\"", ""),
    (
        "\"c\"]",
        "\"c\"]\n[[terminals]]\npoll = \"B\"\nselect = [\"b\"]",
    ),
];

/// Returns the configuration of the line that differs in one part.
fn changed(alloc: Global, part: &str, other: &str) -> Result<String, Fail> {
    match OWN.split_once(part) {
        Some((before, after)) => Ok(format!(in alloc; "{before}{other}{after}")?),
        None => Err("no such part".into()),
    }
}

/// The stores of both, which are refused.
const OF_TWO_LINES: &[Row] = &[
    "control init own.toml --control => control station: store made\n",
    "terminal init - --terminal 0 => terminal 0: store made\n",
    "control reconcile terminal => refused: the stores are not of two ends of one line",
];

#[test]
fn stores_of_two_lines_are_not_reconciled(rt: HostRuntime) -> Result<(), Fail> {
    for (part, other) in CHANGES {
        let text = changed(rt.alloc(), part, other)?;
        play(rt.alloc(), &text, OF_TWO_LINES, &[])?;
    }
    Ok(())
}
