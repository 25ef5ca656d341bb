//! Names of large inputs with enough memory, as an input of any length, lines of the greatest
//! length and the longest text; and growths that are refused: each one in turn, all from each one
//! on, and all above each size.

use crate::inputs::repeated;
use crate::naming::Call::{Name, Names, Show};
use crate::naming::{Call, is_due, print};
use bsc_text::MAX_INPUT;
use bsc_trace::naming::NamingError;
use std::alloc::{AllocError, Global};
use std::test::Fail;
use test_alloc::{Refusal, Refusing};

/// A call, how often the parts of its input and of its output are repeated, both, and the error.
type Row = (Call, usize, &'static str, &'static str, Option<NamingError>);

/// The number of pairs of digits in a line of the greatest length.
const PAIRS: usize = MAX_INPUT / 2;

/// The error of a second line that is too long.
const TOO_LONG: Option<NamingError> = Some(NamingError::TooLongAt { line: 2 });

/// The error after millions of blank lines and another one.
const AFTER_BLANKS: Option<NamingError> = Some(NamingError::NotHexadecimalAt { line: 3_000_002 });

/// The longest text that is sent, if its parts are repeated 144 times. Each of its seven units is
/// 144 times A, EM, the ending character and the check; the even number of A adds nothing to the
/// check.
const SEVEN_UNITS: &str =
    "161602<C1>191F86<C1>191F86<C1>191F86<C1>191F86<C1>191F86<C1>191F86<C1>19831AFF";

const LONG_LINES: &[Row] = &[
    // A line of the greatest length is named, and a longer one is refused after the line before it.
    (Name, PAIRS, "<16>", "NOISE\n", None),
    (Names, PAIRS, "16 04\n<16>", "EOT\nNOISE\n", None),
    (
        Names,
        PAIRS,
        "16 04\n<16>\n16 04",
        "EOT\nNOISE\nEOT\n",
        None,
    ),
    (Names, PAIRS, "16 04\n<16> ", "EOT\n", TOO_LONG),
    (Names, PAIRS, "16 04\n<16>\r\n16 04", "EOT\n", TOO_LONG),
    (Names, PAIRS, "16 04\n<16>zz\n16 04", "EOT\n", TOO_LONG),
    // A line of a trace is named and shown, and without octets it is shown as it stands.
    (Names, PAIRS - 2, "+0 <16>", "NOISE\n", None),
    (Show, PAIRS - 2, "+0 <16>", "+0\n", None),
    (Show, MAX_INPUT - 3, "+0 <z>", "+0 <z>\n", None),
    // The longest text is named, and its units are shown.
    (Name, 144, SEVEN_UNITS, "TEXT ETX 7\n", None),
    (
        Show,
        144,
        SEVEN_UNITS,
        "TEXT ETX 7\nunit <41> EM\nunit <41> EM\nunit <41> EM\nunit <41> EM\nunit <41> EM\n\
        unit <41> EM\nunit <41> EM\n",
        None,
    ),
];

/// A line after millions of blank lines is named, and the lines are counted.
const BLANKS: &Row = &(Names, 3_000_000, "<\n>16 04\nx", "EOT\n", AFTER_BLANKS);

/// Each line of an input of 5,500,000 octets has its name printed.
const MANY_LINES: &Row = &(Names, 500_000, "<161610B0FF\n>", "<ACK0\n>", None);

/// Whether a call prints the output of its row, with the error of the row after it.
fn is_long_due(alloc: Global, row: &Row) -> Result<bool, AllocError> {
    let (call, count, input, printed, error) = *row;
    let input = repeated(alloc, input, count)?;
    let printed = repeated(alloc, printed, count)?;
    Ok(is_due(alloc, call, &input, &printed, error))
}

#[test]
fn long_lines_are_named(rt: HostRuntime) -> Result<(), Fail> {
    for row in LONG_LINES {
        assert!(rt; is_long_due(rt.alloc(), row)?, "{}", row.2);
    }
    Ok(())
}

#[test]
fn a_line_after_millions_is_named(rt: HostRuntime) -> Result<(), Fail> {
    assert!(rt; is_long_due(rt.alloc(), BLANKS)?);
    Ok(())
}

#[test]
fn an_input_of_five_mebibytes_has_each_name(rt: HostRuntime) -> Result<(), Fail> {
    assert!(rt; is_long_due(rt.alloc(), MANY_LINES)?);
    Ok(())
}

/// A call, the step of the sizes above which growths are refused, the input and the output. One
/// request for an input is for 8,192 octets.
type Growing = (Call, usize, &'static str, &'static str);

const GROWING: &[Growing] = &[
    (Call::Name, 1, "16 16 02 C8 49 19 83 9B FF", "TEXT ETX 1\n"),
    // One of these four transmissions is noise.
    (
        Call::Names,
        512,
        "16 16 10 B0 FF\n16 16 10 30 FF\n16 16 04 FF 16 16 C1 85 FF\n16 04\n",
        "ACK0\nNOISE\nCALL A\nEOT\n",
    ),
    // Two transmissions without a text, and between them a text of two units.
    (
        Call::Show,
        512,
        "16 04\n16 16 02 C8 49 19 1F 07 19 83 1A FF\n16 04",
        "EOT\nTEXT ETX 2\nunit 4849 EM\nunit - EM\nEOT\n",
    ),
];

/// Whether the output before out of memory is right: a beginning of the text but not all of it;
/// names are printed in whole lines, units need not be.
fn is_front(call: Call, printed: &[u8], text: &[u8]) -> bool {
    let is_whole = match call {
        Call::Name | Call::Names => matches!(printed.last(), None | Some(b'\n')),
        Call::Show => true,
    };
    is_whole && printed.len() < text.len() && text.starts_with(printed)
}

/// Whether the result is right: out of memory after a beginning of the text if a growth was
/// refused, and the whole text otherwise.
fn is_due_or_refused(alloc: Global, refusing: &Refusing<Global>, row: &Growing) -> bool {
    let (call, _, input, text) = *row;
    let mut out = Vec::new(alloc);
    let answer = print(refusing, call, input, &mut out);
    let is_refused = refusing.refused() > 0;
    match answer {
        Ok(()) => !is_refused && out.as_slice() == text.as_bytes(),
        Err(NamingError::Memory) => is_refused && is_front(call, &out, text.as_bytes()),
        Err(_) => false,
    }
}

#[test]
fn each_growth_is_refused(rt: HostRuntime) -> Result<(), Fail> {
    let alloc = Refusing::new(rt.alloc());
    for row in GROWING {
        let above = Refusal::Above { octets: row.1 };
        for refusal in [Refusal::Nth, Refusal::From, above] {
            for number in alloc.in_turn(refusal, 4..99) {
                number?;
                assert!(rt; is_due_or_refused(rt.alloc(), &alloc, row), "{}", row.2);
            }
        }
    }
    Ok(())
}
