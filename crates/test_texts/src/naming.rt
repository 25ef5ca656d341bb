//! The names of transmissions, of lines and of traces.

use crate::inputs::Broken;
use bsc_trace::naming::{NamingError, name, names, show};
use std::alloc::{Allocator, Global};
use std::io::{ErrorKind, Write};
use std::ops::Range;
use test_fixtures::Full;

/// A call that prints names.
#[derive(Clone, Copy)]
pub(crate) enum Call {
    Name,
    Names,
    Show,
}

/// Prints the names of this input with this call.
pub(crate) fn print<A: Allocator + Copy, W: Write>(
    alloc: A,
    call: Call,
    input: &str,
    out: &mut W,
) -> Result<(), NamingError> {
    match call {
        Call::Name => name(alloc, input, out),
        Call::Names => names(alloc, &mut input.as_bytes(), out),
        Call::Show => show(alloc, &mut input.as_bytes(), out),
    }
}

/// Whether this is printed for the input, with this error after it.
pub(crate) fn is_due(
    alloc: Global,
    call: Call,
    input: &str,
    printed: &str,
    error: Option<NamingError>,
) -> bool {
    let mut out = Vec::new(alloc);
    print(alloc, call, input, &mut out).err() == error && out.as_slice() == printed.as_bytes()
}

/// A call, its input, its output, and the error after that.
type Row = (Call, &'static str, &'static str, Option<NamingError>);

/// The error of a text that is not hexadecimal, and of one in line 4 or in line 2.
const WRONG: Option<NamingError> = Some(NamingError::NotHexadecimal);

const WRONG_AT_4: Option<NamingError> = Some(NamingError::NotHexadecimalAt { line: 4 });

const WRONG_AT_2: Option<NamingError> = Some(NamingError::NotHexadecimalAt { line: 2 });

/// A trace that `station` wrote, and a line of hexadecimal text in between, which is read as such.
const TRACE: &str = "+1 control heard CALL A 161604ff1616c185ff
+3 terminal 0 sent TEXT ETX 1 161602c84919839bff
+3000 silence
16 16 10 B0 FF

+3100 connection 0 closed: the input ended within a record
+
+ \n";

/// The same as `show` prints it: the lines without their octets, and the units.
const SHOWN_TRACE: &str = "+1 control heard CALL A
+3 terminal 0 sent TEXT ETX 1
unit 4849 EM
+3000 silence
ACK0
+3100 connection 0 closed: the input ended within a record
+
+ \n";

const ROWS: &[Row] = &[
    // Transmissions with their names, and text that is not hexadecimal.
    (Call::Name, "161610b0ff", "ACK0\n", None),
    (Call::Name, "16 16 10 B0 FF", "ACK0\n", None),
    (Call::Name, "", "NOISE\n", None),
    (Call::Name, "16 16 04 FF 16 16 C1 85 FF", "CALL A\n", None),
    (
        Call::Name,
        "16 16 02 C8 49 19 83 9B FF",
        "TEXT ETX 1\n",
        None,
    ),
    (Call::Name, "16 16 02 85 FF", "FAILED\n", None),
    (Call::Name, "zz", "", WRONG),
    (Call::Name, "16 1", "", WRONG),
    (Call::Name, "é0", "", WRONG),
    // Names are printed in the order of the lines. Blank lines have no name but are counted, and
    // the last line feed may be missing. The lines before a wrong one are printed, and those after
    // it are not. The first of two carriage returns belongs to the line.
    (
        Call::Names,
        "16 16 10 B0 FF\n\n16 16 10 30 FF\r\n   \n \r\n16 16 04 FF 16 16 C1 85 FF\n16 04\r",
        "ACK0\nNOISE\nCALL A\nEOT\n",
        None,
    ),
    (
        Call::Names,
        "16 04\n\n   \n16 0\n16 10 B0\n",
        "EOT\n",
        WRONG_AT_4,
    ),
    (Call::Names, "16 04\n\n\n16 04\r\r\n", "EOT\n", WRONG_AT_4),
    // The units of texts, some without characters and some without EM. In traces, a line without
    // the sign is still read as hexadecimal text.
    (
        Call::Show,
        "16 16 02 C8 49 19 1F 07 19 83 1A FF\n16 16 02 83 83 FF",
        "TEXT ETX 2\nunit 4849 EM\nunit - EM\nTEXT ETX 1\nunit -\n",
        None,
    ),
    (Call::Show, TRACE, SHOWN_TRACE, None),
    (
        Call::Show,
        "+2 silence\n3000 silence\n",
        "+2 silence\n",
        WRONG_AT_2,
    ),
    (Call::Names, TRACE, "CALL A\nTEXT ETX 1\nACK0\n", None),
];

#[test]
fn transmissions_lines_and_traces(rt: HostRuntime) {
    for (call, input, printed, error) in ROWS {
        assert!(rt;
            is_due(rt.alloc(), *call, input, printed, *error),
            "{input}"
        );
    }
}

/// The first of these numbers of successful writes after which a failing one is not reported.
fn first_untold(alloc: Global, call: Call, input: &str, writes: Range<usize>) -> Option<usize> {
    for left in writes {
        if print(alloc, call, input, &mut Full { left }) != Err(NamingError::Output) {
            return Some(left);
        }
    }
    None
}

/// A write fails at each place of the output.
#[test]
fn failing_write(rt: HostRuntime) {
    let input = "16 04\n16 16 02 C8 49 19 83 9B FF\nzz";
    assert_eq!(rt; first_untold(rt.alloc(), Call::Show, input, 0..8), None);
    assert_eq!(rt; first_untold(rt.alloc(), Call::Name, "16 04", 1..2), None);
}

/// Two lines, and a part of a third. One of these parts is a line by itself.
const BROKEN: &[&[u8]] = &[
    b"16 04\n16 16 10 30 FF\n",
    b"16 04\n16 16 10 30 FF\n16 0",
    b"16 04\n16 16 10 30 FF\n16 04",
];

/// Whether the lines before a read that fails are printed, and the part of a line is not.
fn is_broken(alloc: Global, text: &'static [u8]) -> bool {
    let mut out = Vec::new(alloc);
    let kind = Some(ErrorKind::Interrupted);
    let answer = names(alloc, &mut Broken { text, kind }, &mut out);
    answer == Err(NamingError::Input) && out.as_slice() == b"EOT\nNOISE\n".as_slice()
}

#[test]
fn failing_read(rt: HostRuntime) {
    for text in BROKEN {
        assert!(rt; is_broken(rt.alloc(), *text), "{text:?}");
    }
}
