//! A terminal attended over a scripted connection. The octets are those of docs/PROTOCOL.md.

use crate::fakes::{
    HEXADECIMAL, Scripted, TAKING, Taking, Told, attend_station, connection, terminal_watch,
};
use crate::stations::terminal_of;
use bsc_carrier::CarrierError;
use bsc_connections::LiveError;
use bsc_report::{Printing, RecordLines, Tracing, write_report};
use bsc_station::LineTerminal;
use bsc_text::Form;
use std::alloc::Global;
use std::io::{ErrorKind, Write};
use std::test::Fail;
use test_fixtures::Full;

/// What a control station sends to a terminal: a poll, which is answered with a text; ACK1; a
/// selection; a text; EOT.
const TO_TERMINAL: &[u8] = b"\x00\x09\x16\x16\x04\xFF\x16\x16\xC1\x85\xFF\
\x00\x05\x16\x16\x10\x31\xFF\
\x00\x09\x16\x16\x04\xFF\x16\x16\x61\x85\xFF\
\x00\x09\x16\x16\x02\xC8\x49\x19\x83\x9B\xFF\
\x00\x04\x16\x16\x04\xFF";

/// The same, but for the last octet.
const TO_TERMINAL_CUT: &[u8] = b"\x00\x09\x16\x16\x04\xFF\x16\x16\xC1\x85\xFF\
\x00\x05\x16\x16\x10\x31\xFF\
\x00\x09\x16\x16\x04\xFF\x16\x16\x61\x85\xFF\
\x00\x09\x16\x16\x02\xC8\x49\x19\x83\x9B\xFF\
\x00\x04\x16\x16\x04";

/// How a terminal with the record HI to send is attended: how it prints, the octets that it reads,
/// and the waits before them: octets to read for each `r`, and that it is asked to end for each
/// `s`. Then what it prints, with its report and the records that arrived, its trace, and why its
/// connection was closed, if for a fault.
type Attended = (
    Printing,
    &'static [u8],
    &'static [u8],
    &'static str,
    &'static str,
    Option<CarrierError>,
);

/// Hexadecimal records, with a trace.
const ALL: Printing = Printing {
    records: HEXADECIMAL,
    trace: Tracing::All,
};

/// Records as text with their numbers, without a trace.
const TEXT: Printing = Printing {
    records: RecordLines {
        form: Form::Text,
        numbers: true,
    },
    trace: Tracing::Off,
};

const ATTENDED: &[Attended] = &[
    (
        ALL,
        TO_TERMINAL,
        b"",
        "to 0: 4849\nfrom 0: offered 1, known 1\nto 0: spooled 1\n  4849\n",
        "+1 control heard CALL A 161604ff1616c185ff
+2 terminal 0 sent TEXT ETX 1 161602c84919839bff
+3 control heard ACK1 16161031ff
+4 terminal 0 sent EOT 161604ff
+5 control heard CALL a 161604ff16166185ff
+6 terminal 0 sent ACK0 161610b0ff
+7 control heard TEXT ETX 1 161602c84919839bff
+8 terminal 0 sent ACK1 16161031ff
+9 control heard EOT 161604ff
+10 connection 0 closed
",
        None,
    ),
    // Without a trace, only faults of the connection are told.
    (
        TEXT,
        TO_TERMINAL_CUT,
        b"",
        "to 0 0: HI\nfrom 0: offered 1, known 1\nto 0: spooled 1\n  HI\n",
        "connection 0 closed: the input ended within a record\n",
        Some(CarrierError::Short),
    ),
    // A terminal that is asked to end while it sends a block ends when its bid has ended.
    (
        ALL,
        TO_TERMINAL,
        b"rrs",
        "from 0: offered 1, known 1\nto 0: spooled 0\n",
        "+1 control heard CALL A 161604ff1616c185ff
+2 terminal 0 sent TEXT ETX 1 161602c84919839bff
+3 asked to end
+4 control heard ACK1 16161031ff
+5 terminal 0 sent EOT 161604ff
",
        None,
    ),
];

/// Attends a terminal in this way over a connection with these ends. Returns the fault for which
/// the connection was closed, if there was one.
fn attend_terminal<W: Write>(
    alloc: Global,
    terminal: &mut LineTerminal<Global>,
    (printing, steps): (Printing, &'static [u8]),
    (told, taking): (Told, Taking),
    out: &mut W,
    trace: &mut Vec<u8>,
) -> Result<Option<CarrierError>, LiveError> {
    let mut ends = connection(alloc, told, taking)?;
    let mut watch = terminal_watch(alloc, printing.trace, trace);
    let mut waiter = Scripted { steps };
    let lines = printing.records;
    attend_station(
        alloc,
        terminal,
        &mut ends,
        &mut waiter,
        &mut watch,
        lines,
        out,
    )?;
    Ok(watch.closed())
}

/// Whether a terminal that is attended in this way prints what it should.
fn prints(alloc: Global, attended: &Attended) -> Result<bool, Fail> {
    let (printing, octets, steps, printed, traced, why) = *attended;
    let mut terminal = terminal_of(alloc, b"HI\n")?;
    let (mut out, mut trace) = (Vec::new(alloc), Vec::new(alloc));
    let ends = (Told { fails: &[], octets }, TAKING);
    let way = (printing, steps);
    let closed = attend_terminal(alloc, &mut terminal, way, ends, &mut out, &mut trace)?;
    write_report(alloc, Some(printing.records.form), &*terminal, &mut out)?;
    let is_printed = out.as_slice() == printed.as_bytes();
    Ok(closed == why && is_printed && trace.as_slice() == traced.as_bytes())
}

#[test]
fn terminals_print_what_happens_until_they_end(rt: HostRuntime) -> Result<(), Fail> {
    for (place, attended) in ATTENDED.iter().enumerate() {
        assert!(rt; prints(rt.alloc(), attended)?, "{place}");
    }
    Ok(())
}

/// The end of the trace of a terminal that cannot print the record that arrives: nothing is sent
/// after the text that brought it.
const REFUSED_END: &[u8] = b"+6 terminal 0 sent ACK0 161610b0ff
+7 control heard TEXT ETX 1 161602c84919839bff
";

/// Whether a terminal ends with `Unprinted` over this output, and sends nothing after the text.
fn refuses<W: Write>(alloc: Global, out: &mut W) -> Result<bool, Fail> {
    let mut terminal = terminal_of(alloc, b"HI\n")?;
    let mut trace = Vec::new(alloc);
    let octets = TO_TERMINAL;
    let ends = (Told { fails: &[], octets }, TAKING);
    let way = (ALL, b"".as_slice());
    let ended = attend_terminal(alloc, &mut terminal, way, ends, out, &mut trace);
    Ok(matches!(ended, Err(LiveError::Unprinted)) && trace.ends_with(REFUSED_END))
}

/// Whichever write of the line of a record fails, or its flush, the text that brought the record is
/// not acknowledged. The line `to 0: 4849` is written in more than one part.
#[test]
fn a_record_that_is_not_written_and_flushed_is_not_acknowledged(
    rt: HostRuntime,
) -> Result<(), Fail> {
    assert!(rt; refuses(rt.alloc(), &mut Full { left: 0 })?);
    assert!(rt; refuses(rt.alloc(), &mut Full { left: 1 })?);
    let mut stuck = Taking {
        is_stuck: true,
        ..TAKING
    };
    assert!(rt; refuses(rt.alloc(), &mut stuck)?);
    Ok(())
}

/// Reads that fail, whether all writes do, and the end of the trace of the terminal. The first ones
/// are no faults of the connection.
const FAILING: &[(&[ErrorKind], bool, &str)] = &[
    (
        &[
            ErrorKind::Interrupted,
            ErrorKind::WouldBlock,
            ErrorKind::TimedOut,
        ],
        false,
        "+9 control heard EOT 161604ff\n+10 connection 0 closed\n",
    ),
    (
        &[ErrorKind::ConnectionReset],
        false,
        "+1 connection 0 closed: connection reset by peer\n",
    ),
    (
        &[],
        true,
        "+2 terminal 0 sent TEXT ETX 1 161602c84919839bff\n+3 connection 0 closed: broken pipe\n",
    ),
];

/// Whether a terminal has a trace with this end over a connection that fails so.
fn fails(
    alloc: Global,
    fails: &'static [ErrorKind],
    is_broken: bool,
    traced: &str,
) -> Result<bool, Fail> {
    let mut terminal = terminal_of(alloc, b"HI\n")?;
    let (mut out, mut trace) = (Vec::<u8>::new(alloc), Vec::new(alloc));
    let taking = Taking {
        is_broken,
        ..TAKING
    };
    let octets = TO_TERMINAL;
    let ends = (Told { fails, octets }, taking);
    let way = (ALL, b"".as_slice());
    attend_terminal(alloc, &mut terminal, way, ends, &mut out, &mut trace)?;
    Ok(trace.ends_with(traced.as_bytes()))
}

#[test]
fn reads_and_writes_that_fail_are_told(rt: HostRuntime) -> Result<(), Fail> {
    for (kinds, is_broken, traced) in FAILING {
        assert!(rt; fails(rt.alloc(), *kinds, *is_broken, *traced)?, "{traced}");
    }
    Ok(())
}
