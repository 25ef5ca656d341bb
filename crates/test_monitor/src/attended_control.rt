//! A control station attended over a scripted connection. The octets are those of docs/PROTOCOL.md.

use crate::fakes::{
    Counting, HEXADECIMAL, Scripted, TAKING, Taking, Told, attend_station, connection,
    control_watch,
};
use crate::stations::{control_of, sending_control};
use bsc_connections::{Connection, LiveError, SocketRecords, attend};
use bsc_control::Control;
use bsc_monitor::{ControlWatch, Ended, LastWatch, Limits};
use bsc_report::{Tracing, write_report};
use bsc_text::PrintError;
use std::alloc::Global;
use std::test::Fail;
use test_fixtures::Full;
use test_fixtures::configurations::TWO_TERMINALS;

/// What the terminals send to a control station: ACK0, ACK1, a text, EOT; and EOT to its last call.
const TO_CONTROL: &[u8] = b"\x00\x05\x16\x16\x10\xB0\xFF\
\x00\x05\x16\x16\x10\x31\xFF\
\x00\x09\x16\x16\x02\xC8\x49\x19\x83\x9B\xFF\
\x00\x04\x16\x16\x04\xFF\
\x00\x04\x16\x16\x04\xFF";

/// What a terminal sends that answers the last call with a text, until it has given up: after EOT a
/// text, ENQ, since it has not heard the answer, the text again, and EOT.
const TO_LAST_CALL: &[u8] = b"\x00\x04\x16\x16\x04\xFF\
\x00\x04\x16\x16\x04\xFF\
\x00\x09\x16\x16\x02\xC8\x49\x19\x83\x9B\xFF\
\x00\x04\x16\x16\x85\xFF\
\x00\x09\x16\x16\x02\xC8\x49\x19\x83\x9B\xFF\
\x00\x04\x16\x16\x04\xFF";

/// How a control station is attended: whether it has the record HI for terminal 0, its trace, its
/// rounds and its idle rounds, the octets that it reads, and the waits before them: a time-out for
/// each `t` of the steps, octets to read for each `r`, and that it is asked to end for each `s`.
/// Then what it prints, with its report, and the end of its trace.
type Attended = (
    bool,
    Tracing,
    (Option<u64>, u64),
    &'static [u8],
    &'static [u8],
    &'static str,
    &'static str,
);

const ATTENDED: &[Attended] = &[
    // One round: a selection, a bid, a poll that is answered with a text, and four polls without an
    // answer. A trace of exchanges has all of that too: the call of the last poll stands before the
    // lines that say that a terminal has not answered, and is absent.
    (
        true,
        Tracing::Exchanges,
        (Some(1), 9),
        TO_CONTROL,
        b"trrrrrrrrttttrr",
        "from 0: 4849
from 0: spooled 1
to 0: offered 1, known 1
from 1: spooled 0
to 1: offered 0, known 0
",
        "+1 silence
+2 control sent CALL a 161604ff16166185ff
+3 connection 0 heard ACK0 161610b0ff
+4 control sent TEXT ETX 1 161602c84919839bff
+5 connection 0 heard ACK1 16161031ff
+6 control sent CALL A 161604ff1616c185ff
+7 connection 0 heard TEXT ETX 1 161602c84919839bff
+8 control sent ACK1 16161031ff
+9 connection 0 heard EOT 161604ff
+10 control sent CALL B 161604ff1616c285ff
+11 silence
+12 control sent CALL B 161604ff1616c285ff
+13 silence
+14 control sent CALL B 161604ff1616c285ff
+15 silence
+16 control sent CALL B 161604ff1616c285ff
+17 silence
+18 control sent CALL A 161604ff1616c185ff
+19 terminal 1 has not answered
+20 terminal 1 is absent
+21 connection 0 heard EOT 161604ff
",
    ),
    // The last call is answered with a text, which is refused until the terminal gives up. It is
    // not printed.
    (
        false,
        Tracing::All,
        (Some(1), 9),
        TO_LAST_CALL,
        b"trrrrrrrrrrrr",
        NOTHING,
        "+6 control sent CALL A 161604ff1616c185ff
+7 connection 0 heard TEXT ETX 1 161602c84919839bff
+8 control sent NAK 161615ff
+9 connection 0 heard ENQ 161685ff
+10 control sent NAK 161615ff
+11 connection 0 heard TEXT ETX 1 161602c84919839bff
+12 control sent NAK 161615ff
+13 connection 0 heard EOT 161604ff
",
    ),
    // The selected terminal answers once: after four failures the record is in doubt. The round is
    // idle, since nothing can be sent any more.
    (
        true,
        Tracing::All,
        (None, 1),
        b"\x00\x05\x16\x16\x10\xB0\xFF",
        b"trrttttttttttttttttttttttt",
        "from 0: spooled 0
to 0: offered 1, known 0, in doubt
from 1: spooled 0
to 1: offered 0, known 0
",
        "+29 control sent CALL A 161604ff1616c185ff
+30 terminal 1 has not answered
+31 terminal 1 is absent
+32 silence
",
    ),
    // The station is asked to end, and does so at the next silence. It is asked again before its
    // last call is answered.
    (
        false,
        Tracing::All,
        (None, 9),
        b"",
        b"tsts",
        NOTHING,
        "+1 silence
+2 control sent CALL A 161604ff1616c185ff
+3 asked to end
+4 silence
+5 control sent CALL A 161604ff1616c185ff
+6 asked to end
",
    ),
    // No terminal comes, and no round counts: the station goes on until it is asked to end.
    (
        false,
        Tracing::All,
        (Some(1), 1),
        b"",
        b"tttttttttttsts",
        NOTHING,
        "+27 asked to end
+28 silence
+29 control sent CALL A 161604ff1616c185ff
+30 asked to end
",
    ),
];

/// What is printed if there is no record.
const NOTHING: &str = "from 0: spooled 0
to 0: offered 0, known 0
from 1: spooled 0
to 1: offered 0, known 0
";

/// Attends the connections of a control station that has ended until the last call is answered.
fn attend_last(
    connections: &mut [Connection<Told, Taking, SocketRecords>],
    waiter: &mut Scripted,
    mut last: LastWatch<'_, Global, Counting, Vec<u8>>,
) -> Result<(), LiveError> {
    attend(&mut Ended::new(), connections, waiter, &mut last)
}

/// Attends a control station until it ends, and then its connection until the last call is
/// answered.
fn attend_and_last(
    alloc: Global,
    control: &mut Control<Global>,
    connections: &mut [Connection<Told, Taking, SocketRecords>],
    waiter: &mut Scripted,
    mut watch: ControlWatch<'_, Global, Counting, Vec<u8>>,
    out: &mut Vec<u8>,
) -> Result<(), LiveError> {
    attend_station(
        alloc,
        control,
        connections,
        waiter,
        &mut watch,
        HEXADECIMAL,
        out,
    )?;
    if watch.is_closed() {
        return Ok(());
    }
    attend_last(connections, waiter, watch.into_last())
}

/// Attends a control station in this way.
fn attend_control(
    alloc: Global,
    control: &mut Control<Global>,
    attended: &Attended,
    out: &mut Vec<u8>,
    errors: &mut Vec<u8>,
) -> Result<(), LiveError> {
    let (_, trace, (rounds, idle_rounds), octets, steps, _, _) = *attended;
    let mut connections = connection(alloc, Told { fails: &[], octets }, TAKING)?;
    let limits = Limits {
        rounds,
        idle_rounds,
        counts_at_once: false,
    };
    let watch = control_watch(alloc, control, (trace, limits, 0, 1_000), errors);
    let mut waiter = Scripted { steps };
    attend_and_last(alloc, control, &mut connections, &mut waiter, watch, out)
}

/// The control station of a line of two terminals, with the record HI for terminal 0 or without it.
fn control_for(alloc: Global, sends: bool) -> Result<Box<Control<Global>>, Fail> {
    if sends {
        sending_control(alloc)
    } else {
        control_of(alloc, TWO_TERMINALS)
    }
}

/// Whether a control station that is attended in this way prints what it should.
fn prints(alloc: Global, attended: &Attended) -> Result<bool, Fail> {
    let (sends, _, _, _, _, printed, traced) = *attended;
    let mut control = control_for(alloc, sends)?;
    let (mut out, mut trace) = (Vec::new(alloc), Vec::new(alloc));
    attend_control(alloc, &mut control, attended, &mut out, &mut trace)?;
    write_report(alloc, None, &*control, &mut out)?;
    Ok(out.as_slice() == printed.as_bytes() && trace.ends_with(traced.as_bytes()))
}

#[test]
fn control_stations_print_what_happens_until_they_end(rt: HostRuntime) -> Result<(), Fail> {
    for (place, attended) in ATTENDED.iter().enumerate() {
        assert!(rt; prints(rt.alloc(), attended)?, "{place}");
    }
    Ok(())
}

/// A report that is not taken is told.
#[test]
fn a_report_may_fail(rt: HostRuntime) -> Result<(), Fail> {
    let control = control_of(rt.alloc(), TWO_TERMINALS)?;
    let written = write_report(rt.alloc(), None, &*control, &mut Full { left: 1 });
    assert!(rt; matches!(written, Err(PrintError::Output)));
    Ok(())
}
