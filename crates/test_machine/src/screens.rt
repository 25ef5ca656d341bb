//! Standard error: traces, progress on a terminal, and the clock of the progress.

use crate::fake::{Fake, NO_FILE};
use bsc_attending::Network;
use bsc_machine::Streams;
use bsc_run::Cables;
use bsc_text::progress::{Counts, Meter, Timer, Work};
use std::cell::Cell;
use std::io::{ErrorKind, Write};
use std::test::Fail;

/// How far work has come.
const COUNTS: Counts = Counts {
    done: 8,
    known: 3,
    arrived: 2,
    doubts: 1,
};

/// The line that is shown after two seconds.
const EVENTS: &str = "\r8 events, known 3, arrived 2, in doubt 1, 4 a second\x1b[K";

/// What clears the line.
const CLEARED: &str = "\r\x1b[K";

/// Shows how far work has come after two seconds of this time, if that is due.
fn show<M: Meter>(time: &Cell<u64>, meter: &mut M) {
    time.set(7_000);
    if meter.is_due() {
        meter.show(COUNTS);
    }
}

/// Whether the line shows how far the work of a run has come, or that of a station.
fn shows_run(fake: &Fake<'_>, streams: &Streams) -> bool {
    fake.time.set(5_000);
    let mut meter = streams.machine(fake).meter(Some(Work::Events));
    show(&fake.time, &mut meter);
    fake.has_told(EVENTS)
}

fn shows_station(fake: &Fake<'_>, streams: &Streams) -> bool {
    fake.time.set(5_000);
    let mut timer = streams.machine(fake).timer(Some(Work::Events));
    show(&fake.time, &mut timer);
    fake.has_told(EVENTS)
}

/// Whether this is told when the line is cleared.
fn is_cleared(fake: &Fake<'_>, streams: &Streams, told: &str) -> bool {
    streams.clear(fake);
    fake.has_told(told)
}

/// The line is cleared once, if it is there.
#[test]
fn progress_is_cleared_once(rt: HostRuntime) -> Result<(), Fail> {
    let (fake, streams) = (Fake::new(&rt, NO_FILE), Streams::new(true));
    assert!(rt; is_cleared(&fake, &streams, "") && shows_run(&fake, &streams));
    assert!(rt; is_cleared(&fake, &streams, CLEARED) && is_cleared(&fake, &streams, ""));
    Ok(())
}

/// Whether a trace goes to standard error, and the line is cleared before it.
fn is_traced(fake: &Fake<'_>, streams: &Streams) -> bool {
    let mut trace = streams.machine(fake).trace(true);
    let clears = trace.write_all(b"+0 silence\n").is_ok() && fake.has_told("\r\x1b[K+0 silence\n");
    clears
        && trace.write_all(b"+1 silence\n").is_ok()
        && trace.flush().is_ok()
        && fake.has_told("+1 silence\n")
}

/// Whether the line is cleared before lines that are printed on standard output.
fn is_printed(fake: &Fake<'_>, streams: &Streams) -> bool {
    let mut output = streams.output(fake);
    output.write_all(b"ACK0\n").is_ok()
        && output.write_all(b"EOT\n").is_ok()
        && fake.has_told(CLEARED)
        && fake.has_printed(b"ACK0\nEOT\n")
}

#[test]
fn progress_is_cleared_before_a_line(rt: HostRuntime) -> Result<(), Fail> {
    let (fake, streams) = (Fake::new(&rt, NO_FILE), Streams::new(true));
    assert!(rt; shows_station(&fake, &streams) && is_traced(&fake, &streams));
    assert!(rt; shows_station(&fake, &streams) && is_printed(&fake, &streams));
    Ok(())
}

/// Whether a line is written when it ends, or when it is flushed.
fn are_lines(fake: &Fake<'_>, streams: &Streams) -> bool {
    let mut errors = streams.errors(fake);
    let waits = errors.write_all(b"+0 ").is_ok()
        && errors.write_all(b"silence").is_ok()
        && fake.has_told("");
    waits
        && errors.write_all(b"\n+1 ").is_ok()
        && fake.has_told("+0 silence\n")
        && errors.flush().is_ok()
        && errors.flush().is_ok()
        && fake.has_told("+1 ")
}

#[test]
fn a_line_is_written_at_once(rt: HostRuntime) -> Result<(), Fail> {
    let (fake, streams) = (Fake::new(&rt, NO_FILE), Streams::new(false));
    assert!(rt; are_lines(&fake, &streams));
    Ok(())
}

/// The kind of the error with which these octets are not written on standard error.
fn refused(fake: &Fake<'_>, streams: &Streams, octets: &[u8]) -> Option<ErrorKind> {
    let mut errors = streams.errors(fake);
    match errors.write_all(octets) {
        Ok(()) => None,
        Err(error) => Some(error.kind()),
    }
}

/// What standard error does not take is told, but for lines of a station that are not traced, and
/// what is not UTF-8 is not written. Progress that was shown is due again after a quarter of a
/// second, and not sooner; what standard error does not take of it is not shown again.
#[test]
fn standard_error_may_refuse(rt: HostRuntime) -> Result<(), Fail> {
    let (fake, streams) = (Fake::new(&rt, NO_FILE), Streams::new(true));
    assert!(rt; refused(&fake, &streams, b"\xff\n") == Some(ErrorKind::InvalidData));
    fake.time.set(5_000);
    let mut machine = streams.machine(&fake);
    let mut meter = machine.meter(Some(Work::Events));
    show(&fake.time, &mut meter);
    fake.time.set(7_249);
    assert!(rt; !meter.is_due() && fake.has_told(EVENTS));
    fake.time.set(7_250);
    assert!(rt; meter.is_due());
    fake.takes.set(false);
    meter.show(COUNTS);
    fake.time.set(86_400_000);
    assert!(rt; !meter.is_due());
    assert!(rt; refused(&fake, &streams, b"x\n") == Some(ErrorKind::StorageFull));
    assert!(rt; machine.trace(true).write_all(b"x\n").is_err());
    assert!(rt; machine.trace(false).write_all(b"x\n").is_ok());
    assert!(rt; fake.has_told(""));
    Ok(())
}

/// A clock counts milliseconds from when it was made, and none if it cannot be read.
#[test]
fn a_clock_counts_milliseconds(rt: HostRuntime) -> Result<(), Fail> {
    let (fake, streams) = (Fake::new(&rt, NO_FILE), Streams::new(false));
    fake.time.set(86_400_123);
    let mut timer = streams.machine(&fake).timer(None);
    for time in [0, 1, 999, 3_600_000] {
        fake.time.set(86_400_123 + time);
        assert_eq!(rt; timer.milliseconds(), time);
    }
    fake.ticks.set(false);
    assert_eq!(rt; timer.milliseconds(), 0);
    let mut timer = streams.machine(&fake).timer(None);
    fake.ticks.set(true);
    assert_eq!(rt; timer.milliseconds(), 0);
    Ok(())
}
