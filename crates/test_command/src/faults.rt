//! The line on standard error and the exit status of faults that no session of these tests shows.

use bsc_attending::AttendingError;
use bsc_carrier::loopback::LoopbackError;
use bsc_chart::{ChartError, TraceError};
use bsc_command::{Fault, fail, status};
use bsc_run::RunningError;
use bsc_spool::StoreFault;
use bsc_text::{TextError, Unreadable};
use bsc_trace::naming::NamingError;
use std::alloc::Global;
use std::test::Fail;

/// Whether these faults have this exit status, and are told so in these lines.
pub(crate) fn are_told(alloc: Global, faults: &[Fault], exit: u8, lines: &str) -> bool {
    let mut told = Vec::new(alloc);
    for fault in faults {
        if fail(alloc, fault, &mut told) != exit || status(fault) != exit {
            return false;
        }
    }
    told.as_slice() == lines.as_bytes()
}

/// The fault of a trace that is not drawn.
fn charting(error: ChartError) -> Fault {
    Fault::Charting {
        error: TraceError::Chart { error },
    }
}

/// The fault of a run.
pub(crate) fn running(error: RunningError) -> Fault {
    Fault::Running { error }
}

/// The fault of a station.
fn attending(error: AttendingError) -> Fault {
    Fault::Attending { error }
}

#[test]
fn faults_of_transmissions_and_traces_are_told_in_a_line(rt: HostRuntime) -> Result<(), Fail> {
    let naming = [
        Fault::from(NamingError::NotHexadecimalAt { line: 7 }),
        Fault::from(NamingError::TooLongAt { line: 7 }),
        Fault::from(NamingError::Memory),
    ];
    let lines = "bscline: line 7: not hexadecimal
bscline: line 7: too long
bscline: out of memory
";
    assert!(rt; are_told(rt.alloc(), &naming, 1, lines));
    let drawing = [
        charting(ChartError::TooLongAt { line: 7 }),
        charting(ChartError::TooMany),
        charting(ChartError::Output),
        charting(ChartError::Memory),
    ];
    let lines = "bscline: line 7: too long
bscline: more than 5000 arrows or 20000 rows: draw a part with --from and --to
bscline: output fault
bscline: out of memory
";
    assert!(rt; are_told(rt.alloc(), &drawing, 1, lines));
    Ok(())
}

#[test]
fn faults_of_runs_and_stations_are_told_in_a_line(rt: HostRuntime) -> Result<(), Fail> {
    let path = String::from_str(rt.alloc(), "line.toml")?;
    let why = Unreadable::NotInADirectory;
    let faults = [
        running(RunningError::from(TextError::CannotRead { path, why })),
        running(RunningError::from(LoopbackError::Memory)),
        attending(AttendingError::Memory),
    ];
    let lines = "bscline: cannot read line.toml: not in a directory
bscline: out of memory
bscline: out of memory
";
    assert!(rt; are_told(rt.alloc(), &faults, 1, lines));
    let error = StoreFault::Unreachable;
    let unkept = [attending(AttendingError::Unkept { error })];
    let line = "bscline: what happened could not be kept: the store cannot be read or written\n";
    assert!(rt; are_told(rt.alloc(), &unkept, 7, line));
    Ok(())
}
