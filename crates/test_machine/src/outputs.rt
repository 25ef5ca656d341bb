//! Standard output: what it takes, when it is synced, and whether it takes more without waiting.

use crate::fake::{Fake, NO_FILE, Taken};
use bsc_attending::{Network, Readiness};
use bsc_machine::Streams;
use std::fs;
use std::io::{ErrorKind, Write};
use std::rt::HostRuntime;
use std::test::Fail;

/// Prints this on standard output, and flushes it. The result is the kind of the error, if it
/// fails.
fn print(fake: &Fake<'_>, streams: &Streams, octets: &[u8]) -> Result<(), ErrorKind> {
    let mut output = streams.output(fake);
    match output.write_all(octets) {
        Ok(()) => output.flush().map_err(|error| error.kind()),
        Err(error) => Err(error.kind()),
    }
}

/// Octets that are no text.
const OCTETS: &[u8] = &[b'x', 0xff, b'\n', 0];

/// What comes of printing if standard output is this file, and how often the file is opened.
fn printed(host: &HostRuntime, syncs: bool, taken: Taken) -> (Result<(), ErrorKind>, usize) {
    let (fake, streams) = (Fake::new(host, taken), Streams::new(false));
    if syncs {
        streams.machine(&fake).sync_output();
    }
    let result = print(&fake, &streams, OCTETS);
    if !fake.has_printed(OCTETS) || !fake.has_told("") {
        return (Err(ErrorKind::InvalidData), 0);
    }
    (result, fake.opened.get())
}

/// What standard output is, and what comes of a flush that syncs it, and how often it is opened: a
/// regular file, one that cannot be synced, as the null device, no file, a directory, which is no
/// regular file, and a file that was removed.
const SYNCED: &[(Taken, Result<(), ErrorKind>, usize)] = &[
    (("taken", "taken"), Ok(()), 1),
    (("taken", "/dev/null"), Err(ErrorKind::InvalidInput), 1),
    (NO_FILE, Ok(()), 0),
    ((".", "taken"), Ok(()), 0),
    (("gone", "gone"), Err(ErrorKind::NotFound), 0),
];

/// Once it is asked for, a flush opens the file that standard output is, and syncs it; the flush
/// fails if that does. What is no regular file is not opened. Otherwise nothing is.
#[test]
fn a_flush_syncs_a_regular_file_once_it_is_asked_for(rt: HostRuntime) -> Result<(), Fail> {
    fs::write(&rt, "taken", b"")?;
    for (taken, result, opened) in SYNCED {
        assert!(rt;
            printed(&rt, true, *taken) == (*result, *opened),
            "{taken:?}"
        );
        assert!(rt; printed(&rt, false, *taken) == (Ok(()), 0), "{taken:?}");
    }
    Ok(())
}

/// What standard output refuses is told.
#[test]
fn standard_output_may_refuse(rt: HostRuntime) -> Result<(), Fail> {
    let (fake, streams) = (Fake::new(&rt, NO_FILE), Streams::new(false));
    fake.takes.set(false);
    assert!(rt; print(&fake, &streams, b"x") == Err(ErrorKind::StorageFull));
    assert!(rt; fake.has_printed(b""));
    Ok(())
}

/// How many octets standard output takes, asked twice, and again after the descriptor was to become
/// readable.
fn rooms<R: Readiness>(readiness: &mut R) -> [usize; 3] {
    let (first, second) = (readiness.room(), readiness.room());
    readiness.call_when_ready();
    [first, second, readiness.room()]
}

/// Whether the descriptor is none of the standard streams, if there is one.
fn is_own<R: Readiness>(readiness: &R) -> bool {
    match readiness.descriptor() {
        Some(descriptor) => descriptor > 2,
        None => true,
    }
}

/// A test prints nothing before its result, so that its output is ready whatever it is.
#[test]
fn standard_output_is_ready_each_time_that_it_is_asked(rt: HostRuntime) -> Result<(), Fail> {
    let streams = Streams::new(false);
    let mut readiness = streams.machine(&rt).readiness();
    assert_eq!(rt; rooms(&mut readiness), [4_096; 3]);
    assert!(rt; is_own(&readiness));
    Ok(())
}
