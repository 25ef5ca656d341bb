//! The files of the machine: texts that are read whole, traces, the width of a terminal, and why
//! there is none.

use crate::fake::{Fake, NO_FILE};
use bsc_chart::Traces;
use bsc_machine::Streams;
use bsc_text::{Files, InputError, MAX_INPUT, Unreadable};
use std::fs;
use std::io::Read;
use std::rt::HostRuntime;
use std::test::Fail;

/// The result of reading the file at this path: the octets.
fn read(host: &HostRuntime, path: &str) -> Result<Vec<u8>, InputError> {
    let streams = Streams::new(false);
    streams.machine(host).read_file(path)
}

/// Whether the file at this path has these octets.
fn is_read(host: &HostRuntime, path: &str, octets: &[u8]) -> bool {
    match read(host, path) {
        Ok(read) => read.as_slice() == octets,
        Err(_) => false,
    }
}

/// Whether a file of this many octets is read whole.
fn is_read_whole(host: &HostRuntime, count: usize) -> Result<bool, Fail> {
    let text = Vec::from_elem(host.alloc(), b'x', count)?;
    fs::write(host, "text", text.as_slice())?;
    Ok(is_read(host, "text", text.as_slice()))
}

#[test]
fn texts_of_files_are_read_whole(rt: HostRuntime) -> Result<(), Fail> {
    fs::write(&rt, "other", b"other")?;
    for count in [0, 1, 4_096, 70_001, MAX_INPUT] {
        assert!(rt; is_read_whole(&rt, count)?, "{count}");
    }
    assert!(rt; is_read(&rt, "other", b"other"));
    assert!(rt; !is_read_whole(&rt, MAX_INPUT + 1)?);
    assert!(rt; read(&rt, "text") == Err(InputError::TooLong));
    Ok(())
}

/// Paths, and why there is no text.
const UNREADABLE: &[(&str, Unreadable)] = &[
    ("none", Unreadable::NoSuchFile),
    (".", Unreadable::IsADirectory),
    ("file/below", Unreadable::NotInADirectory),
];

#[test]
fn it_is_told_why_a_text_cannot_be_read(rt: HostRuntime) -> Result<(), Fail> {
    fs::write(&rt, "file", b"")?;
    for (path, why) in UNREADABLE {
        assert!(rt;
            read(&rt, path) == Err(InputError::Device { why: *why }),
            "{path}"
        );
    }
    Ok(())
}

/// Whether the trace at this path has these octets, or the reason why it cannot be opened.
fn has_trace(host: &HostRuntime, path: &str, octets: &[u8]) -> Result<bool, Unreadable> {
    let streams = Streams::new(false);
    let mut read = Vec::new(host.alloc());
    match streams.machine(host).open_trace(path) {
        Ok(mut file) => {
            let is_read = file.read_to_end(&mut read).is_ok();
            Ok(is_read && read.as_slice() == octets)
        }
        Err(why) => Err(why),
    }
}

/// A trace is read to its end, and opening leaves it as it was.
#[test]
fn traces_are_opened(rt: HostRuntime) -> Result<(), Fail> {
    let text = Vec::from_elem(rt.alloc(), b'x', 70_001)?;
    fs::write(&rt, "trace", text.as_slice())?;
    fs::write(&rt, "other", b"+0 silence\n")?;
    for _ in 0..2 {
        assert!(rt; has_trace(&rt, "trace", text.as_slice()) == Ok(true));
        assert!(rt; has_trace(&rt, "other", b"+0 silence\n") == Ok(true));
        assert!(rt; has_trace(&rt, "none", b"") == Err(Unreadable::NoSuchFile));
    }
    assert!(rt; has_trace(&rt, "other/below", b"") == Err(Unreadable::NotInADirectory));
    Ok(())
}

/// How many lines are passed over, and what is told of them on standard error.
const PASSED: &[(u64, &str)] = &[
    (
        1,
        "bscline: 1 line is no line of a trace and was passed over\n",
    ),
    (
        3,
        "bscline: 3 lines are no lines of a trace and were passed over\n",
    ),
];

#[test]
fn lines_that_were_passed_over_are_told(rt: HostRuntime) {
    for (count, text) in PASSED {
        let (fake, streams) = (Fake::new(&rt, NO_FILE), Streams::new(false));
        streams.machine(&fake).passed_over(*count);
        assert!(rt; fake.has_told(text), "{count}");
    }
}

/// Whether this width is told.
fn is_width(told: Option<String>, width: Option<&str>) -> bool {
    match told {
        Some(told) => width == Some(told.as_str()),
        None => width.is_none(),
    }
}

/// The width is what the environment tells, whatever it is.
#[test]
fn the_environment_tells_the_width(rt: HostRuntime) -> Result<(), Fail> {
    let (fake, streams) = (Fake::new(&rt, NO_FILE), Streams::new(false));
    for width in [Some("132"), Some(""), Some("wide"), None] {
        fake.columns.set(width);
        assert!(rt;
            is_width(streams.machine(&fake).columns(), width),
            "{width:?}"
        );
    }
    Ok(())
}
