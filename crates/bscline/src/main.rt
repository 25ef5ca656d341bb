//! The command `bscline`. It passes the arguments, the streams and the machine to the library
//! `bsc_command`, which does everything else.
#![tactic(auto)]

use bsc_command::{Fault, command, fail, given_words};
use bsc_machine::Streams;
use std::fs::File;
use std::io;
use std::io::{BufWriter, IsTerminal, Write};
use std::os::fd::{AsRawFd, RawFd};
use std::process::ExitCode;

/// The path of the null device.
const NULL_DEVICE: &str = "/dev/null";

/// The descriptor of standard error.
const STANDARD_ERROR: RawFd = 2;

/// Opens the null device. The system gives the lowest free descriptor, so a standard stream that is
/// closed becomes it. Standard error takes what is written to it; standard output does not, so that
/// no record counts as printed that nobody can read.
fn open_null(runtime: &HostRuntime) -> io::Result<File> {
    let file = File::open(runtime, NULL_DEVICE)?;
    if file.as_raw_fd() != STANDARD_ERROR {
        return Ok(file);
    }
    drop(file);
    File::create(runtime, NULL_DEVICE)
}

fn main(rt: HostRuntime) -> ExitCode {
    // Those of the three standard streams that are closed are the null device from now on, and not
    // a socket on which records would then be printed.
    let _held = (open_null(&rt), open_null(&rt), open_null(&rt));
    let streams = Streams::new(rt.stderr().is_terminal());
    let mut errors = streams.errors(&rt);
    let status = match BufWriter::new(rt.alloc(), streams.output(&rt)) {
        Ok(mut out) => {
            let mut input = rt.reader();
            let mut machine = streams.machine(&rt);
            command(
                rt.alloc(),
                given_words(&rt),
                &mut input,
                &mut machine,
                &mut out,
                &mut errors,
            )
        }
        Err(_) => fail(rt.alloc(), &Fault::OutOfMemory, &mut errors),
    };
    // If standard error does not take the rest, only the status tells of the fault.
    let _ = errors.flush();
    streams.clear(&rt);
    ExitCode::from(status)
}
