//! Whether standard output, or standard error, takes more without waiting.

ghost use Rattle.std.specs.Prelude.{◌≡◌, is_some};

use bsc_attending::Readiness;
use mio::unix::SourceFd;
use mio::{Events, Interest, Poll, Token};
use std::io;
use std::io::{Error, ErrorKind};
use std::net::Net;
use std::os::fd::{AsRawFd, RawFd};
use std::time::Duration;

/// The descriptor of standard output.
pub(crate) const STANDARD_OUTPUT: RawFd = 1;

/// How many octets a pipe takes that is reported as ready: a page.
const PIECE: usize = 4_096;

/// What the system reports of standard output. It reports nothing of a regular file, which never
/// has to be waited for.
#[derive(Drop)]
pub struct OutputReadiness {
    /// What reports, if the system can.
    reports: Option<Reports>,
}

/// The reports of the system, and room for one.
#[derive(Drop)]
struct Reports {
    poll: Poll,
    events: Events,
}

impl Reports {
    /// Returns whether there is a report within this time, if it is limited.
    fn has_any(&mut self, time: Option<Duration>) -> io::Result<bool> {
        self.poll.poll(&mut self.events, time)?;
        Ok(!self.events.is_empty())
    }
}

impl OutputReadiness {
    /// Has the system report of standard output from now on.
    pub(crate) fn new<R: AllocGlobal + Net>(runtime: &R) -> OutputReadiness {
        OutputReadiness {
            reports: reports_of(runtime, STANDARD_OUTPUT),
        }
    }
}

/// Has the system report of this descriptor; `None` if it cannot.
fn reports_of<R: AllocGlobal + Net>(runtime: &R, descriptor: RawFd) -> Option<Reports> {
    let Ok(events) = Events::with_capacity(runtime.alloc(), 1) else {
        return None;
    };
    let Ok(poll) = Poll::new(runtime) else {
        return None;
    };
    let mut source = SourceFd(&descriptor);
    match poll
        .registry()
        .register(&mut source, Token(0), Interest::WRITABLE)
    {
        Ok(()) => Some(Reports { poll, events }),
        Err(_) => None,
    }
}

/// Has the system report standard output once it is ready, at once if it is so now.
fn ask(reports: &Reports) -> io::Result<()> {
    let mut source = SourceFd(&STANDARD_OUTPUT);
    reports
        .poll
        .registry()
        .reregister(&mut source, Token(0), Interest::WRITABLE)
}

/// Returns whether standard output is ready now. The system reports only what has become ready, and
/// so it is asked anew each time.
fn is_ready(reports: &mut Reports) -> io::Result<bool> {
    ask(reports)?;
    reports.has_any(Some(Duration::ZERO))
}

/// Whether this descriptor takes more without waiting; true if the system cannot tell.
pub(crate) fn is_ready_now<R: AllocGlobal + Net>(runtime: &R, descriptor: RawFd) -> bool {
    match reports_of(runtime, descriptor) {
        Some(mut reports) => reports.has_any(Some(Duration::ZERO)).unwrap_or(true),
        None => true,
    }
}

/// Waits until standard output takes more. Fails if the system cannot report it.
pub(crate) fn wait_for_output<R: AllocGlobal + Net>(runtime: &R) -> io::Result<()> {
    match reports_of(runtime, STANDARD_OUTPUT) {
        Some(mut reports) => {
            reports.has_any(None)?;
            Ok(())
        }
        None => Err(Error::from(ErrorKind::WouldBlock)),
    }
}

impl Readiness for OutputReadiness {
    ghost tells = { λ r result. is_some result ≡ is_some r.reports };

    fn room(&mut self) -> usize {
        let Some(reports) = &mut self.reports else {
            return PIECE;
        };
        match is_ready(reports) {
            Ok(false) => 0,
            Ok(true) | Err(_) => PIECE,
        }
    }

    fn call_when_ready(&mut self) {
        if let Some(reports) = &self.reports {
            // If the system cannot be asked, the rest is printed with the next event.
            let _ = ask(reports);
        }
    }

    fn descriptor(&self) -> Option<RawFd> {
        match &self.reports {
            Some(reports) => Some(reports.poll.as_raw_fd()),
            None => None,
        }
    }
}
