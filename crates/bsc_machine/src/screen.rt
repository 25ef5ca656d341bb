//! The line that shows progress on a terminal, which is standard error, and the clock of it.

ghost use Rattle.std.specs.Prelude.{◌≡◌};
ghost use Rattle.bsc_machine.specs.Showing.{IsOf, is_shown, shows};

use bsc_text::progress::{ProgressLine, Timer, Work, write_cleared};
use std::cell::Cell;
use std::io;
use std::io::{Error, ErrorKind, Write};
use std::time::{Clock, Instant};

/// What is on standard error.
#[derive(Drop)]
pub struct Screen {
    /// Whether it is a terminal.
    pub is_terminal: bool,

    /// Whether the line that shows progress is on it.
    pub shows: Cell<bool>,
}

impl Screen {
    /// Clears the line that shows progress, if it is there. What standard error does not take is
    /// lost.
    pub fn clear<R: Eprint>(&self, runtime: &R) {
        if self.shows.get() {
            self.shows.set(false);
            let _ = write_cleared(&mut Raw { runtime });
        }
    }
}

/// A clock that counts from its start on this machine.
#[derive(Drop)]
pub struct Since<'a, R> {
    runtime: &'a R,
    start: Option<Instant>,
}

impl<R: Clock> Timer for Since<'_, R> {
    fn milliseconds(&mut self) -> u64 {
        let Some(start) = self.start else {
            return 0;
        };
        match start.elapsed(self.runtime) {
            Ok(time) => u64::try_from(time.as_millis()).unwrap_or(u64::MAX),
            Err(_) => 0,
        }
    }
}

/// Standard error, on which progress is shown.
#[derive(Drop)]
pub struct Showing<'a, R> {
    runtime: &'a R,
    screen: &'a Screen,
}

impl<R: Eprint> Write for Showing<'_, R> {
    fn write(&mut self, octets: &[u8]) -> io::Result<usize> {
        self.screen.shows.set(true);
        Raw {
            runtime: self.runtime,
        }
        .write(octets)
    }

    fn flush(&mut self) -> io::Result<()> {
        Ok(())
    }
}

/// Standard error as it is.
#[derive(Drop)]
pub(crate) struct Raw<'a, R> {
    pub(crate) runtime: &'a R,
}

impl<R: Eprint> Write for Raw<'_, R> {
    fn write(&mut self, octets: &[u8]) -> io::Result<usize> {
        match str::from_utf8(octets) {
            Ok(text) => {
                eprint!(self.runtime; "{text}")?;
                Ok(octets.len())
            }
            Err(_) => Err(Error::from(ErrorKind::InvalidData)),
        }
    }

    fn flush(&mut self) -> io::Result<()> {
        Ok(())
    }
}

/// What shows the progress of this work, or of none, on a machine.
pub type Progress<'a, R> = ProgressLine<Since<'a, R>, Showing<'a, R>>;

/// Returns what shows the progress of this work, or of none; nothing if standard error is no
/// terminal.
pub(crate) fn progress<'a, R: Clock + Eprint>(
    runtime: &'a R,
    screen: &'a Screen,
    work: Option<Work>,
) -> Progress<'a, R>
    ensures shown { shows result ≡ is_shown screen.now.is_terminal work }
    ensures counted { IsOf work result }
{
    let start = match Instant::now(runtime) {
        Ok(start) => Some(start),
        Err(_) => None,
    };
    let on = screen.is_terminal && work.is_some();
    let since = Since { runtime, start };
    let showing = Showing { runtime, screen };
    ProgressLine::new(on, work.unwrap_or(Work::Events), since, showing)
}
