//! Standard error: what is told there, line by line.
//!
//! Each line is one write, so that the lines of several stations that share a log stay whole. Where
//! what standard error does not take is lost, a line that it would not take at once is lost too: a
//! reader that stalls holds up no station.

ghost use Rattle.std.specs.Prelude.{◌≡◌};

use crate::file_limit::room_at;
use crate::readiness::is_ready_now;
use crate::screen::{Raw, Screen};
use arrayvec::ArrayVec;
use std::io;
use std::io::{Error, ErrorKind, Write};
use std::net::Net;
use std::os::fd::RawFd;
use std::rt::Files as Filing;

/// The descriptor of standard error.
const STANDARD_ERROR: RawFd = 2;

/// The path of standard error.
const PATH: &str = "/dev/stderr";

/// The most octets of a line that are written at once. The longest line of a trace is shorter.
const MAX_LINE: usize = 8_192;

/// Standard error, from which the line that shows progress is cleared first.
#[derive(Drop)]
pub struct Errors<'a, R> {
    runtime: &'a R,
    screen: &'a Screen,

    /// Whether a write fails that standard error does not take. If not, what it does not take, or
    /// would not take at once, is lost.
    may_fail: bool,

    /// The line that has begun.
    line: ArrayVec<u8, MAX_LINE>,
}

impl<'a, R> Errors<'a, R> {
    /// Returns standard error, on which no line has begun.
    pub(crate) fn new(runtime: &'a R, screen: &'a Screen, may_fail: bool) -> Errors<'a, R>
        ensures runtime { result.runtime ≡ runtime.entry }
        ensures screen { result.screen ≡ screen.entry }
        ensures fails { result.may_fail ≡ may_fail }
    {
        Errors {
            runtime,
            screen,
            may_fail,
            line: ArrayVec::new(),
        }
    }
}

impl<R: AllocGlobal + Eprint + Filing + Net> Errors<'_, R> {
    /// Writes the line that has begun.
    fn write_line(&mut self) -> io::Result<()> {
        if !self.may_fail && !is_ready_now(self.runtime, STANDARD_ERROR) {
            return Ok(());
        }
        self.screen.clear(self.runtime);
        match self.write_whole() {
            Err(_) if !self.may_fail => Ok(()),
            written => written,
        }
    }

    /// Writes the line that has begun, or nothing of it if standard error is a file that would pass
    /// the limit on the size of files.
    fn write_whole(&mut self) -> io::Result<()> {
        let line = self.line.as_slice();
        match room_at(self.runtime, STANDARD_ERROR, PATH) {
            Some(room) if room < line.len() as u64 => Err(Error::from(ErrorKind::FileTooLarge)),
            _ => {
                let mut raw = Raw {
                    runtime: self.runtime,
                };
                raw.write_all(line)
            }
        }
    }

    /// Writes the line that has begun, and begins another one.
    fn end_line(&mut self) -> io::Result<()> {
        let written = self.write_line();
        self.line.clear();
        written
    }
}

impl<R: AllocGlobal + Eprint + Filing + Net> Write for Errors<'_, R> {
    fn write(&mut self, octets: &[u8]) -> io::Result<usize> {
        for (place, octet) in octets.iter().enumerate() {
            if self.line.is_full() {
                self.end_line()?;
            }
            // There is room for it.
            let _ = self.line.try_push(*octet);
            if *octet == b'\n' {
                self.end_line()?;
                return Ok(place + 1);
            }
        }
        Ok(octets.len())
    }

    fn flush(&mut self) -> io::Result<()> {
        if self.line.is_empty() {
            return Ok(());
        }
        self.end_line()
    }
}
