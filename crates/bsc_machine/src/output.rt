//! Standard output, and the file that it may be.

use crate::file_limit::room_at;
use crate::readiness::{STANDARD_OUTPUT as DESCRIPTOR, wait_for_output};
use crate::screen::Screen;
use std::cell::Cell;
use std::fs::{File, OpenFile, metadata};
use std::io;
use std::io::{Error, ErrorKind, Printer, Write};
use std::net::Net;
use std::rt::Files as Filing;

/// The path of standard output.
const STANDARD_OUTPUT: &str = "/dev/stdout";

/// Standard output, which may be asked to sync the file that it is.
#[derive(Drop)]
pub struct Output<'a, R> {
    pub runtime: &'a R,
    pub writer: Printer<'a, R>,

    /// Whether a flush also syncs.
    pub syncs: &'a Cell<bool>,

    /// Where progress is shown.
    pub screen: &'a Screen,
}

impl<R: AllocGlobal + Eprint + Filing + Net + Print> Write for Output<'_, R> {
    /// If standard output does not wait by itself, since another program has made it so, it is
    /// waited for. If it is a file that has reached the limit on the size of files, this fails.
    fn write(&mut self, octets: &[u8]) -> io::Result<usize> {
        self.screen.clear(self.runtime);
        if room_at(self.runtime, DESCRIPTOR, STANDARD_OUTPUT) == Some(0) {
            return Err(Error::from(ErrorKind::FileTooLarge));
        }
        for _ in 0..u64::MAX {
            match self.writer.write(octets) {
                Err(error) if error.kind() == ErrorKind::WouldBlock => {
                    wait_for_output(self.runtime)?;
                }
                written => return written,
            }
        }
        Err(Error::from(ErrorKind::WouldBlock))
    }

    fn flush(&mut self) -> io::Result<()> {
        self.writer.flush()?;
        if self.syncs.get() {
            return sync_output(self.runtime);
        }
        Ok(())
    }
}

/// Syncs standard output, if it is a regular file.
fn sync_output<R: Filing>(runtime: &R) -> io::Result<()> {
    if !metadata(runtime, STANDARD_OUTPUT)?.is_file() {
        return Ok(());
    }
    File::open(runtime, STANDARD_OUTPUT)?.sync_data()
}
