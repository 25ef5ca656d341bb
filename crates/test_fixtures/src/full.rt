//! A writer that fails.

use std::io;
use std::io::{Error, ErrorKind, Write};

/// Accepts this many writes completely, and fails each later one, as a full device does.
#[derive(Drop)]
pub struct Full {
    /// The number of writes that it still accepts.
    pub left: usize,
}

impl Write for Full {
    fn write(&mut self, octets: &[u8]) -> io::Result<usize> {
        if self.left == 0 {
            return Err(Error::from(ErrorKind::StorageFull));
        }
        self.left -= 1;
        Ok(octets.len())
    }

    fn flush(&mut self) -> io::Result<()> {
        Ok(())
    }
}
