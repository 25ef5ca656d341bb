//! The writer of the records that arrive, which knows whether it is flushed.

ghost use Rattle.std.specs.Prelude.{◌≡◌, OnOk, false, true};
ghost use Rattle.std.specs.Io.KnownBytes.{Keeps, WriteAppends};
ghost use Rattle.std.specs.Io.{WritesAtMost};

use std::io::{self, Write};

/// The writer of the records that arrive. What is written to it may be held back until it is
/// flushed.
#[derive(Drop)]
pub struct RecordWriter<'a, W> {
    /// The writer that is lent for the records.
    out: &'a mut W,

    /// Whether nothing was written since the last flush that succeeded.
    is_flushed: bool,
}

impl<'a, W: Write> RecordWriter<'a, W> {
    /// Returns a writer over this one, to which nothing was written yet.
    pub fn new(out: &'a mut W) -> RecordWriter<'a, W>
        ensures { result.is_flushed ≡ true }
    {
        RecordWriter {
            out,
            is_flushed: true,
        }
    }
}

impl<W: Write> Write for RecordWriter<'_, W> {
    ghost contents = { λ w. W.contents w.out.now };

    fn write(&mut self, octets: &[u8]) -> io::Result<usize>
        ensures bound { WritesAtMost result octets.now }
        ensures bytes { WriteAppends (W.contents self.old.out.now) (W.contents self.new.out.now)
            result octets.now }
        ensures written { self.new.is_flushed ≡ false }
    {
        self.is_flushed = false;
        self.out.write(octets)
    }

    fn flush(&mut self) -> io::Result<()>
        ensures bytes { Keeps (W.contents self.old.out.now) (W.contents self.new.out.now) }
        ensures flushed { OnOk result (self.new.is_flushed ≡ true) }
    {
        self.out.flush()?;
        self.is_flushed = true;
        Ok(())
    }
}
