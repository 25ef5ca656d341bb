//! Writes the text of the line.

ghost use Rattle.std.specs.Prelude.{◌≡◌, OnOk};
ghost use Rattle.std.specs.Fmt.{decimal};
ghost use Rattle.std.specs.Io.KnownBytes.{Appends};
ghost use Rattle.bsc_text.specs.Texts.{cleared, counts_shown, done_shown, line_of, rate};
ghost use Rattle.bsc_text.specs.Texts.{rate_shown, work_name};

use crate::progress::{Counts, Work};
use crate::{PrintError, put};
use std::io::Write;

/// Returns the text after the number of events or rounds.
fn work_text(work: Work) -> &'static [u8]
    ensures { result.now ≡ work_name work }
{
    match work {
        Work::Events => b" events, known ",
        Work::Rounds => b" rounds, known ",
    }
}

/// Writes a number.
fn write_number<D: Write>(number: u64, out: &mut D) -> Result<(), PrintError>
    ensures { OnOk result (Appends (D.contents out.old) (D.contents out.new) (decimal number)) }
{
    Ok(write!(out, "{number}")?)
}

/// Returns how many are done in a second, by the milliseconds since the start.
fn rate_of(done: u64, time: u64) -> u64
    ensures { result ≡ rate done time }
{
    done.saturating_mul(1000) / time.max(1)
}

/// Writes the events or rounds.
fn write_done<D: Write>(work: Work, done: u64, out: &mut D) -> Result<(), PrintError>
    ensures { OnOk result
        (Appends (D.contents out.old) (D.contents out.new) (done_shown work done)) }
{
    put(b"\r", out)?;
    write_number(done, out)?;
    put(work_text(work), out)
}

/// Writes the records and the doubts.
fn write_counts<D: Write>(counts: Counts, out: &mut D) -> Result<(), PrintError>
    ensures { OnOk result
        (Appends (D.contents out.old) (D.contents out.new) (counts_shown counts)) }
{
    write_number(counts.known, out)?;
    put(b", arrived ", out)?;
    write_number(counts.arrived, out)?;
    put(b", in doubt ", out)?;
    write_number(counts.doubts, out)
}

/// Writes the rate.
fn write_rate<D: Write>(rate: u64, out: &mut D) -> Result<(), PrintError>
    ensures { OnOk result
        (Appends (D.contents out.old) (D.contents out.new) (rate_shown rate)) }
{
    put(b", ", out)?;
    write_number(rate, out)?;
    put(b" a second", out)
}

/// Writes the line in place of the last one.
pub(crate) fn write_line<D: Write>(
    work: Work,
    counts: Counts,
    time: u64,
    out: &mut D,
) -> Result<(), PrintError>
    ensures { OnOk result
        (Appends (D.contents out.old) (D.contents out.new) (line_of work counts time)) }
{
    write_done(work, counts.done, out)?;
    write_counts(counts, out)?;
    write_rate(rate_of(counts.done, time), out)?;
    put(b"\x1b[K", out)
}

/// Clears the line. After an error a part of the text may have been written.
pub fn write_cleared<D: Write>(out: &mut D) -> Result<(), PrintError>
    ensures { OnOk result (Appends (D.contents out.old) (D.contents out.new) cleared) }
{
    put(b"\r\x1b[K", out)
}
