//! The table of how the time is divided.
ghost use Rattle.std.specs.Prelude.{◌+◌, ◌*◌, ◌<◌, ◌≤◌, ◌++◌, ◌∷◌, [], codes, length, OnOk};
ghost use Rattle.std.specs.Io.KnownBytes.{Appends};
ghost use Rattle.bsc_chart.specs.PictureRows.{rows_in};
ghost use Rattle.bsc_chart.specs.Cells.{line, share, time};
ghost use Rattle.bsc_chart.specs.Clocks.{clock_in, clock_of};
ghost use Rattle.bsc_chart.specs.SummaryPages.{times_if, times_table};
ghost use Rattle.bsc_chart.specs.Tables.{time_lines};
ghost use Rattle.bsc_chart.specs.declared.summary.style.TheConstants.{TIMES_START};

use crate::picture::PictureRow;
use crate::summary::cells::{Cell, put_line};
use crate::summary::clock::Clock;
use crate::summary::counts::Outcome;
use crate::summary::kinds::count_kind;
use crate::summary::style::TIMES_START;
use bsc_text::{PrintError, put};
use std::alloc::Allocator;
use std::io::Write;

/// Writes a part of the time: its milliseconds, and its share in tenths of a percent.
fn put_part<W: Write>(
    label: &str,
    number: usize,
    tenths: usize,
    out: &mut W,
) -> Result<(), PrintError>
    ensures { OnOk result (Appends (W.contents out.old) (W.contents out.new)
        (line label.now (time number ∷ share tenths ∷ []))) }
{
    put_line(label, &[Cell::Time { number }, Cell::Share { tenths }], out)
}

/// Writes how the time is divided.
fn put_divided<W: Write>(clock: &Clock, out: &mut W) -> Result<(), PrintError>
    requires some { 0 < clock.now.spoken + clock.now.silent }
    requires spoken { clock.now.spoken ≤ 100000000000 * 20000 }
    requires silent { clock.now.silent ≤ 100000000000 * 20000 }
    ensures { OnOk result (Appends (W.contents out.old) (W.contents out.new)
        (TIMES_START.now ++ time_lines (clock_in clock.now) ++ codes "</table>\n")) }
{
    let tenths = clock.silent_tenths();
    put(TIMES_START, out)?;
    put_part("transmissions", clock.spoken, 1000 - tenths, out)?;
    put_part("silences", clock.silent, tenths, out)?;
    put(b"</table>\n", out)?;
    Ok(())
}

/// Writes the same, if any time passed.
fn put_if<W: Write>(clock: &Clock, out: &mut W) -> Result<(), PrintError>
    requires spoken { clock.now.spoken ≤ 100000000000 * 20000 }
    requires silent { clock.now.silent ≤ 100000000000 * 20000 }
    ensures { OnOk result
        (Appends (W.contents out.old) (W.contents out.new) (times_if (clock_in clock.now))) }
{
    if clock.spoken + clock.silent == 0 {
        return Ok(());
    }
    put_divided(clock, out)
}

/// Writes how the time of these rows is divided, if any passed.
fn put_clock<A: Allocator, W: Write>(rows: &[PictureRow<A>], out: &mut W) -> Result<(), PrintError>
    requires { length rows.now ≤ 20000 }
    ensures { OnOk result (Appends (W.contents out.old) (W.contents out.new)
        (times_if (clock_of (rows_in rows.now)))) }
{
    let clock = Clock::of(rows);
    put_if(&clock, out)
}

/// Writes the table, if the trace has times.
pub(crate) fn put_times<A: Allocator, W: Write>(
    rows: &[PictureRow<A>],
    out: &mut W,
) -> Result<(), PrintError>
    requires { length rows.now ≤ 20000 }
    ensures { OnOk result (Appends (W.contents out.old) (W.contents out.new)
        (times_table (rows_in rows.now))) }
{
    if count_kind("", Outcome::Sent, rows) == 0 {
        return Ok(());
    }
    put_clock(rows, out)
}
