//! A whole page.
ghost use Rattle.std.specs.Prelude.{◌≤◌, length, OnOk};
ghost use Rattle.bsc_trace.specs.Texts.{Writes};
ghost use Rattle.bsc_chart.specs.PictureRows.{rows_in};
ghost use Rattle.bsc_chart.specs.SummaryPages.{IsPage};

use crate::picture::{Picture, write_svg};
use crate::summary::kinds::put_kinds;
use crate::summary::stations::put_stations;
use crate::summary::style::{LADDER_START, PAGE_END, PAGE_START};
use crate::summary::times::put_times;
use bsc_text::{PrintError, put};
use std::alloc::Allocator;
use std::io::Write;

/// Writes a page as an HTML document, which is also XML: a summary in tables, and under it the
/// picture of [`write_svg`]. It has no script and refers to nothing else. The tables are of the
/// transmissions by kind; of the stations, with what each sent and the records that arrived at it;
/// and, if a transmission was [`Fate::Sent`](bsc_trace::ladder::Fate::Sent), of the time.
pub fn write_html<A: Allocator + Copy, W: Write>(
    alloc: A,
    picture: &Picture<'_, A>,
    out: &mut W,
) -> Result<(), PrintError>
    requires { length picture.now.rows.now ≤ 20000 }
    ensures { OnOk result (Writes (IsPage picture.now.columns (rows_in picture.now.names.now)
        (rows_in picture.now.rows.now)) (W.contents out.old) (W.contents out.new)) }
{
    put(PAGE_START, out)?;
    put_kinds(picture.rows, out)?;
    put_stations(alloc, picture, out)?;
    put_times(picture.rows, out)?;
    put(LADDER_START, out)?;
    write_svg(alloc, picture, out)?;
    put(PAGE_END, out)?;
    Ok(())
}
