//! What is kept of a trace for a picture, and how many columns it has so far.
ghost use Rattle.std.specs.Prelude.{◌≡◌, ◌+◌, ◌<◌, ◌≤◌, length, Err, true, false, OnOk, IfErr};
ghost use Rattle.bsc_trace.specs.Lines.{value_in};
ghost use Rattle.bsc_chart.specs.Pages.{arrow_count, blank_page, is_full, is_named, is_names};
ghost use Rattle.bsc_chart.specs.Pages.{page_in, widened, with_kept, with_name, with_row};
ghost use Rattle.bsc_chart.specs.Errors.{IsKeepError};
ghost use Rattle.bsc_chart.specs.Rows.{row_of};
ghost use Rattle.bsc_chart.specs.PictureRows.{kept_in};

use crate::ChartError;
use crate::columns::columns_with;
use crate::picture::{MAX_ROWS, PictureRow};
use crate::rows::kept_row;
use bsc_trace::TraceLine;
use bsc_trace::ladder::Sign;
use std::alloc::Allocator;

/// The maximum number of arrows of a picture.
pub const MAX_ARROWS: usize = 5_000;

/// What is known of the lines so far.
#[derive(Drop)]
pub(crate) struct Page<A: Allocator> {
    /// The columns beside that of the control station.
    pub(crate) columns: u8,

    /// The number of arrows that are kept, at most [`MAX_ARROWS`].
    pub(crate) arrows: usize,

    /// The marks with the addresses of stations.
    pub(crate) names: Vec<PictureRow<A>, A>,

    /// The rows, at most [`MAX_ROWS`].
    pub(crate) rows: Vec<PictureRow<A>, A>,
}

/// Whether a line tells the addresses of a station.
pub(crate) fn tells_names<A: Allocator>(value: &TraceLine<'_, A>) -> bool
    ensures { result ≡ is_named (value_in value.now) }
{
    match value {
        TraceLine::Transmission { .. } => false,
        TraceLine::Silence { .. } => false,
        TraceLine::Told { mark, .. } => are_names(mark.sign),
    }
}

/// Whether a mark is the addresses of a station.
fn are_names(sign: Sign) -> bool
    ensures { result ≡ is_names sign }
{
    match sign {
        Sign::Named => true,
        _ => false,
    }
}

/// Returns 1 for a transmission, and otherwise 0.
fn arrows_of<A: Allocator>(value: &TraceLine<'_, A>) -> usize
    ensures count { result ≡ arrow_count (value_in value.now) }
    ensures most { result ≤ 1 }
{
    match value {
        TraceLine::Transmission { .. } => 1,
        TraceLine::Silence { .. } => 0,
        TraceLine::Told { .. } => 0,
    }
}

impl<A: Allocator + Copy> Page<A> {
    /// Returns the page before the first line.
    pub(crate) fn new(alloc: A) -> Page<A>
        ensures page { page_in result ≡ blank_page }
        ensures rows { length result.rows.items ≡ 0 }
    {
        Page {
            columns: 0,
            arrows: 0,
            names: Vec::new(alloc),
            rows: Vec::new(alloc),
        }
    }
}

/// Notes that a line was drawn as text.
pub(crate) fn widen<A: Allocator>(page: &mut Page<A>, value: &TraceLine<'_, A>)
    ensures page { page_in page.new ≡ widened (page_in page.old) (value_in value.now) }
    ensures same { page.new.rows ≡ page.old.rows }
{
    page.columns = columns_with(page.columns, value);
}

/// Whether there is no room for a row with this many arrows.
fn has_no_room<A: Allocator>(page: &Page<A>, arrows: usize) -> bool
    requires { arrows ≤ 1 }
    ensures full { result ≡ true → is_full (page_in page.now) ≡ true }
    ensures room { result ≡ false → page.now.arrows + arrows ≤ 5000 }
    ensures rows { result ≡ false → length page.now.rows.items < 20000 }
{
    if MAX_ROWS <= page.rows.len() {
        return true;
    }
    if MAX_ROWS <= page.names.len() {
        return true;
    }
    MAX_ARROWS - arrows < page.arrows
}

/// Keeps the addresses of a station.
fn keep_name<A: Allocator>(
    page: &mut Page<A>,
    value: &TraceLine<'_, A>,
    row: PictureRow<A>,
) -> Result<(), ChartError>
    requires { kept_in row ≡ row_of (value_in value.now) }
    ensures page { OnOk result
        (page_in page.new ≡ with_name (page_in page.old) (value_in value.now)) }
    ensures same { OnOk result (page.new.rows ≡ page.old.rows) }
    ensures fault { IfErr result (λ error. error ≡ ChartError.Memory) }
{
    let Ok(()) = page.names.push(row) else {
        return Err(ChartError::Memory);
    };
    page.columns = columns_with(page.columns, value);
    Ok(())
}

/// Keeps a row.
fn keep_row<A: Allocator>(
    page: &mut Page<A>,
    value: &TraceLine<'_, A>,
    row: PictureRow<A>,
) -> Result<(), ChartError>
    requires row { kept_in row ≡ row_of (value_in value.now) }
    requires arrows { page.old.arrows + arrow_count (value_in value.now) ≤ 5000 }
    requires rows { length page.old.rows.items < 20000 }
    ensures page { OnOk result
        (page_in page.new ≡ with_row (page_in page.old) (value_in value.now)) }
    ensures fits { OnOk result (length page.new.rows.items ≤ 20000) }
    ensures fault { IfErr result (λ error. error ≡ ChartError.Memory) }
{
    let Ok(()) = page.rows.push(row) else {
        return Err(ChartError::Memory);
    };
    page.arrows += arrows_of(value);
    page.columns = columns_with(page.columns, value);
    Ok(())
}

/// Keeps the row of a line, if there is room for it, or the addresses of a station that it tells.
pub(crate) fn keep<A: Allocator + Copy>(
    alloc: A,
    page: &mut Page<A>,
    value: &TraceLine<'_, A>,
) -> Result<(), ChartError>
    ensures page { OnOk result
        (page_in page.new ≡ with_kept (page_in page.old) (value_in value.now)) }
    ensures fits { OnOk result
        (length page.old.rows.items ≤ 20000 → length page.new.rows.items ≤ 20000) }
    ensures full { result ≡ Err ChartError.TooMany → is_full (page_in page.old) ≡ true }
    ensures faults { IfErr result IsKeepError }
{
    if has_no_room(page, arrows_of(value)) {
        return Err(ChartError::TooMany);
    }
    let row = match kept_row(alloc, value) {
        Ok(row) => row,
        Err(_) => return Err(ChartError::Memory),
    };
    if tells_names(value) {
        return keep_name(page, value, row);
    }
    keep_row(page, value, row)
}
