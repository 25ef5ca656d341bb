//! A whole picture.
ghost use Rattle.std.specs.Prelude.{◌≤◌, length, OnOk};
ghost use Rattle.std.specs.Io.KnownBytes.{Appends};
ghost use Rattle.bsc_trace.specs.Texts.{Writes};
ghost use Rattle.bsc_chart.specs.Pictures.{IsPicture, rows_from, size_markup, svg_start};
ghost use Rattle.bsc_chart.specs.PictureRows.{rows_in};

use crate::picture::frame::width;
use crate::picture::names::put_stations;
use crate::picture::row_groups::put_row;
use crate::picture::rows::PictureRow;
use crate::picture::style::{SHAPES, STYLE};
use bsc_text::{PrintError, put};
use std::alloc::Allocator;
use std::io::Write;

/// The maximum number of rows of a picture.
pub const MAX_ROWS: usize = 20_000;

/// What a picture shows.
#[derive(Clone, Copy)]
pub struct Picture<'a, A: Allocator> {
    /// How many columns it has beside that of the control station.
    pub columns: u8,

    /// The marks with the addresses of stations, which stand above the columns.
    pub names: &'a [PictureRow<A>],

    /// The rows, at most [`MAX_ROWS`].
    pub rows: &'a [PictureRow<A>],
}

/// Writes the size of a picture.
fn put_size<W: Write>(width: usize, height: usize, out: &mut W) -> Result<(), PrintError>
    ensures { OnOk result
        (Appends (W.contents out.old) (W.contents out.new) (size_markup width height)) }
{
    Ok(write!(
        out,
        " width=\"{width}\" height=\"{height}\" role=\"img\">\n"
    )?)
}

/// Writes the beginning of a document: its size, its style and its shapes.
fn put_start<W: Write>(width: usize, height: usize, out: &mut W) -> Result<(), PrintError>
    ensures { OnOk result
        (Appends (W.contents out.old) (W.contents out.new) (svg_start width height)) }
{
    put(b"<svg xmlns=\"http://www.w3.org/2000/svg\"", out)?;
    put_size(width, height, out)?;
    put(STYLE, out)?;
    put(SHAPES, out)?;
    Ok(())
}

/// Writes the rows of a picture, one below the other.
fn put_rows<A: Allocator + Copy, W: Write>(
    alloc: A,
    columns: u8,
    rows: &[PictureRow<A>],
    out: &mut W,
) -> Result<(), PrintError>
    requires { length rows.now ≤ 20000 }
    ensures { OnOk result (Appends (W.contents out.old) (W.contents out.new)
        (rows_from columns 96 (rows_in rows.now))) }
{
    let mut y = 96;
    'rows: for row in rows {
        put_row(alloc, columns, y, &row.row(), out)?;
        y += 24;
    }
    Ok(())
}

/// Writes a picture as an SVG document, which has no script and refers to nothing else. An arrow
/// has a title with its octets. Of records and messages at most 64 characters are shown.
pub fn write_svg<A: Allocator + Copy, W: Write>(
    alloc: A,
    picture: &Picture<'_, A>,
    out: &mut W,
) -> Result<(), PrintError>
    requires { length picture.now.rows.now ≤ 20000 }
    ensures { OnOk result (Writes (IsPicture picture.now.columns (rows_in picture.now.names.now)
        (rows_in picture.now.rows.now)) (W.contents out.old) (W.contents out.new)) }
{
    let bottom = 96 + 24 * picture.rows.len();
    let width = width(picture.columns, picture.rows);
    put_start(width, bottom + 16, out)?;
    put_stations(bottom, picture.columns, picture.names, out)?;
    put_rows(alloc, picture.columns, picture.rows, out)?;
    put(b"</svg>\n", out)?;
    Ok(())
}
