//! The table of the stations.
ghost use Rattle.std.specs.Prelude.{◌≡◌, IfOk, OnOk};
ghost use Rattle.std.specs.Io.KnownBytes.{Appends};
ghost use Rattle.std.specs.List.{flat_map};
ghost use Rattle.bsc_trace.specs.Rows.{row_in};
ghost use Rattle.bsc_chart.specs.PictureRows.{rows_in};
ghost use Rattle.bsc_text.specs.Channels.{each_below};
ghost use Rattle.bsc_chart.specs.Cells.{line};
ghost use Rattle.bsc_chart.specs.SummaryPages.{stations_table};
ghost use Rattle.bsc_chart.specs.Tables.{addressed_cells, addresses_in, column_line};
ghost use Rattle.bsc_chart.specs.Tables.{station_cells};

use crate::picture::{Picture, PictureRow, shown_part};
use crate::summary::cells::{Cell, put_line};
use crate::summary::counts::{Wanted, count, same_place};
use crate::summary::style::STATIONS_START;
use bsc_text::{PrintError, put};
use bsc_trace::ladder::{Place, Row};
use itoa::Buffer;
use std::alloc::{AllocError, Allocator};
use std::io::Write;

/// Returns what a row tells of the addresses of the station at a place.
fn addresses_told<'a>(place: Place, row: &Row<'a>) -> &'a [u8]
    ensures { result.now ≡ addresses_in place (row_in row.now) }
{
    let Row::Mark { mark, text, .. } = *row else {
        return b"";
    };
    if same_place(place, mark.place) {
        return shown_part(text);
    }
    b""
}

/// Returns the addresses of the station at a place.
fn addresses_of<A: Allocator + Copy>(
    alloc: A,
    place: Place,
    names: &[PictureRow<A>],
) -> Result<Vec<u8, A>, AllocError>
    ensures { IfOk result (λ chars.
        chars.items ≡ flat_map (addresses_in place) (rows_in names.now)) }
{
    let mut chars = Vec::new(alloc);
    'names: for name in names {
        chars.extend_from_slice(addresses_told(place, &name.row()))?;
    }
    Ok(chars)
}

/// Writes the line of the station at a place, with this label and these addresses.
fn put_addressed<A: Allocator, W: Write>(
    label: &str,
    chars: &[u8],
    place: Place,
    rows: &[PictureRow<A>],
    out: &mut W,
) -> Result<(), PrintError>
    ensures { OnOk result (Appends (W.contents out.old) (W.contents out.new)
        (line label.now (addressed_cells chars.now (rows_in rows.now) place))) }
{
    let sent = count(Wanted::Sent { place }, rows);
    let arrived = count(Wanted::Arrived { place }, rows);
    let cells = [
        Cell::Addresses { chars },
        Cell::Count { number: sent },
        Cell::Count { number: arrived },
    ];
    put_line(label, &cells, out)
}

/// Writes the line of the station at a place, with this label.
fn put_station<A: Allocator + Copy, W: Write>(
    alloc: A,
    label: &str,
    place: Place,
    picture: &Picture<'_, A>,
    out: &mut W,
) -> Result<(), PrintError>
    ensures { OnOk result (Appends (W.contents out.old) (W.contents out.new) (line label.now
        (station_cells (rows_in picture.now.names.now) (rows_in picture.now.rows.now) place))) }
{
    let addresses = addresses_of(alloc, place, picture.names)?;
    put_addressed(label, &addresses, place, picture.rows, out)
}

/// Writes the lines of the stations beside the control station.
fn put_columns<A: Allocator + Copy, W: Write>(
    alloc: A,
    picture: &Picture<'_, A>,
    out: &mut W,
) -> Result<(), PrintError>
    ensures { OnOk result (Appends (W.contents out.old) (W.contents out.new) (each_below
        (column_line (rows_in picture.now.names.now) (rows_in picture.now.rows.now))
        picture.now.columns)) }
{
    'columns: for column in 0..picture.columns {
        let mut buffer = Buffer::new();
        let label = buffer.format(column);
        put_station(alloc, label, Place::Station { column }, picture, out)?;
    }
    Ok(())
}

/// Writes the table.
pub(crate) fn put_stations<A: Allocator + Copy, W: Write>(
    alloc: A,
    picture: &Picture<'_, A>,
    out: &mut W,
) -> Result<(), PrintError>
    ensures { OnOk result (Appends (W.contents out.old) (W.contents out.new)
        (stations_table picture.now.columns (rows_in picture.now.names.now)
        (rows_in picture.now.rows.now))) }
{
    put(STATIONS_START, out)?;
    put_station(alloc, "control", Place::Control, picture, out)?;
    put_columns(alloc, picture, out)?;
    put(b"</table>\n", out)
}
