//! The stations of a picture, and their addresses above the columns.
ghost use Rattle.std.specs.Prelude.{OnOk};
ghost use Rattle.std.specs.Io.KnownBytes.{Appends};
ghost use Rattle.std.specs.List.{flat_map};
ghost use Rattle.bsc_trace.specs.Rows.{row_in};
ghost use Rattle.bsc_chart.specs.Pictures.{addresses_markup, columns_markup, label_markup};
ghost use Rattle.bsc_chart.specs.Pictures.{name_markup, rail_markup, station_markup};
ghost use Rattle.bsc_chart.specs.Pictures.{stations_markup};
ghost use Rattle.bsc_chart.specs.PictureRows.{rows_in};

use crate::picture::escapes::{Chars, shown_part};
use crate::picture::frame::{station, station_at};
use crate::picture::rows::PictureRow;
use bsc_text::PrintError;
use bsc_trace::ladder::Row;
use itoa::Buffer;
use std::alloc::Allocator;
use std::io::Write;

/// Writes the label of a station.
fn put_label<W: Write>(label: &str, x: usize, out: &mut W) -> Result<(), PrintError>
    ensures { OnOk result
        (Appends (W.contents out.old) (W.contents out.new) (label_markup label.now x)) }
{
    Ok(write!(out, "<text class=\"h\" x=\"{x}\" y=\"40\">{label}</text>")?)
}

/// Writes the vertical line of a station.
fn put_rail<W: Write>(x: usize, bottom: usize, out: &mut W) -> Result<(), PrintError>
    ensures { OnOk result
        (Appends (W.contents out.old) (W.contents out.new) (rail_markup x bottom)) }
{
    Ok(write!(out, "<path class=\"r\" d=\"M{x} 68V{bottom}\"/>\n")?)
}

/// Writes a station.
fn put_station<W: Write>(
    label: &str,
    x: usize,
    bottom: usize,
    out: &mut W,
) -> Result<(), PrintError>
    ensures { OnOk result
        (Appends (W.contents out.old) (W.contents out.new) (station_markup bottom label.now x)) }
{
    put_label(label, x, out)?;
    put_rail(x, bottom, out)
}

/// Writes the stations of this many columns.
fn put_columns<W: Write>(bottom: usize, columns: u8, out: &mut W) -> Result<(), PrintError>
    ensures { OnOk result
        (Appends (W.contents out.old) (W.contents out.new) (columns_markup bottom columns)) }
{
    'columns: for column in 0..columns {
        let mut buffer = Buffer::new();
        let label = buffer.format(column);
        put_station(label, station(column), bottom, out)?;
    }
    Ok(())
}

/// Writes the addresses of a station.
fn put_addresses<W: Write>(x: usize, chars: &[u8], out: &mut W) -> Result<(), PrintError>
    ensures { OnOk result
        (Appends (W.contents out.old) (W.contents out.new) (addresses_markup x chars.now)) }
{
    let chars = Chars(chars);
    Ok(write!(out, "<text class=\"a\" x=\"{x}\" y=\"58\">{chars}</text>\n")?)
}

/// Writes what a row has above the columns.
fn put_name<W: Write>(row: &Row<'_>, out: &mut W) -> Result<(), PrintError>
    ensures { OnOk result
        (Appends (W.contents out.old) (W.contents out.new) (name_markup (row_in row.now))) }
{
    let Row::Mark {
        mark,
        text: chars,
        ..
    } = *row
    else {
        return Ok(());
    };
    put_addresses(station_at(mark.place), shown_part(chars), out)
}

/// Writes what rows have above the columns.
fn put_names<A: Allocator, W: Write>(names: &[PictureRow<A>], out: &mut W) -> Result<(), PrintError>
    ensures { OnOk result (Appends (W.contents out.old) (W.contents out.new)
        (flat_map name_markup (rows_in names.now))) }
{
    'names: for name in names {
        put_name(&name.row(), out)?;
    }
    Ok(())
}

/// Writes the stations, and their addresses.
pub(crate) fn put_stations<A: Allocator, W: Write>(
    bottom: usize,
    columns: u8,
    names: &[PictureRow<A>],
    out: &mut W,
) -> Result<(), PrintError>
    ensures { OnOk result (Appends (W.contents out.old) (W.contents out.new)
        (stations_markup bottom columns (rows_in names.now))) }
{
    put_station("control", 104, bottom, out)?;
    put_columns(bottom, columns, out)?;
    put_names(names, out)
}
