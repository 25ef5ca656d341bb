//! Where things stand in a picture. Lengths are in pixels.
ghost use Rattle.std.specs.Prelude.{◌≡◌, ◌+◌, ◌*◌, ◌≤◌};
ghost use Rattle.bsc_chart.specs.Frames.{last_x, place_x, station_x};

use crate::picture::escapes::shown_part;
use crate::picture::rows::PictureRow;
use bsc_trace::ladder::{Place, Row, word_of};
use std::alloc::Allocator;

/// Returns the place of the station of this column.
pub(crate) fn station(column: u8) -> usize
    ensures value { result ≡ station_x column }
    ensures least { 304 ≤ result }
    ensures most { result ≤ 304 + 136 * 255 }
{
    304 + 136 * usize::from(column)
}

/// Returns the place of the last station of this many columns.
pub(crate) fn last_station(columns: u8) -> usize
    ensures value { result ≡ last_x columns }
    ensures most { result ≤ 304 + 136 * 255 }
{
    station(columns.saturating_sub(1))
}

/// Returns the place of the station at a place.
pub(crate) fn station_at(place: Place) -> usize
    ensures value { result ≡ place_x place }
    ensures most { result ≤ 304 + 136 * 255 }
{
    match place {
        Place::Control => 104,
        Place::Station { column } => station(column),
    }
}

/// Returns how far the text of a row goes, of which a character is at most 8 pixels wide.
fn reach_of(columns: u8, row: &Row<'_>) -> usize
    ensures { result ≤ 40000 }
{
    match row {
        Row::Arrow { fate, note, .. } => {
            let chars = word_of(*fate).len() + shown_part(note).len();
            last_station(columns) + 24 + 8 * chars
        }
        Row::Silence { .. } => last_station(columns),
        Row::Mark { mark, text, .. } => station_at(mark.place) + 24 + 8 * shown_part(text).len(),
    }
}

/// Returns the width of a picture, in which all rows have room.
pub(crate) fn width<A: Allocator>(columns: u8, rows: &[PictureRow<A>]) -> usize {
    let mut reach = last_station(columns) + 64;
    'rows: for row in rows {
        reach = reach.max(reach_of(columns, &row.row()));
    }
    reach + 16
}
