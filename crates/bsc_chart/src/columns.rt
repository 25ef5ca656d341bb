//! The columns that the lines of a trace need.
ghost use Rattle.std.specs.Prelude.{◌≡◌, nat_lt, if◌then◌else◌};
ghost use Rattle.bsc_trace.specs.Lines.{value_in};
ghost use Rattle.bsc_chart.specs.Ladders.{columns_after, columns_up_to, course_columns};
ghost use Rattle.bsc_chart.specs.Ladders.{needed_columns, place_columns};

use bsc_trace::TraceLine;
use bsc_trace::ladder::{Course, Mark, Place, Sign};
use std::alloc::Allocator;

/// Returns how many columns a ladder with this many has after a line.
pub(crate) fn columns_with<A: Allocator>(columns: u8, value: &TraceLine<'_, A>) -> u8
    ensures { result ≡ columns_after columns (value_in value.now) }
{
    after(columns, needed(value))
}

/// Returns how many columns there are after a line that needs this many.
fn after(columns: u8, needed: u8) -> u8
    ensures { result ≡ (if nat_lt columns needed then needed else columns) }
{
    if columns < needed { needed } else { columns }
}

/// Returns how many columns beside that of the control station a line needs.
fn needed<A: Allocator>(value: &TraceLine<'_, A>) -> u8
    ensures { result ≡ needed_columns (value_in value.now) }
{
    match value {
        TraceLine::Transmission { course, .. } => course_needs(*course),
        TraceLine::Silence { .. } => 1,
        TraceLine::Told { mark, .. } => place_needs(mark.place),
    }
}

/// Returns how many columns a mark at a place needs, at most 255.
fn place_needs(place: Place) -> u8
    ensures { result ≡ place_columns place }
{
    match place {
        Place::Control => 1,
        Place::Station { column } => up_to(column),
    }
}

/// Returns how many columns have a label before the row of a line.
pub(crate) fn labelled<A: Allocator>(value: &TraceLine<'_, A>) -> u8 {
    match value {
        TraceLine::Transmission { course, .. } => course_needs(*course),
        TraceLine::Silence { .. } => 1,
        TraceLine::Told { mark, .. } => named_needs(*mark),
    }
}

/// Returns how many columns have a label before a mark: the addresses of a station are its label.
fn named_needs(mark: Mark) -> u8 {
    match (mark.place, mark.sign) {
        (Place::Station { column }, Sign::Named) => column,
        (place, _) => place_needs(place),
    }
}

/// Returns how many columns a transmission needs, at most 255.
fn course_needs(course: Course) -> u8
    ensures { result ≡ course_columns course }
{
    match course {
        Course::ToAll => 1,
        Course::ToOne { column } => up_to(column),
        Course::From { column } => up_to(column),
    }
}

/// Returns how many columns there are up to this one, at most 255.
fn up_to(column: u8) -> u8
    ensures { result ≡ columns_up_to column }
{
    if column < 255 { column + 1 } else { 255 }
}
