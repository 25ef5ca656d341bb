//! The parts of an arrow: which glyph stands at which station, and which between two stations.
ghost use Rattle.std.specs.Prelude.{◌≡◌};
ghost use Rattle.bsc_trace.specs.Arrows.{arrives as arrives_at_all, control_glyph};
ghost use Rattle.bsc_trace.specs.Arrows.{ends_before as ends, gap_glyph, head_glyph, line_glyph};
ghost use Rattle.bsc_trace.specs.Arrows.{station_glyph, tail_glyph};

use crate::ladder::glyphs::Glyph;
use crate::ladder::{Course, Fate};

/// Whether a transmission with this fate came to a station.
pub fn arrives(fate: Fate) -> bool
    ensures { result ≡ arrives_at_all fate }
{
    match fate {
        Fate::Lost | Fate::Withheld => false,
        _ => true,
    }
}

/// Returns the glyph at the control station.
pub(crate) fn at_control(course: Course, fate: Fate) -> Glyph
    ensures { result ≡ control_glyph course fate }
{
    match course {
        Course::ToAll | Course::ToOne { .. } => Glyph::TailRight,
        Course::From { .. } if arrives(fate) => Glyph::HeadLeft { fate },
        Course::From { .. } => Glyph::Rail,
    }
}

/// Returns the glyph at the station of a column.
pub(crate) fn at_station(course: Course, fate: Fate, column: u8) -> Glyph
    ensures { result ≡ station_glyph course fate column }
{
    match course {
        Course::ToAll => head_if(arrives(fate), fate),
        Course::ToOne { column: to } if column < to => Glyph::Cross,
        Course::ToOne { column: to } => head_if(column == to && arrives(fate), fate),
        Course::From { column: from } if column < from => Glyph::Cross,
        Course::From { column: from } => tail_if(column == from),
    }
}

/// Returns the head of an arrow, or a rail.
fn head_if(is_head: bool, fate: Fate) -> Glyph
    ensures { result ≡ head_glyph is_head fate }
{
    if is_head {
        Glyph::HeadRight { fate }
    } else {
        Glyph::Rail
    }
}

/// Returns the tail of an arrow, or a rail.
fn tail_if(is_tail: bool) -> Glyph
    ensures { result ≡ tail_glyph is_tail }
{
    if is_tail {
        Glyph::TailLeft
    } else {
        Glyph::Rail
    }
}

/// Returns the glyph between the station of a column and the one before it.
pub(crate) fn before_station(course: Course, fate: Fate, column: u8) -> Glyph
    ensures { result ≡ gap_glyph course fate column }
{
    match course {
        Course::ToAll => line_if(arrives(fate)),
        Course::ToOne { column: to } => line_if(column <= to),
        Course::From { column: from } => line_if(column <= from),
    }
}

/// Whether an arrow ends before the station of a column.
pub(crate) fn ends_before(course: Course, fate: Fate, column: u8) -> bool
    ensures { result ≡ ends course fate column }
{
    match course {
        Course::ToAll => column == 0 && !arrives(fate),
        Course::ToOne { column: to } => column == to && !arrives(fate),
        Course::From { .. } => false,
    }
}

/// Returns the line of an arrow, or a space.
fn line_if(is_line: bool) -> Glyph
    ensures { result ≡ line_glyph is_line }
{
    if is_line { Glyph::Line } else { Glyph::Space }
}
