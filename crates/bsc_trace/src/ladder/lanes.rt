//! The lane of an arrow: what is between the control station and the first column, and between two
//! columns.

use crate::ladder::arrows::{arrives, before_station, ends_before};
use crate::ladder::glyphs::Glyph;
use crate::ladder::line_text::LineText;
use crate::ladder::{Course, Fate};
use std::alloc::{AllocError, Allocator};

/// The transmission of a row.
#[derive(Clone, Copy)]
pub(crate) struct Drawn<'a> {
    /// From where to where it went.
    pub(crate) course: Course,

    /// What became of it.
    pub(crate) fate: Fate,

    /// Its name.
    pub(crate) name: &'a [u8],

    /// The characters of its records.
    pub(crate) note: &'a [u8],
}

/// Draws the name of a transmission between two spaces, and the line of its arrow up to this many
/// characters from the beginning of the name.
fn draw_name<A: Allocator>(
    name: &[u8],
    room: usize,
    text: &mut LineText<A>,
) -> Result<(), AllocError> {
    text.push_str(" ")?;
    text.push_visible(name)?;
    text.push_str(" ")?;
    text.push_glyphs(Glyph::Line, room.saturating_sub(name.len()))
}

/// Draws what is between the control station and the first column, for a transmission that
/// arrived.
fn draw_arrived<A: Allocator>(name: &[u8], text: &mut LineText<A>) -> Result<(), AllocError> {
    text.push_glyph(Glyph::Line)?;
    draw_name(name, 15, text)
}

/// Draws the same for one that the control station sent and that did not arrive: its line ends
/// before the first column.
fn draw_lost_to<A: Allocator>(
    fate: Fate,
    name: &[u8],
    text: &mut LineText<A>,
) -> Result<(), AllocError> {
    text.push_glyph(Glyph::Line)?;
    draw_name(name, 13, text)?;
    text.push_glyph(Glyph::End { fate })?;
    text.push_str(" ")
}

/// Draws the same for one that another station sent and that did not arrive: its line ends before
/// the control station.
fn draw_lost_from<A: Allocator>(
    fate: Fate,
    name: &[u8],
    text: &mut LineText<A>,
) -> Result<(), AllocError> {
    text.push_str(" ")?;
    text.push_glyph(Glyph::End { fate })?;
    draw_name(name, 14, text)
}

/// Draws what is between the control station and the first column.
pub(crate) fn draw_lane<A: Allocator>(
    drawn: &Drawn<'_>,
    text: &mut LineText<A>,
) -> Result<(), AllocError> {
    match drawn.course {
        Course::From { .. } if !arrives(drawn.fate) => draw_lost_from(drawn.fate, drawn.name, text),
        course if ends_before(course, drawn.fate, 0) => draw_lost_to(drawn.fate, drawn.name, text),
        _ => draw_arrived(drawn.name, text),
    }
}

/// Draws the part of an arrow before a column after the first: where its line ends, or a line or a
/// space.
pub(crate) fn draw_gap<A: Allocator>(
    drawn: &Drawn<'_>,
    column: u8,
    text: &mut LineText<A>,
) -> Result<(), AllocError> {
    if ends_before(drawn.course, drawn.fate, column) {
        text.push_glyph(Glyph::Line)?;
        text.push_glyph(Glyph::End { fate: drawn.fate })?;
        return text.push_str(" ");
    }
    text.push_glyphs(before_station(drawn.course, drawn.fate, column), 3)
}
