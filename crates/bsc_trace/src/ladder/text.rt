//! A ladder as text.
ghost use Rattle.std.specs.Prelude.{◌≡◌, ◌≤◌, length, OnOk};
ghost use Rattle.std.specs.Io.KnownBytes.{Appends};
ghost use Rattle.bsc_trace.specs.Rows.{row_in, time_in};
ghost use Rattle.bsc_trace.specs.Texts.{IsLine, IsRow, Writes, fate_word, time_text};

use crate::ladder::arrows::{arrives, at_control, at_station};
use crate::ladder::glyphs::Glyph;
use crate::ladder::lanes::{Drawn, draw_gap, draw_lane};
use crate::ladder::line_text::LineText;
use crate::ladder::{Course, Fate, Mark, Place, Row, Sign, Style};
use bsc_text::{PrintError, put};
use std::alloc::{AllocError, Allocator};
use std::io::Write;

/// The layout of a ladder as text.
#[derive(Clone, Copy, Debug, PartialEq, Eq)]
pub struct Layout {
    /// The characters in which it is drawn.
    pub style: Style,

    /// The number of columns after that of the control station and the first one beside it.
    pub more: u8,

    /// The width in characters. Only notes and marks are cut to it.
    pub width: usize,
}

/// Writes a time at the right of its field.
fn put_time<W: Write>(time: &[u8], out: &mut W) -> Result<(), PrintError>
    ensures { OnOk result (Appends (W.contents out.old) (W.contents out.new) (time_text time.now)) }
{
    let room = 8usize.saturating_sub(time.len());
    put(&b"        "[..room], out)?;
    put(time, out)?;
    put(b" ", out)
}

/// Returns the space before the label of a column.
fn space_before(column: u8) -> &'static str {
    match column {
        0 => "            ",
        1..=9 => "   ",
        _ => "  ",
    }
}

/// Draws the labels of this many columns.
fn draw_labels<A: Allocator>(columns: u8, text: &mut LineText<A>) -> Result<(), AllocError> {
    text.push_str("    time control")?;
    'columns: for column in 0..columns {
        text.push_str(space_before(column))?;
        text.push_number(column)?;
    }
    Ok(())
}

/// Writes the labels of this many columns. That of the control station is always there.
pub fn write_header<A: Allocator, W: Write>(
    alloc: A,
    columns: u8,
    out: &mut W,
) -> Result<(), PrintError>
    ensures { OnOk result (Writes IsLine (W.contents out.old) (W.contents out.new)) }
{
    let mut text = LineText::new(alloc, Style::Ascii);
    draw_labels(columns, &mut text)?;
    text.write(out)
}

/// Returns the word for what became of a transmission after two spaces; empty if the head of its
/// arrow tells it.
pub fn word_of(fate: Fate) -> &'static [u8]
    ensures value { result.now ≡ fate_word fate }
    ensures most { length result.now ≤ 10 }
{
    match fate {
        Fate::Sent | Fate::Heard => b"",
        Fate::Failed => b"  failed",
        Fate::Turned => b"  turned",
        Fate::Ignored => b"  ignored",
        Fate::Lost => b"  lost",
        Fate::Withheld => b"  withheld",
    }
}

/// Returns the column at which a transmission did not arrive, if it went to that only.
fn missed_column(drawn: &Drawn<'_>) -> Option<u8> {
    match drawn.course {
        Course::ToOne { column } if !arrives(drawn.fate) => Some(column),
        _ => None,
    }
}

/// Returns the room for a note, in characters. Seven are kept for a column that was missed.
fn note_room(layout: Layout, drawn: &Drawn<'_>) -> usize {
    let arrow = 31 + 4 * usize::from(layout.more);
    let missed = if missed_column(drawn).is_some() { 7 } else { 0 };
    let fate = word_of(drawn.fate).len() + missed;
    layout.width.saturating_sub(arrow).saturating_sub(fate)
}

/// Draws what became of a transmission, and the characters of its records.
fn draw_notes<A: Allocator>(
    layout: Layout,
    drawn: &Drawn<'_>,
    text: &mut LineText<A>,
) -> Result<(), AllocError> {
    text.push_visible(word_of(drawn.fate))?;
    if let Some(column) = missed_column(drawn) {
        text.push_str(" at ")?;
        text.push_number(column)?;
    }
    if drawn.note.is_empty() {
        return Ok(());
    }
    text.push_str("  ")?;
    text.push_first(drawn.note, note_room(layout, drawn))
}

/// Draws what happened with a transmission.
fn draw_arrow<A: Allocator>(
    layout: Layout,
    drawn: &Drawn<'_>,
    text: &mut LineText<A>,
) -> Result<(), AllocError> {
    text.push_glyph(at_control(drawn.course, drawn.fate))?;
    draw_lane(drawn, text)?;
    text.push_glyph(at_station(drawn.course, drawn.fate, 0))?;
    'columns: for place in 0..layout.more {
        draw_gap(drawn, place + 1, text)?;
        text.push_glyph(at_station(drawn.course, drawn.fate, place + 1))?;
    }
    draw_notes(layout, drawn, text)
}

/// Draws a silence: a dotted line across all stations.
fn draw_silence<A: Allocator>(layout: Layout, text: &mut LineText<A>) -> Result<(), AllocError> {
    text.push_glyph(Glyph::Pause)?;
    text.push_glyph(Glyph::Dash)?;
    text.push_str(" silence ")?;
    text.push_glyphs(Glyph::Dash, 8)?;
    text.push_glyph(Glyph::Pause)?;
    'columns: for _ in 0..layout.more {
        text.push_glyphs(Glyph::Dash, 3)?;
        text.push_glyph(Glyph::Pause)?;
    }
    Ok(())
}

/// Draws the control station, and the stations before that of this column.
fn draw_rails<A: Allocator>(column: u8, text: &mut LineText<A>) -> Result<(), AllocError> {
    text.push_glyph(Glyph::Rail)?;
    text.push_glyphs(Glyph::Space, 18)?;
    'columns: for _ in 0..column {
        text.push_glyph(Glyph::Rail)?;
        text.push_glyphs(Glyph::Space, 3)?;
    }
    Ok(())
}

/// Draws the stations before that of a mark, and what stands there: the number of the column
/// before the addresses of the station, and otherwise the sign. Returns how wide this is with the
/// space after it.
fn draw_sign<A: Allocator>(mark: Mark, text: &mut LineText<A>) -> Result<usize, AllocError> {
    let Place::Station { column } = mark.place else {
        text.push_glyph(Glyph::Of { sign: mark.sign })?;
        return Ok(11);
    };
    draw_rails(column, text)?;
    if mark.sign == Sign::Named {
        text.push_number(column)?;
    } else {
        text.push_glyph(Glyph::Of { sign: mark.sign })?;
    }
    Ok(31 + 4 * usize::from(column))
}

/// Draws a mark.
fn draw_mark<A: Allocator>(
    layout: Layout,
    mark: Mark,
    told: &[u8],
    text: &mut LineText<A>,
) -> Result<(), AllocError> {
    let used = draw_sign(mark, text)?;
    text.push_str(" ")?;
    text.push_first(told, layout.width.saturating_sub(used))
}

/// Returns the time of a row.
fn time_of<'a>(row: &Row<'a>) -> &'a [u8]
    ensures { result.now ≡ time_in (row_in row.now) }
{
    match row {
        Row::Arrow { time, .. } | Row::Silence { time } | Row::Mark { time, .. } => time,
    }
}

/// Draws a row without its time.
fn draw_happening<A: Allocator>(
    layout: Layout,
    row: &Row<'_>,
    text: &mut LineText<A>,
) -> Result<(), AllocError> {
    match row {
        Row::Arrow {
            course,
            fate,
            name,
            note,
            ..
        } => {
            let drawn = Drawn {
                course: *course,
                fate: *fate,
                name,
                note,
            };
            draw_arrow(layout, &drawn, text)
        }
        Row::Silence { .. } => draw_silence(layout, text),
        Row::Mark {
            mark,
            text: told,
            ..
        } => draw_mark(layout, *mark, told, text),
    }
}

/// Writes a row: one line, with its time at the left and what happened at the right of it.
pub fn write_row<A: Allocator, W: Write>(
    alloc: A,
    layout: Layout,
    row: &Row<'_>,
    out: &mut W,
) -> Result<(), PrintError>
    ensures { OnOk result
        (Writes (IsRow (time_in (row_in row.now))) (W.contents out.old) (W.contents out.new)) }
{
    let mut text = LineText::new(alloc, layout.style);
    draw_happening(layout, row, &mut text)?;
    put_time(time_of(row), out)?;
    text.write(out)?;
    Ok(())
}
