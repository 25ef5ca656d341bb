//! The rows of a trace.
ghost use Rattle.std.specs.Prelude.{◌≡◌, IfOk, OnOk};
ghost use Rattle.std.specs.Io.KnownBytes.{Appends};
ghost use Rattle.std.specs.List.{flat_map};
ghost use Rattle.bsc_trace.specs.Rows.{time_in};
ghost use Rattle.bsc_trace.specs.Texts.{IsRow, Writes};
ghost use Rattle.bsc_chart.specs.PictureRows.{kept_in};
ghost use Rattle.bsc_text.specs.Names.{name_of};
ghost use Rattle.bsc_trace.specs.Lines.{value_in};
ghost use Rattle.bsc_chart.specs.Rows.{failed_fate, note_of, row_of, seen_fate, unit_note};

use crate::picture::{PictureRow, owned};
use bsc_frame::laws::{one_reading, reading};
use bsc_frame::{Heard, Message, Text, TextBuffer, decode};
use bsc_text::{PrintError, put, write_heard_name};
use bsc_trace::TraceLine;
use bsc_trace::ladder::{Fate, Layout, write_row};
use std::alloc::Allocator;
use std::io::Write;

/// Returns what became of a transmission that was not heard as a message.
fn failed(fate: Fate) -> Fate
    ensures { result ≡ failed_fate fate }
{
    match fate {
        Fate::Heard | Fate::Turned => Fate::Failed,
        _ => fate,
    }
}

/// Returns what became of a transmission that was heard as this.
fn seen(heard: &Heard<'_>, fate: Fate) -> Fate
    ensures { result ≡ seen_fate heard.now fate }
{
    match heard {
        Heard::Whole(_) => fate,
        Heard::Failed => failed(fate),
        Heard::Noise => failed(fate),
    }
}

/// Returns the name of what is heard.
fn name_in<A: Allocator>(alloc: A, heard: &Heard<'_>) -> Result<Vec<u8, A>, PrintError>
    ensures { IfOk result (λ name. name.items ≡ name_of heard.now) }
{
    let mut name = Vec::new(alloc);
    match write_heard_name(heard, &mut name) {
        Ok(()) => Ok(name),
        Err(_) => Err(PrintError::Memory),
    }
}

/// Writes the characters of the records of a text, each after a bar.
fn write_records<W: Write>(text: &Text<'_>, out: &mut W) -> Result<(), PrintError>
    ensures { OnOk result (Appends (W.contents out.old) (W.contents out.new)
        (flat_map unit_note text.now.units)) }
{
    'units: for place in 0..text.count() {
        put(b"|", out)?;
        put(text.unit(place).chars, out)?;
    }
    Ok(())
}

/// Writes the characters of the records of what is heard.
fn write_note<W: Write>(heard: &Heard<'_>, out: &mut W) -> Result<(), PrintError>
    ensures { OnOk result (Appends (W.contents out.old) (W.contents out.new)
        (note_of heard.now)) }
{
    match heard {
        Heard::Whole(Message::Text(text)) => write_records(text, out),
        _ => Ok(()),
    }
}

/// Returns the characters of the records of what is heard.
fn note_in<A: Allocator>(alloc: A, heard: &Heard<'_>) -> Result<Vec<u8, A>, PrintError>
    ensures { IfOk result (λ note. note.items ≡ note_of heard.now) }
{
    let mut note = Vec::new(alloc);
    match write_note(heard, &mut note) {
        Ok(()) => Ok(note),
        Err(_) => Err(PrintError::Memory),
    }
}

/// Returns the row for a line of a trace.
pub(crate) fn kept_row<A: Allocator + Copy>(
    alloc: A,
    line: &TraceLine<'_, A>,
) -> Result<PictureRow<A>, PrintError>
    ensures { IfOk result (λ row. kept_in row ≡ row_of (value_in line.now)) }
{
    match line {
        TraceLine::Transmission {
            time,
            course,
            fate,
            octets,
        } => {
            one_reading();
            reading();
            let mut buffer = TextBuffer::new();
            let heard = decode(octets, &mut buffer);
            Ok(PictureRow::Arrow {
                time: owned(alloc, time)?,
                course: *course,
                fate: seen(&heard, *fate),
                name: name_in(alloc, &heard)?,
                note: note_in(alloc, &heard)?,
                octets: owned(alloc, octets)?,
            })
        }
        TraceLine::Silence { time } => Ok(PictureRow::Silence {
            time: owned(alloc, time)?,
        }),
        TraceLine::Told { time, mark, text } => Ok(PictureRow::Mark {
            time: owned(alloc, time)?,
            mark: *mark,
            text: owned(alloc, text)?,
        }),
    }
}

/// Writes the row for a line of a trace.
pub(crate) fn write_line_row<A: Allocator + Copy, W: Write>(
    alloc: A,
    layout: Layout,
    line: &TraceLine<'_, A>,
    out: &mut W,
) -> Result<(), PrintError>
    ensures { OnOk result (Writes (IsRow (time_in (row_of (value_in line.now))))
        (W.contents out.old) (W.contents out.new)) }
{
    let kept = kept_row(alloc, line)?;
    write_row(alloc, layout, &kept.row(), out)
}
