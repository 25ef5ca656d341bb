//! The rows of a ladder as text.
ghost use Rattle.std.specs.Prelude.{OnOk, ◌∷◌, []};
ghost use Rattle.bsc_trace.specs.Texts.{Writes};
ghost use Rattle.bsc_trace.specs.Lines.{value_in};
ghost use Rattle.bsc_chart.specs.Ladders.{AreLabels, IsLadder};

use crate::Drawing;
use crate::columns::{columns_with, labelled};
use crate::rows::write_line_row;
use bsc_text::PrintError;
use bsc_trace::TraceLine;
use bsc_trace::ladder::{Layout, write_header};
use std::alloc::Allocator;
use std::io::Write;

/// Writes the labels of this many columns, if there are none yet or fewer than these.
fn put_labels<A: Allocator, W: Write>(
    alloc: A,
    columns: u8,
    labelled: u8,
    out: &mut W,
) -> Result<(), PrintError>
    ensures { OnOk result (Writes AreLabels (W.contents out.old) (W.contents out.new)) }
{
    if columns == 0 || columns < labelled {
        return write_header(alloc, labelled, out);
    }
    Ok(())
}

/// Returns the layout of a ladder with this many columns.
fn layout(drawing: &Drawing, columns: u8) -> Layout {
    Layout {
        style: drawing.style,
        more: columns.saturating_sub(1),
        width: drawing.width,
    }
}

/// Writes the row for a line, after the labels of the columns if there are none yet or more of them
/// than before.
pub(crate) fn write_line<A: Allocator + Copy, W: Write>(
    alloc: A,
    drawing: &Drawing,
    columns: u8,
    value: &TraceLine<'_, A>,
    out: &mut W,
) -> Result<(), PrintError>
    ensures { OnOk result (Writes (IsLadder (value_in value.now ∷ []))
        (W.contents out.old) (W.contents out.new)) }
{
    put_labels(alloc, columns, labelled(value), out)?;
    let layout = layout(drawing, columns_with(columns, value));
    write_line_row(alloc, layout, value, out)?;
    Ok(())
}
