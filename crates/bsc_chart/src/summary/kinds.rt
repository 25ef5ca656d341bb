//! The table of the transmissions by kind.
ghost use Rattle.std.specs.Prelude.{◌≡◌, OnOk};
ghost use Rattle.std.specs.Io.KnownBytes.{Appends};
ghost use Rattle.std.specs.List.{flat_map};
ghost use Rattle.bsc_chart.specs.PictureRows.{rows_in};
ghost use Rattle.bsc_chart.specs.Cells.{cell_in, count as number_in, line};
ghost use Rattle.bsc_chart.specs.Counts.{count_of, transmissions};
ghost use Rattle.bsc_chart.specs.SummaryPages.{kinds_table};
ghost use Rattle.bsc_chart.specs.Tables.{kind_cells, kind_if};

use crate::picture::PictureRow;
use crate::summary::cells::{Cell, put_line};
use crate::summary::counts::{Outcome, Wanted, count};
use crate::summary::style::KINDS_START;
use bsc_text::{PrintError, put};
use std::alloc::Allocator;
use std::io::Write;

/// The kinds that have a line each if there is a transmission of them: those that call for a reply
/// or end a bid, those that answer, and what was heard as no message.
pub(crate) const KINDS: &[&str] = &[
    "CALL", "ENQ", "TEXT", "EOT", "ACK0", "ACK1", "NAK", "WACK", "RVI", "FAILED", "NOISE",
];

/// Returns how many transmissions of a kind, or of all kinds if it is empty, have this outcome.
pub(crate) fn count_kind<A: Allocator>(
    kind: &str,
    outcome: Outcome,
    rows: &[PictureRow<A>],
) -> usize
    ensures { result ≡ count_of (transmissions kind.now outcome) (rows_in rows.now) }
{
    let kind = kind.as_bytes();
    count(Wanted::Transmissions { kind, outcome }, rows)
}

/// Returns a cell with that number.
fn kind_cell<'a, A: Allocator>(kind: &str, outcome: Outcome, rows: &[PictureRow<A>]) -> Cell<'a>
    ensures { cell_in result
        ≡ number_in (count_of (transmissions kind.now outcome) (rows_in rows.now)) }
{
    let number = count_kind(kind, outcome, rows);
    Cell::Count { number }
}

/// Writes the line of a kind, with this label.
fn put_kind<A: Allocator, W: Write>(
    label: &str,
    kind: &str,
    rows: &[PictureRow<A>],
    out: &mut W,
) -> Result<(), PrintError>
    ensures { OnOk result (Appends (W.contents out.old) (W.contents out.new)
        (line label.now (kind_cells kind.now (rows_in rows.now)))) }
{
    let cells = [
        kind_cell(kind, Outcome::Any, rows),
        kind_cell(kind, Outcome::Lost, rows),
        kind_cell(kind, Outcome::Failed, rows),
        kind_cell(kind, Outcome::Turned, rows),
    ];
    put_line(label, &cells, out)
}

/// Writes the line of a kind, if there is a transmission of it.
#[tactic(auto, unfolding(crate::specs::Tables::kind_if))]
fn put_kind_if<A: Allocator, W: Write>(
    kind: &str,
    rows: &[PictureRow<A>],
    out: &mut W,
) -> Result<(), PrintError>
    ensures { OnOk result (Appends (W.contents out.old) (W.contents out.new)
        (kind_if (rows_in rows.now) kind.now)) }
{
    if count_kind(kind, Outcome::Any, rows) == 0 {
        return Ok(());
    }
    put_kind(kind, kind, rows, out)
}

/// Writes the lines of these kinds.
fn put_kinds_of<A: Allocator, W: Write>(
    kinds: &[&str],
    rows: &[PictureRow<A>],
    out: &mut W,
) -> Result<(), PrintError>
    ensures { OnOk result (Appends (W.contents out.old) (W.contents out.new)
        (flat_map (λ kind. kind_if (rows_in rows.now) kind.now) kinds.now)) }
{
    'kinds: for &kind in kinds {
        put_kind_if(kind, rows, out)?;
    }
    Ok(())
}

/// Writes the table.
pub(crate) fn put_kinds<A: Allocator, W: Write>(
    rows: &[PictureRow<A>],
    out: &mut W,
) -> Result<(), PrintError>
    ensures { OnOk result (Appends (W.contents out.old) (W.contents out.new)
        (kinds_table (rows_in rows.now))) }
{
    put(KINDS_START, out)?;
    put_kinds_of(KINDS, rows, out)?;
    put_kind("all", "", rows, out)?;
    put(b"</table>\n", out)
}
