//! The lines of tables.
ghost use Rattle.std.specs.Prelude.{OnOk};
ghost use Rattle.std.specs.Fmt.{WritesOnOk};
ghost use Rattle.std.specs.Io.KnownBytes.{Appends};
ghost use Rattle.std.specs.List.{flat_map};
ghost use Rattle.bsc_chart.specs.Cells.{count_markup, drawn, line_of, line_start};

use crate::picture::Chars;
use bsc_text::{PrintError, put};
use std::fmt;
use std::io::Write;

/// What stands in a cell of a table.
#[derive(Clone, Copy)]
pub(crate) enum Cell<'a> {
    /// The addresses of a station.
    Addresses { chars: &'a [u8] },

    /// A count, which is left out if it is 0.
    Count { number: usize },

    /// Milliseconds.
    Time { number: usize },

    /// A share in tenths of a percent.
    Share { tenths: usize },
}

impl fmt::Display for Cell<'_> {
    ghost use Rattle.std.specs.Prelude.{Some};
    ghost use Rattle.bsc_chart.specs.Cells.{drawn};

    ghost output = { λ it. Some (drawn it) };

    fn fmt<W: fmt::Write>(&self, f: &mut fmt::Formatter<W>) -> fmt::Result {
        match *self {
            Cell::Addresses { chars } => {
                let chars = Chars(chars);
                write!(f, "<td class=\"text\">{chars}</td>")
            }
            Cell::Count { number } => write_count(number, f),
            Cell::Time { number } => write!(f, "<td>{number}</td>"),
            Cell::Share { tenths } => {
                let (whole, tenth) = (tenths / 10, tenths % 10);
                write!(f, "<td>{whole}.{tenth}%</td>")
            }
        }
    }
}

/// Writes a count.
fn write_count<W: fmt::Write>(number: usize, f: &mut fmt::Formatter<W>) -> fmt::Result
    ensures { WritesOnOk W.write_str_gives f.old result (count_markup number) f.new }
{
    if number == 0 {
        return f.write_str("<td></td>");
    }
    write!(f, "<td>{number}</td>")
}

/// Writes cells one after another.
fn put_cells<W: Write>(cells: &[Cell<'_>], out: &mut W) -> Result<(), PrintError>
    ensures { OnOk result
        (Appends (W.contents out.old) (W.contents out.new) (flat_map drawn cells.now)) }
{
    'cells: for &cell in cells {
        write!(out, "{cell}")?;
    }
    Ok(())
}

/// Writes the beginning of a line, with its label.
fn put_line_start<W: Write>(label: &str, out: &mut W) -> Result<(), PrintError>
    ensures { OnOk result
        (Appends (W.contents out.old) (W.contents out.new) (line_start label.now)) }
{
    Ok(write!(out, "<tr><th scope=\"row\">{label}</th>")?)
}

/// Writes a line with this label and these cells.
pub(crate) fn put_line<W: Write>(
    label: &str,
    cells: &[Cell<'_>],
    out: &mut W,
) -> Result<(), PrintError>
    ensures { OnOk result (Appends (W.contents out.old) (W.contents out.new)
        (line_of label.now (flat_map drawn cells.now))) }
{
    put_line_start(label, out)?;
    put_cells(cells, out)?;
    put(b"</tr>\n", out)
}
