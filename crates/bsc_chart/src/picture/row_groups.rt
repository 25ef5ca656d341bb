//! The rows of a picture: a group of elements for each.
ghost use Rattle.std.specs.Prelude.{◌≡◌, IfOk, OnOk, codes, string_bytes};
ghost use Rattle.std.specs.Io.KnownBytes.{Appends};
ghost use Rattle.std.specs.List.{flat_map};
ghost use Rattle.bsc_trace.specs.Rows.{row_in};
ghost use Rattle.bsc_chart.specs.Elements.{drawn, element_in, fate_name as fate_text};
ghost use Rattle.bsc_chart.specs.Elements.{group, group_of, text as text_at};
ghost use Rattle.bsc_chart.specs.Pictures.{arrow_elements, mark_elements, row_group};
ghost use Rattle.bsc_chart.specs.Pictures.{sign_name as sign_text, silence_elements};
ghost use Rattle.bsc_text.specs.Names.{chars_shown};

use crate::picture::arrows::{heads, line, tail};
use crate::picture::elements::{Element, fate_name, put_elements, put_group_start};
use crate::picture::escapes::shown_part;
use crate::picture::frame::{last_station, station_at};
use bsc_text::{PrintError, put};
use bsc_trace::ladder::{Course, Fate, Mark, Row, Sign};
use std::alloc::{AllocError, Allocator};
use std::io::Write;

/// A transmission without its octets.
#[derive(Clone, Copy)]
struct Drawn<'a> {
    time: &'a [u8],
    course: Course,
    fate: Fate,
    name: &'a [u8],
    note: &'a [u8],
}

/// Returns the name of a sign.
fn sign_name(sign: Sign) -> &'static str
    ensures { result.now ≡ sign_text sign }
{
    match sign {
        Sign::Told => "told",
        Sign::Named => "named",
        Sign::Arrived => "arrived",
        Sign::DoubtBegins => "doubt",
        Sign::DoubtEnds => "released",
        Sign::Restart => "restart",
        Sign::TrustEnds => "untrusted",
    }
}

/// Returns octets in hexadecimal digits, or a dash if there are none.
fn digits_of<A: Allocator>(alloc: A, octets: &[u8]) -> Result<String<A>, AllocError>
    ensures { IfOk result (λ digits. string_bytes digits ≡ chars_shown octets.now) }
{
    if octets.is_empty() {
        return String::from_str(alloc, "-");
    }
    hex::encode(alloc, octets)
}

/// Returns characters in the style of a class.
fn text<'a, 'd>(class: &'static str, x: usize, chars: &'a [u8]) -> Element<'a, 'd>
    ensures { element_in result ≡ text_at class.now x chars.now }
{
    Element::Text { class, x, chars }
}

/// Writes a group of a class at this height.
fn put_group<W: Write>(
    class: &str,
    y: usize,
    elements: &[Element<'_, '_>],
    out: &mut W,
) -> Result<(), PrintError>
    ensures { OnOk result (Appends (W.contents out.old) (W.contents out.new)
        (group_of class.now y (flat_map drawn elements.now))) }
{
    put_group_start(class, y, out)?;
    put_elements(elements, out)?;
    put(b"</g>\n", out)
}

/// Writes the row of a transmission whose octets have these digits.
fn put_arrow<W: Write>(
    columns: u8,
    y: usize,
    drawn: &Drawn<'_>,
    digits: &str,
    out: &mut W,
) -> Result<(), PrintError>
    ensures { OnOk result (Appends (W.contents out.old) (W.contents out.new)
        (group (fate_text drawn.now.fate) y (arrow_elements columns drawn.now.time.now
        drawn.now.course drawn.now.fate drawn.now.name.now drawn.now.note.now digits.now))) }
{
    let Drawn {
        time,
        course,
        fate,
        name,
        note,
    } = *drawn;
    let elements = [
        Element::Title { name, fate, digits },
        text("t", 72, time),
        line(columns, course, fate),
        tail(course),
        heads(columns, course, fate),
        text("n", 118, name),
        Element::Note {
            x: last_station(columns) + 20,
            fate,
            chars: shown_part(note),
        },
    ];
    put_group(fate_name(fate), y, &elements, out)
}

/// Writes the row of a silence.
fn put_silence<W: Write>(columns: u8, y: usize, time: &[u8], out: &mut W) -> Result<(), PrintError>
    ensures { OnOk result (Appends (W.contents out.old) (W.contents out.new)
        (group (codes "silence") y (silence_elements columns time.now))) }
{
    let line = Element::Line {
        from: 104,
        to: last_station(columns),
    };
    let elements = [text("t", 72, time), line, text("n", 118, b"silence")];
    put_group("silence", y, &elements, out)
}

/// Writes the row of a mark.
fn put_mark<'a, W: Write>(
    y: usize,
    time: &'a [u8],
    mark: Mark,
    told: &'a [u8],
    out: &mut W,
) -> Result<(), PrintError>
    ensures { OnOk result (Appends (W.contents out.old) (W.contents out.new)
        (group (sign_text mark.sign) y (mark_elements time.now mark told.now))) }
{
    let (name, x) = (sign_name(mark.sign), station_at(mark.place));
    let sign = Element::Shape { name, side: "", x };
    let elements = [
        text("t", 72, time),
        sign,
        text("d", x + 16, shown_part(told)),
    ];
    put_group(name, y, &elements, out)
}

/// Writes a row at this height of a picture with this many columns.
pub(crate) fn put_row<A: Allocator, W: Write>(
    alloc: A,
    columns: u8,
    y: usize,
    row: &Row<'_>,
    out: &mut W,
) -> Result<(), PrintError>
    ensures { OnOk result (Appends (W.contents out.old) (W.contents out.new)
        (row_group columns y (row_in row.now))) }
{
    match *row {
        Row::Arrow {
            time,
            course,
            fate,
            name,
            note,
            octets,
        } => {
            let drawn = Drawn {
                time,
                course,
                fate,
                name,
                note,
            };
            let digits = digits_of(alloc, octets)?;
            put_arrow(columns, y, &drawn, digits.as_str(), out)
        }
        Row::Silence { time } => put_silence(columns, y, time, out),
        Row::Mark { time, mark, text } => put_mark(y, time, mark, text, out),
    }
}
