//! Draws the ladder of a trace, line by line as it is read.
ghost use Rattle.std.specs.Prelude.{◌≡◌, ◌≤◌, ◌<◌, ◌+◌, length, Err, true, OnOk, IfErr, IfOk};
ghost use Rattle.std.specs.Prelude.{IfSome, ◌&&◌, ◌∷◌, [], nat_le};
ghost use Rattle.std.specs.Str.{bytes_eq};
ghost use Rattle.bsc_trace.specs.Texts.{Writes};
ghost use Rattle.bsc_trace.specs.Lines.{value_in};
ghost use Rattle.bsc_chart.specs.Counts.{one_if};
ghost use Rattle.bsc_chart.specs.Errors.{IsDrawError, IsEndError, IsLineError, line_error};
ghost use Rattle.bsc_chart.specs.Inputs.{DrawsInput, HasStopped, ReadsInput, is_passed, passed_in};
ghost use Rattle.bsc_chart.specs.Inputs.{values_at};
ghost use Rattle.bsc_chart.specs.Inputs.{is_skipped as is_skipped_line, tells_fault as is_fault};
ghost use Rattle.bsc_chart.specs.Ladders.{IsLadder};
ghost use Rattle.bsc_chart.specs.Pages.{IsEarlyOf, IsLateText, drawn_at, is_drawn, is_full};
ghost use Rattle.bsc_chart.specs.Pages.{page_by, page_in, page_with, widened};

use crate::pages::{Page, keep, tells_names, widen};
use crate::picture::{Picture, write_svg};
use crate::summary::write_html;
use crate::text::write_line;
use crate::{ChartError, Drawing, Form, Range};
use bsc_text::{InputError, LineEnd, Unreadable, is_blank, split_at_first, without_return};
use bsc_trace::{LineError, TraceLine, next_line, read_trace_line};
use std::alloc::Allocator;
use std::io::{BufRead, BufReader, Read, Write};

/// Draws the ladder of the trace in the input: a row for each line of the range, in order. Blank
/// lines, and lines whose first word is `bscline:`, which the program tells beside its trace, are
/// skipped. Any other line that is no line of a trace is passed over; returns how many these are,
/// in the range or not. All lines count for the numbers of the range. Stops at a line of more than
/// `MAX_INPUT` octets, whether it is in the range or not; the rows of a text for the lines before
/// it stay written. The input may have any length: for a text one line of it is kept at a time, for
/// a picture the rows of the range. The error is `TooMany` if these are too many. Before a read that
/// may wait, `out` is flushed.
pub fn chart<A: Allocator + Copy, R: Read, W: Write>(
    alloc: A,
    drawing: Drawing,
    input: &mut R,
    out: &mut W,
) -> Result<u64, ChartError>
    ensures ok { OnOk result (IfSome (R.remaining input.old) (λ octets.
        DrawsInput drawing octets (W.contents out.old) (W.contents out.new))) }
    ensures passed { IfOk result (λ count. IfSome (R.remaining input.old) (λ octets.
        count ≡ passed_in octets)) }
    ensures stopped { IfErr result (λ error. IfSome (R.remaining input.old) (λ octets.
        HasStopped drawing error octets (W.contents out.old) (W.contents out.new))) }
    ensures faults { IfErr result IsLineError }
{
    match BufReader::new(alloc, input) {
        Ok(mut reader) => draw_lines(alloc, drawing, &mut reader, out),
        Err(_) => Err(ChartError::Memory),
    }
}

/// Draws the lines that the reader has left. Returns how many were passed over.
fn draw_lines<A: Allocator + Copy, B: BufRead, W: Write>(
    alloc: A,
    drawing: Drawing,
    reader: &mut B,
    out: &mut W,
) -> Result<u64, ChartError>
    ensures ok { OnOk result (IfSome (B.remaining reader.old) (λ octets.
        DrawsInput drawing octets (W.contents out.old) (W.contents out.new))) }
    ensures passed { IfOk result (λ count. IfSome (B.remaining reader.old) (λ octets.
        count ≡ passed_in octets)) }
    ensures stopped { IfErr result (λ error. IfSome (B.remaining reader.old) (λ octets.
        HasStopped drawing error octets (W.contents out.old) (W.contents out.new))) }
    ensures faults { IfErr result IsLineError }
{
    match read_lines(alloc, drawing, reader, out) {
        Ok(ended) => match finish(alloc, drawing.form, &ended.page, out) {
            Ok(()) => Ok(ended.passed),
            Err(error) => Err(error),
        },
        Err(error) => Err(error),
    }
}

/// Returns the picture of what was kept.
fn picture_of<A: Allocator>(page: &Page<A>) -> Picture<'_, A>
    ensures columns { result.columns ≡ page.now.columns }
    ensures names { result.names.now ≡ page.now.names.items }
    ensures rows { result.rows.now ≡ page.now.rows.items }
{
    Picture {
        columns: page.columns,
        names: &page.names,
        rows: &page.rows,
    }
}

/// Writes what comes after the last line: the picture or the page, if it is one.
fn finish<A: Allocator + Copy, W: Write>(
    alloc: A,
    form: Form,
    page: &Page<A>,
    out: &mut W,
) -> Result<(), ChartError>
    requires { length page.now.rows.items ≤ 20000 }
    ensures ok { OnOk result (Writes (IsLateText form (page_in page.now))
        (W.contents out.old) (W.contents out.new)) }
    ensures faults { IfErr result IsEndError }
{
    match form {
        Form::Text => Ok(()),
        Form::Svg => {
            let picture = picture_of(page);
            Ok(write_svg(alloc, &picture, out)?)
        }
        Form::Html => {
            let picture = picture_of(page);
            Ok(write_html(alloc, &picture, out)?)
        }
    }
}

/// What is known after the last line of a trace.
#[derive(Drop)]
struct Ended<A: Allocator> {
    /// What was kept of the lines.
    page: Page<A>,

    /// How many of them were passed over.
    passed: u64,
}

/// Returns how many lines were passed over after one more, which was or was not.
fn counted(passed: u64, is_passed: bool) -> u64
    requires { passed < 18446744073709551615 }
    ensures { result ≡ passed + one_if is_passed }
{
    if is_passed { passed + 1 } else { passed }
}

/// Reads the lines that the reader has left, and writes the rows of a text.
fn read_lines<A: Allocator + Copy, B: BufRead, W: Write>(
    alloc: A,
    drawing: Drawing,
    reader: &mut B,
    out: &mut W,
) -> Result<Ended<A>, ChartError>
    ensures ok { IfOk result (λ ended. IfSome (B.remaining reader.old) (λ octets.
        ReadsInput drawing octets (page_in ended.page) ended.passed (W.contents out.old)
        (W.contents out.new))) }
    ensures fits { IfOk result (λ ended. length ended.page.rows.items ≤ 20000) }
    ensures stopped { IfErr result (λ error. IfSome (B.remaining reader.old) (λ octets.
        HasStopped drawing error octets (W.contents out.old) (W.contents out.new))) }
    ensures faults { IfErr result IsLineError }
{
    let mut line = Vec::new(alloc);
    let mut page = Page::new(alloc);
    let mut passed = 0;
    let mut is_begun = false;
    'lines: for number in 1..u64::MAX {
        let end = match next_line(reader, &mut is_begun, &mut line, out) {
            Ok(end) => end,
            Err(error) => return Err(read_error(number, error)),
        };
        let pen = Pen { drawing, number };
        let is_passed = draw_line(alloc, pen, &mut page, without_return(&line), out)?;
        passed = counted(passed, is_passed);
        match end {
            LineEnd::InputEnd => return Ok(Ended { page, passed }),
            LineEnd::LineFeed => {}
        }
    }
    let why = Unreadable::ReadFault;
    Err(ChartError::Input { why })
}

/// Returns the error for a line with this number that could not be read.
fn read_error(number: u64, error: LineError) -> ChartError
    ensures { result ≡ line_error number error }
{
    let error = match error {
        LineError::Input { error } => error,
        LineError::Output => return ChartError::Output,
    };
    match error {
        InputError::TooLong => ChartError::TooLongAt { line: number },
        InputError::Device { why } => ChartError::Input { why },
        InputError::Memory => ChartError::Memory,
    }
}

/// Where the next line is drawn.
#[derive(Clone, Copy)]
struct Pen {
    /// How it is drawn.
    drawing: Drawing,

    /// Its number.
    number: u64,
}

/// The first word of what the program told beside the trace.
const FAULT: &str = "bscline:";

/// Whether two texts are the same.
fn are_same(a: &[u8], b: &[u8]) -> bool
    ensures { result ≡ bytes_eq a.now b.now }
{
    a == b
}

/// Whether a line is the fault with which the program ended, which is no part of its trace.
fn tells_fault(line: &[u8]) -> bool
    ensures { result ≡ is_fault line.now }
{
    are_same(split_at_first(line, b' ').0, FAULT.as_bytes())
}

/// Whether a line is skipped.
fn is_skipped(line: &[u8]) -> bool
    ensures { result ≡ is_skipped_line line.now }
{
    is_blank(line) || tells_fault(line)
}

/// Draws a line, or keeps its row for a picture. Returns whether it is passed over.
fn draw_line<A: Allocator + Copy, W: Write>(
    alloc: A,
    pen: Pen,
    page: &mut Page<A>,
    line: &[u8],
    out: &mut W,
) -> Result<bool, ChartError>
    ensures passed { IfOk result (λ told. told ≡ is_passed line.now) }
    ensures page { OnOk result (page_in page.new ≡ page_by pen.drawing.form (page_in page.old)
        (drawn_at pen.drawing.range pen.number (values_at line.now))) }
    ensures fits { OnOk result
        (length page.old.rows.items ≤ 20000 → length page.new.rows.items ≤ 20000) }
    ensures drawn { OnOk result (Writes (IsEarlyOf pen.drawing.form
        (drawn_at pen.drawing.range pen.number (values_at line.now)))
        (W.contents out.old) (W.contents out.new)) }
    ensures full { result ≡ Err ChartError.TooMany →
        (is_full (page_in page.old) ≡ true) × (out.new ≡ out.old) }
    ensures faults { IfErr result IsDrawError }
{
    if is_skipped(line) {
        return Ok(false);
    }
    match read_trace_line(alloc, line)? {
        Some(value) => {
            draw_value(alloc, pen, page, &value, out)?;
            Ok(false)
        }
        None => Ok(true),
    }
}

/// Whether a line with this number is in the range.
fn is_within(range: Range, number: u64) -> bool
    ensures { result ≡ (nat_le range.first number && nat_le number range.last) }
{
    range.first <= number && number <= range.last
}

/// Whether a line with this number is drawn.
fn shows<A: Allocator>(range: Range, number: u64, value: &TraceLine<'_, A>) -> bool
    ensures { result ≡ is_drawn range number (value_in value.now) }
{
    is_within(range, number) || tells_names(value)
}

/// Draws the row for a line, if it is drawn, or keeps it for a picture.
fn draw_value<A: Allocator + Copy, W: Write>(
    alloc: A,
    pen: Pen,
    page: &mut Page<A>,
    value: &TraceLine<'_, A>,
    out: &mut W,
) -> Result<(), ChartError>
    ensures page { OnOk result (page_in page.new ≡ page_by pen.drawing.form (page_in page.old)
        (drawn_at pen.drawing.range pen.number (value_in value.now ∷ []))) }
    ensures fits { OnOk result
        (length page.old.rows.items ≤ 20000 → length page.new.rows.items ≤ 20000) }
    ensures drawn { OnOk result (Writes (IsEarlyOf pen.drawing.form
        (drawn_at pen.drawing.range pen.number (value_in value.now ∷ [])))
        (W.contents out.old) (W.contents out.new)) }
    ensures full { result ≡ Err ChartError.TooMany →
        (is_full (page_in page.old) ≡ true) × (out.new ≡ out.old) }
    ensures faults { IfErr result IsDrawError }
{
    if shows(pen.drawing.range, pen.number, value) {
        return draw_row(alloc, pen.drawing, page, value, out);
    }
    Ok(())
}

/// Draws the row for a line as text, or keeps it for a picture.
fn draw_row<A: Allocator + Copy, W: Write>(
    alloc: A,
    drawing: Drawing,
    page: &mut Page<A>,
    value: &TraceLine<'_, A>,
    out: &mut W,
) -> Result<(), ChartError>
    ensures page { OnOk result (page_in page.new
        ≡ page_with drawing.form (page_in page.old) (value_in value.now)) }
    ensures fits { OnOk result
        (length page.old.rows.items ≤ 20000 → length page.new.rows.items ≤ 20000) }
    ensures drawn { OnOk result (Writes (IsEarlyOf drawing.form (value_in value.now ∷ []))
        (W.contents out.old) (W.contents out.new)) }
    ensures full { result ≡ Err ChartError.TooMany →
        (is_full (page_in page.old) ≡ true) × (out.new ≡ out.old) }
    ensures faults { IfErr result IsDrawError }
{
    match drawing.form {
        Form::Text => write_wide(alloc, drawing, page, value, out),
        Form::Svg | Form::Html => keep(alloc, page, value),
    }
}

/// Draws the row for a line as text.
fn write_wide<A: Allocator + Copy, W: Write>(
    alloc: A,
    drawing: Drawing,
    page: &mut Page<A>,
    value: &TraceLine<'_, A>,
    out: &mut W,
) -> Result<(), ChartError>
    ensures page { OnOk result (page_in page.new
        ≡ widened (page_in page.old) (value_in value.now)) }
    ensures same { OnOk result (page.new.rows ≡ page.old.rows) }
    ensures drawn { OnOk result (Writes (IsLadder (value_in value.now ∷ []))
        (W.contents out.old) (W.contents out.new)) }
    ensures faults { IfErr result IsEndError }
{
    write_line(alloc, &drawing, page.columns, value, out)?;
    widen(page, value);
    Ok(())
}
