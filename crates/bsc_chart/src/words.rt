//! The ladder that the words of the command ask for.
ghost use Rattle.std.specs.Prelude.{◌≡◌, OnOk, IfErr, IfOk, IfSome, IsOkAnd, option_map};
ghost use Rattle.std.specs.Prelude.{string_bytes};
ghost use Rattle.bsc_options.specs.ChartWords.{chart_given};
ghost use Rattle.bsc_chart.specs.Asked.{HasFailed, IsEarly, drawing_of, drawing_with, form_of};
ghost use Rattle.bsc_chart.specs.Asked.{line_of, range_of, style_of, width_of, width_on};
ghost use Rattle.bsc_chart.specs.Inputs.{DrawsInput, passed_in};

use crate::{ChartError, Drawing, Form, Range, chart};
use bsc_options::{Words, number_within};
use bsc_trace::ladder::Style;
use std::alloc::Allocator;
use std::io::{Read, Write};

/// Draws the ladder of the trace in the input as these words ask for, without regard to the file
/// that they name. Before anything is read or written, the error is `Forms` if more than one form
/// is asked for, `Width` if the width is not a number from 40 to 1000, and `Lines` if the first or
/// the last line is no number from 1 on. A text is drawn if no form is asked for; if no width is
/// given, its width is that of the terminal, `columns`, if this is a number from 40 to 1000, and
/// otherwise 80. Otherwise the same as [`chart`].
pub fn draw<A: Allocator + Copy, R: Read, W: Write>(
    alloc: A,
    words: &Words,
    columns: Option<&str>,
    input: &mut R,
    out: &mut W,
) -> Result<u64, ChartError>
    ensures ok { OnOk result (IfSome (R.remaining input.old) (λ octets.
        IsOkAnd (drawing_of (option_map (λ w. w.now) columns.entry) (chart_given words.now))
        (λ drawing. DrawsInput drawing octets (W.contents out.old) (W.contents out.new)))) }
    ensures passed { IfOk result (λ count. IfSome (R.remaining input.old) (λ octets.
        count ≡ passed_in octets)) }
    ensures failed { IfErr result (λ error. IfSome (R.remaining input.old) (λ octets.
        HasFailed (drawing_of (option_map (λ w. w.now) columns.entry) (chart_given words.now)) error
        octets (W.contents out.old) (W.contents out.new))) }
    ensures early { IfErr result (λ error. IsEarly error → out.new ≡ out.old) }
{
    match read_drawing(words, columns) {
        Ok(drawing) => chart(alloc, drawing, input, out),
        Err(error) => Err(error),
    }
}

/// Returns how the words ask to draw on a terminal of which this width is told.
pub(crate) fn read_drawing(words: &Words, columns: Option<&str>) -> Result<Drawing, ChartError>
    ensures { result ≡ drawing_of (option_map (λ w. w.now) columns.entry)
        (chart_given words.now) }
{
    let (text, svg) = (words.is_given("text"), words.is_given("svg"));
    let form = read_form(text, svg, words.is_given("html"));
    let width = read_width(width_on_terminal(columns), words.text("width"));
    let range = read_range(words.text("from"), words.text("to"));
    drawing(style(words.is_given("ascii")), form, width, range)
}

/// Returns a drawing of these parts, or the first error.
fn drawing(
    style: Style,
    form: Result<Form, ChartError>,
    width: Result<usize, ChartError>,
    range: Result<Range, ChartError>,
) -> Result<Drawing, ChartError>
    ensures { result ≡ drawing_with style form width range }
{
    match (form, width, range) {
        (Err(error), _, _) => Err(error),
        (Ok(_), Err(error), _) => Err(error),
        (Ok(_), Ok(_), Err(error)) => Err(error),
        (Ok(form), Ok(width), Ok(range)) => Ok(Drawing {
            form,
            style,
            width,
            range,
        }),
    }
}

/// Returns a word as it was given.
pub(crate) fn text_of(word: &Option<String>) -> Option<&str>
    ensures { option_map (λ w. w.now) result ≡ option_map string_bytes word.now }
{
    match word {
        Some(text) => Some(text.as_str()),
        None => None,
    }
}

/// Returns the style of a ladder.
fn style(ascii: bool) -> Style
    ensures { result ≡ style_of ascii }
{
    if ascii { Style::Ascii } else { Style::Boxes }
}

/// Returns the form of a ladder.
fn read_form(text: bool, svg: bool, html: bool) -> Result<Form, ChartError>
    ensures { result ≡ form_of text svg html }
{
    match (text, svg, html) {
        (_, false, false) => Ok(Form::Text),
        (false, true, false) => Ok(Form::Svg),
        (false, false, true) => Ok(Form::Html),
        _ => Err(ChartError::Forms),
    }
}

/// Returns the width if none is given: that of the terminal, if it is from 40 to 1000, or 80.
fn width_on_terminal(columns: Option<&str>) -> usize
    ensures { result ≡ width_on (option_map (λ w. w.now) columns.entry) }
{
    match columns {
        None => 80,
        Some(text) => match number_within(text, 40, 1000) {
            Some(width) => width as usize,
            None => 80,
        },
    }
}

/// Returns the width that was given, from 40 to 1000, or this one.
fn read_width(width: usize, word: Option<&str>) -> Result<usize, ChartError>
    ensures { result ≡ width_of width (option_map (λ w. w.now) word.entry) }
{
    match word {
        None => Ok(width),
        Some(text) => match number_within(text, 40, 1000) {
            Some(width) => Ok(width as usize),
            None => Err(ChartError::Width),
        },
    }
}

/// Returns the number of a line that was given, from 1 on, or this one.
fn read_line_number(least: u64, word: Option<&str>) -> Result<u64, ChartError>
    ensures { result ≡ line_of least (option_map (λ w. w.now) word.entry) }
{
    match word {
        None => Ok(least),
        Some(text) => match number_within(text, 1, u64::MAX) {
            Some(line) => Ok(line),
            None => Err(ChartError::Lines),
        },
    }
}

/// Returns the range of these lines.
fn read_range(first: Option<&str>, last: Option<&str>) -> Result<Range, ChartError>
    ensures { result ≡ range_of (option_map (λ w. w.now) first.entry)
        (option_map (λ w. w.now) last.entry) }
{
    match (read_line_number(1, first), read_line_number(u64::MAX, last)) {
        (Err(error), _) => Err(error),
        (Ok(_), Err(error)) => Err(error),
        (Ok(first), Ok(last)) => Ok(Range { first, last }),
    }
}
