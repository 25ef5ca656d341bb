//! The marks of a trace: where a text that was told stands, and what it is.
ghost use Rattle.std.specs.Prelude.{◌≡◌, option_map};
ghost use Rattle.bsc_trace.specs.Marks.{after_this, answering_at, arrived_from, arrived_mark};
ghost use Rattle.bsc_trace.specs.Marks.{arrived_to, connection_in, control_mark, doubt_at};
ghost use Rattle.bsc_trace.specs.Marks.{doubt_from, doubt_mark, doubt_sign, doubt_to, line_mark};
ghost use Rattle.bsc_trace.specs.Marks.{mark_at as mark_with, mark_by, marked, marked_in};
ghost use Rattle.bsc_trace.specs.Marks.{marked_of, named_at, numbered_in, numbered_of};
ghost use Rattle.bsc_trace.specs.Marks.{selects_in, sign_in, terminal_mark, trust_mark};

use crate::ladder::{Mark, Place, Sign};
use crate::words::read_column;
use bsc_text::{spells, split_at_first, split_word};

/// A mark, and its text.
#[derive(Clone, Copy)]
pub(crate) struct Marked<'a> {
    /// Where it stands, and what it is.
    pub(crate) mark: Mark,

    /// Its text.
    pub(crate) text: &'a [u8],
}

/// The number of a station, and the text after the octet that ends it.
#[derive(Clone, Copy)]
struct Numbered<'a> {
    column: u8,
    rest: &'a [u8],
}

/// Returns this text with a mark.
fn mark_at(text: &[u8], place: Place, sign: Sign) -> Marked<'_>
    ensures { marked_in result ≡ marked text.now (mark_with place sign) }
{
    let mark = Mark { place, sign };
    Marked { mark, text }
}

/// Reads the number of a station before the first octet with this value.
fn read_numbered(text: &[u8], value: u8) -> Option<Numbered<'_>>
    ensures { option_map numbered_in result ≡ numbered_of value text.now }
{
    let (word, rest) = split_at_first(text, value);
    let rest = rest?;
    let column = read_column(word)?;
    Some(Numbered { column, rest })
}

/// Returns the text after this word, if that is the first one.
fn after<'a>(word: &str, text: &'a [u8]) -> Option<&'a [u8]>
    ensures { option_map (λ rest. rest.now) result ≡ after_this word.now text.now }
{
    let (first, rest) = split_word(text);
    if spells(first, word) { rest } else { None }
}

/// Returns the selection addresses after a polling address.
fn read_selects(text: &[u8]) -> Option<&[u8]>
    ensures { option_map (λ rest. rest.now) result ≡ selects_in text.now }
{
    let (_, rest) = split_word(text);
    let rest = after("selected", rest?)?;
    after("as", rest)
}

/// Reads the addresses of the station of this column.
fn read_named(column: u8, text: &[u8]) -> Option<Marked<'_>>
    ensures { option_map marked_in result ≡ named_at column text.now }
{
    match read_selects(text) {
        Some(_) => Some(mark_at(text, Place::Station { column }, Sign::Named)),
        None => None,
    }
}

/// Returns the text after `answers on connection`.
fn read_connection(text: &[u8]) -> Option<&[u8]>
    ensures { option_map (λ rest. rest.now) result ≡ connection_in text.now }
{
    let rest = after("answers", text)?;
    let rest = after("on", rest)?;
    after("connection", rest)
}

/// Reads the connection on which a terminal answers.
fn read_answering<'a>(text: &'a [u8], rest: &[u8]) -> Option<Marked<'a>>
    ensures { option_map marked_in result ≡ answering_at text.now rest.now }
{
    let column = read_column(read_connection(rest)?)?;
    Some(mark_at(text, Place::Station { column }, Sign::Told))
}

/// Reads what is told of the station of a column.
fn read_station<'a>(text: &'a [u8], rest: &'a [u8]) -> Option<Marked<'a>>
    ensures { option_map marked_in result ≡ terminal_mark text.now rest.now }
{
    let Numbered { column, rest } = read_numbered(rest, b' ')?;
    if spells(rest, "began again") {
        return Some(mark_at(text, Place::Station { column }, Sign::Restart));
    }
    match after("is", rest) {
        Some(addresses) => read_named(column, addresses),
        None => read_answering(text, rest),
    }
}

/// Reads that the control station began again.
fn read_control<'a>(text: &'a [u8], rest: &'a [u8]) -> Option<Marked<'a>>
    ensures { option_map marked_in result ≡ control_mark text.now rest.now }
{
    if spells(rest, "began again") {
        Some(mark_at(text, Place::Control, Sign::Restart))
    } else {
        None
    }
}

/// Reads what became of a doubt.
fn read_doubt_sign(text: &[u8]) -> Option<Sign>
    ensures { result ≡ doubt_sign text.now }
{
    if spells(text, "begins") {
        Some(Sign::DoubtBegins)
    } else if spells(text, "is ended") {
        Some(Sign::DoubtEnds)
    } else {
        None
    }
}

/// Reads what became of a doubt of the station at this place.
fn read_doubt_at<'a>(text: &'a [u8], place: Place, rest: &[u8]) -> Option<Marked<'a>>
    ensures { option_map marked_in result ≡ doubt_at text.now place rest.now }
{
    match read_doubt_sign(rest) {
        Some(sign) => Some(mark_at(text, place, sign)),
        None => None,
    }
}

/// Reads a doubt about what a station beside the control station sent.
fn read_doubt_from<'a>(text: &'a [u8], rest: &[u8]) -> Option<Marked<'a>>
    ensures { option_map marked_in result ≡ doubt_from text.now rest.now }
{
    let Numbered { column, rest } = read_numbered(rest, b' ')?;
    read_doubt_at(text, Place::Station { column }, rest)
}

/// Reads a doubt about what was sent to a selection address.
fn read_doubt_to<'a>(text: &'a [u8], rest: &[u8]) -> Option<Marked<'a>>
    ensures { option_map marked_in result ≡ doubt_to text.now rest.now }
{
    let station = read_numbered(rest, b'.')?;
    let select = read_numbered(station.rest, b' ')?;
    read_doubt_at(text, Place::Control, select.rest)
}

/// Reads a doubt.
fn read_doubt<'a>(text: &'a [u8], rest: &[u8]) -> Option<Marked<'a>>
    ensures { option_map marked_in result ≡ doubt_mark text.now rest.now }
{
    let (word, rest) = split_word(rest);
    let rest = rest?;
    if spells(word, "from") {
        return read_doubt_from(text, rest);
    }
    if spells(word, "to") {
        return read_doubt_to(text, rest);
    }
    None
}

/// Reads a doubt, or the end of trust.
fn read_line_mark<'a>(text: &'a [u8], rest: &[u8]) -> Option<Marked<'a>>
    ensures { option_map marked_in result ≡ line_mark text.now rest.now }
{
    if spells(rest, "line is no longer trusted") {
        return Some(mark_at(text, Place::Control, Sign::TrustEnds));
    }
    read_doubt(text, after("doubt", rest)?)
}

/// Reads a record that arrived from a station beside the control station.
fn read_arrived_from<'a>(text: &'a [u8], rest: &[u8]) -> Option<Marked<'a>>
    ensures { option_map marked_in result ≡ arrived_from text.now rest.now }
{
    match read_numbered(rest, b':') {
        Some(_) => Some(mark_at(text, Place::Control, Sign::Arrived)),
        None => None,
    }
}

/// Reads a record that arrived at a selection address.
fn read_arrived_to<'a>(text: &'a [u8], rest: &[u8]) -> Option<Marked<'a>>
    ensures { option_map marked_in result ≡ arrived_to text.now rest.now }
{
    let Numbered { column, rest } = read_numbered(rest, b'.')?;
    match read_numbered(rest, b':') {
        Some(_) => Some(mark_at(text, Place::Station { column }, Sign::Arrived)),
        None => None,
    }
}

/// Reads a record that arrived.
fn read_arrived<'a>(text: &'a [u8], rest: &[u8]) -> Option<Marked<'a>>
    ensures { option_map marked_in result ≡ arrived_mark text.now rest.now }
{
    let (word, rest) = split_word(rest);
    let rest = rest?;
    if spells(word, "from") {
        return read_arrived_from(text, rest);
    }
    if spells(word, "to") {
        return read_arrived_to(text, rest);
    }
    None
}

/// Reads the end of trust that a control station tells.
fn read_distrust<'a>(text: &'a [u8], rest: &[u8]) -> Option<Marked<'a>>
    ensures { option_map marked_in result ≡ trust_mark text.now rest.now }
{
    let (word, _) = split_word(rest);
    if spells(word, "trusted:") {
        return Some(mark_at(text, Place::Control, Sign::TrustEnds));
    }
    None
}

/// Reads a mark by its first word.
fn read_by<'a>(text: &'a [u8], word: &[u8], rest: &'a [u8]) -> Option<Marked<'a>>
    ensures { option_map marked_in result ≡ mark_by text.now word.now rest.now }
{
    if spells(word, "terminal") {
        read_station(text, rest)
    } else if spells(word, "control") {
        read_control(text, rest)
    } else if spells(word, "the") {
        read_line_mark(text, rest)
    } else if spells(word, "arrived") {
        read_arrived(text, rest)
    } else if spells(word, "not") {
        read_distrust(text, rest)
    } else {
        None
    }
}

/// Reads a mark that stands at a station, or that the line is no longer trusted.
fn read_sign(text: &[u8]) -> Option<Marked<'_>>
    ensures { option_map marked_in result ≡ sign_in text.now }
{
    let (word, rest) = split_word(text);
    read_by(text, word, rest?)
}

/// Returns the mark for a text that was told. What is no other mark is told at the control station.
pub(crate) fn read_mark(text: &[u8]) -> Marked<'_>
    ensures { marked_in result ≡ marked_of text.now }
{
    match read_sign(text) {
        Some(mark) => mark,
        None => mark_at(text, Place::Control, Sign::Told),
    }
}
