//! The elements of a row.
ghost use Rattle.std.specs.Prelude.{◌≡◌, OnOk};
ghost use Rattle.std.specs.Fmt.{WritesOnOk};
ghost use Rattle.std.specs.Io.KnownBytes.{Appends};
ghost use Rattle.std.specs.List.{flat_map};
ghost use Rattle.bsc_chart.specs.Elements.{drawn, fate_name as fate_text, group_start};
ghost use Rattle.bsc_chart.specs.Elements.{heads_markup, note_markup, shape_markup};

use crate::picture::escapes::Chars;
use crate::picture::frame::station;
use bsc_text::PrintError;
use bsc_trace::ladder::{Fate, word_of};
use std::fmt;
use std::io::Write;

/// What stands at a place of a row.
#[derive(Clone, Copy)]
pub(crate) enum Element<'a, 'd> {
    /// The title of a transmission: its name, what became of it, and its octets in hexadecimal
    /// digits.
    Title {
        name: &'a [u8],
        fate: Fate,
        digits: &'d str,
    },

    /// Characters in the style of a class.
    Text {
        class: &'static str,
        x: usize,
        chars: &'a [u8],
    },

    /// What became of a transmission, and its records; nothing if there is nothing to say.
    Note {
        x: usize,
        fate: Fate,
        chars: &'a [u8],
    },

    /// A line from one place to another.
    Line {
        from: usize,
        to: usize,
    },

    /// A shape of the document, by its name and what is added to it for one side of a station.
    Shape {
        name: &'static str,
        side: &'static str,
        x: usize,
    },

    /// The heads of an arrow at this many stations.
    Heads {
        fate: Fate,
        columns: u8,
    },
}

/// Returns the name of what became of a transmission.
pub(crate) fn fate_name(fate: Fate) -> &'static str
    ensures { result.now ≡ fate_text fate }
{
    match fate {
        Fate::Sent => "sent",
        Fate::Heard => "heard",
        Fate::Failed => "failed",
        Fate::Turned => "turned",
        Fate::Ignored => "ignored",
        Fate::Lost => "lost",
        Fate::Withheld => "withheld",
    }
}

impl fmt::Display for Element<'_, '_> {
    ghost use Rattle.std.specs.Prelude.{Some};
    ghost use Rattle.bsc_chart.specs.Elements.{drawn};

    ghost output = { λ it. Some (drawn it) };

    fn fmt<W: fmt::Write>(&self, f: &mut fmt::Formatter<W>) -> fmt::Result {
        match *self {
            Element::Title { name, fate, digits } => {
                let (name, fate) = (Chars(name), fate_name(fate));
                write!(f, "<title>{name}, {fate}: {digits}</title>")
            }
            Element::Text { class, x, chars } => {
                let chars = Chars(chars);
                write!(f, "<text class=\"{class}\" x=\"{x}\">{chars}</text>")
            }
            Element::Note { x, fate, chars } => write_note(x, fate, chars, f),
            Element::Line { from, to } => write!(f, "<path d=\"M{from} 0H{to}\"/>"),
            Element::Shape { name, side, x } => write_shape(name, side, x, f),
            Element::Heads { fate, columns } => write_heads(fate_name(fate), columns, f),
        }
    }
}

/// Writes what became of a transmission, and its records.
fn write_note<W: fmt::Write>(
    x: usize,
    fate: Fate,
    chars: &[u8],
    f: &mut fmt::Formatter<W>,
) -> fmt::Result
    ensures { WritesOnOk W.write_str_gives f.old result (note_markup x fate chars.now) f.new }
{
    let word = word_of(fate);
    if word.is_empty() && chars.is_empty() {
        return f.write_str("");
    }
    let (word, chars) = (Chars(word), Chars(chars));
    write!(f, "<text class=\"d\" x=\"{x}\">{word}  {chars}</text>")
}

/// Writes a shape.
fn write_shape<W: fmt::Write>(
    name: &str,
    side: &str,
    x: usize,
    f: &mut fmt::Formatter<W>,
) -> fmt::Result
    ensures { WritesOnOk W.write_str_gives f.old result (shape_markup name.now side.now x) f.new }
{
    write!(f, "<use href=\"#{name}{side}\" x=\"{x}\"/>")
}

/// Writes the heads of an arrow with this name at this many stations.
fn write_heads<W: fmt::Write>(name: &str, columns: u8, f: &mut fmt::Formatter<W>) -> fmt::Result
    ensures { WritesOnOk W.write_str_gives f.old result (heads_markup name.now columns) f.new }
{
    'columns: for column in 0..columns {
        write_shape(name, "-r", station(column), f)?;
    }
    Ok(())
}

/// Writes elements one after another.
pub(crate) fn put_elements<W: Write>(
    elements: &[Element<'_, '_>],
    out: &mut W,
) -> Result<(), PrintError>
    ensures { OnOk result
        (Appends (W.contents out.old) (W.contents out.new) (flat_map drawn elements.now)) }
{
    'elements: for &element in elements {
        write!(out, "{element}")?;
    }
    Ok(())
}

/// Writes the beginning of a group of a class at this height.
pub(crate) fn put_group_start<W: Write>(
    class: &str,
    y: usize,
    out: &mut W,
) -> Result<(), PrintError>
    ensures { OnOk result
        (Appends (W.contents out.old) (W.contents out.new) (group_start class.now y)) }
{
    Ok(write!(out, "<g class=\"{class}\" transform=\"translate(0 {y})\">")?)
}
