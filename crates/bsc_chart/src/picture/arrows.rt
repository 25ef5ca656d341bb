//! The arrow of a transmission: its line, its tail at who sent, and its heads at who heard.
ghost use Rattle.std.specs.Prelude.{◌≡◌};
ghost use Rattle.bsc_chart.specs.Elements.{element_in};
ghost use Rattle.bsc_chart.specs.Pictures.{arrow_heads, arrow_line, arrow_tail};

use crate::picture::elements::{Element, fate_name};
use crate::picture::frame::{last_station, station};
use bsc_trace::ladder::{Course, Fate, arrives};

/// Returns the line of an arrow.
pub(crate) fn line<'a, 'd>(columns: u8, course: Course, fate: Fate) -> Element<'a, 'd>
    ensures { element_in result ≡ arrow_line columns course fate }
{
    let (from, to) = match (course, arrives(fate)) {
        (Course::ToAll, true) => (104, last_station(columns)),
        (Course::ToAll, false) => (104, 256),
        (Course::ToOne { column }, true) => (104, station(column)),
        (Course::ToOne { column }, false) => (104, station(column) - 48),
        (Course::From { column }, true) => (104, station(column)),
        (Course::From { column }, false) => (152, station(column)),
    };
    Element::Line { from, to }
}

/// Returns the tail of an arrow.
pub(crate) fn tail<'a, 'd>(course: Course) -> Element<'a, 'd>
    ensures { element_in result ≡ arrow_tail course }
{
    let x = match course {
        Course::ToAll | Course::ToOne { .. } => 104,
        Course::From { column } => station(column),
    };
    Element::Shape {
        name: "tail",
        side: "",
        x,
    }
}

/// Returns the heads of an arrow, or its end.
pub(crate) fn heads<'a, 'd>(columns: u8, course: Course, fate: Fate) -> Element<'a, 'd>
    ensures { element_in result ≡ arrow_heads columns course fate }
{
    let name = fate_name(fate);
    let (side, x) = match (course, arrives(fate)) {
        (Course::ToAll, true) => return Element::Heads { fate, columns },
        (Course::ToAll, false) => ("", 264),
        (Course::ToOne { column }, true) => ("-r", station(column)),
        (Course::ToOne { column }, false) => ("", station(column) - 40),
        (Course::From { .. }, true) => ("-l", 104),
        (Course::From { .. }, false) => ("", 144),
    };
    Element::Shape { name, side, x }
}
