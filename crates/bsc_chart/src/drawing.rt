//! How a ladder is drawn.

use bsc_trace::ladder::Style;

/// The form of a ladder.
#[derive(Clone, Copy, Debug, PartialEq, Eq)]
pub enum Form {
    /// Text, a line for each row.
    Text,

    /// A picture, as an SVG document.
    Svg,

    /// A page, as an HTML document: a picture under a summary.
    Html,
}

/// The lines of a trace that are drawn, by their numbers. The first line of a trace has number 1.
#[derive(Clone, Copy, Debug, PartialEq, Eq)]
pub struct Range {
    /// The first line.
    pub first: u64,

    /// The last line.
    pub last: u64,
}

/// How a ladder is drawn.
#[derive(Clone, Copy, Debug, PartialEq, Eq)]
pub struct Drawing {
    /// Its form.
    pub form: Form,

    /// The characters of a text.
    pub style: Style,

    /// The width of a text in characters. Only notes and marks are cut to it.
    pub width: usize,

    /// The lines that are drawn, beside those with the addresses of stations.
    pub range: Range,
}
