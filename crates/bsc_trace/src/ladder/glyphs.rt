//! The characters of which a ladder is drawn.

use crate::ladder::{Fate, Sign};

/// The characters in which a ladder is drawn.
#[derive(Clone, Copy, Debug, PartialEq, Eq)]
pub enum Style {
    /// Box-drawing characters, in UTF-8.
    Boxes,

    /// ASCII characters only.
    Ascii,
}

/// A part of a ladder that is one character wide.
#[derive(Clone, Copy)]
pub(crate) enum Glyph {
    /// Nothing.
    Space,

    /// A station to which nothing happens.
    Rail,

    /// A station that is passed by an arrow.
    Cross,

    /// The line of an arrow.
    Line,

    /// The control station as it sends.
    TailRight,

    /// Another station as it sends.
    TailLeft,

    /// The head of an arrow at a station that is not the control station.
    HeadRight { fate: Fate },

    /// The head of an arrow at the control station.
    HeadLeft { fate: Fate },

    /// The place at which a transmission ends that does not arrive.
    End { fate: Fate },

    /// A station in a silence.
    Pause,

    /// The line of a silence.
    Dash,

    /// The beginning of a mark.
    Of { sign: Sign },
}

/// Returns the character of a part.
pub(crate) fn glyph_text(style: Style, glyph: Glyph) -> &'static str {
    match glyph {
        Glyph::Space => " ",
        Glyph::Rail => either(style, "│", "|"),
        Glyph::Cross => either(style, "┼", "+"),
        Glyph::Line => either(style, "─", "-"),
        Glyph::TailRight => either(style, "├", "*"),
        Glyph::TailLeft => either(style, "┤", "*"),
        Glyph::HeadRight { fate } => head_right(style, fate),
        Glyph::HeadLeft { fate } => head_left(style, fate),
        Glyph::End { fate } => end(style, fate),
        Glyph::Pause => either(style, "┊", ":"),
        Glyph::Dash => either(style, "┄", "."),
        Glyph::Of { sign } => sign_text(style, sign),
    }
}

/// Returns the character of this style.
fn either(style: Style, boxes: &'static str, ascii: &'static str) -> &'static str {
    match style {
        Style::Boxes => boxes,
        Style::Ascii => ascii,
    }
}

/// Returns the head of an arrow that points away from the control station. Each fate of what
/// arrives has its own.
fn head_right(style: Style, fate: Fate) -> &'static str {
    match fate {
        Fate::Heard => either(style, "▶", ">"),
        Fate::Failed => either(style, "▷", "?"),
        Fate::Turned => either(style, "◈", "#"),
        Fate::Ignored => either(style, "○", "o"),
        Fate::Sent | Fate::Lost | Fate::Withheld => either(style, "→", ")"),
    }
}

/// Returns the head of an arrow that points to the control station.
fn head_left(style: Style, fate: Fate) -> &'static str {
    match fate {
        Fate::Heard => either(style, "◀", "<"),
        Fate::Failed => either(style, "◁", "?"),
        Fate::Turned => either(style, "◈", "#"),
        Fate::Ignored => either(style, "○", "o"),
        Fate::Sent | Fate::Lost | Fate::Withheld => either(style, "←", "("),
    }
}

/// Returns the end of a transmission that does not arrive.
fn end(style: Style, fate: Fate) -> &'static str {
    match fate {
        Fate::Withheld => either(style, "‖", "!"),
        _ => either(style, "✕", "x"),
    }
}

/// Returns the beginning of a mark. Each sign that may stand at a station has its own.
fn sign_text(style: Style, sign: Sign) -> &'static str {
    match sign {
        Sign::Told | Sign::Named => either(style, "●", "="),
        Sign::Arrived => either(style, "◆", "@"),
        Sign::DoubtBegins => either(style, "◇", "~"),
        Sign::DoubtEnds => either(style, "✓", "^"),
        Sign::Restart => either(style, "↻", "%"),
        Sign::TrustEnds => either(style, "✗", "&"),
    }
}
