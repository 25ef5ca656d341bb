//! The ladder of a line: stations side by side, time downwards, an arrow for each transmission.

mod arrows;
mod glyphs;
mod lanes;
mod line_text;
mod row;
mod text;

pub use arrows::arrives;
pub use glyphs::Style;
pub use row::{Course, Fate, Mark, Place, Row, Sign};
pub use text::{Layout, word_of, write_header, write_row};
