//! The ladder of a line as a picture, an SVG document.

mod arrows;
mod elements;
mod escapes;
mod frame;
pub mod laws;
mod names;
mod picture;
mod row_groups;
mod rows;
mod style;

pub use escapes::{Chars, shown_part};
pub use picture::{MAX_ROWS, Picture, write_svg};
pub use rows::{PictureRow, owned};
