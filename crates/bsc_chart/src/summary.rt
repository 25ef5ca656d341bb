//! The ladder of a line as a page, an HTML document: a picture under a summary of it.
//!
//! The transmissions are those of GA27-3004. The summary and the page are this project's own.

mod cells;
mod clock;
mod counts;
mod kinds;
mod page;
mod stations;
mod style;
mod times;

pub use page::write_html;
