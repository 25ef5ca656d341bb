//! Draws the ladder of a trace, as a text, a picture or a page: the work of `bscline chart`.
//!
//! The transmissions are those of GA27-3004. The ladder is this project's own.
#![tactic(auto)]

mod columns;
mod drawing;
mod error;
mod lines;
mod named;
mod notices;
mod pages;
pub mod picture;
mod rows;
pub mod summary;
mod text;
mod words;

pub use drawing::{Drawing, Form, Range};
pub use error::ChartError;
pub use lines::chart;
pub use named::{TraceError, Traces, draw_named};
pub use notices::write_passed_over;
pub use pages::MAX_ARROWS;
pub use words::draw;
