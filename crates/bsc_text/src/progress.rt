//! The line on a terminal that tells how far long work has come: events or rounds, records known
//! and arrived, doubts, and the rate. It is written again and again in its place, at most four
//! times a second, and cleared before anything else is written there, and at the end.

mod counts;
mod meter;
mod progress_line;
mod text;
mod timer;

pub use counts::{Counts, Work};
pub use meter::{Meter, Unmetered};
pub use progress_line::ProgressLine;
pub use text::write_cleared;
pub use timer::Timer;
