//! What is printed of a station while it runs and at its end: the records that arrived, the lines
//! of a trace, what is told of peers and terminals, and the report.
//!
//! The transmissions are those of GA27-3004. All lines are this project's own.
#![tactic(auto)]

mod arrivals;
mod beginning;
mod following;
mod held;
mod printing;
mod record_lines;
mod record_writer;
mod report;
mod terminal_news;
mod trace;
mod tracing;
mod trust_report;

pub use arrivals::print_arrivals;
pub use beginning::Beginning;
pub use following::print_some;
pub use held::{Calls, HeldCall, Seen, write_held, write_next};
pub use printing::Printing;
pub use record_lines::RecordLines;
pub use record_writer::RecordWriter;
pub use report::write_report;
pub use terminal_news::{TerminalNews, TerminalsTold, moved_by, unanswered, write_news};
pub use trace::{write_change, write_distrust, write_note};
pub use tracing::Tracing;
pub use trust_report::write_trust;
