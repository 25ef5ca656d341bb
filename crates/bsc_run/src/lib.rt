//! Runs a script on a line, over a cable: the work of `bscline run`. Each transmission crosses the
//! cable and is heard as it was read there. The pending transmission is printed after each event of
//! hearing, and a report of the line is printed at the end. A trace tells what became of each
//! transmission.
//!
//! The transmissions are those of GA27-3004. Configurations, the events, the output, the trace and
//! the report are this project's own.
#![tactic(auto)]

mod actions;
mod addresses;
mod cables;
mod changes;
mod counting;
mod crossing;
mod error;
mod line_runs;
mod marks;
mod pending;
mod play;
mod report;
mod running;
mod running_error;
mod standing;
mod trace;

pub use cables::Cables;
pub use counting::line_counts;
pub use error::RunError;
pub use line_runs::run_line;
pub use play::run_on;
pub use report::write_report;
pub use running::{RunWords, run};
pub use running_error::RunningError;
