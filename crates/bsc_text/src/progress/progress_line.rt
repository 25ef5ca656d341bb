//! The line that tells how far work has come.

ghost use Rattle.std.specs.Prelude.{◌≡◌, false};
ghost use Rattle.bsc_text.specs.Showing.{view_of};

use crate::progress::text::write_line;
use crate::progress::{Counts, Meter, Timer, Work};
use std::io::Write;

/// The milliseconds before the line is first written.
pub const FIRST: u64 = 1000;

/// The milliseconds from one line to the next.
pub const BETWEEN: u64 = 250;

/// The line that tells how far work has come. Once its writer refuses it, it is written no more.
#[derive(Drop)]
pub struct ProgressLine<T: Drop, D: Drop> {
    /// Whether it is written.
    on: bool,

    /// What is counted as done.
    work: Work,

    /// The clock.
    timer: T,

    /// The milliseconds since the start, when the clock was last read.
    time: u64,

    /// The time from which on the line is written next.
    due: u64,

    /// What takes the line.
    out: D,
}

impl<T: Timer + Drop, D: Write + Drop> ProgressLine<T, D> {
    /// Returns the line of work that begins. It is never written unless it is `on`.
    pub fn new(on: bool, work: Work, timer: T, out: D) -> ProgressLine<T, D>
        ensures { view_of D.contents result
            ≡ record {
              on = on;
              work = work;
              time = 0;
              due = FIRST;
              contents = D.contents out;
            } }
    {
        ProgressLine {
            on,
            work,
            timer,
            time: 0,
            due: FIRST,
            out,
        }
    }
}

impl<T: Timer + Drop, D: Write + Drop> Timer for ProgressLine<T, D> {
    ghost use Rattle.std.specs.Prelude.{◌≡◌};
    ghost use Rattle.bsc_text.specs.Showing.{view_of};

    fn milliseconds(&mut self) -> u64
        ensures { view_of D.contents self.new ≡ view_of D.contents self.old }
    {
        self.timer.milliseconds()
    }
}

impl<T: Timer + Drop, D: Write + Drop> Meter for ProgressLine<T, D> {
    ghost use Rattle.std.specs.Prelude.{◌≡◌};
    ghost use Rattle.bsc_text.specs.Showing.{AsksTime, Shows, view_of};

    fn is_due(&mut self) -> bool
        ensures { AsksTime result (view_of D.contents self.old) (view_of D.contents self.new) }
    {
        if !self.on {
            return false;
        }
        self.time = self.timer.milliseconds();
        self.due <= self.time
    }

    fn show(&mut self, counts: Counts)
        ensures { Shows counts (view_of D.contents self.old) (view_of D.contents self.new) }
    {
        if !self.on || self.time < self.due {
            return;
        }
        self.due = self.time.saturating_add(BETWEEN);
        self.on = write_line(self.work, counts, self.time, &mut self.out).is_ok();
    }
}
