//! A limit on the time of a wait.

ghost use Rattle.std.specs.Prelude.{◌≡◌, IfOk};

use std::io;
use std::time::{Clock, Duration, Instant};

/// A limit on the time of a wait, counted from its beginning.
#[derive(Clone, Copy)]
pub(crate) struct TimeLimit {
    begun: Instant,
    time: Duration,
}

impl TimeLimit {
    /// Starts a limit of this time.
    pub(crate) fn begin<C: Clock>(clock: &C, time: Duration) -> io::Result<TimeLimit>
        ensures { IfOk result (λ limit. limit.time ≡ time) }
    {
        let begun = Instant::now(clock)?;
        Ok(TimeLimit { begun, time })
    }

    /// Returns what is left of the time; zero if it has passed.
    pub(crate) fn left<C: Clock>(&self, clock: &C) -> io::Result<Duration> {
        Ok(self.time.saturating_sub(self.begun.elapsed(clock)?))
    }
}
