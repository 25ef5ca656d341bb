//! The time for which what is heard may have lain unread.

ghost use Rattle.std.specs.Prelude.{◌≡◌, IfSome, IsNone, is_none, true};

use crate::time_limit::TimeLimit;
use std::time::{Clock, Duration};

/// The time since which whatever is read next may have lain unread. It begins with the first wait,
/// when a wait ends before which nothing was there to read, at each time-out, and when the station
/// sends something in time, since its peers send nothing more before they have heard that or a
/// time-out has passed. So while a station is held up, all that its peers repeat meanwhile grows
/// old with what it heard.
#[derive(Clone, Copy)]
pub(crate) struct Unread {
    /// What is left of the time after which what the station sends is late; None before the first
    /// wait, or if the clock has failed.
    limit: Option<TimeLimit>,
}

impl Unread {
    /// Returns the time before the first wait.
    pub(crate) fn new() -> Unread
        ensures { IsNone result.limit }
    {
        Unread { limit: None }
    }

    /// Begins the time anew, for a station of which something is late after this time.
    pub(crate) fn begin<C: Clock>(&mut self, clock: &C, late_after: Duration)
        ensures { IfSome self.new.limit (λ limit. limit.time ≡ late_after) }
    {
        self.limit = TimeLimit::begin(clock, late_after).ok();
    }

    /// Whether the time has not begun yet.
    pub(crate) fn is_unbegun(&self) -> bool
        ensures { result ≡ is_none self.now.limit }
    {
        self.limit.is_none()
    }

    /// Returns whether what is sent now is late.
    pub(crate) fn is_late<C: Clock>(&self, clock: &C) -> bool
        ensures { IsNone self.now.limit → result ≡ true }
    {
        match self.limit {
            Some(limit) => match limit.left(clock) {
                Ok(left) => left.is_zero(),
                Err(_) => true,
            },
            None => true,
        }
    }
}
