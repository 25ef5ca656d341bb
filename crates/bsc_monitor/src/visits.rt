//! The visits of a control station to the entries of its poll list.

ghost use Rattle.std.specs.Prelude.{◌≡◌, None};
ghost use Rattle.bsc_monitor.specs.Visits.{calls_anew, polled_by, polled_still, visit_ended};
ghost use Rattle.bsc_monitor.specs.Visits.{visit_rested, visits_of};

use bsc_control::{Control, Replied, Task};
use std::alloc::Allocator;

/// The visits to the entries: the selections of an entry's terminal for which records wait, and
/// then its poll. A visit ends when a call after the poll is sent that does not repeat the poll.
#[derive(Clone, Copy)]
pub(crate) struct Visits {
    /// The entry whose poll was going on after the last transmission of the control station.
    polled: Option<usize>,
}

impl Visits {
    /// Returns the visits of a control station that has sent nothing.
    pub fn new() -> Visits
        ensures { result ≡ visits_of None }
    {
        Visits { polled: None }
    }

    /// Takes note of what this control station has heard, or of a silence: if it is at rest, it
    /// polls no entry any more. Returns the entry whose visit has ended so.
    pub fn acted<A: Allocator>(&mut self, control: &Control<A>) -> Option<usize>
        ensures state { self.new ≡ visits_of (polled_still control.now.task self.old.polled) }
        ensures ended { result ≡ visit_rested control.now.task self.old.polled }
    {
        match control.task() {
            Task::AtRest => {
                let polled = self.polled;
                self.polled = None;
                polled
            }
            Task::Selecting { .. } | Task::Sending { .. } | Task::Polling { .. } => None,
        }
    }

    /// Takes note that this control station has just sent something. Returns the entry whose visit
    /// has ended with it.
    pub fn sent<A: Allocator>(&mut self, control: &Control<A>) -> Option<usize>
        ensures state { self.new ≡ visits_of (polled_by control.now) }
        ensures ended { result ≡ visit_ended self.old.polled control.now }
    {
        let polled = self.polled;
        self.polled = polled_by(control);
        if calls_anew(control) { polled } else { None }
    }
}

/// Whether what the control station has just sent is a call that repeats none.
fn calls_anew<A: Allocator>(control: &Control<A>) -> bool
    ensures { result ≡ calls_anew control.now }
{
    let is_begun = match control.task() {
        Task::Selecting { enquired, .. } => !enquired,
        Task::Polling { replied } => matches!(replied, Replied::Nothing),
        Task::AtRest | Task::Sending { .. } => false,
    };
    is_begun && control.failures() == 0
}

/// Returns the entry that the control station polls.
fn polled_by<A: Allocator>(control: &Control<A>) -> Option<usize>
    ensures { result ≡ polled_by control.now }
{
    match control.task() {
        Task::Polling { .. } => Some(control.place()),
        _ => None,
    }
}
