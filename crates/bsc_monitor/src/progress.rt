//! The progress of a control station through its poll list.

ghost use Rattle.std.specs.Prelude.{◌≡◌, ◌&&◌, ◌||◌, length, not, slice_get, true};
ghost use Rattle.bsc_connections.specs.Notes.{told_by};
ghost use Rattle.bsc_monitor.specs.Progress.{after_event, after_sent, ends_when_sent, ends_with};
ghost use Rattle.bsc_monitor.specs.Progress.{begins_after_pause, counts_in, is_last_visit};
ghost use Rattle.bsc_monitor.specs.Progress.{pace_after, pace_of, polled_entries};
ghost use Rattle.bsc_monitor.specs.Progress.{progress_after, progress_of, visited_in};

use crate::rounds::{Limits, Rounds};
use crate::visits::Visits;
use bsc_connections::{Note, Pace};
use bsc_control::Control;
use bsc_station::{station_counts, station_standing};
use bsc_text::progress::Counts;
use std::alloc::Allocator;

/// The visits and rounds that a control station has made, and whether it has ended.
#[derive(Clone, Copy)]
pub(crate) struct Progress {
    /// The limits at which it ends.
    limits: Limits,

    /// The visits to the entries of the poll list.
    visits: Visits,

    /// The rounds of the poll list.
    rounds: Rounds,

    /// Whether other peers may connect later.
    listens: bool,

    /// Whether it ends because a connection was closed.
    closed: bool,

    /// Whether it was asked to end.
    stopped: bool,

    /// Whether it has ended.
    ended: bool,
}

impl Progress {
    /// Returns the progress of a control station that has sent nothing. `listens` tells whether
    /// other peers may connect later.
    pub fn new<B: Allocator>(control: &Control<B>, limits: Limits, listens: bool) -> Progress
        ensures { result ≡ progress_of limits listens (counts_in control.now).arrived }
    {
        Progress {
            limits,
            visits: Visits::new(),
            rounds: Rounds::new(limits.counts_at_once, counts_in(control).arrived),
            listens,
            closed: false,
            stopped: false,
            ended: false,
        }
    }

    /// Whether it ended because a connection was closed and no other peer can connect.
    pub fn is_closed(&self) -> bool
        ensures { result ≡ self.now.closed }
    {
        self.closed
    }

    /// Whether it was asked to end.
    pub fn is_stopped(&self) -> bool
        ensures { result ≡ self.now.stopped }
    {
        self.stopped
    }

    /// Returns the number of completed rounds.
    pub fn rounds(&self) -> u64
        ensures { result ≡ self.now.rounds.rounds }
    {
        self.rounds.count()
    }

    /// Whether what the control station has just sent, and what is not counted yet, begins a round
    /// after one in which nothing got through.
    pub fn begins_after_pause<B: Allocator>(&self, control: &Control<B>) -> bool
        ensures { result ≡ begins_after_pause self.now control.now }
    {
        let mut visits = self.visits;
        match visits.sent(control) {
            Some(entry) => {
                let more = station_standing(control).waiting;
                self.rounds
                    .pauses_after(is_last_visit(control, entry), more, counts_in(control))
            }
            None => false,
        }
    }

    /// Returns the terminal whose visit ends with an event that is not counted yet, if one ends
    /// with it.
    pub fn visited<B: Allocator>(&self, control: &Control<B>, note: &Note<'_>) -> Option<usize>
        ensures { result ≡ visited_in self.now control.now (told_by note.now) }
    {
        let mut visits = self.visits;
        let entry = match note {
            Note::Sent { .. } => visits.sent(control)?,
            Note::Heard { .. } | Note::Silence => visits.acted(control)?,
            _ => return None,
        };
        terminal_at(control, entry)
    }

    /// Whether the control station has ended, or does with what it has just sent, and what is not
    /// counted yet.
    fn ends_when_sent<B: Allocator>(&self, control: &Control<B>) -> bool
        ensures { result ≡ (self.now.ended || ends_when_sent self.now control.now) }
    {
        let mut after = *self;
        let ends = after.count_sent(control);
        self.ended || ends
    }

    /// Returns how the wait after an event begins that is not counted yet: with a pause after what
    /// begins a round after one in which nothing got through, unless the control station has ended.
    pub fn pace_after<B: Allocator>(&self, control: &Control<B>, note: &Note<'_>) -> Pace
        ensures { result ≡ pace_after self.now control.now (told_by note.now) }
    {
        match note {
            Note::Sent { .. } => self.pace_when_sent(control),
            _ => Pace::AtOnce,
        }
    }

    /// Returns how the wait begins after what the control station has just sent, and what is not
    /// counted yet.
    fn pace_when_sent<B: Allocator>(&self, control: &Control<B>) -> Pace
        ensures { result ≡ pace_of (begins_after_pause self.now control.now
            && not (self.now.ended || ends_when_sent self.now control.now)) }
    {
        if self.begins_after_pause(control) && !self.ends_when_sent(control) {
            Pace::AfterPause
        } else {
            Pace::AtOnce
        }
    }

    /// Counts an event. Returns `false` if the control station has ended.
    pub fn note<B: Allocator>(&mut self, control: &Control<B>, note: &Note<'_>) -> bool
        ensures counts { self.new ≡ progress_after self.old control.now (told_by note.now) }
        ensures answer { result ≡ not self.new.ended }
        ensures kept { self.old.ended ≡ true → self.new.ended ≡ true }
    {
        let ends = self.count(control, note);
        self.ended = self.ended || ends;
        !self.ended
    }

    /// Counts an event. Returns `true` if the control station ends with it.
    fn count<B: Allocator>(&mut self, control: &Control<B>, note: &Note<'_>) -> bool
        ensures state { self.new ≡ after_event self.old control.now (told_by note.now) }
        ensures ends { result ≡ ends_with self.old control.now (told_by note.now) }
        ensures ended { self.new.ended ≡ self.old.ended }
    {
        match note {
            Note::Sent { .. } => self.count_sent(control),
            Note::Closed { .. } => {
                self.closed = !self.listens;
                self.closed
            }
            Note::Silence => {
                let _ = self.visits.acted(control);
                self.stopped
            }
            Note::Stopped => {
                let was_stopped = self.stopped;
                self.stopped = true;
                was_stopped
            }
            Note::Heard { .. } => {
                let _ = self.visits.acted(control);
                self.rounds.meet();
                false
            }
            Note::Ignored { .. } | Note::Joined { .. } => {
                self.rounds.meet();
                false
            }
            Note::Withheld { .. } | Note::Refused { .. } => false,
        }
    }

    /// Counts a transmission of the control station. Returns `true` if it has made enough rounds,
    /// or a visit has ended after it was asked to end.
    fn count_sent<B: Allocator>(&mut self, control: &Control<B>) -> bool
        ensures state { self.new ≡ after_sent self.old control.now }
        ensures ends { result ≡ ends_when_sent self.old control.now }
    {
        let Some(entry) = self.visits.sent(control) else {
            return false;
        };
        let more = station_standing(control).waiting;
        self.rounds
            .visited(is_last_visit(control, entry), more, counts_in(control));
        self.stopped || self.rounds.are_enough(self.limits)
    }
}

/// Returns the terminal of this entry of the poll list, if there is one.
fn terminal_at<B: Allocator>(control: &Control<B>, entry: usize) -> Option<usize>
    ensures { result ≡ slice_get control.now.poll_list entry }
{
    let terminal = control.poll_list().get(entry)?;
    Some(usize::from(*terminal))
}

/// Returns whether a round is complete with the visit to this entry, after which that at the
/// present place is visited.
fn is_last_visit<B: Allocator>(control: &Control<B>, entry: usize) -> bool
    ensures { result ≡ is_last_visit control.now entry }
{
    let place = control.place();
    place < entry || (place == entry && polled_entries(control) <= 1)
}

/// Returns how many entries of the poll list are polled.
fn polled_entries<B: Allocator>(control: &Control<B>) -> usize
    ensures { result ≡ polled_entries control.now (length control.now.poll_list) }
{
    let mut count = 0;
    'entries: for place in 0..control.poll_list().len() {
        let terminal = usize::from(control.poll_list()[place]);
        if control.is_polled(terminal) {
            count += 1;
        }
    }
    count
}

/// Returns how many records are known to have arrived at the terminals, and have arrived from them.
fn counts_in<B: Allocator>(control: &Control<B>) -> Counts
    ensures { result ≡ counts_in control.now }
{
    station_counts(control, 0)
}
