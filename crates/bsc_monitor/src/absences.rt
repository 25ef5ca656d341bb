//! The terminals that do not answer, and which of them a control station calls all the same.

ghost use Rattle.std.specs.Prelude.{◌≡◌};
ghost use Rattle.bsc_connections.specs.Notes.{told_by};
ghost use Rattle.bsc_frame.specs.Reading.{heard};
ghost use Rattle.bsc_monitor.specs.Absences.{absence_told, absences_after, absences_noted, at_time};
ghost use Rattle.bsc_monitor.specs.Absences.{attendance_of, calling, change_by, change_with};
ghost use Rattle.bsc_monitor.specs.Absences.{earlier, has_stranger, is_absent_at, is_at, is_first};
ghost use Rattle.bsc_monitor.specs.Absences.{is_in_turn, is_nak, is_retry, is_turn_next};
ghost use Rattle.bsc_monitor.specs.Absences.{last_heard, later, met, new_absences, newcomer};
ghost use Rattle.bsc_monitor.specs.Absences.{oldest_visit, other, presence_at, present, requested};
ghost use Rattle.bsc_monitor.specs.Absences.{retries, visited_if, wants, with_answer};
ghost use Rattle.bsc_monitor.specs.Absences.{with_attendance, with_heard, with_repetition};
ghost use Rattle.bsc_monitor.specs.Absences.{with_stranger, with_time_out};

use crate::attendance::{AbsenceLimits, Attendance, Presence};
use bsc_bid::limits::MAX_TERMINALS;
use bsc_carrier::limits::MAX_CONNECTIONS;
use bsc_connections::{Decoded, Note};
use bsc_frame::{Heard, Message, Reply};
use bsc_report::TerminalNews;

/// What an event is to the terminals.
#[derive(Clone, Copy)]
pub(crate) struct Turn {
    /// The terminal that was called when it happened, if one was.
    pub(crate) called: Option<usize>,

    /// The terminal whose visit has ended with it, if one has.
    pub(crate) ended: Option<usize>,

    /// Whether what the control station sends repeats a call.
    pub(crate) repeated: bool,
}

/// What is known of the terminals of a control station. Each that was not visited counts as
/// present.
#[derive(Clone, Copy)]
pub(crate) struct Absences {
    /// When a terminal is absent, and when it is called again.
    limits: AbsenceLimits,

    /// The number of terminals.
    count: usize,

    /// Whether the terminal that is visited has answered.
    answered: bool,

    /// The time of the last event.
    time: u64,

    /// The time at which somebody has connected last, if somebody has.
    joined: Option<u64>,

    /// For each place, whether a peer is connected there of which it is not known which terminal it
    /// is.
    strangers: [bool; MAX_CONNECTIONS],

    /// The terminal that is called now, if one is.
    called: Option<usize>,

    /// Whether the absent terminal that is called next is the one whose turn it is, since the last
    /// one was called before its turn, and has not answered.
    in_turn: bool,

    /// The number of visits that have ended since an absent terminal was called last. It saturates.
    since: u64,

    /// What is known of each terminal.
    terminals: [Attendance; MAX_TERMINALS],
}

impl Absences {
    /// Returns what is known of this many terminals, none of which was visited.
    pub fn new(limits: AbsenceLimits, count: usize) -> Absences
        ensures { result ≡ new_absences limits count }
    {
        Absences {
            limits,
            count,
            answered: false,
            time: 0,
            joined: None,
            strangers: [false; MAX_CONNECTIONS],
            called: None,
            in_turn: false,
            since: 0,
            terminals: [Attendance::unvisited(); MAX_TERMINALS],
        }
    }

    /// Returns what is known of a terminal, if there is one with this number.
    pub fn presence(&self, terminal: usize) -> Option<Presence>
        ensures { result ≡ presence_at self.now terminal }
    {
        if terminal >= self.count {
            return None;
        }
        let polled = self.wants(terminal);
        Some(
            self.attendance_of(terminal)
                .presence(self.limits, polled, self.time),
        )
    }

    /// Takes note of an event at this time, of what has become known with it of a connection, and
    /// of the terminal that is called after it, if one is. Returns what the visit has shown that
    /// has ended with it, if one has.
    #[tactic(auto, unfolding(crate::specs::Absences::absences_noted))]
    pub fn note(
        &mut self,
        note: &Note<'_>,
        turn: Turn,
        time: u64,
        moved: Option<TerminalNews>,
        called: Option<usize>,
    ) -> Option<TerminalNews>
        ensures state { self.new
            ≡ absences_noted self.old turn (told_by note.now) time moved called }
        ensures told { result ≡ absence_told (at_time self.old time) turn (told_by note.now) }
    {
        let told = self.happen(note, turn, time);
        self.meet(moved);
        self.call(called);
        told
    }

    /// Takes note of an event at this time. Returns what the visit has shown that has ended with
    /// it, if one has.
    fn happen(&mut self, note: &Note<'_>, turn: Turn, time: u64) -> Option<TerminalNews>
        ensures state { self.new ≡ absences_after self.old turn (told_by note.now) time }
        ensures told { result ≡ absence_told (at_time self.old time) turn (told_by note.now) }
    {
        self.time = time;
        match note {
            Note::Heard { transmission, .. } => {
                self.heard(transmission, turn.called);
                self.visited(turn.ended)
            }
            Note::Silence => {
                self.time_out(turn.called);
                self.visited(turn.ended)
            }
            Note::Sent { .. } => {
                self.sent(turn.called, turn.repeated);
                self.visited(turn.ended)
            }
            Note::Joined { connection, .. } => {
                self.joined = Some(time);
                self.put_stranger(*connection, true);
                None
            }
            Note::Closed { connection, .. } => {
                self.put_stranger(*connection, false);
                None
            }
            Note::Ignored { .. } | Note::Withheld { .. } | Note::Refused { .. } => None,
            Note::Stopped => None,
        }
    }

    /// Takes note that this was heard while this terminal was called, or none was. Noise is no
    /// answer.
    fn heard(&mut self, transmission: &Decoded<'_>, called: Option<usize>)
        ensures { self.new ≡ with_heard self.old called (heard transmission.now) }
    {
        let heard = transmission.heard();
        match heard {
            Heard::Noise => {}
            Heard::Whole(_) | Heard::Failed => self.answer(called, is_nak(heard)),
        }
    }

    /// Takes note that this terminal has answered, with NAK or not.
    fn answer(&mut self, called: Option<usize>, nak: bool)
        ensures { self.new ≡ with_answer self.old called nak }
    {
        self.answered = true;
        if let Some(terminal) = called {
            let after = self.attendance_of(terminal).after_answer(nak, self.time);
            self.put(terminal, after);
        }
    }

    /// Takes note that a time-out has passed while this terminal was called.
    fn time_out(&mut self, called: Option<usize>)
        ensures { self.new ≡ with_time_out self.old called }
    {
        if let Some(terminal) = called {
            let after = self.attendance_of(terminal).after_time_out();
            self.put(terminal, after);
        }
    }

    /// Takes note that something was sent to this terminal, which repeats a call or not.
    fn sent(&mut self, called: Option<usize>, repeated: bool)
        ensures { self.new ≡ with_repetition self.old called repeated }
    {
        match called {
            Some(terminal) if repeated => {
                let after = self.attendance_of(terminal).after_repetition();
                self.put(terminal, after);
            }
            _ => {}
        }
    }

    /// Takes note that the visit to this terminal has ended, or that none has. Returns what it has
    /// shown.
    fn visited(&mut self, ended: Option<usize>) -> Option<TerminalNews>
        ensures state { self.new ≡ visited_if self.old ended }
        ensures told { result ≡ change_with self.old ended }
    {
        let terminal = ended?;
        let before = self.attendance_of(terminal);
        let after = before.after_visit(self.answered, self.time);
        self.put(terminal, after);
        self.in_turn = self.in_turn && !(self.answered && before.is_absent(self.limits));
        self.answered = false;
        self.since = self.since.saturating_add(1);
        let after = self.attendance_of(terminal);
        change_by(
            before.is_absent(self.limits),
            after.is_absent(self.limits),
            terminal,
        )
    }

    /// Takes note of what has become known of a connection: perhaps which terminal its peer is.
    fn meet(&mut self, moved: Option<TerminalNews>)
        ensures { self.new ≡ met self.old moved }
    {
        if let Some(TerminalNews::Answers { connection, .. }) = moved {
            self.put_stranger(connection, false);
        }
    }

    /// Takes note of the terminal that is called now, if one is.
    fn call(&mut self, called: Option<usize>)
        ensures { self.new ≡ calling self.old called }
    {
        if self.is_absent_at(called) {
            self.in_turn = self.is_turn_next();
            self.since = 0;
        }
        self.called = called;
    }

    /// Returns whether it is the turn of another after this absent one, which is called now: if
    /// this one is called before its turn. While it is visited that does not change.
    fn is_turn_next(&self) -> bool
        ensures { result ≡ is_turn_next self.now }
    {
        if self.since == 0 {
            return self.in_turn;
        }
        !self.in_turn && self.last_heard(self.newcomer()).is_some()
    }

    /// Returns whether this terminal is absent, if it is one.
    fn is_absent_at(&self, terminal: Option<usize>) -> bool
        ensures { result ≡ is_absent_at self.now terminal }
    {
        match terminal {
            Some(terminal) => self.attendance_of(terminal).is_absent(self.limits),
            None => false,
        }
    }

    /// Lets a terminal be called again, or has it called no more, as a program asks.
    pub fn request(&mut self, terminal: usize, polled: bool)
        ensures { self.new ≡ requested self.old terminal polled }
    {
        let attendance = self.attendance_of(terminal).after_request(polled);
        self.put(terminal, attendance);
    }

    /// Returns whether the terminal with this number is to be polled: no program has taken it off,
    /// and it is not absent, or it is to be called all the same. At most one absent terminal is
    /// called in a round of those that are present; while none is, and nobody is connected of whom
    /// it is not known which terminal it is, all are called.
    pub fn wants(&self, terminal: usize) -> bool
        ensures { result ≡ wants self.now terminal }
    {
        let attendance = self.attendance_of(terminal);
        !attendance.is_held() && (!attendance.is_absent(self.limits) || self.retries(terminal))
    }

    /// Returns whether this terminal is to be called although it is absent. Once somebody has
    /// connected, the one that was heard last comes first, of those not called since then. After
    /// one that came first and does not answer it is the turn of another.
    fn retries(&self, terminal: usize) -> bool
        ensures { result ≡ retries self.now terminal }
    {
        let present = self.present();
        if present > 0 && self.since <= present {
            return false;
        }
        let joined = self.newcomer();
        let back = self.other(terminal).heard_if_back(self.limits, joined);
        match self.last_heard(joined) {
            Some(heard) if !self.in_turn => is_at(heard, back),
            _ => (present == 0 && joined.is_none()) || self.is_in_turn(terminal, joined),
        }
    }

    /// Returns whether it is the turn of this absent terminal: its time has come, or none is
    /// present, and no other was visited longer ago. `joined` is when somebody has connected last.
    fn is_in_turn(&self, terminal: usize, joined: Option<u64>) -> bool
        ensures { result ≡ is_in_turn self.now joined terminal }
    {
        let due = self
            .attendance_of(terminal)
            .is_due(self.limits, joined, self.time);
        let visited = self.other(terminal).visited_if_passed(self.limits);
        (self.present() == 0 || due) && is_first(self.oldest_visit(), visited)
    }

    /// Returns the first time at which the last visit to a terminal ended, of those that are absent
    /// and that no program has taken off. The one that is called now does not count.
    fn oldest_visit(&self) -> Option<u64>
        ensures { result ≡ oldest_visit self.now self.now.count }
    {
        let mut oldest = None;
        'terminals: for terminal in 0..self.count {
            oldest = earlier(oldest, self.other(terminal).visited_if_passed(self.limits));
        }
        oldest
    }

    /// Returns the time at which somebody has connected last, if somebody is connected of whom it
    /// is not known which terminal it is.
    fn newcomer(&self) -> Option<u64>
        ensures { result ≡ newcomer self.now }
    {
        if self.has_stranger() {
            self.joined
        } else {
            None
        }
    }

    /// Returns whether somebody is connected of whom it is not known which terminal it is.
    fn has_stranger(&self) -> bool
        ensures { result ≡ has_stranger self.now }
    {
        self.strangers.iter().any(|stranger| *stranger)
    }

    /// Returns the last time at which a terminal was heard that may be the one that has connected
    /// at this time. The one that is called now does not count.
    fn last_heard(&self, joined: Option<u64>) -> Option<u64>
        ensures { result ≡ last_heard self.now joined self.now.count }
    {
        let mut last = None;
        'terminals: for terminal in 0..self.count {
            let other = self.other(terminal);
            last = later(last, other.heard_if_back(self.limits, joined));
        }
        last
    }

    /// Returns what is known of the terminal with this number, if it is not the one that is called
    /// now; else nothing.
    fn other(&self, terminal: usize) -> Attendance
        ensures { result ≡ other self.now terminal }
    {
        match self.called {
            Some(called) if called == terminal => Attendance::unvisited(),
            _ => self.attendance_of(terminal),
        }
    }

    /// Returns whether an absent terminal is called although others are present.
    pub fn is_retry(&self, called: Option<usize>) -> bool
        ensures { result ≡ is_retry self.now called }
    {
        self.is_absent_at(called) && 0 < self.present()
    }

    /// Returns how many terminals are present.
    fn present(&self) -> u64
        ensures { result ≡ present self.now self.now.count }
    {
        let mut present = 0;
        'terminals: for terminal in 0..self.count {
            if self.attendance_of(terminal).is_present(self.limits) {
                present += 1;
            }
        }
        present
    }

    /// Returns what is known of the terminal with this number.
    fn attendance_of(&self, terminal: usize) -> Attendance
        ensures { result ≡ attendance_of self.now terminal }
    {
        if terminal < MAX_TERMINALS {
            self.terminals[terminal]
        } else {
            Attendance::unvisited()
        }
    }

    /// Sets whether a peer is connected at this place of which it is not known which terminal it
    /// is.
    fn put_stranger(&mut self, place: usize, stranger: bool)
        ensures { self.new ≡ with_stranger self.old place stranger }
    {
        if place < MAX_CONNECTIONS {
            self.strangers[place] = stranger;
        }
    }

    /// Sets what is known of the terminal with this number, if there may be one.
    fn put(&mut self, terminal: usize, attendance: Attendance)
        ensures { self.new ≡ with_attendance self.old terminal attendance }
    {
        if terminal < MAX_TERMINALS {
            self.terminals[terminal] = attendance;
        }
    }
}

/// Returns the later of two times, as far as there are such.
fn later(first: Option<u64>, second: Option<u64>) -> Option<u64>
    ensures { result ≡ later first second }
{
    match (first, second) {
        (Some(first), Some(second)) => Some(first.max(second)),
        (Some(first), None) => Some(first),
        (None, second) => second,
    }
}

/// Returns the earlier of two times, as far as there are such.
fn earlier(first: Option<u64>, second: Option<u64>) -> Option<u64>
    ensures { result ≡ earlier first second }
{
    match (first, second) {
        (Some(first), Some(second)) => Some(first.min(second)),
        (Some(first), None) => Some(first),
        (None, second) => second,
    }
}

/// Returns whether there is no first time, or the second is the same.
fn is_first(first: Option<u64>, second: Option<u64>) -> bool
    ensures { result ≡ is_first first second }
{
    match first {
        Some(first) => is_at(first, second),
        None => true,
    }
}

/// Returns whether there is a second time, and it is the same as the first.
fn is_at(first: u64, second: Option<u64>) -> bool
    ensures { result ≡ is_at first second }
{
    match second {
        Some(second) => first == second,
        None => false,
    }
}

/// Returns whether this is NAK.
fn is_nak(heard: &Heard<'_>) -> bool
    ensures { result ≡ is_nak heard.now }
{
    match heard {
        Heard::Whole(Message::Reply(reply)) => matches!(reply, Reply::Nak),
        _ => false,
    }
}

/// Returns what is told of a terminal that was absent, or not, and is now, or not.
fn change_by(was_absent: bool, is_absent: bool, terminal: usize) -> Option<TerminalNews>
    ensures { result ≡ change_by was_absent is_absent terminal }
{
    match (was_absent, is_absent) {
        (false, true) => Some(TerminalNews::Absent { terminal }),
        (true, false) => Some(TerminalNews::Back { terminal }),
        _ => None,
    }
}
