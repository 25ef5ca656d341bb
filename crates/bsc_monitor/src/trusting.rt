//! What a control station can tell of the premises of its line, while it is attended.

ghost use Rattle.std.specs.Prelude.{◌≡◌};
ghost use Rattle.bsc_connections.specs.Notes.{told_by};
ghost use Rattle.bsc_frame.specs.Reading.{heard};
ghost use Rattle.bsc_trust.specs.Trust.{after_heard, after_ignored, may_answer, told_of};
ghost use Rattle.bsc_monitor.specs.Trusting.{called_by, distrust_told, is_admitted};
ghost use Rattle.bsc_monitor.specs.Trusting.{address_of, ignoring_told, trust_after};
ghost use Rattle.bsc_monitor.specs.Trusting.{moved_after, owner_if, place_in, trusting_of};

use bsc_connections::{Decoded, Note};
use bsc_control::{Control, Task};
use bsc_report::{TerminalNews, moved_by};
use bsc_trust::{Distrust, Trust};
use std::alloc::Allocator;
use std::net::{IpAddr, SocketAddr};

/// What is known of the premises, and which terminal was called last.
#[derive(Clone, Copy)]
pub(crate) struct Trusting {
    /// What is known of the premises.
    trust: Trust,

    /// The terminal that was called after the last event.
    called: Option<usize>,
}

impl Trusting {
    /// Returns what is known of a control station that has sent nothing.
    pub fn new<B: Allocator>(control: &Control<B>, trust: Trust) -> Trusting
        ensures { result ≡ trusting_of trust (called_by control.now) }
    {
        Trusting {
            trust,
            called: called_by(control),
        }
    }

    /// Returns what is known of the premises.
    pub fn trust(&self) -> Trust
        ensures { result ≡ self.now.trust }
    {
        self.trust
    }

    /// Returns the terminal that was called after the last event, if one was.
    pub fn called(&self) -> Option<usize>
        ensures { result ≡ self.now.called }
    {
        self.called
    }

    /// Returns whether what arrived at this place is heard, if this terminal is called.
    pub fn admits_for(
        &self,
        called: Option<usize>,
        place: usize,
        transmission: &Decoded<'_>,
    ) -> bool
        ensures { result ≡ is_admitted self.now.trust called place transmission.now }
    {
        self.trust.admits(called, place, transmission.heard())
    }

    /// Returns whether what arrived at this place is heard, if the terminal is called that was
    /// called last.
    pub fn admits_last(&self, place: usize, transmission: &Decoded<'_>) -> bool
        ensures { result ≡ is_admitted self.now.trust self.now.called place transmission.now }
    {
        self.admits_for(self.called, place, transmission)
    }

    /// Returns whether the peer of the connection at this place may answer what was sent last, if
    /// this terminal is called.
    pub fn may_answer_for(&self, called: Option<usize>, place: usize) -> bool
        ensures { result ≡ may_answer self.now.trust called place }
    {
        self.trust.may_answer(called, place)
    }

    /// Returns whether the peer of the connection at this place may answer what was sent last, if
    /// the terminal is called that was called last.
    pub fn may_answer_last(&self, place: usize) -> bool
        ensures { result ≡ may_answer self.now.trust self.now.called place }
    {
        self.may_answer_for(self.called, place)
    }

    /// Takes note of an event at this time, in milliseconds. The terminal that was called last is
    /// the one that was called when it happened. Returns what is to be told of it.
    pub fn note(&mut self, note: &Note<'_>, now: u64) -> Option<Distrust>
        ensures kept { self.new ≡ trusting_of
            (trust_after self.old.trust self.old.called (told_by note.now) now)
            self.old.called }
        ensures told { result
            ≡ distrust_told self.old.trust self.old.called (told_by note.now) now }
    {
        match note {
            Note::Heard {
                connection,
                transmission,
            } => self.hear(*connection, transmission, now),
            Note::Ignored { connection, .. } => self.ignore(*connection),
            Note::Sent { .. } => self.trust.sent(now),
            Note::Withheld { .. } => {
                self.trust.withheld(now);
                None
            }
            Note::Joined {
                connection,
                peer,
                ..
            } => {
                self.trust.joined(*connection, address_of(*peer));
                None
            }
            Note::Closed { connection, .. } => {
                self.trust.closed(*connection);
                None
            }
            Note::Silence => {
                self.trust.silence();
                None
            }
            Note::Refused { .. } | Note::Stopped => None,
        }
    }

    /// Returns the terminal that is known to answer on the connection of which an event tells, if
    /// it tells of one and there is such a terminal.
    pub fn owner(&self, note: &Note<'_>) -> Option<usize>
        ensures { result ≡ owner_if self.now.trust (place_in (told_by note.now)) }
    {
        match place_in(note) {
            Some(place) => self.trust.owner(place),
            None => None,
        }
    }

    /// Returns what is told of the connection of which an event tells, if it tells of one, by the
    /// terminal that was known to answer on it before.
    pub fn moved(&self, note: &Note<'_>, before: Option<usize>) -> Option<TerminalNews>
        ensures { result ≡ moved_after before self.now.trust (place_in (told_by note.now)) }
    {
        match place_in(note) {
            Some(place) => moved_by(place, before, self.trust.owner(place)),
            None => None,
        }
    }

    /// Takes note of a transmission that was heard. Returns what is to be told of it.
    fn hear(&mut self, place: usize, transmission: &Decoded<'_>, now: u64) -> Option<Distrust>
        ensures kept { self.new ≡ trusting_of
            (after_heard self.old.trust self.old.called place (heard transmission.now) now)
            self.old.called }
        ensures told { result ≡ told_of self.old.trust (heard transmission.now) now }
    {
        self.trust
            .heard(self.called, place, transmission.heard(), now)
    }

    /// Takes note of a transmission that was not heard. Returns why, unless that was told of
    /// another one on the same connection: a peer that goes on would fill a log.
    fn ignore(&mut self, place: usize) -> Option<Distrust>
        ensures kept { self.new ≡ trusting_of
            (after_ignored self.old.trust self.old.called place) self.old.called }
        ensures told { result ≡ ignoring_told self.old.trust self.old.called place }
    {
        let was_told = self.trust.was_told(place);
        let reason = self.trust.ignored(self.called, place);
        if was_told { None } else { Some(reason) }
    }

    /// Takes note of the terminal that the control station calls now.
    pub fn call<B: Allocator>(&mut self, control: &Control<B>)
        ensures { self.new ≡ trusting_of self.old.trust (called_by control.now) }
    {
        self.called = called_by(control);
    }
}

/// Returns the place of the connection of which an event tells, if it tells of one.
fn place_in(note: &Note<'_>) -> Option<usize>
    ensures { result ≡ place_in (told_by note.now) }
{
    match note {
        Note::Heard { connection, .. } => Some(*connection),
        Note::Joined { connection, .. } => Some(*connection),
        Note::Closed { connection, .. } => Some(*connection),
        Note::Ignored { .. } | Note::Silence | Note::Sent { .. } | Note::Withheld { .. } => None,
        Note::Refused { .. } | Note::Stopped => None,
    }
}

/// Returns the terminal that the control station polls, selects or sends to.
pub(crate) fn called_by<B: Allocator>(control: &Control<B>) -> Option<usize>
    ensures { result ≡ called_by control.now }
{
    let place = control.place();
    let terminal = usize::from(control.poll_list()[place]);
    match control.task() {
        Task::AtRest => None,
        Task::Selecting { .. } | Task::Sending { .. } | Task::Polling { .. } => Some(terminal),
    }
}

/// Returns the address of a peer without its port, if it is known.
fn address_of(peer: Option<SocketAddr>) -> Option<IpAddr>
    ensures { result ≡ address_of peer }
{
    match peer {
        Some(peer) => Some(peer.ip()),
        None => None,
    }
}
