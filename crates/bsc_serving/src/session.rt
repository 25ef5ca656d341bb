//! The session of one program.

ghost use Rattle.std.specs.Prelude.{◌≡◌, [], length, nat_eq, not, true};
ghost use Rattle.bsc_feed.specs.Answering.{serving_of};
ghost use Rattle.bsc_feed.specs.Clients.{IsNew};
ghost use Rattle.bsc_serving.specs.Sessions.{Reads, StepsOn, TakesOrReads, Writes};

use crate::inbox::Inbox;
use crate::outbox::Outbox;
use bsc_feed::{Client, Served};
use std::alloc::Allocator;
use std::io::{Error, ErrorKind, Read, Write};

/// What a step of a session leaves to do.
#[derive(Clone, Copy, Debug, PartialEq, Eq)]
pub(crate) enum Step {
    /// There may be more to do.
    More,

    /// There is nothing to do before the system tells of the program, or the station changes.
    Idle,

    /// The session has ended: the program has, and all its lines are answered, or its connection
    /// has failed.
    Closed,
}

/// The session of one program: its connection, and what is on the way between it and the station.
/// It holds one line of the program and one line that is told to it at most.
#[derive(Drop)]
pub(crate) struct Session<T: Drop> {
    /// The connection.
    stream: T,

    /// The program as the station sees it.
    client: Client,

    /// What the program has said, and is not taken yet.
    inbox: Inbox,

    /// What is told to the program, and is not written yet.
    outbox: Outbox,

    /// Whether a read, and a write, may do something.
    readable: bool,
    writable: bool,
}

/// Returns what is left to do after a read or a write failed, and whether it is to be tried only
/// when the system tells of the program.
fn after_failure(error: &Error) -> (Step, bool) {
    match error.kind() {
        ErrorKind::Interrupted => (Step::More, false),
        ErrorKind::WouldBlock => (Step::Idle, true),
        _ => (Step::Closed, false),
    }
}

impl<T: Read + Write + Drop> Session<T> {
    /// Returns the session of a program that has connected.
    pub(crate) fn new(stream: T) -> Session<T>
        ensures stream { result.stream ≡ stream }
        ensures client { IsNew result.client }
        ensures inbox { result.inbox ≡ [] }
        ensures outbox { result.outbox ≡ [] }
    {
        Session {
            stream,
            client: Client::new(),
            inbox: Inbox::new(),
            outbox: Outbox::new(),
            readable: true,
            writable: true,
        }
    }

    /// Takes note that the system tells of the program.
    pub(crate) fn wake(&mut self)
        ensures { self.new ≡ record self.old { readable = true; writable = true } }
    {
        self.readable = true;
        self.writable = true;
    }

    /// Returns whether something is told to the program that is not written yet.
    pub(crate) fn has_to_tell(&self) -> bool
        ensures { result ≡ not (nat_eq (length self.now.outbox) 0) }
    {
        !self.outbox.is_empty()
    }

    /// Does the next thing of the session, which is one of these: writes what is left of what is
    /// told, tells the next line or obeys one, takes what the program has said, or reads.
    pub(crate) fn step<A: Allocator + Copy, S: Served>(&mut self, alloc: A, station: &mut S) -> Step
        ensures { StepsOn S.Party (serving_of S.Served.own) T.Read T.Write self.old station.old
            result self.new station.new }
    {
        if !self.outbox.is_empty() {
            return self.send();
        }
        match self.client.next_line(alloc, station, &mut self.outbox) {
            Ok(true) => Step::More,
            Ok(false) => self.take(),
            Err(_) => Step::Closed,
        }
    }

    /// Writes what is left of what is told.
    fn send(&mut self) -> Step
        ensures { Writes T.Read T.Write self.old self.new }
    {
        if !self.writable {
            return Step::Idle;
        }
        match self.outbox.send(&mut self.stream) {
            Ok(0) => Step::Closed,
            Ok(_) => Step::More,
            Err(error) => {
                let (step, waits) = after_failure(&error);
                self.writable = !waits;
                step
            }
        }
    }

    /// Takes what the program has said, up to the end of its next line, or else reads.
    fn take(&mut self) -> Step
        ensures { TakesOrReads T.Read T.Write self.old self.new }
    {
        let octets = self.inbox.octets();
        if octets.is_empty() {
            return self.read();
        }
        let taken = self.client.take(octets);
        self.inbox.take(taken);
        Step::More
    }

    /// Reads what the program says, once all that was read before is taken.
    fn read(&mut self) -> Step
        requires { self.old.inbox ≡ [] }
        ensures { Reads T.Read T.Write self.old self.new }
    {
        if !self.readable {
            return Step::Idle;
        }
        match self.inbox.fill(&mut self.stream) {
            Ok(0) => Step::Closed,
            Ok(_) => Step::More,
            Err(error) => {
                let (step, waits) = after_failure(&error);
                self.readable = !waits;
                step
            }
        }
    }
}
