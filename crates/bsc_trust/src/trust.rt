//! What a control station can tell of the premises on which its line rests.

ghost use Rattle.std.specs.Prelude.{◌≡◌, false, is_none};
ghost use Rattle.bsc_frame.specs.declared.message.Heard.{Heard as HeardValue};
ghost use Rattle.bsc_trust.specs.Answers.{is_noise};
ghost use Rattle.bsc_trust.specs.Connections.{connected_at, owned_by};
ghost use Rattle.bsc_trust.specs.Trust.{new_trust, reason, admits, after_joined, after_closed};
ghost use Rattle.bsc_trust.specs.Trust.{after_sent, after_heard, told_of, after_ignored};
ghost use Rattle.bsc_trust.specs.Trust.{reason_told, slowest_share, with_connected, given_to};
ghost use Rattle.bsc_trust.specs.Trust.{first_reason, reason_for, reason_of_nobody, after_time};
ghost use Rattle.bsc_trust.specs.Trust.{told_of_time, told_of_sending, reason_after_time};
ghost use Rattle.bsc_trust.specs.Trust.{after_silence, after_withheld, may_answer, was_told};

use crate::answers::{is_noise, is_timed};
use crate::connected::Connected;
use crate::{Distrust, TerminalPeers};
use bsc_carrier::limits::MAX_CONNECTIONS;
use bsc_frame::Heard;
use std::net::IpAddr;

/// What a control station can tell of the premise that no reply outlives its time-out: what is due,
/// which terminal answers on which connection, how slow the slowest answer was, and the first
/// reason for which the line is not trusted. Times are in milliseconds. (GA27-3004, time-outs.)
#[derive(Clone, Copy)]
pub struct Trust {
    /// Whether all terminals answer on one connection.
    shared: bool,

    /// The time-out of the stations.
    time_out: u64,

    /// The addresses from which terminals answer, as far as they are given.
    peers: TerminalPeers,

    /// What is known of the connection at each place.
    connections: [Connected; MAX_CONNECTIONS],

    /// When the control station last sent something, if it has heard no answer since.
    awaiting: Option<u64>,

    /// When the last answer was heard, if the control station has sent nothing since, and no
    /// time-out has passed since in silence.
    heard_at: Option<u64>,

    /// The time of the slowest answer, if one was heard whose time counts.
    slowest: Option<u64>,

    /// The first reason for which the line is not trusted.
    distrust: Option<Distrust>,
}

impl Trust {
    /// Returns what is known at the beginning: nothing was sent, no connection is owned, and
    /// nothing speaks against trust. `shared` says that all terminals answer on one connection.
    /// `time_out` is that of the stations, at least 1, and not that of the control station, which
    /// is longer.
    pub fn new(shared: bool, time_out: u64, peers: TerminalPeers) -> Trust
        ensures { result ≡ new_trust shared time_out peers }
    {
        Trust {
            shared,
            time_out,
            peers,
            connections: [Connected::nobodys(); MAX_CONNECTIONS],
            awaiting: None,
            heard_at: None,
            slowest: None,
            distrust: None,
        }
    }

    /// Records that a connection begins at this place, with this peer, if its address is known. No
    /// terminal owns it yet. A place of 64 or more is that of no connection.
    pub fn joined(&mut self, place: usize, peer: Option<IpAddr>)
        ensures { self.new ≡ after_joined self.old place peer }
    {
        let connected = Connected {
            peer,
            owner: None,
            barred: false,
            told: false,
        };
        self.put(place, connected);
    }

    /// Records that the connection at this place is closed. No terminal owns it any more.
    pub fn closed(&mut self, place: usize)
        ensures { self.new ≡ after_closed self.old place }
    {
        self.put(place, Connected::nobodys());
    }

    /// Records that the control station sent something at this time, and now awaits an answer to
    /// it. It replies to the last answer if nothing was sent and no time-out has passed in silence
    /// since then. Returns `LateReply` if it does, more than the time-out has passed since the
    /// answer, and nothing spoke against trust before.
    pub fn sent(&mut self, now: u64) -> Option<Distrust>
        ensures kept { self.new ≡ after_sent self.old now }
        ensures told { result ≡ told_of_sending self.old now }
    {
        let time = now.saturating_sub(self.heard_at.unwrap_or(now));
        self.awaiting = Some(now);
        self.heard_at = None;
        self.limited(time, Distrust::LateReply)
    }

    /// Records that the control station withheld something at this time that would have been late.
    /// It is as if that had been sent and lost on the way: an answer is awaited, and nothing is
    /// late.
    pub fn withheld(&mut self, now: u64)
        ensures { self.new ≡ after_withheld self.old now }
    {
        (self.awaiting, self.heard_at) = (Some(now), None);
    }

    /// Records that a time-out has passed in silence. What is sent next replies to no answer: the
    /// control station had nothing to send in reply to the last one.
    pub fn silence(&mut self)
        ensures { self.new ≡ after_silence self.old }
    {
        self.heard_at = None;
    }

    /// Returns whether a transmission that arrived at this place is to be heard. Noise always is.
    /// Anything else is if there is none of the reasons of [`Trust::ignored`].
    pub fn admits(&self, called: Option<usize>, place: usize, heard: &Heard<'_>) -> bool
        ensures { result ≡ admits self.now called place heard.now }
    {
        is_noise(heard) || self.reason(called, place).is_none()
    }

    /// Returns whether the peer of the connection at this place may answer what the control station
    /// sent last. It may not if there is one of the reasons of [`Trust::ignored`] other than
    /// `NothingSent`: what it sent would not be heard, unless it is noise.
    pub fn may_answer(&self, called: Option<usize>, place: usize) -> bool
        ensures value { result ≡ may_answer self.now called place }
        ensures unheard { result ≡ false → (received : HeardValue)
            → admits self.now called place received ≡ is_noise received }
    {
        self.awaiting.is_none() || self.reason(called, place).is_none()
    }

    /// Records that a transmission was heard at this place and time; it was admitted. Noise changes
    /// nothing. Anything else is an answer: none is due any more, and the connection is owned by
    /// the terminal that is called, if one is and not all answer on one connection. Returns
    /// `LateAnswer` if the answer took longer than the time-out, its time counts, and nothing spoke
    /// against trust before. The time of ENQ does not count, nor that of EOT after the time-out.
    pub fn heard(
        &mut self,
        called: Option<usize>,
        place: usize,
        heard: &Heard<'_>,
        now: u64,
    ) -> Option<Distrust>
        ensures kept { self.new ≡ after_heard self.old called place heard.now now }
        ensures told { result ≡ told_of self.old heard.now now }
    {
        if is_noise(heard) {
            return None;
        }
        self.give(called, place);
        let time = now.saturating_sub(self.awaiting.unwrap_or(now));
        self.awaiting = None;
        self.heard_at = Some(now);
        if !is_timed(heard, time, self.time_out) {
            return None;
        }
        self.took(time)
    }

    /// Records that a transmission that arrived at this place was not heard, since it was not
    /// admitted, and returns the reason. The reasons, in this order: `NothingSent` if nothing was
    /// sent since the last answer; `Barred` if the connection is barred; and, if a terminal is
    /// called and not all answer on one connection, `OtherTerminal` if another terminal owns the
    /// connection, `SecondConnection` if the called one owns another connection, and `OtherAddress`
    /// if the connection is nobody's and its peer may not answer for the called one. If there is
    /// none, it returns `NothingSent`.
    ///
    /// The connection is barred after that if no terminal owns it, unless all answer on one
    /// connection. It stays barred until it is closed or another one begins at its place.
    pub fn ignored(&mut self, called: Option<usize>, place: usize) -> Distrust
        ensures kept { self.new ≡ after_ignored self.old called place }
        ensures told { result ≡ reason_told self.old called place }
    {
        let reason = match self.reason(called, place) {
            Some(reason) => reason,
            None => Distrust::NothingSent { connection: place },
        };
        self.distrust = first_reason(self.distrust, reason);
        let connected = self.connected_at(place);
        self.put(place, connected.after_ignored(self.shared));
        reason
    }

    /// Returns whether something that arrived on the connection at this place was not heard before,
    /// so that [`Trust::ignored`] has returned a reason for it. Of a station that goes on answering
    /// out of turn it is enough to tell that once.
    pub fn was_told(&self, place: usize) -> bool
        ensures { result ≡ was_told self.now place }
    {
        self.connected_at(place).told
    }

    /// Returns the terminal that owns the connection at this place, if one does: it has answered on
    /// it.
    pub fn owner(&self, place: usize) -> Option<usize>
        ensures { result ≡ (connected_at self.now.connections place).owner }
    {
        self.connected_at(place).owner
    }

    /// Returns the first reason for which the line is not trusted, or `None` if it is trusted.
    pub fn distrust(&self) -> Option<Distrust>
        ensures { result ≡ self.now.distrust }
    {
        self.distrust
    }

    /// Returns the time of the slowest answer in hundredths of the time-out, rounded down; `None`
    /// if no answer was heard whose time counts. Hundred times the time saturates at 2^64 - 1.
    pub fn slowest_share(&self) -> Option<u64>
        ensures { result ≡ slowest_share self.now }
    {
        match self.slowest {
            Some(slowest) => Some(slowest.saturating_mul(100) / self.time_out.max(1)),
            None => None,
        }
    }

    /// Returns why a transmission that arrived at this place, and is not noise, is not admitted;
    /// `None` if it is admitted.
    fn reason(&self, called: Option<usize>, place: usize) -> Option<Distrust>
        ensures { result ≡ reason self.now called place }
    {
        if self.awaiting.is_none() {
            return Some(Distrust::NothingSent { connection: place });
        }
        if self.connected_at(place).barred {
            return Some(Distrust::Barred { connection: place });
        }
        match called {
            Some(terminal) if !self.shared => self.reason_for(terminal, place),
            _ => None,
        }
    }

    /// Returns why an answer that arrived at this place does not come from this terminal.
    fn reason_for(&self, terminal: usize, place: usize) -> Option<Distrust>
        ensures { result ≡ reason_for self.now terminal place }
    {
        let connected = self.connected_at(place);
        match connected.owner {
            Some(owner) if owner == terminal => None,
            Some(owner) => Some(Distrust::OtherTerminal {
                connection: place,
                terminal: owner,
                called: terminal,
            }),
            None => self.reason_of_nobody(terminal, place, connected.peer),
        }
    }

    /// Returns why an answer that arrived at this place, on a connection of this peer that is
    /// nobody's, does not come from this terminal.
    fn reason_of_nobody(
        &self,
        terminal: usize,
        place: usize,
        peer: Option<IpAddr>,
    ) -> Option<Distrust>
        ensures { result ≡ reason_of_nobody self.now terminal place peer }
    {
        if let Some(first) = self.owned_by(terminal) {
            return Some(Distrust::SecondConnection {
                connection: place,
                first,
                terminal,
            });
        }
        if self.peers.forbids(terminal, peer) {
            return Some(Distrust::OtherAddress {
                connection: place,
                terminal,
            });
        }
        None
    }

    /// Returns what is known of the connection at this place.
    fn connected_at(&self, place: usize) -> Connected
        ensures { result ≡ connected_at self.now.connections place }
    {
        if place < MAX_CONNECTIONS {
            self.connections[place]
        } else {
            Connected::nobodys()
        }
    }

    /// Returns the place of the connection that this terminal owns, if it owns one.
    fn owned_by(&self, terminal: usize) -> Option<usize>
        ensures { result ≡ owned_by self.now.connections terminal }
    {
        self.connections
            .iter()
            .position(|connected| connected.is_of(terminal))
    }

    /// Sets what is known of the connection at this place, if it is the place of one.
    fn put(&mut self, place: usize, connected: Connected)
        ensures { self.new ≡ with_connected self.old place connected }
    {
        if place < MAX_CONNECTIONS {
            self.connections[place] = connected;
        }
    }

    /// Gives the connection at this place to the terminal that is called, if one is and not all
    /// answer on one connection.
    fn give(&mut self, called: Option<usize>, place: usize)
        ensures { self.new ≡ given_to self.old called place }
    {
        match called {
            Some(terminal) if !self.shared => {
                let mut connected = self.connected_at(place);
                connected.owner = Some(terminal);
                self.put(place, connected);
            }
            _ => {}
        }
    }

    /// Records that an answer took this time, which counts. Returns `LateAnswer` if that ends
    /// trust.
    fn took(&mut self, time: u64) -> Option<Distrust>
        ensures kept { self.new ≡ after_time self.old time }
        ensures told { result ≡ told_of_time self.old time Distrust.LateAnswer }
    {
        self.slowest = match self.slowest {
            Some(slowest) => Some(slowest.max(time)),
            None => Some(time),
        };
        self.limited(time, Distrust::LateAnswer)
    }

    /// Records that something took this time, which may be no more than the time-out. Returns the
    /// reason if that ends trust.
    fn limited(&mut self, time: u64, reason: Distrust) -> Option<Distrust>
        ensures kept { self.new
            ≡ record self.old { distrust = reason_after_time self.old time reason } }
        ensures told { result ≡ told_of_time self.old time reason }
    {
        if time <= self.time_out || self.distrust.is_some() {
            return None;
        }
        self.distrust = Some(reason);
        self.distrust
    }
}

/// Returns the first reason, after a later one.
fn first_reason(first: Option<Distrust>, later: Distrust) -> Option<Distrust>
    ensures { result ≡ first_reason first later }
{
    match first {
        Some(_) => first,
        None => Some(later),
    }
}
