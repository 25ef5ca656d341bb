//! A control station that has ended, until its last call is answered.

ghost use Rattle.std.specs.Prelude.{◌≡◌, ◌+◌, false};
ghost use Rattle.bsc_bid.specs.declared.limits.TheConstants.{MAX_TRIES};
ghost use Rattle.bsc_monitor.specs.LastCall.{ended_of, refuses};

use crate::trusting::Trusting;
use crate::watch::{Watch, live};
use bsc_bid::limits::MAX_TRIES;
use bsc_bid::{Speaker, Station};
use bsc_connections::{Decoded, LiveError, Monitor, Note, Pace};
use bsc_frame::{Heard, Message, MessageBuffer, Reply};
use bsc_report::{Calls, Seen};
use bsc_text::progress::{Meter, Timer};
use bsc_trust::Trust;
use std::alloc::Allocator;
use std::io::Write;

/// How often a station that has ended refuses what it hears, at most: as often as a terminal takes
/// before it gives up.
const REFUSALS: u8 = MAX_TRIES + 1;

/// A station that stores nothing and calls nobody. It takes the place of a control station that has
/// ended, so that the answer to its last call is heard before its connections are closed.
/// Otherwise a terminal would be told of a failed connection. A text it refuses by NAK until the
/// terminal gives up, which then knows that its block was not stored; without an answer that block
/// would be in doubt.
#[derive(Clone, Copy)]
pub struct Ended {
    /// How often it can refuse something from now on.
    left: u8,

    /// Whether it has refused what it heard last.
    refuses: bool,
}

impl Ended {
    /// Returns a station that has refused nothing.
    pub fn new() -> Ended
        ensures { result ≡ ended_of (MAX_TRIES + 1) false }
    {
        Ended {
            left: REFUSALS,
            refuses: false,
        }
    }

    /// Whether this is refused: a text, one that failed, or ENQ after what was refused.
    fn is_refused(&self, heard: &Heard<'_>) -> bool
        ensures { result ≡ refuses self.now heard.now }
    {
        let is_text = match heard {
            Heard::Whole(Message::Text(_)) | Heard::Failed => true,
            Heard::Whole(Message::Enq) => self.refuses,
            _ => false,
        };
        is_text && self.left > 0
    }
}

impl Station for Ended {
    ghost use Rattle.std.specs.Prelude.{◌≡◌, false, None};
    ghost use Rattle.bsc_monitor.specs.LastCall.{after_hearing, refusal_of};

    ghost hears = { λ old heard new sent.
        (new ≡ after_hearing old heard) × (sent ≡ refusal_of old heard) };

    ghost acts = { λ old new sent. (new ≡ old) × (sent ≡ None) };

    ghost holds = { λ _. false };

    fn answer(&mut self, heard: &Heard<'_>, sent: &mut MessageBuffer) {
        sent.clear();
        if matches!(heard, Heard::Noise) {
            return;
        }
        self.refuses = self.is_refused(heard);
        if self.refuses {
            self.left -= 1;
            sent.set_reply(Reply::Nak);
        }
    }

    fn act(&mut self, sent: &mut MessageBuffer) {
        sent.clear();
    }

    fn holds_line(&self) -> bool {
        false
    }

    ghost ignores_noise = { λ old new sent hearing. hearing };
}

/// Prints what is heard, and ends with what the station does not refuse, with a time-out, with the
/// close of a connection, or if it is asked to end a second time.
#[derive(Drop)]
pub struct LastWatch<'a, A: Allocator, T: Drop, D> {
    /// Prints the trace.
    pub(crate) watch: Watch<'a, A, T, D>,

    /// What is known of the premises, and which terminal was called last.
    pub(crate) trusting: Trusting,

    /// Whether the station was asked to end.
    pub(crate) stopped: bool,

    /// Whether the run has ended.
    pub(crate) ended: bool,
}

impl<'a, A: Allocator + Copy, T: Timer + Meter + Drop, D: Write> LastWatch<'a, A, T, D> {
    /// Returns what is known of the premises.
    pub fn trust(&self) -> Trust
        ensures { result ≡ self.now.trusting.trust }
    {
        self.trusting.trust()
    }
}

impl<'a, A: Allocator + Copy, T: Timer + Meter + Drop, D: Write> Monitor<Ended>
    for LastWatch<'a, A, T, D> {
    ghost use Rattle.std.specs.Prelude.{◌≡◌, IfErr, OnOk};
    ghost use Rattle.bsc_monitor.specs.Refusing.{IsTraceFault};
    ghost use Rattle.bsc_connections.specs.declared.awaited.Pace.TheVariants.{AtOnce};
    ghost use Rattle.bsc_monitor.specs.Telling.{LastShows, trace_of};
    ghost use Rattle.bsc_monitor.specs.Trusting.{is_admitted};
    ghost use Rattle.bsc_trust.specs.Trust.{may_answer};
    ghost use Rattle.bsc_monitor.specs.Watching.{last_of, last_told};

    ghost has_ended = { λ w. w.ended };

    ghost admits = { λ w _ place octets.
        is_admitted w.trusting.trust w.trusting.called place octets };

    ghost may_answer = { λ w _ place. may_answer w.trusting.trust w.trusting.called place };

    ghost paces = { λ _. AtOnce };

    ghost is_told = { λ old station happening result new.
        (last_of new.ended new.stopped
        ≡ last_told result (last_of old.ended old.stopped) station.refuses happening)
        × (OnOk result (LastShows happening old.trusting new.trusting
        (trace_of D.contents old.watch) (trace_of D.contents new.watch)))
        × (IfErr result IsTraceFault) };

    fn admits(&self, _station: &Ended, connection: usize, transmission: &Decoded<'_>) -> bool {
        self.trusting.admits_last(connection, transmission)
    }

    fn may_answer(&self, _station: &Ended, connection: usize) -> bool {
        self.trusting.may_answer_last(connection)
    }

    fn note(&mut self, station: &Ended, note: Note<'_>) -> Result<bool, LiveError> {
        let seen = Seen {
            time: self.watch.milliseconds(),
            me: Speaker::Control,
            calls: Calls::Neither,
        };
        live(self.watch.tell(seen, &note))?;
        let distrust = self.trusting.note(&note, seen.time);
        self.watch.tell_distrust(distrust)?;
        match note {
            Note::Heard { .. } => self.ended = self.ended || !station.refuses,
            Note::Silence | Note::Closed { .. } => self.ended = true,
            Note::Stopped => {
                self.ended = self.ended || self.stopped;
                self.stopped = true;
            }
            Note::Ignored { .. } | Note::Sent { .. } | Note::Withheld { .. } => {}
            Note::Joined { .. } | Note::Refused { .. } => {}
        }
        Ok(!self.ended)
    }

    fn pace(&self) -> Pace {
        Pace::AtOnce
    }
}
