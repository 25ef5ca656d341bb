//! The monitor of a control station.

ghost use Rattle.std.specs.Prelude.{◌≡◌, false, length};
ghost use Rattle.bsc_connections.specs.declared.awaited.Pace.TheVariants.{AtOnce};
ghost use Rattle.bsc_connections.specs.Notes.{told_by};
ghost use Rattle.bsc_monitor.specs.Absences.{is_retry, new_absences};
ghost use Rattle.bsc_monitor.specs.Answering.{new_answering};
ghost use Rattle.bsc_monitor.specs.Progress.{counts_in, pace_after, pace_with, progress_of};
ghost use Rattle.bsc_monitor.specs.Telling.{calls_in};
ghost use Rattle.bsc_monitor.specs.Trusting.{called_by, trusting_of};

use crate::absences::{Absences, Turn};
use crate::answering::Answering;
use crate::ended::LastWatch;
use crate::progress::Progress;
use crate::trusting::{Trusting, called_by};
use crate::watch::{Watch, live};
use crate::{AbsenceLimits, Limits, Presence, Presences};
use bsc_bid::Speaker;
use bsc_connections::{Decoded, LiveError, Monitor, Note, Pace};
use bsc_control::{Control, Task};
use bsc_report::{Calls, Seen, TerminalsTold, unanswered};
use bsc_station::Party;
use bsc_text::progress::{Meter, Timer};
use bsc_trust::Trust;
use std::alloc::Allocator;
use std::io::Write;

/// Traces what happens to a control station, admits the answers that are due, and ends the run
/// after enough rounds of the poll list. If no other peer can connect, the run also ends when a
/// connection is closed. If the station is asked to end, the run ends with the visit to the entry
/// that is polled, or at a silence; if it is asked again, at once.
#[derive(Drop)]
pub struct ControlWatch<'a, A: Allocator, T: Drop, D> {
    /// Prints the trace.
    watch: Watch<'a, A, T, D>,

    /// Counts visits and rounds.
    progress: Progress,

    /// What is known of the premises, and which terminal was called last.
    trusting: Trusting,

    /// How the next wait begins.
    pace: Pace,

    /// Which terminals do not answer their polls, as far as it is told.
    answering: Answering,

    /// Which terminals are absent.
    absences: Absences,
}

impl<'a, A: Allocator + Copy, T: Timer + Meter + Drop, D: Write> ControlWatch<'a, A, T, D> {
    /// Returns the monitor of a control station that has sent nothing. `listens` tells whether
    /// other peers may connect later. `trust` is what is known of the premises. `absence` says when
    /// a terminal is absent.
    pub fn new<B: Allocator>(
        control: &Control<B>,
        watch: Watch<'a, A, T, D>,
        limits: Limits,
        absence: AbsenceLimits,
        listens: bool,
        trust: Trust,
    ) -> ControlWatch<'a, A, T, D>
        ensures watch { result.watch ≡ watch.entry }
        ensures progress { result.progress
            ≡ progress_of limits listens (counts_in control.now).arrived }
        ensures trusting { result.trusting ≡ trusting_of trust (called_by control.now) }
        ensures answering { result.answering ≡ new_answering }
        ensures absences { result.absences ≡ new_absences absence (length control.now.peers) }
        ensures pace { result.pace ≡ AtOnce }
    {
        ControlWatch {
            watch,
            progress: Progress::new(control, limits, listens),
            trusting: Trusting::new(control, trust),
            pace: Pace::AtOnce,
            answering: Answering::new(),
            absences: Absences::new(absence, control.terminals()),
        }
    }

    /// Whether the run ended because a connection was closed and no other peer can connect.
    pub fn is_closed(&self) -> bool
        ensures { result ≡ self.now.progress.closed }
    {
        self.progress.is_closed()
    }

    /// Returns what is known of the premises.
    pub fn trust(&self) -> Trust
        ensures { result ≡ self.now.trusting.trust }
    {
        self.trusting.trust()
    }

    /// Returns how the wait after an event begins that the progress has not counted yet.
    fn pace_after<B: Allocator>(&self, control: &Control<B>, note: &Note<'_>) -> Pace
        ensures { result ≡ pace_with (is_retry self.now.absences (called_by control.now))
            (pace_after self.now.progress control.now (told_by note.now)) }
    {
        if self.absences.is_retry(called_by(control)) {
            return Pace::AtOnce;
        }
        self.progress.pace_after(control, note)
    }

    /// Returns the monitor that remains until the last call is answered.
    pub fn into_last(self) -> LastWatch<'a, A, T, D>
        ensures watch { result.watch ≡ self.entry.watch }
        ensures trusting { result.trusting ≡ self.entry.trusting }
        ensures stopped { result.stopped ≡ self.entry.progress.stopped }
        ensures ended { result.ended ≡ false }
    {
        let ControlWatch {
            watch,
            progress,
            trusting,
            ..
        } = self;
        LastWatch {
            watch,
            trusting,
            stopped: progress.is_stopped(),
            ended: false,
        }
    }
}

impl<'a, A: Allocator + Copy, T: Timer + Meter + Drop, D: Write, B: Allocator> Monitor<Control<B>>
    for ControlWatch<'a, A, T, D> {
    ghost use Rattle.std.specs.Prelude.{◌≡◌, IfErr, OnOk};
    ghost use Rattle.bsc_monitor.specs.Answering.{answering_after};
    ghost use Rattle.bsc_monitor.specs.Absences.{is_retry};
    ghost use Rattle.bsc_monitor.specs.Progress.{pace_after, pace_with, visited_in};
    ghost use Rattle.bsc_monitor.specs.Refusing.{IsTraceFault};
    ghost use Rattle.bsc_monitor.specs.Telling.{ControlShows, trace_of};
    ghost use Rattle.bsc_monitor.specs.Trusting.{called_by, is_admitted};
    ghost use Rattle.bsc_trust.specs.Trust.{may_answer};
    ghost use Rattle.bsc_monitor.specs.Watching.{Counts};

    ghost has_ended = { λ w. w.progress.ended };

    ghost admits = { λ w station place octets.
        is_admitted w.trusting.trust (called_by station) place octets };

    ghost may_answer = { λ w station place.
        may_answer w.trusting.trust (called_by station) place };

    ghost paces = { λ w. w.pace };

    ghost is_told = { λ old station happening result new.
        Counts result station happening old.progress new.progress
        × (OnOk result (new.pace ≡ pace_with (is_retry new.absences (called_by station))
        (pace_after old.progress station happening)))
        × (OnOk result (ControlShows station happening
        (visited_in old.progress station happening) old.answering old.absences new.absences
        old.trusting new.trusting
        (trace_of D.contents old.watch) (trace_of D.contents new.watch)))
        × (OnOk result (new.answering ≡ answering_after old.answering station happening))
        × (IfErr result IsTraceFault) };

    fn admits(&self, station: &Control<B>, connection: usize, transmission: &Decoded<'_>) -> bool {
        self.trusting
            .admits_for(called_by(station), connection, transmission)
    }

    fn may_answer(&self, station: &Control<B>, connection: usize) -> bool {
        self.trusting.may_answer_for(called_by(station), connection)
    }

    fn note(&mut self, station: &Control<B>, note: Note<'_>) -> Result<bool, LiveError> {
        let seen = Seen {
            time: self.watch.milliseconds(),
            me: Speaker::Control,
            calls: calls_of(station),
        };
        live(self.watch.tell(seen, &note))?;
        let owner = self.trusting.owner(&note);
        let distrust = self.trusting.note(&note, seen.time);
        let moved = self.trusting.moved(&note, owner);
        let turn = Turn {
            called: self.trusting.called(),
            ended: self.progress.visited(station, &note),
            repeated: station.failures() > 0,
        };
        self.trusting.call(station);
        self.watch.tell_distrust(distrust)?;
        let told = TerminalsTold {
            moved,
            silent: unanswered(self.answering.note(station, &note)),
            visited: self
                .absences
                .note(&note, turn, seen.time, moved, called_by(station)),
        };
        self.watch.tell_terminals(told)?;
        self.pace = self.pace_after(station, &note);
        let goes_on = self.progress.note(station, &note);
        self.watch
            .show_progress(station, Some(self.progress.rounds()));
        Ok(goes_on)
    }

    fn pace(&self) -> Pace {
        self.pace
    }
}

impl<'a, A: Allocator + Copy, T: Timer + Meter + Drop, D: Write> Presences
    for ControlWatch<'a, A, T, D> {
    ghost use Rattle.bsc_monitor.specs.Absences.{presence_at, requested, wants};

    ghost wants = { λ w terminal. wants w.absences terminal };

    ghost shows = { λ w terminal. presence_at w.absences terminal };

    ghost obeys = { λ old terminal polled new.
        new ≡ record old { absences = requested old.absences terminal polled } };

    fn wants(&self, terminal: usize) -> bool {
        self.absences.wants(terminal)
    }

    fn presence(&self, terminal: usize) -> Option<Presence> {
        self.absences.presence(terminal)
    }

    fn set_polled(&mut self, terminal: usize, polled: bool) {
        self.absences.request(terminal, polled);
    }
}

/// Returns which calls may begin an idle poll: while the control station polls, those that it
/// sends.
fn calls_of<B: Allocator>(control: &Control<B>) -> Calls
    ensures { result ≡ calls_in control.now.task }
{
    match control.task() {
        Task::Polling { .. } => Calls::Sent,
        _ => Calls::Neither,
    }
}
