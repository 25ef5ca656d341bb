//! The monitor that keeps what a station changes.

ghost use Rattle.std.specs.Prelude.{◌≡◌};
ghost use Rattle.bsc_connections.specs.Notes.{told_by};
ghost use Rattle.bsc_keeping.specs.Monitors.{KeepsIfStep};

use crate::Keeps;
use bsc_connections::{Decoded, LiveError, Monitor, Note, Pace};

/// A monitor that tells another monitor what happened, and then has kept what the station has
/// changed. The other one is told first since it reads the clock: to keep takes as long as a disk
/// or a reader of standard output takes, and what has arrived in time must not count as late for
/// that. If it cannot be kept the event is refused, so that nothing is sent.
#[derive(Drop)]
pub struct Keeping<'a, M, Q> {
    /// The inner monitor.
    watch: &'a mut M,

    /// What keeps.
    kept: &'a mut Q,
}

impl<'a, M, Q> Keeping<'a, M, Q> {
    /// Returns the monitor that tells `watch` and then has `kept` keep what the station changes.
    pub fn new(watch: &'a mut M, kept: &'a mut Q) -> Keeping<'a, M, Q>
        ensures watch { result.watch ≡ watch.entry }
        ensures kept { result.kept ≡ kept.entry }
    {
        Keeping { watch, kept }
    }

    /// Keeps what the station has changed, if this is something by which it may change.
    fn keep<S>(&mut self, station: &S, note: &Note<'_>) -> Result<(), LiveError>
    where
        Q: Keeps<S>,
        ensures keeps { KeepsIfStep Q.keeps (told_by note.now) station.now result self.old.kept.now
            self.new.kept.now }
        ensures watch { self.new.watch.now ≡ self.old.watch.now }
        ensures same_watch { self.new.watch.ghost_name ≡ self.old.watch.ghost_name }
        ensures same_kept { self.new.kept.ghost_name ≡ self.old.kept.ghost_name }
    {
        match note {
            Note::Heard { .. } | Note::Silence => self.kept.keep(station),
            Note::Sent { .. } | Note::Withheld { .. } => Ok(()),
            Note::Ignored { .. } | Note::Stopped => Ok(()),
            Note::Joined { .. } | Note::Refused { .. } | Note::Closed { .. } => Ok(()),
        }
    }
}

impl<'a, S, M: Monitor<S>, Q: Keeps<S>> Monitor<S> for Keeping<'a, M, Q> {
    ghost use Rattle.bsc_keeping.specs.Monitors.{TellsAndKeeps};

    ghost has_ended = { λ k. M.has_ended k.watch.now };

    ghost admits = { λ k station place octets. M.admits k.watch.now station place octets };

    ghost may_answer = { λ k station place. M.may_answer k.watch.now station place };

    ghost paces = { λ k. M.paces k.watch.now };

    ghost is_told = { TellsAndKeeps Q.keeps M.is_told };

    fn note(&mut self, station: &S, note: Note<'_>) -> Result<bool, LiveError> {
        let goes_on = self.watch.note(station, note)?;
        match self.keep(station, &note) {
            Ok(()) => Ok(goes_on),
            Err(error) => Err(error),
        }
    }

    fn admits(&self, station: &S, connection: usize, transmission: &Decoded<'_>) -> bool {
        self.watch.admits(station, connection, transmission)
    }

    fn may_answer(&self, station: &S, connection: usize) -> bool {
        self.watch.may_answer(station, connection)
    }

    fn pace(&self) -> Pace {
        self.watch.pace()
    }
}
