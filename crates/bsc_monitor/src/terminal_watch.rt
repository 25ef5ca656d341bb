//! The monitor of a terminal.

ghost use Rattle.std.specs.Prelude.{◌≡◌, None, false};

use crate::watch::{Watch, live};
use bsc_bid::Speaker;
use bsc_carrier::CarrierError;
use bsc_connections::{Decoded, LiveError, Monitor, Note, Pace};
use bsc_report::{Calls, Seen};
use bsc_station::{LineTerminal, Party};
use bsc_text::progress::{Meter, Timer};
use std::alloc::Allocator;
use std::io::Write;

/// Traces what happens to a terminal, and ends the run when its connection is closed. If the
/// terminal is asked to end, the run ends once it is in control mode; if it is asked again, at
/// once.
#[derive(Drop)]
pub struct TerminalWatch<'a, A: Allocator, T: Drop, D> {
    /// Prints the trace.
    watch: Watch<'a, A, T, D>,

    /// The fault that closed the connection, if it was a fault.
    closed: Option<CarrierError>,

    /// Whether the terminal was asked to end.
    stopped: bool,

    /// Whether the run has ended.
    ended: bool,
}

impl<'a, A: Allocator + Copy, T: Timer + Meter + Drop, D: Write> TerminalWatch<'a, A, T, D> {
    /// Returns the monitor of a terminal to which nothing has happened.
    pub fn new(watch: Watch<'a, A, T, D>) -> TerminalWatch<'a, A, T, D>
        ensures watch { result.watch ≡ watch.entry }
        ensures closed { result.closed ≡ None }
        ensures stopped { result.stopped ≡ false }
        ensures ended { result.ended ≡ false }
    {
        TerminalWatch {
            watch,
            closed: None,
            stopped: false,
            ended: false,
        }
    }

    /// Returns the fault that closed the connection. Returns `None` if the connection is open, or
    /// if its peer closed it between transmissions.
    pub fn closed(&self) -> Option<CarrierError>
        ensures { result ≡ self.now.closed }
    {
        self.closed
    }
}

impl<'a, A: Allocator + Copy, T: Timer + Meter + Drop, D: Write, B: Allocator> Monitor<
    LineTerminal<B>,
> for TerminalWatch<'a, A, T, D> {
    ghost use Rattle.std.specs.Prelude.{◌≡◌, IfErr, OnOk, true};
    ghost use Rattle.bsc_connections.specs.declared.awaited.Pace.TheVariants.{AtOnce};
    ghost use Rattle.bsc_monitor.specs.Refusing.{IsTraceFault};
    ghost use Rattle.bsc_monitor.specs.Telling.{TerminalShows, trace_of};
    ghost use Rattle.bsc_monitor.specs.Watching.{closing_of, closing_told};

    ghost has_ended = { λ w. w.ended };

    ghost admits = { λ _ _ _ _. true };

    ghost may_answer = { λ _ _ _. true };

    ghost paces = { λ _. AtOnce };

    ghost is_told = { λ old station happening result new.
        (closing_told result (closing_of old.ended old.closed old.stopped)
        station.tributary.mode happening
        ≡ closing_of new.ended new.closed new.stopped)
        × (OnOk result (TerminalShows station.number happening
        (trace_of D.contents old.watch) (trace_of D.contents new.watch)))
        × (IfErr result IsTraceFault) };

    fn admits(
        &self,
        _station: &LineTerminal<B>,
        _connection: usize,
        _transmission: &Decoded<'_>,
    ) -> bool {
        true
    }

    fn may_answer(&self, _station: &LineTerminal<B>, _connection: usize) -> bool {
        true
    }

    fn note(&mut self, station: &LineTerminal<B>, note: Note<'_>) -> Result<bool, LiveError> {
        let seen = Seen {
            time: self.watch.milliseconds(),
            me: Speaker::Terminal {
                number: station.line_number(),
            },
            calls: Calls::Heard,
        };
        live(self.watch.tell(seen, &note))?;
        self.watch.show_progress(station, None);
        let in_control_mode = station.in_control_mode();
        match note {
            Note::Closed { why, .. } => {
                self.closed = why;
                self.ended = true;
            }
            Note::Stopped => {
                self.ended = self.ended || self.stopped || in_control_mode;
                self.stopped = true;
            }
            _ => self.ended = self.ended || (self.stopped && in_control_mode),
        }
        Ok(!self.ended)
    }

    fn pace(&self) -> Pace {
        Pace::AtOnce
    }
}
