//! The trace while a station is attended.

ghost use Rattle.std.specs.Prelude.{◌≡◌, ◌+◌, IfErr, OnOk};
ghost use Rattle.bsc_connections.specs.Notes.{told_by};
ghost use Rattle.bsc_text.specs.Counts.{saturated};
ghost use Rattle.bsc_monitor.specs.Refusing.{IsTraceFault};
ghost use Rattle.bsc_monitor.specs.Telling.{BeginsLine, ShowsDistrust, ShowsEvent, ShowsLine};
ghost use Rattle.bsc_monitor.specs.Telling.{ShowsNews, ShowsTerminals, trace_of};
ghost use Rattle.bsc_monitor.specs.Watching.{live_of};
ghost use Rattle.bsc_report.specs.Terminals.{news_line};
ghost use Rattle.bsc_report.specs.Traces.{distrust_line};

use bsc_connections::{LiveError, Note};
use bsc_report::{
    HeldCall, Seen, TerminalNews, TerminalsTold, Tracing, write_change, write_distrust, write_held,
    write_news, write_next, write_note,
};
use bsc_station::{Party, station_counts};
use bsc_text::progress::{Meter, Timer};
use bsc_text::{PrintError, write_time};
use bsc_trust::Distrust;
use std::alloc::Allocator;
use std::io::Write;

/// Prints the trace of a station, and shows how far it has come. Which peers join, leave and are
/// refused, and that something was withheld, is always reported.
#[derive(Drop)]
pub struct Watch<'a, A: Allocator, T: Drop, D> {
    alloc: A,

    /// Which transmissions and time-outs have a line. With any a line is also printed for each
    /// connection that begins or ends.
    tracing: Tracing,

    /// The clock of the trace, which also shows how far the station has come.
    timer: T,

    /// The number of events so far.
    events: u64,

    /// The line of the trace that is held back.
    held: Option<HeldCall>,

    /// The writer for the trace.
    errors: &'a mut D,
}

impl<'a, A: Allocator + Copy, T: Timer + Meter + Drop, D: Write> Watch<'a, A, T, D> {
    ghost use Rattle.std.specs.Prelude.{None};

    /// Returns the trace of a station to which nothing has happened.
    pub fn new(alloc: A, tracing: Tracing, timer: T, errors: &'a mut D) -> Watch<'a, A, T, D>
        ensures tracing { result.tracing ≡ tracing }
        ensures held { result.held ≡ None }
        ensures events { result.events ≡ 0 }
    {
        Watch {
            alloc,
            tracing,
            timer,
            events: 0,
            held: None,
            errors,
        }
    }

    /// Returns the milliseconds since the start of the station.
    pub(crate) fn milliseconds(&mut self) -> u64
        ensures { trace_of D.contents self.new ≡ trace_of D.contents self.old }
    {
        self.timer.milliseconds()
    }

    /// Shows how far a station has come, if it is time: the rounds that it has made, or without
    /// these the events.
    pub(crate) fn show_progress<P: Party>(&mut self, station: &P, rounds: Option<u64>)
        ensures events { self.new.events ≡ saturated (self.old.events + 1) }
        ensures trace { trace_of D.contents self.new ≡ trace_of D.contents self.old }
    {
        self.events = self.events.saturating_add(1);
        if self.timer.is_due() {
            let done = rounds.unwrap_or(self.events);
            self.timer.show(station_counts(station, done));
        }
    }

    /// Prints what is told of terminals, in a trace with the time.
    pub(crate) fn tell_terminals(&mut self, all: TerminalsTold) -> Result<(), LiveError>
        ensures trace { OnOk result (ShowsTerminals all (trace_of D.contents self.old)
            (trace_of D.contents self.new)) }
        ensures fault { IfErr result IsTraceFault }
    {
        self.tell_terminal(all.moved)?;
        self.tell_terminal(all.silent)?;
        self.tell_terminal(all.visited)
    }

    /// Prints this of a terminal, in a trace with the time. Prints nothing if there is nothing to
    /// tell.
    fn tell_terminal(&mut self, news: Option<TerminalNews>) -> Result<(), LiveError>
        ensures trace { OnOk result (ShowsNews news (trace_of D.contents self.old)
            (trace_of D.contents self.new)) }
        ensures fault { IfErr result IsTraceFault }
    {
        match news {
            Some(news) => live(self.write_news(news)),
            None => Ok(()),
        }
    }

    /// Writes the line that tells this of a terminal, in a trace with the time.
    fn write_news(&mut self, news: TerminalNews) -> Result<(), PrintError>
        ensures trace { OnOk result (ShowsLine (news_line news)
            (trace_of D.contents self.old) (trace_of D.contents self.new)) }
    {
        self.write_start()?;
        write_news(news, self.errors)
    }

    /// Prints why the line is not trusted, in a trace with the time. Prints nothing if there is no
    /// reason.
    pub(crate) fn tell_distrust(&mut self, why: Option<Distrust>) -> Result<(), LiveError>
        ensures trace { OnOk result (ShowsDistrust why (trace_of D.contents self.old)
            (trace_of D.contents self.new)) }
        ensures fault { IfErr result IsTraceFault }
    {
        match why {
            Some(why) => live(self.write_distrust(why)),
            None => Ok(()),
        }
    }

    /// Writes why the line is not trusted, in a trace with the time.
    fn write_distrust(&mut self, why: Distrust) -> Result<(), PrintError>
        ensures trace { OnOk result (ShowsLine (distrust_line why) (trace_of D.contents self.old)
            (trace_of D.contents self.new)) }
    {
        self.write_start()?;
        write_distrust(why, self.errors)
    }

    /// Writes the start of a line that tells of no event: in a trace the line that is held back,
    /// and the time.
    fn write_start(&mut self) -> Result<(), PrintError>
        ensures trace { OnOk result (BeginsLine (trace_of D.contents self.old)
            (trace_of D.contents self.new)) }
    {
        if matches!(self.tracing, Tracing::Off) {
            return Ok(());
        }
        let time = self.timer.milliseconds();
        write_held(self.alloc, &self.held, self.errors)?;
        self.held = None;
        write_time(time, self.errors)
    }

    /// Prints the line for an event: a line of the trace, or without a trace only that of a peer
    /// that joined, left or was refused, or of something that was withheld.
    pub(crate) fn tell(&mut self, seen: Seen, note: &Note<'_>) -> Result<(), PrintError>
        ensures trace { OnOk result (ShowsEvent seen.calls seen.me seen.time (told_by note.now)
            (trace_of D.contents self.old)
            (trace_of D.contents self.new)) }
    {
        match self.tracing {
            Tracing::Off => write_change(note, self.errors),
            Tracing::Exchanges => write_next(self.alloc, seen, note, &mut self.held, self.errors),
            Tracing::All => write_note(self.alloc, seen.time, seen.me, note, self.errors),
        }
    }
}

/// Converts the result of printing a line of the trace to that of attending a station.
pub(crate) fn live(printed: Result<(), PrintError>) -> Result<(), LiveError>
    ensures value { result ≡ live_of printed }
    ensures fault { IfErr result IsTraceFault }
{
    match printed {
        Ok(()) => Ok(()),
        Err(PrintError::Output) => Err(LiveError::Output),
        Err(PrintError::Memory) => Err(LiveError::Memory),
    }
}
