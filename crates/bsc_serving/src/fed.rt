//! A station that programs feed, what keeps its records, and what watches it.

ghost use Rattle.std.specs.Prelude.{◌≡◌, None, false};
ghost use Rattle.bsc_serving.specs.Feds.{KeepsRelease, if_terminal};

use crate::failing::Failing;
use bsc_bid::Way;
use bsc_block::{Format, Record};
use bsc_connections::LiveError;
use bsc_feed::{Fault, Served};
use bsc_keeping::Keeps;
use bsc_monitor::{Presence, Presences};
use bsc_station::{ChannelEnd, LineStation, Party, Received};

/// A station that is fed, what keeps its records, and what watches it. What is offered is kept
/// before the station offers it. Once there is a failure the station must not be asked for more: it
/// has to end.
#[derive(Drop)]
pub struct Fed<'a, S, Q, V> {
    /// The station.
    station: &'a mut S,

    /// What keeps its records.
    keeps: &'a mut Q,

    /// What watches it, and knows which terminals are there.
    watch: &'a mut V,

    /// Whether a program asked the station to end.
    stopped: bool,

    /// Why the station has to end, if it has.
    failure: Option<LiveError>,
}

impl<'a, S: LineStation, Q: Keeps<S>, V: Presences> Fed<'a, S, Q, V> {
    /// Returns the station that is fed, with what keeps its records and what watches it.
    pub fn new(station: &'a mut S, keeps: &'a mut Q, watch: &'a mut V) -> Fed<'a, S, Q, V>
        ensures station { result.station ≡ station.entry }
        ensures keeps { result.keeps ≡ keeps.entry }
        ensures watch { result.watch ≡ watch.entry }
        ensures stopped { result.stopped ≡ false }
        ensures failure { result.failure ≡ None }
    {
        Fed {
            station,
            keeps,
            watch,
            stopped: false,
            failure: None,
        }
    }

    /// Returns whether a program asked the station to end.
    pub fn is_stopped(&self) -> bool
        ensures { result ≡ self.now.stopped }
    {
        self.stopped
    }

    /// Returns why the station has to end, if it has: `Unkept` if what a program did could not be
    /// kept, or the error of keeping what a release changed, and `Memory` if a record was kept for
    /// which the station has no memory.
    pub fn failure(&self) -> Option<LiveError>
        ensures { result ≡ self.now.failure }
    {
        self.failure
    }

    /// Keeps a release that the station has done. Fails with `NotKept`, and the station has to end.
    fn keep_release(&mut self) -> Result<(), Fault>
        ensures { KeepsRelease Q.keeps self.old result self.new }
    {
        match self.keeps.keep(&*self.station) {
            Ok(()) => Ok(()),
            Err(error) => {
                self.failure = Some(error);
                Err(Fault::NotKept)
            }
        }
    }
}

/// Returns the answer to what is asked of a terminal only, by whether the station is one.
fn if_terminal(is_terminal: bool) -> Result<(), Fault>
    ensures { result ≡ if_terminal is_terminal }
{
    if is_terminal {
        Ok(())
    } else {
        Err(Fault::NotATerminal)
    }
}

impl<'a, S: LineStation, Q: Keeps<S>, V: Presences> Failing for Fed<'a, S, Q, V> {
    ghost fails = { λ f. f.failure };

    ghost has_stopped = { λ f. f.stopped };

    fn failure(&self) -> Option<LiveError> {
        Fed::failure(self)
    }

    fn is_stopped(&self) -> bool {
        Fed::is_stopped(self)
    }
}

impl<'a, S: LineStation, Q: Keeps<S>, V: Presences> Party for Fed<'a, S, Q, V> {
    type Memory = S::Memory;

    ghost count = { λ f. S.count f.station.now };

    ghost numbers = { λ f. S.numbers f.station.now };

    ghost selects = { λ f. S.selects f.station.now };

    ghost ends = { λ f. S.ends f.station.now };

    ghost receives = { λ f. S.receives f.station.now };

    ghost terminal_of = { S.terminal_of };

    ghost way_of = { S.way_of };

    fn terminals(&self) -> usize {
        self.station.terminals()
    }

    fn number(&self, terminal: usize) -> usize {
        self.station.number(terminal)
    }

    fn addresses(&self, terminal: usize) -> usize {
        self.station.addresses(terminal)
    }

    fn end(&self, terminal: usize, way: Way) -> ChannelEnd<'_, S::Memory> {
        self.station.end(terminal, way)
    }

    fn spools(&self) -> usize {
        self.station.spools()
    }

    fn received(&self, number: usize) -> Received<'_, S::Memory> {
        self.station.received(number)
    }
}

impl<'a, S: LineStation, Q: Keeps<S>, V: Presences> Served for Fed<'a, S, Q, V> {
    ghost use Rattle.std.specs.Prelude.{◌≡◌, true};
    ghost use Rattle.bsc_serving.specs.Feds.{AsksTerminal, HasKeptNumber, KeepsAndOffers};
    ghost use Rattle.bsc_serving.specs.Feds.{PollsBy, ReleasesAndKeeps};

    ghost offered = { λ f. S.offered f.station.now };

    ghost is_kept = { HasKeptNumber S.offered Q.has_kept };

    ghost offers = { KeepsAndOffers S.offers Q.keeps_offer };

    ghost full = { λ f. S.full f.station.now };

    ghost releases = { ReleasesAndKeeps S.releases Q.keeps };

    ghost readies = { λ f ready. AsksTerminal (λ old. S.readies old ready) f };

    ghost urges = { AsksTerminal S.urges };

    ghost polls = { PollsBy V.shows V.obeys };

    ghost shows = { λ f terminal. V.shows f.watch.now terminal };

    ghost stops = { λ f new. new ≡ record f { stopped = true } };

    fn format(&self) -> Format {
        self.station.format()
    }

    fn offer(&mut self, terminal: usize, way: Way, new: Record) -> Result<usize, Fault> {
        let Ok(new) = self.keeps.offered(terminal, way, new) else {
            self.failure = Some(LiveError::Unkept);
            return Err(Fault::NotKept);
        };
        match self.station.offer(terminal, way, new) {
            Ok(number) => Ok(number),
            Err(_) => {
                self.failure = Some(LiveError::Memory);
                Err(Fault::OutOfMemory)
            }
        }
    }

    fn release(&mut self, terminal: usize, way: Way, count: usize) -> Result<(), Fault> {
        match self.station.release(terminal, way, count) {
            Ok(()) => self.keep_release(),
            Err(error) => Err(Fault::of_release(error)),
        }
    }

    fn set_ready(&mut self, ready: bool) -> Result<(), Fault> {
        if_terminal(self.station.set_ready(ready))
    }

    fn set_urgent(&mut self) -> Result<(), Fault> {
        if_terminal(self.station.set_urgent())
    }

    fn set_polled(&mut self, terminal: usize, polled: bool) -> Result<(), Fault> {
        if self.watch.presence(terminal).is_none() {
            return Err(Fault::NoSuchTerminal);
        }
        self.watch.set_polled(terminal, polled);
        Ok(())
    }

    fn presence(&self, terminal: usize) -> Option<Presence> {
        self.watch.presence(terminal)
    }

    fn stop(&mut self) {
        self.stopped = true;
    }
}
