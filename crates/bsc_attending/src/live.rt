//! The loop of a live station.

ghost use Rattle.std.specs.Prelude.{◌≡◌, ◌&&◌, IfOk, OnOk, is_some, length, not, true};
ghost use Rattle.bsc_attending.specs.Ending.{JoinsFirst};
ghost use Rattle.bsc_attending.specs.Framings.{NamesAddress};
ghost use Rattle.bsc_attending.specs.Live.{SettlesAndSteps, TellsStopped, state};
ghost use Rattle.bsc_attending.specs.Opening.{IsLiveOver};
ghost use Rattle.bsc_keeping.specs.FedRuns.{RunsFed};
ghost use Rattle.bsc_keeping.specs.LiveRuns.{course_of, ended, unless_failed};

use crate::connections::connections_at;
use crate::forgetting::forget_at_times;
use crate::serving::serving_of;
use crate::{Opened, Reachable};
use bsc_bid::Station;
use bsc_connections::{Connection, Framing, LiveError, Monitor, Note, Waiter, attend};
use bsc_keeping::{Keeping, Keeps, step_kept};
use bsc_monitor::{Presences, settle};
use bsc_serving::{Programs, Serving};
use bsc_station::LineStation;
use bsc_trust::Trust;
use std::alloc::{AllocError, Global};
use std::io::{Read, Write};
use std::net::IpAddr;

/// What a station is attended with, beside what keeps its records.
#[derive(Drop)]
pub(crate) struct Live<R: Drop, W: Drop, F: Drop, T: Drop, P: Programs + Drop> {
    /// Its connections, in order.
    pub(crate) connections: Vec<Connection<R, W, F>>,

    /// The waiter for them.
    pub(crate) waiter: T,

    /// The programs that feed it; `None` if none can reach it.
    pub(crate) programs: Option<Serving<P>>,

    /// Whether it forgets the records that it has printed.
    pub(crate) forgets_printed: bool,
}

impl<
    R: Read + Drop,
    W: Write + Drop,
    F: Framing + Drop,
    T: Waiter<R, W> + Drop,
    P: Programs + Drop,
> Live<R, W, F, T, P> {
    /// Returns what a station is attended with over connections that are made, with vacant places
    /// after them, by which programs can reach it, if any can. Fails if an allocation does.
    pub(crate) fn over(
        alloc: Global,
        opened: Opened<R, W, T>,
        reachable: Option<Reachable<P>>,
        forgets_printed: bool,
    ) -> Result<Live<R, W, F, T, P>, AllocError>
        ensures over { IfOk result (λ live. IsLiveOver opened reachable forgets_printed live) }
        ensures fed { IfOk result (λ live. is_some live.programs ≡ is_some reachable) }
    {
        let Opened {
            waiter,
            connections,
            places,
        } = opened;
        let programs = serving_of(alloc, reachable)?;
        let connections = connections_at(alloc, connections, places)?;
        Ok(Live {
            connections,
            waiter,
            programs,
            forgets_printed,
        })
    }

    /// Attends a station until its monitor ends it. The terminals are polled that the monitor
    /// wants, and then the station takes a step, in which what it has changed is kept before its
    /// answer goes out. After it the records that are kept are printed as standard output takes
    /// them, what is not needed any more is forgotten at times, and programs are served for a short
    /// while. At the end all that has changed is kept once more.
    pub(crate) fn attend<S: LineStation, M: Monitor<S> + Presences, Q: Keeps<S>>(
        &mut self,
        station: &mut S,
        watch: &mut M,
        kept: &mut Q,
    ) -> Result<(), LiveError>
        ensures { RunsFed S.Station S.LineStation.own Q.Keeps (is_some self.old.programs)
            (unless_failed result ended) (state station.old kept.old)
            (state station.new kept.new) }
    {
        let mut is_told = false;
        'steps: for count in 0..u64::MAX {
            let goes_on = self.step(station, watch, kept)?;
            kept.print(station);
            forget_at_times(station, kept, self.forgets_printed, count);
            if !goes_on || !self.serve(station, watch, kept, &mut is_told)? {
                return kept.keep(station);
            }
        }
        Err(LiveError::Count)
    }

    /// Has the terminals polled that the monitor wants, and then waits for the next event and
    /// handles it. Returns false if the monitor has ended the station.
    fn step<S: LineStation, M: Monitor<S> + Presences, Q: Keeps<S>>(
        &mut self,
        station: &mut S,
        watch: &mut M,
        kept: &mut Q,
    ) -> Result<bool, LiveError>
        ensures steps { SettlesAndSteps S.Station Q.keeps S.polls (M.wants watch.old)
            (S.count station.old) (state station.old kept.old) result
            (state station.new kept.new) }
        ensures programs { self.new.programs ≡ self.old.programs }
        ensures forgets { self.new.forgets_printed ≡ self.old.forgets_printed }
    {
        settle(station, watch);
        let mut keeping = Keeping::new(watch, kept);
        step_kept(
            station,
            &mut self.connections,
            &mut self.waiter,
            &mut keeping,
        )
    }

    /// Serves the programs that can reach the station, and tells its monitor that it was asked to
    /// end, once; `is_told` says whether it was told. Returns false if the monitor has ended it.
    fn serve<S: LineStation, M: Monitor<S> + Presences, Q: Keeps<S>>(
        &mut self,
        station: &mut S,
        watch: &mut M,
        kept: &mut Q,
        is_told: &mut bool,
    ) -> Result<bool, LiveError>
        ensures ran { RunsFed S.Station S.LineStation.own Q.Keeps (is_some self.old.programs)
            (course_of result) (state station.old kept.old)
            (state station.new kept.new) }
        ensures programs { is_some self.new.programs ≡ is_some self.old.programs }
        ensures forgets { self.new.forgets_printed ≡ self.old.forgets_printed }
    {
        let Some(programs) = &mut self.programs else {
            return Ok(true);
        };
        let is_asked = programs.serve(station, kept, watch)?;
        tell_stopped(station, watch, is_asked, is_told)
    }

    /// Attends another station over the connections until its monitor ends it: the one that takes
    /// the place of a control station that has ended.
    pub(crate) fn attend_last<S: Station, M: Monitor<S>>(
        &mut self,
        station: &mut S,
        monitor: &mut M,
    ) -> Result<(), LiveError>
        ensures { OnOk result (M.has_ended monitor.new ≡ true) }
    {
        attend(station, &mut self.connections, &mut self.waiter, monitor)
    }

    /// Records the peers of the connections with which the control station begins.
    pub(crate) fn joined_by(&self, trust: Trust) -> Trust
        ensures { JoinsFirst (λ place. NamesAddress (T.names self.now.waiter place))
            (length self.now.connections.items) trust result }
    {
        let mut trust = trust;
        'places: for place in 0..self.connections.len() {
            trust.joined(place, self.peer(place));
        }
        trust
    }

    /// Returns the address of the peer of the connection at this place, if it is known.
    fn peer(&self, place: usize) -> Option<IpAddr>
        ensures { NamesAddress (T.names self.now.waiter place) result }
    {
        match self.waiter.peer(place) {
            Some(peer) => Some(peer.ip()),
            None => None,
        }
    }
}

/// Tells the monitor of a station that it was asked to end, once. `is_told` says whether it was
/// told before, and then says that it was. Returns false if the monitor has ended the station.
fn tell_stopped<S, M: Monitor<S>>(
    station: &S,
    watch: &mut M,
    is_asked: bool,
    is_told: &mut bool,
) -> Result<bool, LiveError>
    ensures { TellsStopped M.is_told station.now (is_asked && not is_told.old) is_told.old
        is_told.new watch.old result watch.new }
{
    if !is_asked || *is_told {
        return Ok(true);
    }
    *is_told = true;
    watch.note(station, Note::Stopped)
}
