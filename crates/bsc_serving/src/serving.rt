//! The programs of a station and their sessions.

ghost use Rattle.std.specs.Prelude.{◌≡◌, IfOk, None, replicate, true};
ghost use Rattle.bsc_feed.specs.Answering.{serving_of};
ghost use Rattle.bsc_keeping.specs.FedRuns.{RunsFed};
ghost use Rattle.bsc_keeping.specs.LiveRuns.{goes, unless_failed};
ghost use Rattle.bsc_serving.specs.Feds.{serving_fed};
ghost use Rattle.bsc_serving.specs.Places.{place_after};
ghost use Rattle.bsc_serving.specs.Serves.{IsAsked, IsServed, ServesPrograms, failure_of};
ghost use Rattle.bsc_serving.specs.declared.programs.TheConstants.{MAX_PROGRAMS};

use crate::failing::Failing;
use crate::session::{Session, Step};
use crate::{Called, Fed, MAX_PROGRAMS, Programs};
use bsc_connections::LiveError;
use bsc_feed::Served;
use bsc_keeping::Keeps;
use bsc_monitor::Presences;
use bsc_station::{LineStation, Party};
use std::alloc::{AllocError, Global};
use std::io::{Read, Write};

/// The most steps of all sessions in one turn of serving, so that the line is soon attended again,
/// also if each record that a program offers is kept on a slow disk.
const MAX_STEPS: usize = 16;

/// The most steps of a session beyond these, in which what it has to tell is written.
const MAX_WRITES: usize = 4;

/// The programs of a station and their sessions, 64 at most.
#[derive(Drop)]
pub struct Serving<P: Programs + Drop> {
    alloc: Global,

    /// The programs, as the machine gives them.
    programs: P,

    /// The session of the program at each place.
    places: Vec<Option<Session<P::Stream>>>,

    /// The place that is served first in the next turn.
    first: usize,

    /// Whether programs may have connected that are neither taken nor turned away.
    newcomers: bool,
}

impl<P: Programs + Drop> Serving<P> {
    /// Returns the programs of a station, none of which is served yet. Fails if an allocation does.
    pub fn new(alloc: Global, programs: P) -> Result<Serving<P>, AllocError>
        ensures programs { IfOk result (λ s. s.programs ≡ programs) }
        ensures places { IfOk result (λ s. s.places.items ≡ replicate MAX_PROGRAMS None) }
    {
        let mut places = Vec::with_capacity(alloc, MAX_PROGRAMS)?;
        'places: for _ in 0..MAX_PROGRAMS {
            places.push(None)?;
        }
        Ok(Serving {
            alloc,
            programs,
            places,
            first: 0,
            newcomers: true,
        })
    }

    /// Serves the programs: takes those that have connected, obeys their lines, and writes their
    /// answers and what happened on the channels that they follow, for a short while: 16 steps of
    /// all sessions, and what they then have to tell. `keeps` keeps the records of the station, and
    /// `watch` knows which terminals are there. Returns whether a program asked the station to end.
    ///
    /// The turn is part of the run of the station: each record that a program offers is kept, and
    /// only then offered, and the end of a doubt is kept before the next step. The run has not
    /// failed unless the turn does: with `Unkept` or `Memory` if what a program offered or released
    /// could not be kept, or not be offered after that. Its line is then not answered, and no
    /// program is served after it.
    pub fn serve<S: LineStation, Q: Keeps<S>, V: Presences>(
        &mut self,
        station: &mut S,
        keeps: &mut Q,
        watch: &mut V,
    ) -> Result<bool, LiveError>
        ensures { RunsFed S.Station S.LineStation.own Q.Keeps true (unless_failed result goes)
            (record { station = station.old; kept = keeps.old })
            (record { station = station.new; kept = keeps.new }) }
    {
        self.serve_all_places(station, keeps, watch)
    }

    /// Does the same. The station, and what keeps its records, are as the last step of a program
    /// left them.
    fn serve_all_places<'s, S: LineStation, Q: Keeps<S>, V: Presences>(
        &mut self,
        station: &'s mut S,
        keeps: &'s mut Q,
        watch: &'s mut V,
    ) -> Result<bool, LiveError>
        ensures { ServesPrograms
            (IsAsked ⟦<Fed<'s, S, Q, V> as Party>⟧
            (serving_fed S.LineStation.own Q.Keeps V.shows V.obeys) (λ f. f.failure))
            station.old keeps.old result station.new keeps.new }
    {
        self.programs.ask();
        self.hear();
        self.admit();
        let mut fed = Fed::new(station, keeps, watch);
        match self.serve_fed(&mut fed) {
            Ok(()) => Ok(fed.is_stopped()),
            Err(failure) => Err(failure),
        }
    }

    /// Serves the programs at one place after another, of the same station all the time.
    fn serve_fed<'s, S: LineStation, Q: Keeps<S>, V: Presences>(
        &mut self,
        fed: &mut Fed<'s, S, Q, V>,
    ) -> Result<(), LiveError>
        requires { fed.old.failure ≡ None }
        ensures served { IsServed ⟦<Fed<'s, S, Q, V> as Party>⟧
            (serving_fed S.LineStation.own Q.Keeps V.shows V.obeys) (λ f. f.failure) fed.old
            (failure_of result) fed.new }
        ensures same_station { fed.new.station.ghost_name ≡ fed.old.station.ghost_name }
        ensures same_keeps { fed.new.keeps.ghost_name ≡ fed.old.keeps.ghost_name }
        ensures same_watch { fed.new.watch.ghost_name ≡ fed.old.watch.ghost_name }
    {
        self.serve_all(fed)
    }

    /// Takes note of what has happened to the programs.
    fn hear(&mut self) {
        'called: for _ in 0..u64::MAX {
            match self.programs.next() {
                Some(Called::Newcomer) => self.newcomers = true,
                Some(Called::Program { place }) => wake(&mut self.places, place),
                None => return,
            }
        }
    }

    /// Takes the programs that have connected while there are free places, and turns away others.
    fn admit(&mut self) {
        if self.newcomers {
            self.newcomers = accept(&mut self.programs, &mut self.places);
        }
        if self.newcomers {
            self.newcomers = turn_away(&mut self.programs);
        }
        if self.newcomers {
            self.programs.call();
        }
    }

    /// Serves the programs at one place after another, until all are served or the turn has ended.
    fn serve_all<F: Failing>(&mut self, fed: &mut F) -> Result<(), LiveError>
        requires { F.fails fed.old ≡ None }
        ensures { IsServed F.Party (serving_of F.Served.own) F.fails fed.old
            (failure_of result) fed.new }
    {
        let mut left = MAX_STEPS;
        'turns: for _ in 0..MAX_PROGRAMS {
            let place = self.next_place();
            match serve_place(self.alloc, &mut self.places, place, fed, &mut left) {
                Ok(()) => {}
                Err(failure) => return Err(failure),
            }
            if left == 0 {
                self.programs.call();
                return Ok(());
            }
        }
        Ok(())
    }

    /// Returns the place that is served next, in turn.
    fn next_place(&mut self) -> usize
        ensures place { result ≡ self.old.first }
        ensures next { self.new.first ≡ place_after self.old.first }
        ensures others { self.new ≡ record self.old { first = self.new.first } }
    {
        let place = self.first;
        self.first = if place < MAX_PROGRAMS - 1 {
            place + 1
        } else {
            0
        };
        place
    }
}

/// Wakes the session at a place, if there is one.
fn wake<T: Read + Write + Drop>(places: &mut Vec<Option<Session<T>>>, place: usize) {
    if let Some(Some(session)) = places.get_mut(place) {
        session.wake();
    }
}

/// Takes programs that have connected while there are free places. Returns whether more may have.
fn accept<P: Programs>(programs: &mut P, places: &mut [Option<Session<P::Stream>>]) -> bool {
    'places: for place in 0..places.len() {
        if places[place].is_none() {
            match programs.accept(place) {
                Some(stream) => places[place] = Some(Session::new(stream)),
                None => return false,
            }
        }
    }
    true
}

/// Turns away programs that have connected, 64 at most. Returns whether more may have.
fn turn_away<P: Programs>(programs: &mut P) -> bool {
    'away: for _ in 0..MAX_PROGRAMS {
        if !programs.turn_away() {
            return false;
        }
    }
    true
}

/// Serves the program at a place, if there is one; its place is free once its session has ended.
fn serve_place<T: Read + Write + Drop, F: Failing>(
    alloc: Global,
    places: &mut Vec<Option<Session<T>>>,
    place: usize,
    fed: &mut F,
    left: &mut usize,
) -> Result<(), LiveError>
    requires { F.fails fed.old ≡ None }
    ensures { IsServed F.Party (serving_of F.Served.own) F.fails fed.old (failure_of result)
        fed.new }
{
    let Some(at) = places.get_mut(place) else {
        return Ok(());
    };
    let Some(session) = at else {
        return Ok(());
    };
    match serve_session(alloc, session, fed, left) {
        Ok(Step::Closed) => {
            *at = None;
            Ok(())
        }
        Ok(_) => Ok(()),
        Err(failure) => Err(failure),
    }
}

/// Does steps of a session while some are left in the turn, and then writes what it has to tell.
/// Returns what the last step leaves to do.
fn serve_session<T: Read + Write + Drop, F: Failing>(
    alloc: Global,
    session: &mut Session<T>,
    fed: &mut F,
    left: &mut usize,
) -> Result<Step, LiveError>
    requires { F.fails fed.old ≡ None }
    ensures { IsServed F.Party (serving_of F.Served.own) F.fails fed.old (failure_of result)
        fed.new }
{
    'steps: for _ in 0..MAX_STEPS + MAX_WRITES {
        if *left == 0 && !session.has_to_tell() {
            return Ok(Step::More);
        }
        let step = session.step(alloc, fed);
        if let Some(failure) = fed.failure() {
            return Err(failure);
        }
        if step != Step::More {
            return Ok(step);
        }
        *left = left.saturating_sub(1);
    }
    Ok(Step::More)
}
