//! The connections of a station, and its waiter.

ghost use Rattle.std.specs.Prelude.{◌≡◌, ◌<◌, ◌^◌, IfErr, IfOk, IfSome, IsNone, IsSome, OnOk};
ghost use Rattle.std.specs.Duration.{as_nanos};
ghost use Rattle.std.specs.Prelude.{None, true, false, is_some, slice_get, slice_set};
ghost use Rattle.std.specs.Prelude.{if◌then◌else◌};
ghost use Rattle.bsc_sockets.specs.Answers.{may_connect, newcomer_address, newcomer_may};
ghost use Rattle.bsc_sockets.specs.Beginning.{HasBegunSockets};
ghost use Rattle.bsc_sockets.specs.Listening.{IsDenied, IsUnwatched};
ghost use Rattle.bsc_sockets.specs.Ready.{without_place};
ghost use Rattle.bsc_sockets.specs.Standings.{after_joining, is_known, moves_time_out};
ghost use Rattle.bsc_sockets.specs.Standings.{silence_of, standings_value};

use crate::asking::watch_work;
use crate::directions::{Reading, Writing, directions};
use crate::pausing::Rest;
use crate::ready::Ready;
use crate::standings::Standings;
use crate::stopping::{Stopping, watch};
use crate::times::{End, Times};
use crate::unread::Unread;
use crate::{ConnectionSettings, Listening, SocketsError};
use bsc_connections::{Awaited, Handled, LiveError, Pace, Waiter};
use mio::net::{TcpListener, TcpStream};
use mio::{Events, Interest, Poll, Token};
use std::alloc::Allocator;
use std::net::{Net, SocketAddr};
use std::time::{Clock, Duration};

/// The sockets of a station: a number of places for connections, and a listener if there is one. In
/// the order of what is ready the listener has the place after those of the connections.
#[derive(Drop)]
pub struct Sockets<'a, N: Net + Clock, A: Allocator> {
    pub(crate) runtime: &'a N,
    pub(crate) alloc: A,
    pub(crate) poll: Poll,
    pub(crate) events: Events<A>,
    pub(crate) ready: Ready<A>,
    /// The number of places for connections.
    pub(crate) places: usize,
    pub(crate) listener: Option<TcpListener>,
    /// A peer that has connected and has no place yet.
    pub(crate) newcomer: Option<Peer>,
    /// Whether the system could not accept a peer when it was last asked for one.
    pub(crate) refuses: bool,
    pub(crate) settings: ConnectionSettings,
    /// Whether the station is asked to end.
    pub(crate) stopping: Stopping,
    /// Whether there may be work beside the line, and that was not told yet.
    pub(crate) called: bool,
    /// The peers, and how long nobody has answered at each place.
    pub(crate) standings: Standings<A>,
    /// The times of the pause, the time-out and the gaps.
    pub(crate) times: Times<A>,
    /// The time for which what is read next may have lain unread.
    pub(crate) unread: Unread,
    /// The number of places served since the system was last asked.
    pub(crate) unasked: usize,
    /// The number of events served since a time has passed whose end is not told yet.
    pub(crate) overdue: usize,
}

/// A peer that has connected.
#[derive(Drop)]
pub(crate) struct Peer {
    pub(crate) stream: TcpStream,
    pub(crate) address: SocketAddr,
}

impl<'a, N: Net + Clock, A: Allocator + Copy> Sockets<'a, N, A> {
    /// Creates this many places, with no connection and no listener. Fails with `CannotWatchInput`
    /// if the system does not report the descriptor that asks the station to end, with `Sockets` if
    /// it does not report that of the programs or of standard output or refuses what else is
    /// needed, and with `Memory` if memory cannot be allocated.
    pub(crate) fn new(
        runtime: &'a N,
        alloc: A,
        places: usize,
        settings: ConnectionSettings,
    ) -> Result<Sockets<'a, N, A>, SocketsError>
        requires { places < 2 ^ 16 }
        ensures settings { IfOk result (λ sockets. sockets.settings ≡ settings) }
        ensures places { IfOk result (λ sockets. sockets.places ≡ places) }
        ensures begun { IfOk result (λ sockets.
            HasBegunSockets places sockets.ready sockets.standings sockets.times) }
        ensures counts { IfOk result
            (λ sockets. (sockets.unasked ≡ 0) × (sockets.overdue ≡ 0)) }
        ensures nobody { IfOk result (λ sockets. (sockets.listener ≡ None)
            × (sockets.newcomer ≡ None) × (sockets.refuses ≡ false)) }
        ensures not_asked { IfOk result (λ sockets. sockets.stopping ≡ Stopping.NotAsked) }
        ensures not_called { IfOk result (λ sockets. sockets.called ≡ false) }
        ensures unread { IfOk result (λ sockets. IsNone sockets.unread.limit) }
        ensures failed { IfErr result (IsUnwatched (is_some settings.stops_with)) }
    {
        let poll = Poll::new(runtime)?;
        if let Some(fd) = settings.stops_with {
            watch(&poll, fd)?;
        }
        if let Some(fd) = settings.serves {
            watch_work(&poll, fd)?;
        }
        if let Some(fd) = settings.prints {
            watch_work(&poll, fd)?;
        }
        Ok(Sockets {
            runtime,
            alloc,
            poll,
            events: Events::with_capacity(alloc, places + 4)?,
            ready: Ready::new(alloc, places + 1)?,
            places,
            listener: None,
            newcomer: None,
            refuses: false,
            settings,
            stopping: Stopping::NotAsked,
            called: false,
            standings: Standings::new(alloc, places)?,
            times: Times::new(alloc, places)?,
            unread: Unread::new(),
            unasked: 0,
            overdue: 0,
        })
    }

    /// Accepts peers that connect at this address from now on.
    pub(crate) fn take_peers_of(&mut self, listening: Listening) -> Result<(), SocketsError>
        ensures settings { self.new.settings ≡ self.old.settings }
        ensures places { self.new.places ≡ self.old.places }
        ensures standings { self.new.standings ≡ self.old.standings }
        ensures listens { OnOk result (IsSome self.new.listener) }
        ensures failed { IfErr result IsDenied }
    {
        let mut listener = listening.listener;
        self.poll
            .registry()
            .register(&mut listener, Token(self.places), Interest::READABLE)?;
        self.listener = Some(listener);
        Ok(())
    }

    /// Accepts no further peer; the system refuses it.
    pub(crate) fn stop_listening(&mut self)
        ensures listener { IsNone self.new.listener }
        ensures newcomer { IsNone self.new.newcomer }
        ensures settings { self.new.settings ≡ self.old.settings }
        ensures places { self.new.places ≡ self.old.places }
        ensures standings { self.new.standings ≡ self.old.standings }
        ensures ready { self.new.ready ≡ without_place self.old.ready self.old.places }
    {
        self.listener = None;
        self.newcomer = None;
        self.ready.clear(self.places);
    }

    /// Makes this stream the connection at this place, of the peer with this address, if it is
    /// known.
    pub(crate) fn open(
        &mut self,
        place: usize,
        stream: TcpStream,
        peer: Option<SocketAddr>,
    ) -> Result<(Reading, Writing<'a, N, A>), SocketsError>
        ensures newcomer { self.new.newcomer ≡ self.old.newcomer }
        ensures settings { self.new.settings ≡ self.old.settings }
        ensures stopping { self.new.stopping ≡ self.old.stopping }
        ensures time_out { self.new.times.time_out ≡ self.old.times.time_out }
        ensures last_silence { self.new.times.last_silence ≡ self.old.times.last_silence }
        ensures gaps { OnOk result (self.new.times.gaps.items
            ≡ slice_set self.old.times.gaps.items place None) }
        ensures ready { OnOk result (self.new.ready ≡ without_place self.old.ready place) }
        ensures stranger { IfOk result
            (λ _. is_known (standings_value self.new.standings) place ≡ false) }
        ensures peer { OnOk result (standings_value self.new.standings
            ≡ after_joining peer (standings_value self.old.standings) place
            (slice_get self.old.standings.places.items place)) }
        ensures writes { IfOk result
            (λ opened. opened.1.time_out ≡ self.old.settings.time_out) }
        ensures places { self.new.places ≡ self.old.places }
        ensures listener { self.new.listener ≡ self.old.listener }
        ensures unread { self.new.unread ≡ self.old.unread }
        ensures kept { IfErr result (λ _. self.new.standings ≡ self.old.standings) }
        ensures failed { IfErr result IsDenied }
    {
        let (runtime, alloc) = (self.runtime, self.alloc);
        let (mut reading, writing) = directions(runtime, alloc, stream, self.settings.time_out)?;
        self.poll
            .registry()
            .register(&mut reading.stream, Token(place), Interest::READABLE)?;
        self.ready.clear(place);
        self.times.stop_gap(place);
        self.standings.joined(place, peer);
        Ok((reading, writing))
    }

    /// Whether the time of the time-out begins anew after this. If peers may connect, a
    /// transmission that was not answered may be that of a stranger, unless the station has
    /// answered one on the same connection before.
    fn moves_time_out(&self, what: Handled) -> bool
        ensures { result ≡ moves_time_out (is_some self.now.listener)
            (standings_value self.now.standings) what }
    {
        match what {
            Handled::Unanswered { connection } => {
                self.listener.is_none() || self.standings.is_known(connection)
            }
            Handled::Answered { .. } | Handled::Silence => true,
        }
    }

    /// Takes the peer that has connected. Returns it if it may connect; else it is turned away.
    pub(crate) fn take_admitted(&mut self) -> Option<Peer>
        ensures taken { IsNone self.new.newcomer }
        ensures peer { IfSome result (λ peer. self.old.newcomer ≡ Some peer) }
        ensures admitted { IfSome result
            (λ peer. may_connect self.old.settings.allowed peer ≡ true) }
        ensures settings { self.new.settings ≡ self.old.settings }
        ensures stopping { self.new.stopping ≡ self.old.stopping }
        ensures times { self.new.times ≡ self.old.times }
        ensures ready { self.new.ready ≡ self.old.ready }
        ensures standings { self.new.standings ≡ self.old.standings }
        ensures kept { self.new ≡ record self.old { newcomer = None } }
        ensures all { IsNone result → IsSome self.old.newcomer
            → newcomer_may self.old.settings.allowed self.old.newcomer ≡ Some false }
    {
        let peer = self.newcomer.take()?;
        if self.settings.allowed.allows(peer.address.ip()) {
            Some(peer)
        } else {
            None
        }
    }

    /// Makes the peer that has connected the connection at this place, and returns its two
    /// directions; `None` if there is none that may connect.
    pub(crate) fn open_newcomer(
        &mut self,
        place: usize,
    ) -> Result<Option<(Reading, Writing<'a, N, A>)>, SocketsError>
        ensures taken { IsNone self.new.newcomer }
        ensures admitted { IfOk result (λ joined. IsSome joined
            → newcomer_may self.old.settings.allowed self.old.newcomer ≡ Some true) }
        ensures settings { self.new.settings ≡ self.old.settings }
        ensures stopping { self.new.stopping ≡ self.old.stopping }
        ensures time_out { self.new.times.time_out ≡ self.old.times.time_out }
        ensures last_silence { self.new.times.last_silence ≡ self.old.times.last_silence }
        ensures gaps { IfOk result (λ joined. IfSome joined (λ _. self.new.times.gaps.items
            ≡ slice_set self.old.times.gaps.items place None)) }
        ensures ready { IfOk result (λ joined. IfSome joined
            (λ _. self.new.ready ≡ without_place self.old.ready place)) }
        ensures stranger { IfOk result (λ joined. IfSome joined
            (λ _. is_known (standings_value self.new.standings) place ≡ false)) }
        ensures peer { IfOk result (λ joined. IfSome joined
            (λ _. standings_value self.new.standings
            ≡ after_joining (newcomer_address self.old.newcomer)
            (standings_value self.old.standings) place
            (slice_get self.old.standings.places.items place))) }
        ensures writes { IfOk result (λ joined. IfSome joined
            (λ opened. opened.1.time_out ≡ self.old.settings.time_out)) }
        ensures places { self.new.places ≡ self.old.places }
        ensures listener { self.new.listener ≡ self.old.listener }
        ensures unread { self.new.unread ≡ self.old.unread }
    {
        match self.take_admitted() {
            Some(peer) if place < self.places => {
                Ok(Some(self.open(place, peer.stream, Some(peer.address))?))
            }
            _ => Ok(None),
        }
    }
}

impl<'a, N: Net + Clock, A: Allocator + Copy> Waiter<Reading, Writing<'a, N, A>>
    for Sockets<'a, N, A> {
    ghost use Rattle.std.specs.Duration.{as_nanos};
    ghost use Rattle.std.specs.Prelude.{◌≡◌, ◌+◌, IfErr, IfOk, IfSome, IsNone, IsSome, OnOk, None};
    ghost use Rattle.std.specs.Prelude.{Some};
    ghost use Rattle.std.specs.Prelude.{true, false, is_some, length, slice_get, slice_set};
    ghost use Rattle.bsc_sockets.specs.Answers.{IsAnswer, IsWaitError, newcomer_address};
    ghost use Rattle.bsc_sockets.specs.Answers.{newcomer_may};
    ghost use Rattle.bsc_sockets.specs.Calls.{TellsCall, is_reported_in};
    ghost use Rattle.bsc_sockets.specs.Ready.{without_place};
    ghost use Rattle.bsc_sockets.specs.Silences.{is_over, silence_after, silence_answered};
    ghost use Rattle.bsc_sockets.specs.Standings.{IsQuietest, after_joining, counted_after};
    ghost use Rattle.bsc_sockets.specs.Standings.{is_known, moves_time_out, peer_of, silence_of};
    ghost use Rattle.bsc_sockets.specs.Standings.{standings_after, standings_value, time_after};
    ghost use Rattle.bsc_sockets.specs.Stopping.{StopRuns, stops_in, times_told};
    ghost use Rattle.bsc_sockets.specs.Times.{HasBegun, IsKept, Rests, RunGaps, pause_of};
    ghost use Rattle.bsc_sockets.specs.declared.asking.TheConstants.{WORK};
    ghost use Rattle.bsc_sockets.specs.declared.times.Time.TheVariants.{Anew};

    ghost waits = { λ before is_reached result after.
        (IfOk result (IsAnswer after.settings.allowed after.places after.newcomer after.ready))
        × (IfErr result IsWaitError)
        × (IfOk result (λ awaited.
        times_told after.stopping ≡ times_told before.stopping + stops_in awaited))
        × (after.settings ≡ before.settings)
        × (IfOk result (λ awaited.
        after.times.last_silence ≡ silence_after awaited before.times.last_silence))
        × IsKept before.times.time_out after.times.time_out
        × (OnOk result (IsNone after.times.pause
        → HasBegun before.settings.time_out before.times.time_out after.times.time_out))
        × (OnOk result (IsSome after.times.pause
        → after.times.time_out ≡ before.times.time_out))
        × (IfOk result (λ awaited. Rests before.settings.pause before.times.pause awaited
        after.times.pause))
        × ((after.standings.places ≡ before.standings.places)
        × (after.standings.turns ≡ before.standings.turns))
        × (IfOk result (λ awaited. IsNone after.times.pause
        → RunGaps before.settings.gap awaited before.times.gaps.items after.times.gaps.items))
        × (OnOk result (IsSome after.times.pause → after.times.gaps ≡ before.times.gaps))
        × (IfOk result (λ awaited. after.standings.silence
        ≡ counted_after
        (silence_of (is_over before.times.last_silence before.settings is_reached
        (is_some before.times.pause)) (as_nanos before.settings.time_out)) awaited
        before.standings.silence))
        × (after.places ≡ before.places)
        × (after.listener ≡ before.listener)
        × (IsSome before.newcomer → after.newcomer ≡ before.newcomer)
        × (IfOk result (λ awaited. TellsCall before.called
        (is_reported_in WORK after.events) awaited after.called))
        × (OnOk result (times_told before.stopping ≡ 1 → IsSome after.times.pause
        → after.stopping ≡ before.stopping))
        × (OnOk result (times_told before.stopping ≡ 1 → times_told after.stopping ≡ 1
        → IsNone after.times.pause
        → StopRuns before.settings.time_out before.stopping after.stopping)) };

    ghost names = { λ waiter place named.
        named ≡ peer_of (slice_get waiter.standings.places.items place) };

    ghost names_newcomer = { λ waiter named. named ≡ newcomer_address waiter.newcomer };

    ghost handles = { λ before what pace after.
        let standings = standings_value before.standings in
        (after.times.time_out ≡ time_after
        (moves_time_out (is_some before.listener) standings what) before.times.time_out)
        × (after.times.pause ≡ pause_of pace)
        × (after.times.gaps ≡ before.times.gaps)
        × (after.times.last_silence ≡ before.times.last_silence)
        × (standings_value after.standings ≡ standings_after standings what)
        × (after ≡ record before { times = after.times; standings = after.standings }) };

    ghost permits = { λ before in_time after.
        (after ≡ record before {
          unread = after.unread;
          times = record before.times {
            last_silence = silence_answered before.times.last_silence;
          };
        })
        × (in_time ≡ false → after.unread ≡ before.unread)
        × (in_time ≡ true → IsSome before.unread.limit
        × IfSome after.unread.limit (λ limit. limit.time ≡ before.settings.late_after)) };

    ghost begins_gap = { λ before place after.
        (after.times.time_out ≡ before.times.time_out)
        × (after.times.gaps.items ≡ slice_set before.times.gaps.items place (Some Anew))
        × (after.times.pause ≡ before.times.pause)
        × (after.times.last_silence ≡ before.times.last_silence)
        × (after ≡ record before { times = after.times }) };

    ghost has_nothing_left = { λ before place after.
        after ≡ record before { ready = without_place before.ready place } };

    ghost joins = { λ before place joined after. (IsNone after.newcomer)
        × (IsSome joined → newcomer_may before.settings.allowed before.newcomer ≡ Some true)
        × (after.settings ≡ before.settings)
        × (after.times.time_out ≡ before.times.time_out)
        × (after.times.last_silence ≡ before.times.last_silence)
        × (IfSome joined (λ _. after.times.gaps.items
        ≡ slice_set before.times.gaps.items place None))
        × (IfSome joined (λ _. after.ready ≡ without_place before.ready place))
        × (IfSome joined (λ _. is_known (standings_value after.standings) place ≡ false))
        × (IfSome joined (λ _. standings_value after.standings
        ≡ after_joining (newcomer_address before.newcomer) (standings_value before.standings)
        place (slice_get before.standings.places.items place)))
        × (IfSome joined (λ opened. opened.1.time_out ≡ before.settings.time_out))
        × (after.stopping ≡ before.stopping)
        × (after.places ≡ before.places)
        × (after.listener ≡ before.listener)
        × (after.unread ≡ before.unread) };

    ghost turns_away = { λ before after. after ≡ record before { newcomer = None } };

    ghost may_replace = { λ waiter named.
        let standings = standings_value waiter.standings in
        IsQuietest standings (length standings.places)
        (as_nanos waiter.settings.replace_after) named };

    fn wait(&mut self, is_reached: bool) -> Result<Awaited, LiveError> {
        let has_paused = self.times.begins_with_pause();
        if let Rest::Called { .. } = self.rest()? {
            return Ok(Awaited::Client);
        }
        if self.unread.is_unbegun() {
            self.begin_unread();
        }
        let ConnectionSettings { time_out, gap, .. } = self.settings;
        let next = self.times.next_end(self.runtime, time_out, gap)?;
        let is_over = self
            .times
            .last_silence()
            .is_over(&self.settings, is_reached, has_paused);
        let (next, silence) = ending(is_over, next, time_out);
        let left = next.left;
        match self.stopping.left(self.runtime, time_out)? {
            Some(until_stop) if until_stop <= left => match self.in_time(until_stop)? {
                Awaited::TimeOut => Ok(self.stop_again()),
                awaited => Ok(awaited),
            },
            _ => match self.in_time(left)? {
                Awaited::TimeOut => Ok(self.end(next, silence)),
                awaited => Ok(awaited),
            },
        }
    }

    fn handled(&mut self, what: Handled, pace: Pace) {
        self.times.set_pace(pace);
        if self.moves_time_out(what) {
            self.times.begin_time_out();
        }
        if let Handled::Answered { connection } = what {
            self.standings.answered(connection);
        }
    }

    fn may_send(&mut self) -> bool {
        self.times.answer_silence();
        if self.unread.is_late(self.runtime) {
            return false;
        }
        self.begin_unread();
        true
    }

    fn begin_gap(&mut self, connection: usize) {
        self.times.begin_gap(connection);
    }

    fn nothing_left(&mut self, connection: usize) {
        self.ready.clear(connection);
    }

    fn join(&mut self, connection: usize) -> Option<(Reading, Writing<'a, N, A>)> {
        self.open_newcomer(connection).unwrap_or(None)
    }

    fn turn_away(&mut self) {
        self.newcomer = None;
    }

    fn replaceable(&self) -> Option<usize> {
        self.standings.quietest(self.settings.replace_after)
    }

    fn peer(&self, connection: usize) -> Option<SocketAddr> {
        self.standings.peer(connection)
    }

    fn newcomer(&self) -> Option<SocketAddr> {
        match &self.newcomer {
            Some(peer) => Some(peer.address),
            None => None,
        }
    }
}

/// Returns what ends next, and how much time of silence it counts if it is the time-out: the
/// time-out at once, and none, if it is over; else this end, and the whole time-out.
fn ending(is_over: bool, next: End, time_out: Duration) -> (End, Duration)
    ensures counted { as_nanos result.1 ≡ silence_of is_over (as_nanos time_out) }
    ensures whose { result.0.gap ≡ (if is_over then None else next.gap) }
{
    if is_over {
        let now = End {
            left: Duration::ZERO,
            gap: None,
        };
        (now, Duration::ZERO)
    } else {
        (next, time_out)
    }
}
