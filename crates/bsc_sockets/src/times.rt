//! The times of the pause, the time-out and the gaps, and the last silence.

ghost use Rattle.std.specs.Prelude.{◌≡◌, IfErr, IfOk, IsSome, None, OnOk, Some, false, is_some};
ghost use Rattle.std.specs.Prelude.{replicate, slice_set};
ghost use Rattle.bsc_sockets.specs.Answers.{IsWaitError};
ghost use Rattle.bsc_sockets.specs.Calls.{is_call};
ghost use Rattle.bsc_sockets.specs.Silences.{silence_after, silence_answered};
ghost use Rattle.bsc_sockets.specs.Times.{GapsRun, HasBegun, IsAwaited, IsEnd, IsKept, Runs};
ghost use Rattle.bsc_sockets.specs.Times.{earlier, ended_gap, event_of, pause_of, since};
ghost use Rattle.bsc_sockets.specs.Times.{without_ended};

use crate::silences::LastSilence;
use crate::time_limit::TimeLimit;
use bsc_connections::{Awaited, LiveError, Pace};
use std::alloc::{AllocError, Allocator};
use std::time::{Clock, Duration};

/// A time that passes.
#[derive(Clone, Copy)]
pub(crate) enum Time {
    /// It begins with the next wait.
    Anew,

    /// It has begun.
    Since(TimeLimit),
}

/// What ends next, and how much of its time is left.
#[derive(Clone, Copy)]
pub(crate) struct End {
    pub(crate) left: Duration,

    /// The place whose gap ends, or None if it is the time-out.
    pub(crate) gap: Option<usize>,
}

/// The time of the time-out, of the pause with which a wait begins, and of the gap of each
/// connection on which one is awaited. Each is begun anew by its own call, and by nothing else. And
/// what the station has done since the last time-out that it was told of.
#[derive(Drop)]
pub(crate) struct Times<A: Allocator> {
    time_out: Time,
    /// The time of the pause with which the next wait begins, or goes on; None if it begins at
    /// once.
    pause: Option<Time>,
    /// The time of the gap at each place, if one is awaited there.
    gaps: Vec<Option<Time>, A>,
    /// The last silence that the station was told of.
    last_silence: LastSilence,
}

impl<A: Allocator> Times<A> {
    /// Returns the times for this many places: that of the time-out begins with the next wait,
    /// which begins at once, and no gap is awaited.
    pub(crate) fn new(alloc: A, places: usize) -> Result<Times<A>, AllocError>
        ensures time_out { IfOk result (λ times. times.time_out ≡ Time.Anew) }
        ensures pause { IfOk result (λ times. times.pause ≡ None) }
        ensures gaps { IfOk result (λ times. times.gaps.items ≡ replicate places None) }
        ensures last_silence { IfOk result (λ times. times.last_silence ≡ LastSilence.Untold) }
    {
        let mut gaps = Vec::new(alloc);
        for _ in 0..places {
            gaps.push(None)?;
        }
        Ok(Times {
            time_out: Time::Anew,
            pause: None,
            gaps,
            last_silence: LastSilence::Untold,
        })
    }

    /// Begins the time of the time-out anew, with the next wait.
    pub(crate) fn begin_time_out(&mut self)
        ensures time_out { self.new.time_out ≡ Time.Anew }
        ensures pause { self.new.pause ≡ self.old.pause }
        ensures gaps { self.new.gaps ≡ self.old.gaps }
        ensures last_silence { self.new.last_silence ≡ self.old.last_silence }
    {
        self.time_out = Time::Anew;
    }

    /// Begins the gap at this place anew, with the next wait.
    pub(crate) fn begin_gap(&mut self, place: usize)
        ensures time_out { self.new.time_out ≡ self.old.time_out }
        ensures pause { self.new.pause ≡ self.old.pause }
        ensures gaps { self.new.gaps.items
            ≡ slice_set self.old.gaps.items place (Some Time.Anew) }
        ensures last_silence { self.new.last_silence ≡ self.old.last_silence }
    {
        if let Some(gap) = self.gaps.get_mut(place) {
            *gap = Some(Time::Anew);
        }
    }

    /// Begins the next wait so.
    pub(crate) fn set_pace(&mut self, pace: Pace)
        ensures time_out { self.new.time_out ≡ self.old.time_out }
        ensures pause { self.new.pause ≡ pause_of pace }
        ensures gaps { self.new.gaps ≡ self.old.gaps }
        ensures last_silence { self.new.last_silence ≡ self.old.last_silence }
    {
        self.pause = match pace {
            Pace::AtOnce => None,
            Pace::AfterPause => Some(Time::Anew),
        };
    }

    /// Returns the last silence that the station was told of.
    pub(crate) fn last_silence(&self) -> LastSilence
        ensures { result ≡ self.now.last_silence }
    {
        self.last_silence
    }

    /// Records that the station sends something, or withholds it.
    pub(crate) fn answer_silence(&mut self)
        ensures { self.new
            ≡ record self.old { last_silence = silence_answered self.old.last_silence } }
    {
        self.last_silence.answer();
    }

    /// Returns whether the next wait begins with a pause, or goes on with one.
    pub(crate) fn begins_with_pause(&self) -> bool
        ensures { result ≡ is_some self.now.pause }
    {
        self.pause.is_some()
    }

    /// Begins the time of the pause, which takes `pause`, if this wait is to begin with one and it
    /// has not begun. Returns its limit; None if there is none. Fails with `Wait` if the clock
    /// does.
    pub(crate) fn begin_pause<C: Clock>(
        &mut self,
        clock: &C,
        pause: Duration,
    ) -> Result<Option<TimeLimit>, LiveError>
        ensures time_out { self.new.time_out ≡ self.old.time_out }
        ensures runs { OnOk result (Runs pause self.old.pause self.new.pause) }
        ensures limit { IfOk result (λ limit. self.new.pause ≡ since limit) }
        ensures failed { IfErr result IsWaitError }
        ensures gaps { self.new.gaps ≡ self.old.gaps }
        ensures last_silence { self.new.last_silence ≡ self.old.last_silence }
    {
        let Some(begun) = self.pause else {
            return Ok(None);
        };
        let (limit, _) = running(clock, begun, pause)?;
        self.pause = Some(Time::Since(limit));
        Ok(Some(limit))
    }

    /// Ends the pause with which this wait began.
    pub(crate) fn end_pause(&mut self)
        ensures time_out { self.new.time_out ≡ self.old.time_out }
        ensures pause { self.new.pause ≡ None }
        ensures gaps { self.new.gaps ≡ self.old.gaps }
        ensures last_silence { self.new.last_silence ≡ self.old.last_silence }
    {
        self.pause = None;
    }

    /// Awaits no gap at this place.
    pub(crate) fn stop_gap(&mut self, place: usize)
        ensures time_out { self.new.time_out ≡ self.old.time_out }
        ensures pause { self.new.pause ≡ self.old.pause }
        ensures gaps { self.new.gaps.items ≡ slice_set self.old.gaps.items place None }
        ensures last_silence { self.new.last_silence ≡ self.old.last_silence }
    {
        if let Some(gap) = self.gaps.get_mut(place) {
            *gap = None;
        }
    }

    /// Begins the times that are to begin with this wait, of which the time-out takes `time_out`
    /// and a gap `gap`. Returns which of them ends first; a gap that ends with the time-out comes
    /// first. Fails with `Wait` if the clock does.
    pub(crate) fn next_end<C: Clock>(
        &mut self,
        clock: &C,
        time_out: Duration,
        gap: Duration,
    ) -> Result<End, LiveError>
        ensures time_out { IsKept self.old.time_out self.new.time_out }
        ensures begun { OnOk result (HasBegun time_out self.old.time_out self.new.time_out) }
        ensures failed { IfErr result IsWaitError }
        ensures pause { self.new.pause ≡ self.old.pause }
        ensures gaps { OnOk result (GapsRun gap self.old.gaps.items self.new.gaps.items) }
        ensures awaited { IfOk result (λ end. IsAwaited end.gap self.old.gaps.items) }
        ensures last_silence { self.new.last_silence ≡ self.old.last_silence }
    {
        let (limit, left) = running(clock, self.time_out, time_out)?;
        self.time_out = Time::Since(limit);
        let mut next = End { left, gap: None };
        'gaps: for place in 0..self.gaps.len() {
            if let Some(left) = run_gap(clock, &mut self.gaps[place], gap)? {
                next = sooner(next, left, place);
            }
        }
        Ok(next)
    }

    /// Returns the event of this end. A gap that has ended is no longer awaited.
    pub(crate) fn end(&mut self, end: End) -> Awaited
        ensures event { IsEnd result }
        ensures no_call { is_call result ≡ false }
        ensures whose { result ≡ event_of end.gap }
        ensures gap { ended_gap result ≡ end.gap }
        ensures time_out { self.new.time_out ≡ self.old.time_out }
        ensures pause { self.new.pause ≡ self.old.pause }
        ensures gaps { self.new.gaps.items ≡ without_ended end.gap self.old.gaps.items }
        ensures last_silence { self.new.last_silence
            ≡ silence_after result self.old.last_silence }
    {
        let Some(connection) = end.gap else {
            self.last_silence.tell();
            return Awaited::TimeOut;
        };
        self.stop_gap(connection);
        Awaited::Gap { connection }
    }
}

/// Begins the time of a gap, if one is awaited and is to begin with this wait. Returns what is left
/// of it; None if none is awaited.
fn run_gap<C: Clock>(
    clock: &C,
    time: &mut Option<Time>,
    gap: Duration,
) -> Result<Option<Duration>, LiveError>
    ensures runs { OnOk result (Runs gap time.old time.new) }
    ensures awaited { IfOk result (λ left. IsSome left → IsSome time.old) }
    ensures failed { IfErr result IsWaitError }
{
    let Some(begun) = *time else {
        return Ok(None);
    };
    let (limit, left) = running(clock, begun, gap)?;
    *time = Some(Time::Since(limit));
    Ok(Some(left))
}

/// Returns what ends next, with a gap at this place of which this is left.
fn sooner(next: End, left: Duration, place: usize) -> End
    ensures { result ≡ earlier next left place }
{
    if left.as_nanos() <= next.left.as_nanos() {
        End {
            left,
            gap: Some(place),
        }
    } else {
        next
    }
}

/// Returns the limit of a time that begins now or has begun, and what is left of it.
pub(crate) fn running<C: Clock>(
    clock: &C,
    time: Time,
    whole: Duration,
) -> Result<(TimeLimit, Duration), LiveError>
    ensures kept { IfOk result (λ r. IsKept time (Time.Since r.0)) }
    ensures begun { IfOk result (λ r. HasBegun whole time (Time.Since r.0)) }
    ensures failed { IfErr result IsWaitError }
{
    let limit = match time {
        Time::Since(limit) => limit,
        Time::Anew => match TimeLimit::begin(clock, whole) {
            Ok(limit) => limit,
            Err(_) => return Err(LiveError::Wait),
        },
    };
    match limit.left(clock) {
        Ok(left) => Ok((limit, left)),
        Err(_) => Err(LiveError::Wait),
    }
}
