//! The waits of a station, by the words of scripts.

use crate::scene::{Scene, Word};
use bsc_connections::{Awaited, Handled, Pace, Waiter};
use std::time::Instant;

/// The number of milliseconds after which a wait has this result, in which somebody may answer, or
/// nobody. The time-out begins with the wait, and the gap that is expected.
fn passed<R, W, S: Waiter<R, W>>(
    rt: &HostRuntime,
    sockets: &mut S,
    expected: Option<Awaited>,
    (pace, is_reached): (Pace, bool),
) -> Option<u128> {
    sockets.handled(Handled::Silence, pace);
    if let Some(Awaited::Gap { connection }) = expected {
        sockets.begin_gap(connection);
    }
    let start = Instant::now(rt).ok()?;
    let awaited = sockets.wait(is_reached).ok();
    let passed = start.elapsed(rt).ok()?.as_millis();
    (awaited == expected).then_some(passed)
}

/// Whether a wait has this result after at least this many milliseconds, and less than four
/// seconds.
fn passes<R, W, S: Waiter<R, W>>(
    rt: &HostRuntime,
    sockets: &mut S,
    (least, expected): (usize, Option<Awaited>),
    begun: (Pace, bool),
) -> bool {
    match passed(rt, sockets, expected, begun) {
        Some(passed) => least as u128 <= passed && passed < 4_000,
        None => false,
    }
}

/// Whether one of this many waits has this result, or all of them have it. A program calls before
/// each of them if `is_called` is true.
fn waits<R, W, S: Waiter<R, W>>(
    scene: &Scene<'_>,
    sockets: &mut S,
    awaited: Option<Awaited>,
    (count, is_one, is_called): (usize, bool, bool),
) -> bool {
    for _ in 0..count {
        if is_called && !scene.calls() {
            return false;
        }
        if (sockets.wait(true).ok() == awaited) == is_one {
            return is_one;
        }
    }
    !is_one
}

/// Whether of 90 waits at least 20 report each of two connections and a newcomer; a program calls
/// before each of 100 waits if `is_called` is true, and then at least 50 report the first
/// connection, and three a program.
fn shares<R, W, S: Waiter<R, W>>(scene: &Scene<'_>, sockets: &mut S, is_called: bool) -> bool {
    let mut told = [0usize; 3];
    let count = if is_called { 100 } else { 90 };
    for _ in 0..count {
        if is_called && !scene.calls() {
            return false;
        }
        let place = match sockets.wait(true) {
            Ok(Awaited::Octets { connection }) => connection,
            Ok(Awaited::Newcomer | Awaited::Client) => 2,
            _ => return false,
        };
        let Some(count) = told.get_mut(place) else {
            return false;
        };
        *count = count.saturating_add(1);
    }
    if is_called {
        told[0] >= 50 && told[2] >= 3
    } else {
        told[0] >= 20 && told[1] >= 20 && told[2] >= 20
    }
}

/// Whether of at most 40 waits, before each of which a peer connects, one reports the first
/// connection; the peers are turned away.
fn crowds<R, W, S: Waiter<R, W>>(scene: &mut Scene<'_>, sockets: &mut S) -> bool {
    for _ in 0..40u8 {
        if !scene.comes() {
            return false;
        }
        match sockets.wait(true) {
            Ok(Awaited::Newcomer) => sockets.turn_away(),
            Ok(Awaited::Octets { connection: 0 }) => return true,
            _ => return false,
        }
    }
    false
}

/// Whether many waits of a word have their result: `often:NUMBER:AWAITED`, all of so many;
/// `soon:AWAITED`, one of 20; `called:NUMBER:AWAITED` and `called-soon:AWAITED`, the same, but a
/// program calls before each of them; `shares` and `calls-share`; `crowds`.
fn many_go<R, W, S: Waiter<R, W>>(
    scene: &mut Scene<'_>,
    sockets: &mut S,
    word: &Word<'_>,
) -> Option<bool> {
    let (awaited, count) = (word.awaited(), word.number);
    match word.verb {
        "often" => Some(waits(scene, sockets, awaited, (count, false, false))),
        "soon" => Some(waits(scene, sockets, awaited, (20, true, false))),
        "called" => Some(waits(scene, sockets, awaited, (count, false, true))),
        "called-soon" => Some(waits(scene, sockets, awaited, (20, true, true))),
        "shares" => Some(shares(scene, sockets, false)),
        "calls-share" => Some(shares(scene, sockets, true)),
        "crowds" => Some(crowds(scene, sockets)),
        _ => None,
    }
}

/// Whether a wait of a word has its result: `waits:AWAITED`; `finds:AWAITED`, and the time-out
/// begins with it; `passes:MILLISECONDS:AWAITED`, the same after at least this time;
/// `pauses:MILLISECONDS:AWAITED`, the same after a pause; `alone:MILLISECONDS:AWAITED` and
/// `alone-pauses:MILLISECONDS:AWAITED`, the same while nobody may answer; `pauses-an-hour`, which
/// is the pause, of which a tenth of a second is left once it has begun; `replaceable:PLACE`, that
/// connection may be replaced, or none.
pub(crate) fn wait_goes<R, W, S: Waiter<R, W>>(
    scene: &mut Scene<'_>,
    sockets: &mut S,
    word: &Word<'_>,
) -> Option<bool> {
    let (rt, awaited, least) = (scene.rt, word.awaited(), word.number);
    match word.verb {
        "waits" => Some(sockets.wait(true).ok() == awaited),
        "finds" => Some(passed(rt, sockets, awaited, (Pace::AtOnce, true)).is_some()),
        "passes" => Some(passes(rt, sockets, (least, awaited), (Pace::AtOnce, true))),
        "pauses" => Some(passes(rt, sockets, (least, awaited), (Pace::AfterPause, true))),
        "alone" => Some(passes(rt, sockets, (least, awaited), (Pace::AtOnce, false))),
        "alone-pauses" => Some(passes(rt, sockets, (least, awaited), (Pace::AfterPause, false))),
        "pauses-an-hour" => {
            scene.lets_an_hour_pass();
            let octets = Some(Awaited::Octets { connection: 0 });
            Some(passes(rt, sockets, (100, octets), (Pace::AfterPause, true)))
        }
        "replaceable" => {
            let is_any = word.last != "none";
            Some(sockets.replaceable() == is_any.then_some(least))
        }
        _ => many_go(scene, sockets, word),
    }
}
