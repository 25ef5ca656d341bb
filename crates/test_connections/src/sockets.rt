//! The octets that a station receives and sends, the peers that come and go, and the times that
//! pass. The words of the scripts are those of `scene` and `waits`.

use crate::meeting::{SHORT, Times, allowed, settings};
use crate::scene::{Besides, play};
use std::test::Fail;

/// What happens at a station with one peer. Octets arrive in order, and are told of until nothing
/// is left; a peer that ends its connection reads as an end, again and again; one that is turned
/// away reads an end, and is told of no more.
const ONE_PEER: &[&str] = &[
    "blocks:0 sends:0:abcdef finds:octets finds:octets reads:0:abcd finds:octets reads:0:ef \
     blocks:0 clears:0 finds:timeout writes:0:def hears:0:def",
    "ends:0 finds:octets reads:0 reads:0",
    "comes finds:newcomer refuses hears:1 finds:timeout",
    // Peers that come at all times do not hide what the first one sends.
    "comes finds:newcomer refuses sends:0:once crowds",
    // A peer that reads nothing fails a write after the time-out, until it has read.
    "fills:0 empties:0 fills:0 empties:0 writes:0:more",
];

/// The same with two peers. One that has gone is replaced by the next one, which is told of until
/// it has a place.
const TWO_PEERS: &[&str] = &[
    "ends:0 finds:octets drops:0 clears:0 lacks:0 comes finds:newcomer finds:newcomer joins:0 \
     finds:timeout sends:2:here finds:octets reads:0:here writes:0:too hears:2:too",
    // One peer has octets at all times, a second one has some, and a third one comes.
    "sends:0:endless finds:octets sends:1:once comes shares",
    // That which nobody answers on for two time-outs may be replaced, unless it is closed; if
    // nobody answers on either, that which never had an answer; and if both were answered before
    // the same silence, that which was answered first: it is the one that has left.
    "replaceable:none finds:timeout replaceable:none answers:0 finds:timeout replaceable:1 comes \
     finds:newcomer sends:1:lost drops:1 joins:1 replaceable:none sends:2:here finds:octets1 \
     reads:1:here clears:1 finds:timeout replaceable:0",
    "replaceable:none answers:0 finds:timeout finds:timeout replaceable:1",
    "answers:0 answers:1 answers:0 finds:timeout finds:timeout replaceable:1 answers:1 \
     finds:timeout finds:timeout replaceable:0",
];

/// A time-out, a gap and a pause pass in their time, and the first wait at once.
const PASSING: &[&str] = &[
    "passes:0:timeout passes:40:timeout replaceable:none passes:10:gap pauses:55:timeout \
     passes:40:timeout sends:0:here pauses:15:octets passes:0:octets",
];

/// While nobody may answer, a time-out passes at once, but the first one of a station that does not
/// begin, one after which nothing was sent, and one after a pause.
const ALONE: &[&str] = &[
    "passes:0:timeout alone:40:timeout may alone:0:timeout may alone:0:timeout may \
     alone:0:timeout replaceable:none may alone-pauses:55:timeout replaceable:0 may \
     passes:40:timeout",
];

/// The same in a station that listens first.
const ALONE_AT_FIRST: &[&str] = &["late alone:40:timeout may alone:0:timeout"];

/// The same with a time-out that passes in no test.
const ALONE_FOR_LONG: &[&str] = &["alone:0:timeout may alone:0:timeout"];

/// A call of a program is told once, and two of them once.
const CALLS: &[&str] = &[
    "calls silence waits:call silence waits:timeout calls calls silence waits:call silence \
     waits:timeout",
];

/// A time-out of 60 minutes, a gap of 5, and a pause of 60; what is sent is late after 20.
const LONG: Times = Times {
    time_out: 3_600_000,
    late_after: 1_200_000,
    gap: 300_000,
    replace_after: 80,
    pause: 3_600_000,
    begins: false,
    skips: false,
};

/// Courses of a station with long times, whose peer has octets to be read at nearly all times, so
/// that no wait takes longer than it has to.
const COURSES: &[&str] = &[
    // An hour is a time-out, which begins with the wait after a silence, and is told then.
    "sends:0:x waits:octets minutes:59 often:100:octets minutes:1 often:8:octets waits:timeout \
     silence often:100:octets minutes:59 often:100:octets minutes:1 soon:timeout",
    // What is sent is late after 20 minutes. They begin with the first wait, with what arrives in a
    // wait, with sending in time, and with a time-out.
    "late sends:0:x waits:octets minutes:19 often:100:octets may minutes:19 may minutes:20 late \
     waits:octets late minutes:2 soon:timeout may silence reads:0:x clears:0 later waits:octets \
     reads:0:x clears:0 minutes:60 late waits:timeout minutes:19 may",
    "sends:0:x waits:octets minutes:20 late",
    "sends:0:x waits:octets reads:0:x clears:0 later waits:octets minutes:20 late",
    "sends:0:x waits:octets minutes:60 soon:timeout minutes:19 waits:octets may",
    "sends:0:x waits:octets minutes:60 soon:timeout minutes:20 late",
    // An hour is a pause, and the time-out begins after it.
    "sends:0:x waits:octets sends:0:x pauses-an-hour often:100:octets minutes:59 often:100:octets",
    // What lay there may have come before the wait; what arrives in the wait has not.
    "sends:0:x waits:octets reads:0:x clears:0 minutes:30 later waits:octets may reads:0:x \
     clears:0 sends:0:x minutes:20 waits:octets late",
    "sends:0:x often:20000:octets",
];

/// Five minutes are a gap, and one that is begun anew has its whole time again.
const GAPS: &[&str] = &[
    "sends:0:x gap waits:octets minutes:4 often:100:octets minutes:1 soon:gap minutes:50 \
     often:100:octets gap often:100:octets minutes:4 gap waits:octets minutes:4 often:100:octets \
     minutes:1 soon:gap",
];

/// The first wait returns at once that the time has passed, and no later one does.
const BEGINNING: &[&str] = &[
    "waits:timeout sends:0:x silence often:100:octets minutes:59 often:100:octets",
];

/// Courses of a station that ends when an input does.
const STOPPED: &[&str] = &[
    // What is in the input stops nothing. An hour passes before it is stopped again, which moves no
    // time-out, and it is stopped no more.
    "sends:0:x waits:octets types often:100:octets closes soon:stopped waits:octets minutes:30 \
     silence often:100:octets minutes:29 often:100:octets minutes:1 soon:stopped often:100:octets \
     minutes:30 soon:timeout silence minutes:59 often:100:octets",
    // A pause ends when the station is asked to end, and no other wait begins with it.
    "sends:0:x waits:octets closes rests waits:stopped often:100:octets",
];

/// Courses of a station that serves programs.
const CALLED: &[&str] = &[
    // Octets and calls are there at all times, and hide neither each other nor a time-out.
    "sends:0:x calls-share minutes:60 called-soon:timeout silence reads:0:x clears:0 \
     called-soon:call called:100:call minutes:59 called:100:call minutes:1 calls waits:timeout \
     silence waits:call",
    // Programs make nothing late; what is sent is late 20 minutes after what it answers.
    "called:5:call minutes:30 called:5:call sends:0:x called-soon:octets may called:5:octets \
     minutes:25 calls-share late",
    // A call interrupts a pause, which goes on until its hour has passed.
    "sends:0:x rests called:100:call minutes:59 called:100:call minutes:1 calls waits:octets \
     minutes:59 calls-share minutes:1 called-soon:timeout",
];

/// A time-out that does not pass before a gap does.
const SLOW: Times = Times {
    time_out: 36_000_000,
    ..LONG
};

/// Short times and long ones of a station that begins after a time-out.
const SHORT_BEGIN: Times = Times {
    begins: true,
    ..SHORT
};

const LONG_BEGIN: Times = Times {
    begins: true,
    ..LONG
};

/// The same of stations that skip silences which nobody can break.
const SHORT_SKIPS: Times = Times {
    skips: true,
    ..SHORT_BEGIN
};

const LISTENS_FIRST: Times = Times {
    skips: true,
    ..SHORT
};

const LONG_SKIPS: Times = Times {
    skips: true,
    ..LONG_BEGIN
};

/// Numbers of peers, the times of the station, what it watches beside its peers, and what happens
/// there.
const STATIONS: &[(usize, Times, Besides, &[&str])] = &[
    (1, SHORT, Besides::Nothing, ONE_PEER),
    (2, SHORT, Besides::Nothing, TWO_PEERS),
    (1, SHORT_BEGIN, Besides::Nothing, PASSING),
    (1, SHORT_SKIPS, Besides::Nothing, ALONE),
    (1, LISTENS_FIRST, Besides::Nothing, ALONE_AT_FIRST),
    (1, LONG_SKIPS, Besides::Nothing, ALONE_FOR_LONG),
    (1, SHORT, Besides::Programs, CALLS),
    (1, SHORT, Besides::Output, CALLS),
    (1, LONG, Besides::Nothing, COURSES),
    (1, SLOW, Besides::Nothing, GAPS),
    (1, LONG_BEGIN, Besides::Nothing, BEGINNING),
    (1, LONG, Besides::Input, STOPPED),
    (1, LONG, Besides::Programs, CALLED),
];

#[test]
fn peers_octets_calls_and_times_are_told(rt: HostRuntime) -> Result<(), Fail> {
    for (peers, times, besides, scripts) in STATIONS {
        for script in scripts.iter() {
            play(&rt, (*peers, times.settings()), *besides, script)?;
        }
    }
    Ok(())
}

/// Networks, the number of peers at first, which connect from 127.0.0.1, and what happens: a peer
/// whose address is allowed has a connection, first and later; another one is told of until it is
/// turned away, and gets no place.
const ALLOWED: &[(&str, usize, &str)] = &[
    (
        "127.0.0.0/30",
        1,
        "sends:0:here finds:octets drops:0 clears:0 comes finds:newcomer joins:0",
    ),
    (
        "127.0.0.2",
        0,
        "finds:stranger finds:stranger lacks:0 hears:0 finds:timeout comes finds:stranger \
         refuses hears:1 finds:timeout",
    ),
    ("::ffff:127.0.0.1", 1, "blocks:0"),
    ("::ffff:0.0.0.0/96", 1, "blocks:0"),
];

#[test]
fn only_allowed_peers_get_places(rt: HostRuntime) -> Result<(), Fail> {
    for (network, peers, script) in ALLOWED {
        let mut guarded = settings();
        guarded.allowed = allowed(network)?;
        play(&rt, (*peers, guarded), Besides::Nothing, script)?;
    }
    Ok(())
}
