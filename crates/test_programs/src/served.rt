//! Programs that a station serves, without a store.

use crate::acts::{all_hold, is_stopped, play};
use crate::stations::terminal;
use crate::world::World;
use bsc_serving::Serving;
use std::alloc::{AllocError, Global};
use std::test::Fail;
use test_fixtures::on_heap;

/// 64 programs are served at a time.
const SERVED: &[&str] = &[
    "an offer may come in pieces, of which the last one has no end at first => \
    connect 1; piece 0 3; asks 0 offer to 0 ONE\noffer to 0.1 X\noffer to 0.0 T; \
    told 0 ok 0\nok 0\n; asks 0 WO\r\n; told 0 ok 1\n; unread 0 0",
    "a control station is asked for its state, and for what it refuses => \
    connect 1; asks 0 # a comment\n\noffer-hex to 1 48 49\noffer to 2 A\nready on\nurgent\n\
release to 0 0\nsing\npoll off 1\npoll on 1\npoll off 0\npoll 1\npoll up 1\n\
status\n; told 0 ok 0\nfault no such channel\n\
fault the station is not a terminal\nfault the station is not a terminal\nfault not in doubt\n\
fault not a command\nok\nok\nfault no such terminal\nfault not a command\n\
fault not a command\nfrom 0: spooled 0\nto 0.0: offered 0, known 0\nto 0.1: offered 0, known 0\n\
terminal 1: polled, present, answers 0, NAKs 0, repetitions 0, silences 0, \
never heard\nfrom 1: spooled 0\n\
to 1: offered 1, known 0\nok\n",
    "a line has 512 octets at most => \
    connect 1; say 0 offer to 0.0 ; often 0 499 A; asks 0 \n; told 0 fault record too long\n; \
    say 0 offer to 0.0 ; often 0 500 A; asks 0 \n; told 0 fault line too long\n",
    "records that arrived before a program follows are told, and one that arrives after => \
    arrive OLD; arrive ; connect 1; asks 0 follow from 0 0\n; \
    told 0 ok\narrived from 0 0 OLD\narrived from 0 1 \n; \
    arrive NEW\t; serve 4; told 0 arrived from 0 2 NEW\\t\n",
    "the 65th program is turned away until a place is free => \
    connect 65; serve 2; away 1; end 5; asks 63 offer to 1 A\n; told 63 ok 0\n; \
    connect 67; asks 65 offer to 1 B\n; told 65 ok 1\n; away 2",
    "a program whose connection is reset gives its place back => \
    connect 64; serve 1; reset 5; serve 2; connect 65; \
    asks 64 offer to 1 A\n; told 64 ok 0\n; away 0",
    "more programs than are turned away at once are called for again => \
    connect 129; serve 1; away 64; calls 1; serve 1; away 65; calls 1",
    // Programs that are slow, say too much, or end in mid-line.
    "a program that takes two octets only blocks nobody, and is not asked again and again => \
    connect 2; room 0 2; say 0 follow to 0 0\noffer to 0 A\noffer to 0 B\n; \
    say 1 offer to 1 A\noffer to 1 B\noffer to 1 C\n; serve 3; told 0 ok; \
    told 1 ok 0\nok 1\nok 2\n; calls 1; serve 3; calls 1; room 0 7; serve 3; told 0 \nok 0\no; \
    room 0 100; serve 3; told 0 k 1\n",
    "a program that says more than is obeyed in a turn is followed by another => \
    connect 2; often 0 100 offer to 0 A\n; say 1 offer to 1 A\n; serve 1; fewer 0 6; told 1 ; \
    calls 1; serve 1; fewer 0 12; told 1 ok 0\n; calls 2; serve 100; lines 0 100; under 60",
    "one program says what is no line, another a command => \
    connect 2; often 0 25600 x; say 1 offer to 1 A\n; serve 2; told 1 ok 0\n; \
    asks 0 \noffer to 1 B\n; told 0 fault line too long\nok 1\n; unread 0 0",
    "the half line of a program that has ended is not obeyed, and no more is read of it => \
    connect 1; say 0 offer to 0 A\noffer to 0 B\nstop; end 0; serve 4; told 0 ok 0\nok 1\n; \
    say 0 \n; serve 2; unread 0 1",
    "of 64 programs of which the system tells at once the last one is heard => \
    connect 64; serve 1; each 63; say 63 offer to 1 A\n; serve 1; told 63 ok 0\n",
    // One read, and two writes, the first of which is interrupted.
    "what would have to wait is not tried again before the system tells of the program => \
    connect 1; serve 3; moves 0 1; room 0 0; say 0 offer to 0 A\n; serve 1; told 0 ; moves 0 4; \
    serve 3; moves 0 4",
];

#[test]
fn programs_are_served(rt: HostRuntime) -> Result<(), Fail> {
    play(rt.alloc(), SERVED)
}

/// The acts in which, after ten records, one of 144 characters that are escaped arrives, and is
/// told.
fn longest_line(alloc: Global) -> Result<String, AllocError> {
    let mut acts = String::new(alloc);
    for _ in 0..10 {
        acts.push_str("arrive OLD; ")?;
    }
    acts.push_str("connect 1; asks 0 follow from 0\n; arrive ")?;
    for _ in 0..144 {
        acts.push_str("\x07")?;
    }
    acts.push_str("; serve 4; told 0 ok\narrived from 0 10 ")?;
    for _ in 0..144 {
        acts.push_str("\\x07")?;
    }
    acts.push_str("\n")?;
    Ok(acts)
}

#[test]
fn the_longest_line_is_told(rt: HostRuntime) -> Result<(), Fail> {
    let acts = longest_line(rt.alloc())?;
    assert!(rt; all_hold(rt.alloc(), &acts)?);
    Ok(())
}

#[test]
fn a_stop_is_answered_in_whichever_step_it_comes(rt: HostRuntime) -> Result<(), Fail> {
    for comments in 0..40 {
        let acts = format!(in rt.alloc();
            "connect 1; often 0 {comments} #\n; say 0 stop\n; stops 9; told 0 ok\n"
        )?;
        assert!(rt; all_hold(rt.alloc(), &acts)?, "{comments}");
    }
    Ok(())
}

/// What a program says to a terminal, and what it is told.
const SAID: &[u8] = b"offer from 0 A\noffer from 0 B\noffer to 0 A\nready off\nready on\nurgent\n\
release from 0 0\nstatus\n";

const TOLD: &[u8] = b"ok 0\nok 1\nfault the station does not send on it\nok\nok\nok\n\
fault not in doubt\nfrom 0: offered 2, known 0\nto 0.0: spooled 0\nto 0.1: spooled 0\nok\n";

/// Serves the programs of a terminal 20 times. Returns whether none asks it to end.
fn goes_on(alloc: Global, world: &World) -> Result<bool, Fail> {
    let mut station = terminal(alloc)?;
    let mut serving = on_heap(alloc, Serving::new(alloc, world.scripted()))?;
    Ok(!is_stopped(&mut serving, &mut *station, 20)?)
}

#[test]
fn commands_at_a_terminal(rt: HostRuntime) -> Result<(), Fail> {
    let world = World::new(rt.alloc())?;
    world.connect(1);
    world.at(0)?.say(SAID)?;
    assert!(rt; goes_on(rt.alloc(), &world)? && world.at(0)?.was_told(TOLD)?);
    Ok(())
}
