//! What stations ask of the machine when they begin, by their options; how they are refused; and
//! peers that connect later.

use crate::session::play;
use std::test::Fail;

/// A station with these options, and what it asks for, which it does not get.
macro_rules! asks {
    ($options:literal, $asks:literal) => {
        concat!(
            "$ station line.toml ",
            $options,
            "\naddress-in-use\nasks ",
            $asks,
            "\n! bscline: address in use"
        )
    };
}

/// Options of which each holds beside the other ones.
const ASKED: &[&str] = &[
    asks!(
        "--terminal 0 --connect h:1 --serve p:1 --until-input-ends",
        "connect h:1 by 1, 3000/3000, gap 50, patience 3000, replace 9000, pause 100, stops, called"
    ),
    asks!(
        "--control --connect h:1 --shared --serve p:1 --until-input-ends",
        "connect h:1 by 1, 15000/3000, gap 50, patience 3000, replace 9000, pause 100, begins, \
        stops, called"
    ),
    asks!(
        "--terminal 0 --listen h:1 --raw --allow 10.0.0.2/32 --serve p:1 --store kept",
        "listen h:1 by 1, 3000/3000, gap 50, patience 3000, replace 9000, pause 100, raw, called, \
        without 1"
    ),
    asks!(
        "--control --listen h:1 --begin-with 1 --allow 10.0.0.1/32",
        "listen h:1 by 2, 15000/3000, gap 50, patience 3000, replace 9000, pause 20, stays, \
        begins, skips, without 2, after 1"
    ),
    asks!(
        "--control --listen h:1 --raw --begin-with 2 --until-input-ends",
        "listen h:1 by 2, 15000/3000, gap 50, patience 3000, replace 9000, pause 20, raw, stays, \
        begins, stops, after 2"
    ),
    asks!(
        "--control --listen h:1 --raw --store control",
        "listen h:1 by 2, 15000/3000, gap 50, patience 3000, replace 9000, pause 20, raw, stays"
    ),
    asks!(
        "--terminal 0 --connect h:1 --serve p:1 --store kept\nunready 1",
        "connect h:1 by 1, 3000/3000, gap 50, patience 3000, replace 9000, pause 100, called, \
        prints"
    ),
];

#[test]
fn each_option_is_asked_for_beside_others(rt: HostRuntime) -> Result<(), Fail> {
    for sessions in ASKED {
        play(rt.alloc(), *sessions)?;
    }
    Ok(())
}

/// Why connections cannot be made, a store is not opened, and a station is not reached; and words
/// that `bscline` refuses or takes: an option that may be given once, and words of no characters.
const REFUSED: &str = "\
$ station line.toml --terminal 0 --connect h
no-address
! bscline: cannot read the address: it is HOST:PORT
$ station line.toml --control --listen h:1
cannot-listen
! bscline: cannot listen at this address
$ station line.toml --control --listen h:1 --begin-with 1
nobody-connected
! bscline: nobody has connected
$ station line.toml --control --listen h:1 --store newer
! bscline: store: the store has version 9, which is newer than this program's
asks nothing
$ feed p status
! bscline: cannot read the address of the station: it is HOST:PORT or unix:PATH
$ station line.toml --terminal 0 --connect h:1 --time-out 5 --time-out 6
usage the argument '--time-out <MS>' cannot be used multiple times
$ station line.toml --terminal 0 --connect h:1 --offer ''
! bscline: cannot read : no such file
asks nothing
$ feed p:1 offer to 0 ''
says ok 0|
> ok 0
@ offer to 0 {0 x}
";

#[test]
fn each_refusal_is_told_as_what_it_is(rt: HostRuntime) -> Result<(), Fail> {
    play(rt.alloc(), REFUSED)
}

/// A control station begins without a peer. All 64 terminals of its line connect then, and one more
/// peer, which has no place.
const JOINED: &str = "\
$ station - --control --listen h:1
< version = 2|poll_list = [63]
widest
vacant
steps jjjjjjjjjjjjjjjjjjjjjjjjjjjjjjjjjjjjjjjjjjjjjjjjjjjjjjjjjjjjjjjjjf
! bscline: cannot make the sockets
#*64 connection ^ joined
# refused a peer: every place is taken
$ station line.toml --control --listen h:1 --shared --offer 0=- --rounds 1
// A limit of rounds does not end a station whose peer closes its connection: the last call is
// answered by the one that takes its place.
< HI
later ack0 ack1 eot eot eot eot
steps trjtrrrrrr
> from 0: spooled 0|to 0: offered 1, known 1|from 1: spooled 0|to 1: offered 0, known 0
> slowest answer: 0% of the time-out|trusted
# connection 0 closed|connection 0 joined
";

#[test]
fn peers_take_each_place_of_a_line_also_later(rt: HostRuntime) -> Result<(), Fail> {
    play(rt.alloc(), JOINED)
}
