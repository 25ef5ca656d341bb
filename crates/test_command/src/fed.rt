//! Stations that a program feeds while they run, and stations that are fed by the command.

use crate::session::play;
use std::test::Fail;

/// A terminal that nobody has called ends at once when a program asks it to, and a control station
/// with its visit; without that it goes on when it has nothing to do, until its connection is
/// closed. With a trace it is told in a line of it where programs can reach the station; they
/// cannot reach it at another place.
const FED: &str = "\
$ station line.toml --terminal 0 --connect h:1 --serve p:1 --text
hears call-A ack1 call-a text eot
steps c
says offer from 0 HI|follow from 0|follow to 0|nonsense|sto
asks connect h:1 by 1, 3000/3000, gap 50, patience 3000, replace 9000, pause 100, called
> to 0: HI|from 0: offered 1, known 1|to 0: spooled 1
@ ok 0|ok|ok|fault not a command|delivered from 0 1|arrived to 0 0 HI
$ station line.toml --terminal 0 --connect h:1 --serve p:1 --store kept
steps c
says offer from 0 ONE|offer-hex from 0 54574F|
> from 0: offered 2, known 0|to 0: spooled 0
! bscline: records not delivered
status 4
@ ok 0|ok 1
& store kept status
> from 0: offered 2, known 0, in doubt 0|to 0: arrived 0, printed 0
@ ok 0|ok 1
$ station line.toml --terminal 0 --connect h:1 --serve p:1 --trace
steps cf
says stop|
asks connect h:1 by 1, 3000/3000, gap 50, patience 3000, replace 9000, pause 100, traced, called, \
told in the trace
> from 0: offered 0, known 0|to 0: spooled 0
@ ok
$ station line.toml --terminal 0 --connect h:1 --serve p:1 --store kept
steps cf
says stop|
> from 0: offered 0, known 0|to 0: spooled 0
@ ok
$ station line.toml --terminal 0 --connect h:1 --serve unix:p
! bscline: programs cannot be served: address in use
asks nothing
$ station line.toml --control --connect h:1 --shared --serve p:1 --pause 7
hears ack0 ack1 eot eot eot eot
steps ctrrrrrrr
says offer to 0 HI|
asks connect h:1 by 1, 15000/3000, gap 50, patience 3000, replace 9000, pause 7, begins, called
> from 0: spooled 0|to 0: offered 1, known 1|from 1: spooled 0|to 1: offered 0, known 0
> slowest answer: 0% of the time-out|trusted
@ ok 0
$ station line.toml --control --connect h:1 --shared --serve p:1 --pause 7
hears eot eot eot eot
steps tcrr
says stop|
> from 0: spooled 0|to 0: offered 0, known 0|from 1: spooled 0|to 1: offered 0, known 0
> slowest answer: 0% of the time-out|trusted
@ ok
$ station line.toml --control --connect h:1 --shared --serve p:1
hears ack0 ack1 eot eot eot eot
steps ctrrrrrrr
says offer to 0 HI|x|x|x|x|stop|x|x|x|x|stop|
> from 0: spooled 0|to 0: offered 1, known 1|from 1: spooled 0|to 1: offered 0, known 0
> slowest answer: 0% of the time-out|trusted
@ ok 0|fault not a command|fault not a command|fault not a command|fault not a command|ok
@ fault not a command|fault not a command|fault not a command|fault not a command|ok
";

#[test]
fn a_program_feeds_a_station(rt: HostRuntime) -> Result<(), Fail> {
    play(rt.alloc(), FED)
}

/// A question for the state of each channel; commands of the input, up to the first fault; and what
/// fails.
const FEEDS: &str = "\
$ feed p:1 status
< offer from 0 NO
says from 0: offered 2, known 1|ok|
> from 0: offered 2, known 1|ok
@ status
$ feed p:1
< offer to 9 X|urgent
says fault no such channel|
> fault no such channel
! bscline: the station has refused a command
@ offer to 9 X
$ feed p:1 status
says from 0: offered 0, known 0|o
> from 0: offered 0, known 0
! bscline: the station has closed the connection
@ status
$ feed p:2 status
! bscline: no station serves there
$ feed p:1
input-fails
! bscline: input fault
$ feed p:1 status
says ok|
output-fails
! bscline: output fault
@ status
";

#[test]
fn a_station_is_fed(rt: HostRuntime) -> Result<(), Fail> {
    play(rt.alloc(), FEEDS)
}
