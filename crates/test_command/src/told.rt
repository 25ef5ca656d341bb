//! What live stations print and tell with options that change it together, how they end when
//! something fails, and what becomes of their terminals.

use crate::session::play;
use std::test::Fail;

/// Records with numbers, synced ones of raw transmissions, and ones that are left at the end beside
/// the report.
const PRINTED: &str = "\
$ station line.toml --terminal 0 --connect h:1 --numbers
hears call-a text call-a text
> to 0 0: 4849|to 0 1: 4849|from 0: offered 0, known 0|to 0: spooled 2
$ station line.toml --control --listen h:1 --shared --idle-rounds 1 --numbers --text
hears eot text eot eot eot eot
steps t
> from 1 0: HI|from 0: spooled 0|to 0: offered 0, known 0|from 1: spooled 1
> to 1: offered 0, known 0|slowest answer: 0% of the time-out|trusted
$ station line.toml --terminal 0 --connect h:1 --raw --gap 7 --sync
hears raw-call-a raw-text
steps rgrg
disk-fails
> to 0: 4849|from 0: offered 0, known 0|to 0: spooled 1
! bscline: records that arrived could not be printed
status 6
$ station line.toml --terminal 0 --connect h:1 --store kept --report-records --text
hears call-a text
unready 4294967295
> to 0: HI|from 0: offered 0, known 0|to 0: spooled 1|  HI
$ station line.toml --terminal 0 --connect h:1 --store kept --sync
// What is printed at the end counts as printed once it is flushed.
hears call-a text
unready 4294967295
disk-fails
> to 0: 4849|from 0: offered 0, known 0|to 0: spooled 1
! bscline: records that arrived could not be printed
status 6
& store kept status
> from 0: offered 0, known 0, in doubt 0|to 0: arrived 1, printed 0
";

#[test]
fn records_are_printed_as_all_options_say(rt: HostRuntime) -> Result<(), Fail> {
    play(rt.alloc(), PRINTED)
}

/// A store of a control station that is full, a connection that the peer resets, a report that is
/// not taken, and a line that is not trusted, with a record in doubt.
const FAULTS: &str = "\
$ station line.toml --control --listen h:1 --shared --store control
keeps 0
hears text
steps t
! bscline: what happened could not be kept: the disk is full
status 7
$ station line.toml --terminal 0 --connect h:1
hears call-a reset
> from 0: offered 0, known 0|to 0: spooled 0
! bscline: connection closed: connection reset by peer
$ station line.toml --terminal 0 --connect h:1 --offer -
< HI
hears call-A cut
steps rrtttttttt
output-fails
! bscline: output fault
$ station line.toml --control --listen h:1 --rounds 1 --store control
offered to a HI
known to a 0 1
hears eot eot
steps tttttrr
> from 0: spooled 0|to 0: offered 1, known 0, in doubt|from 1: spooled 0|to 1: offered 0, known 0
> slowest answer: 0% of the time-out
> not trusted: connection 0 of terminal 1 answered when terminal 0 was called
! bscline: the line is not trusted
status 5
";

#[test]
fn each_fault_of_a_live_station_has_its_line_and_status(rt: HostRuntime) -> Result<(), Fail> {
    play(rt.alloc(), FAULTS)
}

/// A terminal leaves. Both terminals are absent after a visit without an answer; terminal 1 is
/// called next, and is back with its answer. With 0 none is absent.
const TERMINALS: &str = "\
$ station line.toml --control --listen h:1
others eot
steps trrrf
! bscline: cannot make the sockets
# terminal 0 answers on connection 0|connection 0 closed|terminal 0 has left
$ station line.toml --control --connect h:1 --shared --absent-after 1
hears eot
steps tttttttttrrf
! bscline: cannot make the sockets
# terminal 0 has not answered|terminal 0 is absent|terminal 1 has not answered|terminal 1 is absent
# terminal 1 is back
$ station line.toml --control --connect h:1 --shared --absent-after 0
hears eot
steps tttttttttrrf
! bscline: cannot make the sockets
# terminal 0 has not answered|terminal 1 has not answered
";

#[test]
fn terminals_leave_are_absent_and_come_back(rt: HostRuntime) -> Result<(), Fail> {
    play(rt.alloc(), TERMINALS)
}

/// The last call is answered also where a program has ended the station. A program may offer to
/// each address, offers an empty record to a store, and follows old records late.
const SERVED: &str = "\
$ station line.toml --control --connect h:1 --shared --serve p:1 --trace --trace
hears eot eot eot eot
steps tcrr
says stop|
> from 0: spooled 0|to 0: offered 0, known 0|from 1: spooled 0|to 1: offered 0, known 0
> slowest answer: 0% of the time-out|trusted
@ ok
# +0 silence|+0 control sent CALL A 161604ff1616c185ff|+0 asked to end
# +0 connection 0 heard EOT 161604ff
# +0 control sent CALL B 161604ff1616c285ff|+0 connection 0 heard EOT 161604ff
$ station - --control --connect h:1 --shared --serve p:1
< version = 2|poll_list = [0]||[[terminals]]|poll = \"A\"|select = [\"a\", \"b\", \"c\"]
steps c
says offer to 0.1 HI|offer to 0.2 HI|
> from 0: spooled 0|to 0.0: offered 0, known 0|to 0.1: offered 1, known 0
> to 0.2: offered 1, known 0|slowest answer: none|trusted
! bscline: records not delivered
status 4
@ ok 0|ok 0
$ station line.toml --terminal 0 --connect h:1 --serve p:1 --store kept
steps c
says offer from 0|offer from 0 |
> from 0: offered 2, known 0|to 0: spooled 0
! bscline: records not delivered
status 4
@ ok 0|ok 1
$ station line.toml --terminal 0 --connect h:1 --text --serve p:1
hears call-a text
times 1200
late 4400
says follow to 0 0|
>*1200 to 0: HI
> from 0: offered 0, known 0|to 0: spooled 1200
@ ok
@*1200 arrived to 0 ^ HI
";

#[test]
fn programs_are_served_until_the_last_call_is_answered(rt: HostRuntime) -> Result<(), Fail> {
    play(rt.alloc(), SERVED)
}
