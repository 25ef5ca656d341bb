//! Stations whose records are kept in a store that outlives them.

use crate::session::play;
use std::test::Fail;

/// A store that is refused, before a connection is made.
const WORKS: &str = "\
$ station line.toml --terminal 0 --connect h:1 --store none
! bscline: store: there is no store
asks nothing
$ station line.toml --terminal 0 --connect h:1 --store busy
! bscline: store: the store is in use
asks nothing
$ station line.toml --terminal 0 --connect h:1 --store control
! bscline: store: the store is of another line or another station
asks nothing
$ station line.toml --terminal 0 --connect h:1 --store kept
// What arrived at terminal 0, in both forms, and from the second record on; and works that are
// refused.
hears call-A ack1 call-a text eot
> to 0: 4849|from 0: offered 0, known 0|to 0: spooled 1
& store kept arrived 0
> 4849
& store kept arrived 0.0 --text --from 0
> HI
& store kept arrived 0.0 --from 1
& store new init three.toml --terminal 1
> terminal 1: store made
& store kept init line.toml --terminal 0
! bscline: there is something in the file already
& store new init line.toml --terminal 2
! bscline: --terminal names a terminal that is not in CONFIG
status 2
& store kept release 0 1
! bscline: not in doubt
status 3
& store kept reconcile other
! bscline: the stores are not of two ends of one line
& store kept reconcile kept
! bscline: the other store: it is the same store
";

#[test]
fn a_store_that_is_refused_is_named_and_a_work_says_what_it_did(
    rt: HostRuntime,
) -> Result<(), Fail> {
    play(rt.alloc(), WORKS)
}

/// Terminal 0 sends two records and receives one. Begun again it sends nothing, and prints only the
/// record that it receives then, the second on its channel. A control station with a store does not
/// call at once.
const AGAIN: &str = "\
$ store kept offer 0 -
< ONE|TWO
> from 0: offered 2
& station line.toml --terminal 0 --connect h:1 --store kept
hears call-A ack1 call-a text eot
asks connect h:1 by 1, 3000/3000, gap 50, patience 3000, replace 9000, pause 20
> to 0: 4849|from 0: offered 2, known 2|to 0: spooled 1
& store kept status
> from 0: offered 2, known 2, in doubt 0|to 0: arrived 1, printed 1
& station line.toml --terminal 0 --connect h:1 --store kept --numbers
hears call-a text
> to 0 1: 4849|from 0: offered 2, known 2|to 0: spooled 2
& store kept status
> from 0: offered 2, known 2, in doubt 0|to 0: arrived 2, printed 2
$ store kept offer 0 -
< ONE|TWO
> from 0: offered 2
& station line.toml --terminal 0 --connect h:1 --raw --gap 7 --store kept
hears raw-call-A raw-ack1 raw-call-a raw-text raw-eot
steps rgrgrgrgrg
> to 0: 4849|from 0: offered 2, known 2|to 0: spooled 1
& store kept status
> from 0: offered 2, known 2, in doubt 0|to 0: arrived 1, printed 1
$ station line.toml --terminal 0 --connect h:1 --store kept
hears call-A ack1 call-a text eot
steps rrrrrrrrf
> to 0: 4849
! bscline: cannot make the sockets
$ station line.toml --control --listen h:1 --store control
address-in-use
asks listen h:1 by 2, 15000/3000, gap 50, patience 3000, replace 9000, pause 20, stays, skips
! bscline: address in use
$ station three.toml --terminal 0 --connect h:1 --store three
// A record arrives at terminal 0 by its second address, and in the next process one by its
// first. Each is printed once.
hears call-c text
> to 0.1: 4849|from 0: offered 0, known 0|to 0.0: spooled 0|to 0.1: spooled 1
& station three.toml --terminal 0 --connect h:1 --store three
hears call-a text
> to 0.0: 4849|from 0: offered 0, known 0|to 0.0: spooled 1|to 0.1: spooled 1
& store three status
> from 0: offered 0, known 0, in doubt 0|to 0.0: arrived 1, printed 1|to 0.1: arrived 1, printed 1
$ store threes offer 0.0 -
// A record is sent to each address, and one arrives from the last terminal. The next process
// sends none of them again, and prints only the record that arrives then.
< HI
> to 0.0: offered 1
& store threes offer 0.1 -
< HI
> to 0.1: offered 1
& store threes offer 1 -
< HI
> to 1: offered 1
& station three.toml --control --listen h:1 --shared --idle-rounds 1 --store threes
hears ack0 ack1 ack0 ack1 eot ack0 ack1 text eot eot eot eot
steps t
> from 1: 4849|from 0: spooled 0|to 0.0: offered 1, known 1|to 0.1: offered 1, known 1
> from 1: spooled 1|to 1: offered 1, known 1|slowest answer: 0% of the time-out|trusted
& store threes status
> from 0: arrived 0, printed 0|to 0.0: offered 1, known 1, in doubt 0
> to 0.1: offered 1, known 1, in doubt 0|from 1: arrived 1, printed 1
> to 1: offered 1, known 1, in doubt 0
& station three.toml --control --listen h:1 --shared --idle-rounds 1 --store threes
hears eot text eot eot eot eot
steps t
> from 1: 4849|from 0: spooled 0|to 0.0: offered 1, known 1|to 0.1: offered 1, known 1
> from 1: spooled 2|to 1: offered 1, known 1|slowest answer: 0% of the time-out|trusted
";

#[test]
fn a_station_goes_on_from_its_store_on_each_channel(rt: HostRuntime) -> Result<(), Fail> {
    play(rt.alloc(), AGAIN)
}

/// Terminal 0 sends two records and hears no answer, and has the doubt when it is begun again. The
/// doubt is not released by a wrong count, and then by a right one; or it is ended by what the
/// store of the control station has, which is nothing.
const DOUBTED: &str = "\
$ store kept offer 0 -
< ONE|TWO
> from 0: offered 2
& station line.toml --terminal 0 --connect h:1 --store kept
hears call-A
> from 0: offered 2, known 0|to 0: spooled 0
! bscline: records not delivered
status 4
& station line.toml --terminal 0 --connect h:1 --store kept
> from 0: offered 2, known 0, in doubt|to 0: spooled 0
! bscline: records in doubt
status 3
& store kept status
> from 0: offered 2, known 0, in doubt 2|to 0: arrived 0, printed 0
& store kept release 0 1
! bscline: count mismatch
status 3
& store kept release 0 2
> from 0: released at 2
& store kept offer 0 hi.cards
> from 0: offered 1
& store kept status
> from 0: offered 3, known 2, in doubt 0|to 0: arrived 0, printed 0
$ store kept offer 0 -
< ONE|TWO
> from 0: offered 2
& station line.toml --terminal 0 --connect h:1 --store kept
hears call-A
> from 0: offered 2, known 0|to 0: spooled 0
! bscline: records not delivered
status 4
& store control reconcile kept
> from 0: released at 0
& store kept reconcile control
> nothing in doubt
& store control status
> from 0: arrived 0, printed 0|to 0: offered 0, known 0, in doubt 0|from 1: arrived 0, printed 0
> to 1: offered 0, known 0, in doubt 0
";

#[test]
fn a_doubt_outlives_its_station(rt: HostRuntime) -> Result<(), Fail> {
    play(rt.alloc(), DOUBTED)
}

/// The record that arrives cannot be printed, and is printed when the station begins again. Without
/// `--sync` a disk that fails is not used, and the progress is shown.
const UNPRINTED: &str = "\
$ station line.toml --terminal 0 --connect h:1 --store kept --sync --text --trace
hears call-a text
disk-fails
> to 0: HI|from 0: offered 0, known 0|to 0: spooled 1
! bscline: records that arrived could not be printed
status 6
& store kept status
> from 0: offered 0, known 0, in doubt 0|to 0: arrived 1, printed 0
& station line.toml --terminal 0 --connect h:1 --store kept --bytes --numbers --report-records
hears call-A ack1 call-a text eot
> to 0 0: HI|to 0 1: HI|from 0: offered 0, known 0|to 0: spooled 2|  HI|  HI
$ station line.toml --terminal 0 --connect h:1 --store kept
hears call-A ack1 call-a text eot
disk-fails
> to 0: 4849|from 0: offered 0, known 0|to 0: spooled 1
shows Events 1
";

#[test]
fn a_record_that_could_not_be_printed_is_printed_again(rt: HostRuntime) -> Result<(), Fail> {
    play(rt.alloc(), UNPRINTED)
}
