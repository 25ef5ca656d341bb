//! Stations whose store fails, and whose output is not ready or does not take their records.

use crate::session::play;
use std::test::Fail;

/// A text that is not kept as in doubt, a record that is not kept, and one that is not kept as
/// printed at the end: of a terminal that no program may feed, and of one that it may. That the
/// last flush of standard output fails too is not told in its place. Then a record that a program
/// offers is not kept. At last a record is kept, but not that it was printed: the station begins
/// again and receives another one, and both are printed.
const FAILING: &str = "\
$ store kept offer 0 hi.cards
> from 0: offered 1
& station line.toml --terminal 0 --connect h:1 --store kept
keeps 0
hears call-A
! bscline: what happened could not be kept: the disk is full
sent 0
status 7
$ station line.toml --terminal 0 --connect h:1 --store kept
keeps 0
hears call-a text
! bscline: what happened could not be kept: the disk is full
sent 7
status 7
$ station line.toml --terminal 0 --connect h:1 --store kept --sync
keeps 0
hears call-a text
disk-fails
! bscline: what happened could not be kept: the disk is full
sent 7
status 7
$ store kept offer 0 hi.cards
> from 0: offered 1
& station line.toml --terminal 0 --connect h:1 --serve p:1 --store kept
keeps 0
hears call-A
! bscline: what happened could not be kept: the disk is full
sent 0
status 7
$ station line.toml --terminal 0 --connect h:1 --serve p:1 --store kept
keeps 0
hears call-a text
! bscline: what happened could not be kept: the disk is full
sent 7
status 7
$ station line.toml --terminal 0 --connect h:1 --serve p:1 --store kept
keeps 1
hears call-a text
> to 0: 4849
! bscline: what happened could not be kept: the disk is full
sent 14
# connection 0 closed
status 7
$ station line.toml --terminal 0 --connect h:1 --serve p:1 --store kept
keeps 0
says offer from 0 THREE|
steps cf
! bscline: what happened could not be kept: the disk is full
sent 0
status 7
$ station line.toml --terminal 0 --connect h:1 --store kept
keeps 1
hears call-a text
> to 0: 4849
! bscline: what happened could not be kept: the disk is full
sent 14
# connection 0 closed
status 7
& station line.toml --terminal 0 --connect h:1 --store kept
keeps 99
hears call-a text
> to 0: 4849|to 0: 4849|from 0: offered 0, known 0|to 0: spooled 2
$ store kept offer 0 -
// A work on a store that fails tells why, and does nothing.
< ONE|TWO
> from 0: offered 2
& station line.toml --terminal 0 --connect h:1 --store kept
hears call-A
> from 0: offered 2, known 0|to 0: spooled 0
! bscline: records not delivered
status 4
& store kept release 0 2
keeps 0
! bscline: the disk is full
& store kept offer 0 hi.cards
! bscline: the disk is full
& store kept reconcile control
! bscline: the disk is full
& store control reconcile kept
! bscline: the other store: the disk is full
& store kept status
> from 0: offered 2, known 0, in doubt 2|to 0: arrived 0, printed 0
";

#[test]
fn a_station_whose_store_fails_has_status_seven_and_a_work_tells_why(
    rt: HostRuntime,
) -> Result<(), Fail> {
    play(rt.alloc(), FAILING)
}

/// The terminal acknowledges both records, and prints them once it has ended, once. If it fails
/// before its output is ready, it prints both when it is begun again. The output becomes ready when
/// the second record arrives, or after that, which the terminal is told before it fails. If the
/// output takes nothing, the terminal goes on, and both are printed when it is begun again.
const UNREADY: &str = "\
$ station line.toml --terminal 0 --connect h:1 --store kept
hears call-a text call-a text
unready 4294967295
asks connect h:1 by 1, 3000/3000, gap 50, patience 3000, replace 9000, pause 20, prints
> to 0: 4849|to 0: 4849|from 0: offered 0, known 0|to 0: spooled 2
sent 28
# connection 0 closed
& store kept status
> from 0: offered 0, known 0, in doubt 0|to 0: arrived 2, printed 2
& station line.toml --terminal 0 --connect h:1 --store kept
> from 0: offered 0, known 0|to 0: spooled 2
$ station line.toml --terminal 0 --connect h:1 --store kept
hears call-a text call-a text
unready 4294967295
steps rrrrrrrrf
! bscline: cannot make the sockets
sent 28
& store kept status
> from 0: offered 0, known 0, in doubt 0|to 0: arrived 2, printed 0
& station line.toml --terminal 0 --connect h:1 --store kept
> to 0: 4849|to 0: 4849|from 0: offered 0, known 0|to 0: spooled 2
$ station line.toml --terminal 0 --connect h:1 --store kept
hears call-a text call-a text
unready 2
steps rrrrrrrrf
> to 0: 4849|to 0: 4849
! bscline: cannot make the sockets
$ station line.toml --terminal 0 --connect h:1 --store kept
hears call-a text call-a text
unready 3
steps rrrrrrrrcf
> to 0: 4849|to 0: 4849
! bscline: cannot make the sockets
$ station line.toml --terminal 0 --connect h:1 --store kept
hears call-a text call-a text
output-fails
! bscline: records that arrived could not be printed
sent 28
# bscline: records cannot be printed, and are only kept|connection 0 closed
status 6
& store kept status
> from 0: offered 0, known 0, in doubt 0|to 0: arrived 2, printed 0
& station line.toml --terminal 0 --connect h:1 --store kept
> to 0: 4849|to 0: 4849|from 0: offered 0, known 0|to 0: spooled 2
";

#[test]
fn records_are_acknowledged_while_the_output_is_not_ready(rt: HostRuntime) -> Result<(), Fail> {
    play(rt.alloc(), UNREADY)
}
