//! Stations whose stores have many channels or many records, also ones that are not printed; what a
//! station forgets while it runs; and stores that do not fit their stations.

use crate::session::play;
use std::test::Fail;

/// What terminal 0 does not have: a known record that was not offered, a block of more records in
/// doubt than a text has, and a record that is longer than those of its line.
const KEPT: &str = "\
$ station line.toml --terminal 0 --connect h:1 --store kept
known from A 1 0
! bscline: store: the file is damaged or not a store
asks nothing
$ station line.toml --terminal 0 --connect h:1 --store kept
known from A 0 8
! bscline: store: the file is damaged or not a store
asks nothing
$ station line.toml --terminal 0 --connect h:1 --store kept
offered from A AAAAAAAAAAAAAAAAAAAAAAAAAAAAAAAAAAAAAAAAAAAAAAAAAAAAAAAAAAAAAAAAAAAAAAAAAAAAAAAAA
! bscline: store: the file is damaged or not a store
asks nothing
$ station - --control --connect h:1 --shared --store any
// A record has arrived from each of 64 terminals but the last; from that two, of which one is
// printed, and of three records to its last address one is known and one in doubt. The records
// that were not printed are printed, and the report.
< version = 2|poll_list = [63]
widest
fills
arrived*63 from A^ HI
arrived*2 from A63 HI
offered*3 to d63 HI
printed from A63 1
known to d63 1 1
steps t
>*64 from ^: 4849
>*63 from ^: spooled 1|to ^.0: offered 0, known 0|to ^.1: offered 0, known 0|\
to ^.2: offered 0, known 0|to ^.3: offered 0, known 0
> from 63: spooled 2|to 63.0: offered 0, known 0|to 63.1: offered 0, known 0
> to 63.2: offered 0, known 0|to 63.3: offered 3, known 1, in doubt|slowest answer: none|trusted
! bscline: records in doubt
status 3
";

#[test]
fn a_station_has_all_that_is_kept_or_does_not_begin(rt: HostRuntime) -> Result<(), Fail> {
    play(rt.alloc(), KEPT)
}

/// The last of 70,000 records of terminal 0 is sent; after 70,000 others one more arrives and is
/// printed. As many records as an input has lines of seven characters are offered in a store, and
/// all records that arrived are printed.
const MANY: &str = "\
$ station line.toml --terminal 0 --connect h:1 --store kept
offered*70000 from A HI
arrived*70000 to a A
known from A 69999 0
printed to a 70000
hears call-A ack1 call-a text eot
> to 0: 4849|from 0: offered 70000, known 70000|to 0: spooled 70001
& store kept status
> from 0: offered 70000, known 70000, in doubt 0|to 0: arrived 70001, printed 70001
& store kept arrived 0.0 --from 69999 --text
> A|HI
$ store kept offer 0 -
<*131072 AAAAAAA
> from 0: offered 131072
& store kept arrived 0 --text
arrived*70000 to a HI
>*70000 HI
";

#[test]
fn a_station_and_a_store_go_on_after_70000_records(rt: HostRuntime) -> Result<(), Fail> {
    play(rt.alloc(), MANY)
}

/// Of a hundred records 96 are printed after an event, six at a time as there is room for the
/// longest ones; then the station asks to be called for the others. After a silence the machine
/// fails.
const BACKLOGS: &str = "\
$ station line.toml --terminal 0 --connect h:1 --store kept
arrived*100 to a HI
steps tf
>*96 to 0: 4849
! bscline: cannot make the sockets
calls 1
$ station line.toml --terminal 0 --connect h:1 --store kept
// When a station has ended, it prints at most 1,024 records before it keeps that they are
// printed. Here 96 are printed before; the last one is not kept as printed.
arrived*1121 to a HI
keeps 2
>*1121 to 0: 4849
! bscline: what happened could not be kept: the disk is full
status 7
& store kept status
> from 0: offered 0, known 0, in doubt 0|to 0: arrived 1121, printed 1120
$ station line.toml --terminal 0 --connect h:1 --store kept --sync
// The output is on a disk that fails as the first six of a hundred records are synced: none
// counts as printed.
arrived*100 to a HI
disk-fails
>*6 to 0: 4849
> from 0: offered 0, known 0|to 0: spooled 100
! bscline: records that arrived could not be printed
status 6
& store kept status
> from 0: offered 0, known 0, in doubt 0|to 0: arrived 100, printed 0
$ station line.toml --control --listen h:1 --shared --idle-rounds 1 --store control
// A control station begins with a hundred records that are not printed, and one more arrives.
// Its output is never ready when it is asked: it prints all of them once it has ended.
arrived*100 from A HI
hears text eot eot eot eot eot eot eot
steps trrrrrrrr
unready 4294967295
>*101 from 0: 4849
> from 0: spooled 101|to 0: offered 0, known 0|from 1: spooled 0|to 1: offered 0, known 0
> slowest answer: 0% of the time-out|trusted
& store control status
> from 0: arrived 101, printed 101|to 0: offered 0, known 0, in doubt 0|from 1: arrived 0, printed 0
> to 1: offered 0, known 0, in doubt 0
";

#[test]
fn a_backlog_is_printed_in_short_turns_and_kept_as_printed(rt: HostRuntime) -> Result<(), Fail> {
    play(rt.alloc(), BACKLOGS)
}

/// Terminal 0 hears so many texts that records are forgotten while they come. One that does not
/// repeat its records in the report forgets them, and one that does forgets none, also with a store
/// that has records that were printed before. A program follows what arrives, from the first record
/// on.
const REPEATED: &str = "\
$ station line.toml --terminal 0 --connect h:1 --text --quiet
hears call-a text
times 1100
>*1100 to 0: HI
> from 0: offered 0, known 0|to 0: spooled 1100
$ station line.toml --terminal 0 --connect h:1 --text --report-records
hears call-a text
times 1100
>*1100 to 0: HI
> from 0: offered 0, known 0|to 0: spooled 1100
>*1100   HI
$ station line.toml --terminal 0 --connect h:1 --text --store kept --report-records
arrived*1500 to a HI
printed to a 1500
hears call-a text
times 1100
>*1100 to 0: HI
> from 0: offered 0, known 0|to 0: spooled 2600
>*2600   HI
$ station line.toml --terminal 0 --connect h:1 --text --store kept --serve p:1
arrived*1500 to a HI
printed to a 1500
hears call-a text
times 1100
steps c
says follow to 0 0|
>*1100 to 0: HI
> from 0: offered 0, known 0|to 0: spooled 2600
@ ok
@*2600 arrived to 0 ^ HI
";

#[test]
fn a_terminal_counts_repeats_or_tells_all_records(rt: HostRuntime) -> Result<(), Fail> {
    play(rt.alloc(), REPEATED)
}
