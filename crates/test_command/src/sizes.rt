//! Stations with no records, and with more records than one buffer, one turn or a short run has.

use crate::session::play;
use std::test::Fail;

/// No record, 140,000 short ones, and a long file are offered.
const OFFERED: &str = "\
$ station line.toml --terminal 0 --connect h:1 --offer -
> from 0: offered 0, known 0|to 0: spooled 0
$ station line.toml --terminal 0 --connect h:1 --offer -
<*140000 A
> from 0: offered 140000, known 0|to 0: spooled 0
! bscline: records not delivered
status 4
$ station line.toml --terminal 0 --connect h:1 --offer deck.cards
> from 0: offered 10000, known 0|to 0: spooled 0
! bscline: records not delivered
status 4
";

#[test]
fn records_are_offered_whatever_their_number(rt: HostRuntime) -> Result<(), Fail> {
    play(rt.alloc(), OFFERED)
}

/// A block of seven records is in doubt, what arrived at each of four addresses is printed, and
/// 66,000 records are printed once a station has ended.
const KEPT: &str = "\
$ station line.toml --terminal 0 --connect h:1 --store kept
offered*7 from A HI
known from A 0 7
> from 0: offered 7, known 0, in doubt|to 0: spooled 0
! bscline: records in doubt
status 3
$ station - --terminal 63 --connect h:1 --store any
< version = 2|poll_list = [63]
widest
arrived to a63 A
arrived to b63 B
arrived to c63 C
arrived to d63 D
> to 63.0: 41|to 63.1: 42|to 63.2: 43|to 63.3: 44|from 63: offered 0, known 0
> to 63.0: spooled 1|to 63.1: spooled 1|to 63.2: spooled 1|to 63.3: spooled 1
$ station line.toml --terminal 0 --connect h:1 --store kept --text
unready 4294967295
arrived*66000 to a HI
>*66000 to 0: HI
> from 0: offered 0, known 0|to 0: spooled 66000
& store kept status
> from 0: offered 0, known 0, in doubt 0|to 0: arrived 66000, printed 66000
";

#[test]
fn what_is_kept_is_in_doubt_or_printed_whatever_its_number(rt: HostRuntime) -> Result<(), Fail> {
    play(rt.alloc(), KEPT)
}

/// After a million records that are known to have arrived a program offers one more.
const KNOWN: &str = "\
$ station line.toml --terminal 0 --connect h:1 --serve p:1 --store kept
offered-before 1000001
known from A 1000001 0
hears call-A ack1
steps c
says offer from 0 HI|
> from 0: offered 1000002, known 1000002|to 0: spooled 0
@ ok 1000001
";

#[test]
fn a_program_offers_after_a_million_known_records(rt: HostRuntime) -> Result<(), Fail> {
    play(rt.alloc(), KNOWN)
}

/// A record arrives after a million that were printed.
const ARRIVED: &str = "\
$ station line.toml --terminal 0 --connect h:1 --numbers --store kept
arrived-before 1000000
printed to a 1000000
hears call-a text
> to 0 1000000: 4849|from 0: offered 0, known 0|to 0: spooled 1000001
";

#[test]
fn a_record_is_printed_after_a_million_printed_ones(rt: HostRuntime) -> Result<(), Fail> {
    play(rt.alloc(), ARRIVED)
}
