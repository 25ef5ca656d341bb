//! Stations at the bounds of a line: the most terminals, addresses, options and connections, the
//! longest records and words, and the most records of an input. The octets are those of
//! docs/PROTOCOL.md.

use crate::session::play;
use std::test::Fail;

/// The last of 64 terminals sends a record, and is selected by its last address; a record that
/// arrives so is also kept.
const WIDEST: &str = "\
$ station - --terminal 63 --connect h:1 --offer hi.cards --trace
< version = 2|poll_list = [63]
widest
fills
hears call-A63 ack1 call-d63 text eot
> to 63.3: 4849|from 63: offered 1, known 1
> to 63.0: spooled 0|to 63.1: spooled 0|to 63.2: spooled 0|to 63.3: spooled 1
# +0 control heard CALL A63 161604ff1616c1b6b385ff
# +0 terminal 63 sent TEXT ETX 1 161602c84919839bff|+0 control heard ACK1 16161031ff
# +0 terminal 63 sent EOT 161604ff|+0 control heard CALL d63 161604ff161664b6b385ff
# +0 terminal 63 sent ACK0 161610b0ff|+0 control heard TEXT ETX 1 161602c84919839bff
# +0 terminal 63 sent ACK1 16161031ff|+0 control heard EOT 161604ff|+0 connection 0 closed
$ station - --terminal 63 --connect h:1 --store any
< version = 2|poll_list = [63]
widest
fills
hears call-A63 ack1 call-d63 text eot
> to 63.3: 4849|from 63: offered 0, known 0
> to 63.0: spooled 0|to 63.1: spooled 0|to 63.2: spooled 0|to 63.3: spooled 1
# connection 0 closed
$ station - --control --listen h:1 --begin-with 64
// A control station may have 16 networks and the addresses of 64 terminals, wait for all of them,
// and have an offer for each of 256 addresses.
words*16 --allow ^.0.0.0/8
words*64 --peer ^=10.0.0.1
< version = 2|poll_list = [63]
widest
fills
address-in-use
asks listen h:1 by 64, 15000/3000, gap 50, patience 3000, replace 9000, pause 20, stays, begins, \
skips, after 64
! bscline: address in use
$ station - --control --listen h:1
words*17 --allow ^.0.0.0/8
words*64 --peer ^=10.0.0.1
< version = 2|poll_list = [63]
widest
fills
address-in-use
usage --allow cannot be given more than 16 times
$ station - --control --shared --connect h:1
words*64 --offer ^.0=hi.cards --offer ^.1=hi.cards --offer ^.2=hi.cards --offer ^.3=hi.cards
< version = 2|poll_list = [63]
widest
fills
>*64 from ^: spooled 0|to ^.0: offered 1, known 0|to ^.1: offered 1, known 0|\
to ^.2: offered 1, known 0|to ^.3: offered 1, known 0
> slowest answer: none|trusted
! bscline: records not delivered
status 4
# connection 0 closed
$ station - --control --listen h:1 --rounds 1 --offer 63=hi.cards --peer 63=10.0.0.63
// Each terminal but the last one answers EOT to its poll, and the first one also to the call
// after the round. The last one, which answers from its own address only, answers to its
// selection, to a text, to its poll, and to the reply to its text.
// On each connection 865 octets are sent. Ten terminals have an address of two characters, whose
// calls have 12 octets, and the others one of three, whose calls have 13; the first terminal is
// called twice, and the last one also selected, and sent a text of 11 octets and a reply of 7.
< version = 2|poll_list = [
<*64 ^,
< ]
widest
fills
hears ack0 ack1 text eot
others eot eot
steps t
> from 63: 4849
>*63 from ^: spooled 0|to ^.0: offered 0, known 0|to ^.1: offered 0, known 0|\
to ^.2: offered 0, known 0|to ^.3: offered 0, known 0
> from 63: spooled 1|to 63.0: offered 1, known 1|to 63.1: offered 0, known 0
> to 63.2: offered 0, known 0|to 63.3: offered 0, known 0|slowest answer: 0% of the time-out|trusted
sent 55360
#*64 terminal ^ answers on connection ^
";

#[test]
fn a_line_may_have_64_terminals_with_4_addresses_and_a_connection_each(
    rt: HostRuntime,
) -> Result<(), Fail> {
    play(rt.alloc(), WIDEST)
}

/// On a line whose records have up to 144 characters, each of seven of the longest records is
/// printed when it arrives, and all of them in the report. With a second text a terminal keeps
/// seven records, and that those of the first are printed. Two of the longest records are sent in
/// one text.
const RECORDS: &str = "\
$ station - --terminal 0 --connect h:1 --text --report-records --trace
< version = 1|full = 144|poll_list = [0]||[[terminals]]|poll = \"A\"|select = \"a\"
hears call-a seven record us record us record us record us record us record us record etx
>*7 to 0: {144 A}
> from 0: offered 0, known 0|to 0: spooled 7
>*7   {144 A}
# +0 control heard CALL a 161604ff16166185ff|+0 terminal 0 sent ACK0 161610b0ff
# +0 control heard TEXT ETX 7 161602{144 c1}1f1f{144 c1}1f1f{144 c1}1f1f{144 c1}1f1f{144 c1}1f1f\
{144 c1}1f1f{144 c1}8383ff
# +0 terminal 0 sent ACK1 16161031ff|+0 connection 0 closed
$ station - --terminal 0 --connect h:1 --store any --text
< version = 1|full = 144|poll_list = [0]||[[terminals]]|poll = \"A\"|select = \"a\"
hears call-a seven record us record us record us record us record us record us record etb \
seven record us record us record us record us record us record us record etx
>*14 to 0: {144 A}
> from 0: offered 0, known 0|to 0: spooled 14
# connection 0 closed
$ station - --terminal 0 --connect h:1 --offer longest.cards --trace
< version = 1|full = 144|poll_list = [0]||[[terminals]]|poll = \"A\"|select = \"a\"
hears call-A ack1
> from 0: offered 2, known 2|to 0: spooled 0
# +0 control heard CALL A 161604ff1616c185ff
# +0 terminal 0 sent TEXT ETX 2 161602{144 c1}1f1f{144 c1}8383ff
# +0 control heard ACK1 16161031ff|+0 terminal 0 sent EOT 161604ff|+0 connection 0 closed
$ station line.toml --terminal 0 --connect h:1
// A terminal may offer 256 texts, and a station as many records as an input has lines of seven
// characters.
words*256 --offer=hi.cards
> from 0: offered 256, known 0|to 0: spooled 0
! bscline: records not delivered
status 4
# connection 0 closed
$ station line.toml --terminal 0 --connect h:1 --offer -
<*131072 AAAAAAA
> from 0: offered 131072, known 0|to 0: spooled 0
! bscline: records not delivered
status 4
# connection 0 closed
$ station line.toml --control --connect h:1 --shared --offer 1=-
<*131072 AAAAAAA
> from 0: spooled 0|to 0: offered 0, known 0|from 1: spooled 0|to 1: offered 131072, known 0
> slowest answer: none|trusted
! bscline: records not delivered
status 4
# connection 0 closed
";

#[test]
fn records_may_be_as_long_and_as_many_as_a_text_and_an_input_have(
    rt: HostRuntime,
) -> Result<(), Fail> {
    play(rt.alloc(), RECORDS)
}

/// Each word that is the path of a file, or has one at its end. Linux passes words of up to 131,071
/// octets to a program.
const LONGEST_PATHS: &str = "\
$ run {131071 x} polled.txt
! bscline: cannot read {131071 x}: no such file
$ run line.toml {131071 x}
! bscline: cannot read {131071 x}: no such file
$ run --check line.toml {131071 x}
! bscline: cannot read {131071 x}: no such file
$ chart {131071 x}
! bscline: cannot read {131071 x}: no such file
$ chart --html {131071 x}
! bscline: cannot read {131071 x}: no such file
$ station {131071 x} --control --listen h:1
! bscline: cannot read {131071 x}: no such file
$ station line.toml --terminal 1 --connect h:1 --offer={131071 x}
! bscline: cannot read {131071 x}: no such file
$ station line.toml --control --listen h:1 --offer=1.0={131071 x}
! bscline: cannot read {131071 x}: no such file
$ store new init {131071 x} --control
! bscline: cannot read {131071 x}: no such file
$ store kept offer 0 {131071 x}
! bscline: cannot read {131071 x}: no such file
";

#[test]
fn the_longest_paths_are_named(rt: HostRuntime) -> Result<(), Fail> {
    play(rt.alloc(), LONGEST_PATHS)
}

/// Words with one of digits, and what is told of them.
const LONGEST_WORDS: &str = "\
$ store {131071 7} status
! bscline: there is no store
$ store {131071 7} arrived 0 --text
! bscline: there is no store
$ store {131071 7} release 0 1
! bscline: there is no store
$ store {131071 7} reconcile kept
! bscline: there is no store
$ store kept reconcile {131071 7}
! bscline: the other store: there is no store
$ station line.toml --terminal 0 --connect h:1 --store={131071 7}
! bscline: store: there is no store
$ station line.toml --terminal 0 --connect {131071 7} --offer hi.cards --offer none
! bscline: cannot read none: no such file
$ name {131071 7}
! bscline: not hexadecimal
$ name {131070 7}
> NOISE
";

#[test]
fn the_longest_words_have_their_meaning(rt: HostRuntime) -> Result<(), Fail> {
    play(rt.alloc(), LONGEST_WORDS)
}
