//! Control stations by their words, over scripted connections.

use crate::session::play;
use std::test::Fail;

/// A record is sent to terminal 0, or is not answered; a line on which as much is tried as may be;
/// and a peer that closes its connection, whose place another one takes.
const ENDS: &str = "\
$ station line.toml --control --listen h:1 --shared --offer 0=- --idle-rounds 1 \
--replace-after 70 --pause 0
< HI
hears ack0 ack1 eot eot eot eot
steps trrrrrr
asks listen h:1 by 1, 15000/3000, gap 50, patience 3000, replace 70, pause 0, stays, begins
> from 0: spooled 0|to 0: offered 1, known 1|from 1: spooled 0|to 1: offered 0, known 0
> slowest answer: 0% of the time-out|trusted
$ station line.toml --control --connect h:1 --shared --offer 0=- --time-out 40 --raw --gap 9
< HI
steps t
asks connect h:1 by 1, 200/40, gap 9, patience 40, replace 120, pause 10, raw, begins
> from 0: spooled 0|to 0: offered 1, known 0|from 1: spooled 0|to 1: offered 0, known 0
> slowest answer: none|trusted
! bscline: records not delivered
status 4
$ station tries.toml --control --connect h:1 --shared --time-out 100 --patience 70
steps t
asks connect h:1 by 1, 1700/100, gap 50, patience 70, replace 300, pause 20, begins
> from 0: spooled 0|to 0: offered 0, known 0|slowest answer: none|trusted
$ station line.toml --control --listen h:1 --shared --offer 0=- --idle-rounds 1
< HI
later ack0 ack1 eot eot eot eot
steps trjtrrrrrr
> from 0: spooled 0|to 0: offered 1, known 1|from 1: spooled 0|to 1: offered 0, known 0
> slowest answer: 0% of the time-out|trusted
$ station three.toml --control --connect h:1 --shared --offer 0.1=- --trace
< HI
steps t
> from 0: spooled 0|to 0.0: offered 0, known 0|to 0.1: offered 1, known 0|from 1: spooled 0
> to 1: offered 0, known 0|slowest answer: none|trusted
! bscline: records not delivered
sent 11
# +0 silence|+0 control sent CALL c 161604ff1616e385ff|+0 connection 0 closed
status 4
$ station line.toml --control --listen h:1 --shared --rounds 1 --trace --trace
// The last call is answered, also when each transmission ends at a gap; and a station that is
// asked to end does so after its visit.
hears eot eot eot eot eot
steps trrr
> from 0: spooled 0|to 0: offered 0, known 0|from 1: spooled 0|to 1: offered 0, known 0
> slowest answer: 0% of the time-out|trusted
sent 33
# +0 silence
# +0 control sent CALL A 161604ff1616c185ff|+0 connection 0 heard EOT 161604ff
# +0 control sent CALL B 161604ff1616c285ff|+0 connection 0 heard EOT 161604ff
# +0 control sent CALL A 161604ff1616c185ff|+0 connection 0 heard EOT 161604ff
$ station line.toml --control --listen h:1 --shared --raw --rounds 1
hears raw-eot raw-eot raw-eot
steps trgrgrg
> from 0: spooled 0|to 0: offered 0, known 0|from 1: spooled 0|to 1: offered 0, known 0
> slowest answer: 0% of the time-out|trusted
sent 27
$ station line.toml --control --listen h:1 --shared --until-input-ends --idle-rounds 9
hears eot eot eot eot eot
steps tsrr
> from 0: spooled 0|to 0: offered 0, known 0|from 1: spooled 0|to 1: offered 0, known 0
> slowest answer: 0% of the time-out|trusted
sent 22
";

#[test]
fn a_control_station_goes_on_when_its_peer_closes_and_ends_after_its_last_call(
    rt: HostRuntime,
) -> Result<(), Fail> {
    play(rt.alloc(), ENDS)
}

/// A control station whose terminals answer EOT to each call, with these options, and how many
/// octets it sends.
macro_rules! rounds {
    ($options:literal, $sent:literal) => {
        concat!(
            "$ station line.toml --control --listen h:1 --shared ",
            $options,
            "\nhears eot\ntimes 601\nsteps t\n> from 0: spooled 0|to 0: offered 0, known 0\n\
            > from 1: spooled 0|to 1: offered 0, known 0\n\
            > slowest answer: 0% of the time-out|trusted\nsent ",
            $sent
        )
    };
}

/// A batch ends after two idle rounds, and without a limit there is no end to them. Each call has
/// eleven octets; the answer to the one after the last round is heard.
const ROUNDS: &[&str] = &[
    rounds!("--batch", "55"),
    rounds!("--rounds 1 --batch", "33"),
    rounds!("--rounds 1", "33"),
    rounds!("--idle-rounds 1", "33"),
    rounds!("--rounds 2 --idle-rounds 3", "55"),
    rounds!("--rounds 9 --idle-rounds 3", "77"),
    rounds!("--rounds 300", "6611"),
    rounds!("--rounds 18446744073709551615 --idle-rounds 300", "6611"),
];

#[test]
fn a_control_station_ends_after_exactly_its_rounds(rt: HostRuntime) -> Result<(), Fail> {
    for sessions in ROUNDS {
        play(rt.alloc(), *sessions)?;
    }
    Ok(())
}

/// A record arrives from terminal 1: its output, its trace and the progress. If the disk fails, the
/// report is printed, and the text is not acknowledged.
const PRINTED: &str = "\
$ station line.toml --control --listen h:1 --shared --idle-rounds 1
hears eot text eot eot eot eot
steps t
> from 1: 4849|from 0: spooled 0|to 0: offered 0, known 0|from 1: spooled 1|to 1: offered 0, known 0
> slowest answer: 0% of the time-out|trusted
shows Rounds 1 0 0 2
sent 62
$ station line.toml --control --listen h:1 --shared --idle-rounds 1 --raw --bytes \
--report-records --quiet
hears raw-eot raw-text raw-eot raw-eot raw-eot raw-eot
steps trgrgrgrgrgrg
> from 1: HI|from 0: spooled 0|to 0: offered 0, known 0|from 1: spooled 1|  HI
> to 1: offered 0, known 0|slowest answer: 0% of the time-out|trusted
shows nothing
sent 50
$ station line.toml --control --listen h:1 --shared --idle-rounds 1 --trace
hears eot text eot eot eot eot
steps t
> from 1: 4849|from 0: spooled 0|to 0: offered 0, known 0|from 1: spooled 1|to 1: offered 0, known 0
> slowest answer: 0% of the time-out|trusted
shows nothing
sent 62
# +0 silence|+0 control sent CALL B 161604ff1616c285ff
# +0 connection 0 heard TEXT ETX 1 161602c84919839bff|+0 control sent ACK1 16161031ff
# +0 connection 0 heard EOT 161604ff
$ station line.toml --control --listen h:1 --shared --sync --text --report-records
hears eot text eot eot eot eot
steps t
disk-fails
> from 1: HI|from 0: spooled 0|to 0: offered 0, known 0|from 1: spooled 1|  HI
> to 1: offered 0, known 0
! bscline: records that arrived could not be printed
sent 22
status 6
";

#[test]
fn a_control_station_prints_in_the_form_of_its_options(rt: HostRuntime) -> Result<(), Fail> {
    play(rt.alloc(), PRINTED)
}

/// Connection 0 is that of the peer with the address 10.0.0.1, which may not answer for terminal 0.
/// Then it answers for terminal 1, and to the last call, which is for terminal 0: that is not
/// heard.
const PEERS: &str = "\
$ station line.toml --control --listen h:1 --rounds 1 --peer 0=10.0.0.2
hears eot eot eot eot eot
steps trrtttttttttttttttttttttttttttttt
peer-1
> from 0: spooled 0|to 0: offered 0, known 0|from 1: spooled 0|to 1: offered 0, known 0
> slowest answer: none|not trusted: connection 0 answered for terminal 0 from another address
! bscline: the line is not trusted
sent 99
# not trusted: connection 0 answered for terminal 0 from another address|terminal 0 has not answered
# terminal 1 has not answered
status 5
$ station line.toml --control --listen h:1 --rounds 1
hears eot eot
steps tttttrr
> from 0: spooled 0|to 0: offered 0, known 0|from 1: spooled 0|to 1: offered 0, known 0
> slowest answer: 0% of the time-out
> not trusted: connection 0 of terminal 1 answered when terminal 0 was called
! bscline: the line is not trusted
sent 66
# terminal 0 has not answered|terminal 1 answers on connection 0
# not trusted: connection 0 of terminal 1 answered when terminal 0 was called|connection 0 closed
status 5
";

#[test]
fn answers_from_another_address_end_trust(rt: HostRuntime) -> Result<(), Fail> {
    play(rt.alloc(), PEERS)
}
