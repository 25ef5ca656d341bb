//! Whole stations by their words, over a scripted connection: terminals.

use crate::session::play;
use std::test::Fail;

/// A terminal sends a record and receives one; its connection is closed, also by a fault, while a
/// record waits or is in doubt.
const ENDS: &str = "\
$ station line.toml --terminal 0 --connect h:1 --offer - --text
< HI
hears call-A ack1 call-a text eot
asks connect h:1 by 1, 3000/3000, gap 50, patience 3000, replace 9000, pause 20
> to 0: HI|from 0: offered 1, known 1|to 0: spooled 1
$ station line.toml --terminal 0 --listen h:1 --raw --gap 7 --time-out 9 --offer - --text
< HI
hears raw-call-A raw-ack1 raw-call-a raw-text raw-eot
steps rgrgrgrgrg
asks listen h:1 by 1, 9/9, gap 7, patience 9, replace 27, pause 2, raw
> to 0: HI|from 0: offered 1, known 1|to 0: spooled 1
$ station line.toml --terminal 1 --connect h:1
hears eot cut
> from 1: offered 0, known 0|to 1: spooled 0
! bscline: connection closed: the input ended within a record
$ station line.toml --terminal 1 --connect h:1
hears length rest rest
> from 1: offered 0, known 0|to 1: spooled 0
! bscline: connection closed: the length of a record is wrong
$ station line.toml --terminal 0 --connect h:1 --until-input-ends
hears call-A ack1 call-a text eot
steps s
asks connect h:1 by 1, 3000/3000, gap 50, patience 3000, replace 9000, pause 20, stops
> from 0: offered 0, known 0|to 0: spooled 0
sent 0
$ station line.toml --terminal 0 --connect h:1 --offer -
// A record was sent and not answered; then also the terminal has given up.
< HI
hears call-A cut
> from 0: offered 1, known 0|to 0: spooled 0
! bscline: records not delivered
status 4
$ station line.toml --terminal 0 --connect h:1 --offer -
< HI
hears call-A cut
steps rrtttttttt
> from 0: offered 1, known 0, in doubt|to 0: spooled 0
! bscline: records in doubt
status 3
$ station line.toml --control --listen h:1
// No connections can be made, or waiting for them fails after a record has arrived: no report is
// printed.
address-in-use
asks listen h:1 by 2, 15000/3000, gap 50, patience 3000, replace 9000, pause 20, stays, begins, \
skips
! bscline: address in use
$ station line.toml --terminal 0 --connect h:1
nobody-there
! bscline: nobody is there
$ station line.toml --terminal 0 --connect h:1
hears call-A ack1 call-a text eot
steps rrrrrrrrf
> to 0: 4849
! bscline: cannot make the sockets
$ station line.toml --control --listen h:1 --shared --offer 0=-
< HI
hears ack0 ack1 eot eot eot eot
steps trrf
! bscline: cannot make the sockets
$ station line.toml --terminal 0 --listen h:1 --allow ::1 --allow 10.0.0.1/32
// Of the addresses 10.0.0.1 and 10.0.0.2 only the first one is allowed.
asks listen h:1 by 1, 3000/3000, gap 50, patience 3000, replace 9000, pause 20, without 2
> from 0: offered 0, known 0|to 0: spooled 0
";

#[test]
fn a_station_ends_as_its_connections_do_and_tells_why(rt: HostRuntime) -> Result<(), Fail> {
    play(rt.alloc(), ENDS)
}

/// Without `--trace` only the close of the connection is told, and the progress is shown.
const TRACES: &str = "\
$ station line.toml --terminal 0 --connect h:1
hears call-A ack1 call-a text eot
> to 0: 4849|from 0: offered 0, known 0|to 0: spooled 1
shows Events 1 0 0 9
sent 20
# connection 0 closed
$ station line.toml --terminal 0 --connect h:1 --trace
hears call-A ack1 call-a text eot
asks connect h:1 by 1, 3000/3000, gap 50, patience 3000, replace 9000, pause 20, traced
> to 0: 4849|from 0: offered 0, known 0|to 0: spooled 1
shows nothing
# +0 control heard ACK1 16161031ff|+0 control heard CALL a 161604ff16166185ff
# +0 terminal 0 sent ACK0 161610b0ff|+0 control heard TEXT ETX 1 161602c84919839bff
# +0 terminal 0 sent ACK1 16161031ff|+0 control heard EOT 161604ff|+0 connection 0 closed
$ station line.toml --terminal 0 --connect h:1 --trace --trace
hears call-A ack1 call-a text eot
> to 0: 4849|from 0: offered 0, known 0|to 0: spooled 1
sent 20
# +0 control heard CALL A 161604ff1616c185ff|+0 terminal 0 sent EOT 161604ff
# +0 control heard ACK1 16161031ff|+0 control heard CALL a 161604ff16166185ff
# +0 terminal 0 sent ACK0 161610b0ff|+0 control heard TEXT ETX 1 161602c84919839bff
# +0 terminal 0 sent ACK1 16161031ff|+0 control heard EOT 161604ff|+0 connection 0 closed
$ station line.toml --terminal 0 --connect h:1 --trace --trace
// The trace of a terminal fails with what it hears first, and that of a control station with the
// first silence. Neither sends anything, and no report is printed. Without a trace its lines may
// be lost.
hears call-A ack1 call-a text eot
trace-fails
! bscline: output fault
sent 0
$ station line.toml --control --listen h:1 --shared --trace
steps t
trace-fails
! bscline: output fault
sent 0
$ station line.toml --terminal 0 --connect h:1
hears call-A ack1 call-a text eot
trace-fails
> to 0: 4849|from 0: offered 0, known 0|to 0: spooled 1
";

#[test]
fn a_trace_is_as_it_is_asked_for_and_ends_its_station_if_it_fails(
    rt: HostRuntime,
) -> Result<(), Fail> {
    play(rt.alloc(), TRACES)
}

/// If the disk fails, the text that arrived is not acknowledged, and the report is tried; without
/// `--sync` the disk is not used.
const DISKS: &str = "\
$ station line.toml --terminal 0 --connect h:1 --quiet
hears call-A ack1 call-a text eot
disk-fails
> to 0: 4849|from 0: offered 0, known 0|to 0: spooled 1
shows nothing
sent 20
# connection 0 closed
$ station line.toml --terminal 0 --connect h:1 --sync --text --report-records
hears call-A ack1 call-a text eot
disk-fails
> to 0: HI|from 0: offered 0, known 0|to 0: spooled 1|  HI
! bscline: records that arrived could not be printed
sent 13
status 6
$ station line.toml --terminal 0 --connect h:1 --sync --bytes --report-records
hears call-A ack1 call-a text eot
> to 0: HI|from 0: offered 0, known 0|to 0: spooled 1|  HI
sent 20
# connection 0 closed
";

#[test]
fn records_are_acknowledged_after_the_output_is_synced(rt: HostRuntime) -> Result<(), Fail> {
    play(rt.alloc(), DISKS)
}
