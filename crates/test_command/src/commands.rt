//! Words and standard input of the command, and its texts and statuses.

use crate::cases::run;
use crate::machine::SILENT;
use crate::record::Record;
use crate::session::play;
use bsc_command::Fault;
use std::test::Fail;

/// Names, ladders, and faults of files and streams.
const COMMANDS: &str = "\
$ name 161610B0FF
> ACK0
$ name xx
! bscline: not hexadecimal
$
< 16 04|xx|16 04
> EOT
! bscline: line 2: not hexadecimal
$ show
< 16 16 02 C8 49 19 83 9B FF
> TEXT ETX 1|unit 4849 EM
$ show
input-fails
! bscline: input fault
$ --help
output-fails
! bscline: output fault
$
< 16 04
output-fails
! bscline: output fault
$
< 16 04|xx
output-fails
! bscline: output fault
$ chart --ascii
status 0
< +5 control sent EOT 1604|+6 gone|7 silence|+8 silence
>     time control            0|       5 *- EOT ------------)|       6 = gone
>        8 :. silence ........:
! bscline: 1 line is no line of a trace and was passed over
$ chart --ascii --from 4
status 0
< +5 silence|HI|bscline: input fault|+8 silence||from 0: HI
>     time control            0|       8 :. silence ........:
! bscline: 2 lines are no lines of a trace and were passed over
$ chart
< +5 silence|HI
output-fails
! bscline: output fault
$ chart
$ run none.toml script.txt
! bscline: cannot read none.toml: no such file
$ station none.toml --terminal 0 --connect h:1
! bscline: cannot read none.toml: no such file
asks nothing
$ chart --ascii -
// The names of traces, what is drawn of them in the width of the terminal, and the faults.
< +5 silence
>     time control            0|       5 :. silence ........:
$ chart trace.txt --ascii
>     time control            0|       5 *- EOT ------------)
>        6 = one that is longer than a lin
$ chart trace.txt --ascii --width 44 --from 2
>     time control            0|       6 = one that is longer than a line ha
$ chart trace.txt
>     time control            0|       5 ├─ EOT ────────────→
>        6 ● one that is longer than a lin
$ chart
< +6 one that is longer than a line has room
>     time control            0|       6 ● one that is longer than a lin
$ chart nowhere
! bscline: cannot read nowhere: no such file
$ chart --svg secret
! bscline: cannot read secret: permission denied
$ chart directory
! bscline: cannot read directory: is a directory
$ chart
input-fails
! bscline: input fault
$ chart --ascii broken
>     time control            0|       5 :. silence ........:
! bscline: cannot read broken: read fault
";

#[test]
fn words_and_named_traces_give_texts_and_a_status(rt: HostRuntime) -> Result<(), Fail> {
    play(rt.alloc(), COMMANDS)
}

/// The words could not be read.
#[test]
fn words_without_memory_are_no_usage(rt: HostRuntime) -> Result<(), Fail> {
    let (record, mut input) = (Record::new(rt.alloc()), b"16 04".as_slice());
    let words = Err(Fault::OutOfMemory);
    let status = run(rt.alloc(), words, &mut input, SILENT, &record)?;
    assert!(rt; status == 1 && record.has_printed("", "bscline: out of memory\n"));
    Ok(())
}

/// Options that contradict one another or do not fit the configuration.
const OPTIONS: &str = "\
$ run - -
usage CONFIG and SCRIPT cannot both be standard input
$ store k status --control
usage --control and --terminal need init
$ chart nowhere --width 39
usage --width is not from 40 to 1000
$ chart nowhere --svg --text
usage --text, --svg and --html exclude one another
$ chart --from 0
usage --from or --to is not the number of a line
$ station c --terminal 0 --connect h:1 --gap 9
usage --gap needs --raw
$ station line.toml --terminal 0 --listen h:1 --begin-with 1
usage --begin-with needs --control
$ station line.toml --control --listen h:1 --begin-with 65
usage --begin-with takes a number, 0 to 64
$ station line.toml --control --listen h:1 --peer x --allow 10.0.0.0/
usage --allow takes ADDRESS/BITS
$ station - --terminal 0 --connect h:1 --offer -
usage CONFIG, --offer and --until-input-ends cannot use standard input more than once
$ station line.toml --terminal 2 --connect h:1
usage --terminal names a terminal that is not in CONFIG
$ station line.toml --control --listen h:1 --peer 2=10.0.0.1
usage --peer names a terminal that is not in CONFIG
$ station line.toml --control --listen h:1 --offer 0.0
usage --offer takes T.S=PATH at the control station
$ station line.toml --control --listen h:1 --offer 2=-
usage --offer names a channel that is not in CONFIG
$ store k arrived x
usage CHANNEL takes T or T.S
$ store k release 0 4294967296
usage COUNT takes a number, 0 to 4294967295
$ station line.toml --terminal 0 --connect h:1 --offer none.txt
// What is wrong with a text or a record is found before connections are made.
! bscline: cannot read none.txt: no such file
asks nothing
$ station line.toml --terminal 0 --connect h:1 --offer -
< HI|HHHHHHHHHHHHHHHHHHHHHHHHHHHHHHHHHHHHHHHHHHHHHHHHHHHHHHHHHHHHHHHHHHHHHHHHHHHHHHHHH
! bscline: - line 2: record too long
asks nothing
";

#[test]
fn options_and_offers_are_checked_before_connections_are_made(rt: HostRuntime) -> Result<(), Fail> {
    play(rt.alloc(), OPTIONS)
}
