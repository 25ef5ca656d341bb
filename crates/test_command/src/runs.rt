//! Whole runs by their words: what is printed and traced, what is told on standard error, the exit
//! status, and what is told of the progress.

use crate::session::play;
use std::test::Fail;

/// A run is printed, and it is traced, or its progress is shown, as its words say.
const POLLED: &str = "\
$ run line.toml polled.txt
< unread
polled
shows Events
sent 0
$ run line.toml -
< offer-at 0 HI|silence|carry|carry|carry|carry|carry|carry
polled
shows Events
sent 0
$ run - polled.txt
< version = 1|poll_list = [0, 1]||[[terminals]]|poll = \"A\"|select = \"a\"||[[terminals]]
< poll = \"B\"|select = \"b\"
polled
shows Events
sent 0
$ run line.toml polled.txt --quiet
polled
shows nothing
sent 0
$ run --trace line.toml polled.txt
polled
traced
shows nothing
sent 0
$ run --quiet --trace line.toml polled.txt
polled
traced
shows nothing
sent 0
$ run line.toml refused.txt
// An event is refused after those of `polled.txt`: the report is printed once. In the last run
// no octet can be read from the cable.
polled
! bscline: script line 9: refused: no such terminal
sent 0
status 3
$ run line.toml refused.txt --trace
polled
traced
! bscline: script line 9: refused: no such terminal
sent 0
status 3
$ run line.toml polled.txt
reads 0
> control CALL A
! bscline: script line 3: socket fault
";

#[test]
fn a_run_is_printed_traced_and_shown_as_its_words_say(rt: HostRuntime) -> Result<(), Fail> {
    play(rt.alloc(), POLLED)
}

/// Runs that are only checked, that fail before anything is printed, or that print little.
const RUNS: &str = "\
$ run --check line.toml polled.txt
shows nothing
sent 0
$ run --check --trace line.toml refused.txt
shows nothing
sent 0
$ run --check line.toml wrong.txt
! bscline: script line 3: not an event
$ run line.toml wrong.txt
! bscline: script line 3: not an event
$ run line.toml none.txt
! bscline: cannot read none.txt: no such file
$ run polled.txt polled.txt
! bscline: config: not toml: line 1
$ run secret none.txt
! bscline: cannot read secret: permission denied
$ run tries.toml polled.txt
! bscline: cannot make the sockets
$ run more.toml polled.txt
! bscline: out of memory
$ run line.toml polled.txt
output-fails
! bscline: output fault
$ run line.toml refused.txt
output-fails
! bscline: output fault
$ run line.toml -
< offer-at 0 HI|silence
> control CALL A|from 0: offered 1, known 0, spooled 0|to 0: offered 0, known 0, spooled 0
> from 1: offered 0, known 0, spooled 0|to 1: offered 0, known 0, spooled 0|trusted
shows Events 0 0 0 2
$ run line.toml -
// A script as long as an input, in which all is lost, and one that is longer by one.
<*80000 silence|lose
fills
// A call is repeated after three silences, and the next one is made after the fourth.
>*10000 {4 control CALL A|quiet|}{3 control CALL B|quiet|}control CALL B|quiet
> from 0: offered 0, known 0, spooled 0|to 0: offered 0, known 0, spooled 0
> from 1: offered 0, known 0, spooled 0|to 1: offered 0, known 0, spooled 0|trusted
$ run line.toml -
<*80000 silence|lose
fills
<
! bscline: input too long
";

#[test]
fn a_run_has_its_output_progress_and_status(rt: HostRuntime) -> Result<(), Fail> {
    play(rt.alloc(), RUNS)
}
