//! Runs from the texts of files: an example with the ladder of its trace, a line of each number of
//! terminals, and the first fault.

use crate::runs::REPORT;
use crate::sweeps::{line_of, offers_of};
use bsc_carrier::Cable;
use bsc_carrier::loopback::{LoopbackError, connect};
use bsc_chart::draw;
use bsc_options::{Given, Words};
use bsc_run::{Cables, RunWords, RunningError, run};
use bsc_text::progress::{Unmetered, Work};
use bsc_text::{Files, InputError, Unreadable};
use std::alloc::Global;
use std::net::Net;
use std::test::Fail;
use test_fixtures::configurations::TWO_TERMINALS;

/// A machine with two files, `line.toml` and `script.txt`, and real connections.
#[derive(Drop)]
struct Machine<'a, R> {
    runtime: &'a R,
    alloc: Global,
    line: &'a str,
    script: &'a str,
}

impl<R: Net> Files for Machine<'_, R> {
    fn read_file(&mut self, path: &str) -> Result<Vec<u8>, InputError> {
        let text = match path {
            "line.toml" => self.line,
            "script.txt" => self.script,
            "long.txt" => return Err(InputError::TooLong),
            _ => {
                let why = Unreadable::NoSuchFile;
                return Err(InputError::Device { why });
            }
        };
        match Vec::from_slice(self.alloc, text.as_bytes()) {
            Ok(octets) => Ok(octets),
            Err(_) => Err(InputError::Memory),
        }
    }
}

impl<R: Net> Cables for Machine<'_, R> {
    type Stream = R::Stream;

    type Meter = Unmetered;

    fn meter(&mut self, _work: Option<Work>) -> Unmetered {
        Unmetered
    }

    fn connect(&mut self, count: usize) -> Result<Cable<R::Stream>, LoopbackError> {
        connect(self.runtime, self.alloc, count)
    }
}

/// What a run wrote, how many octets of its input it left, and how it ended.
#[derive(Drop)]
struct Ran {
    out: Vec<u8>,
    trace: Vec<u8>,
    left: usize,
    answer: Result<(), RunningError>,
}

/// Runs the texts at these two paths, or only checks them, with a trace or without one.
fn run_at<R: Net>(
    runtime: &R,
    alloc: Global,
    (line, script): (&str, &str),
    (paths, input): (&str, &str),
    (check, trace): (bool, bool),
) -> Ran {
    let (config, path) = paths.split_once(' ').unwrap_or((paths, ""));
    let words = RunWords {
        config,
        script: path,
        check,
        trace,
        quiet: false,
    };
    let mut machine = Machine {
        runtime,
        alloc,
        line,
        script,
    };
    let (mut out, mut trace) = (Vec::<u8>::new(alloc), Vec::<u8>::new(alloc));
    let mut input = input.as_bytes();
    let answer = run(alloc, words, &mut input, &mut machine, &mut out, &mut trace);
    Ran {
        out,
        trace,
        left: input.len(),
        answer,
    }
}

/// The paths of the two files, and an input that is not read.
const FILES: (&str, &str) = ("line.toml script.txt", "unread");

/// The events of `examples/lossy_line`, with as many empty lines between them. One bit of the first
/// text is inverted on its way; an acknowledgement and an ENQ are lost, and the terminal is in
/// doubt; a call of terminal 1 is not heard, and a text only by it; and the doubt is ended.
const LOSSY_LINE: &str = "#\noffer-at 0 HI\noffer-for 1 BYE\n\n\n\nsilence\ncarry
heard 16 16 02 C8 48 19 83 9B FF\ncarry\ncarry\n\n\n\nlose\nsilence\nlose\nsilence\ncarry
\n\n\nheard-each - 161610\nsilence\ncarry\ncarry\n\n\nheard-each - 161602C2D9451983C4FF
carry\ncarry\ncarry\ncarry\n\n\nrelease 0 from\n";

/// Its trace as a ladder.
const LADDER: &str = "    time control
       0 |                  0 A, selected as a.
       0 |                  |   1 B, selected as b.
       2 = offered at terminal 0: |HI|
       3 = offered for terminal 1.0: |BYE|
       7 :. silence ........:...:
       8 *- CALL A --------->--->
       9 ?- FAILED ---------*   |  failed
      10 *- NAK ------------>--->
      11 <- TEXT ETX 1 -----*   |  |HI
      11 @ arrived from 0: |HI|
      15 *- ACK1 ---------x |   |  lost
      16 :. silence ........:...:
      17 | x ENQ -----------*   |  lost
      18 :. silence ........:...:
      18 |                  ~ the doubt from 0 begins
      19 <- EOT ------------*   |
      23 *- CALL b -------x |   |  lost at 0
      23 *- NOISE ----------+---?  failed
      24 :. silence ........:...:
      25 *- CALL b --------->--->
      26 <- ACK0 -----------+---*
      29 *- TEXT ETX 1 ---x |   |  lost at 0  |BYE
      29 *- TEXT ETX 1 -----+--->  |BYE
      29 |                  |   @ arrived to 1.0: |BYE|
      30 <- ACK1 -----------+---*
      31 *- CALL B --------->--->
      32 <- EOT ------------+---*
      33 *- CALL A --------->--->
      36 |                  ^ the doubt from 0 is ended
";

/// The words that ask for a ladder of ASCII characters.
fn ascii_words(alloc: Global) -> Result<Words, Fail> {
    let mut given = Vec::new(alloc);
    given.push(Given {
        id: "ascii",
        times: 1,
        texts: Vec::new(alloc),
    })?;
    Ok(Words { given })
}

#[test]
fn the_trace_of_an_example_is_drawn(rt: HostRuntime) -> Result<(), Fail> {
    let config = format!(in rt.alloc(); "tries = 2\n{TWO_TERMINALS}")?;
    let ran = run_at(&rt, rt.alloc(), (&config, LOSSY_LINE), FILES, (false, true));
    let (mut trace, mut drawn) = (ran.trace.as_slice(), Vec::<u8>::new(rt.alloc()));
    let words = ascii_words(rt.alloc())?;
    draw(rt.alloc(), &words, None, &mut trace, &mut drawn)?;
    assert!(rt; ran.answer.is_ok() && drawn.as_slice() == LADDER.as_bytes());
    Ok(())
}

/// The number of channels that delivered their record, by the report.
fn count_delivered(out: &[u8]) -> usize {
    let text = b"offered 1, known 1, spooled 1\n".as_slice();
    out.windows(30).filter(|part| *part == text).count()
}

/// Whether a line of this many terminals is run, traced and only checked; if there are 64, each
/// channel delivers its record.
fn is_run<R: Net>(runtime: &R, alloc: Global, count: usize) -> Result<bool, Fail> {
    let config = line_of(alloc, count)?;
    let script = offers_of(alloc, count, if count == 64 { 1000 } else { 9 })?;
    let files = (config.as_str(), script.as_str());
    let traced = run_at(runtime, alloc, files, FILES, (false, true));
    let untraced = run_at(runtime, alloc, files, FILES, (false, false));
    let checked = run_at(runtime, alloc, files, FILES, (true, true));
    let is_whole = is_reported(&traced, &untraced) && is_silent(&checked);
    Ok(is_whole && (count < 64 || count_delivered(&untraced.out) == 224))
}

/// Whether two runs print the same report, the first of them with a trace.
fn is_reported(traced: &Ran, untraced: &Ran) -> bool {
    let is_same = traced.out.as_slice() == untraced.out.as_slice();
    let is_traced = !traced.trace.is_empty() && untraced.trace.is_empty();
    let is_ended = traced.answer.is_ok() && untraced.answer.is_ok();
    is_same && is_traced && is_ended && untraced.out.ends_with(b"trusted\n")
}

/// Whether a run ended without an error and wrote nothing.
fn is_silent(ran: &Ran) -> bool {
    ran.answer.is_ok() && ran.out.is_empty() && ran.trace.is_empty()
}

/// 64 terminals have 224 channels.
#[test]
fn a_line_of_each_number_of_terminals_is_run(rt: HostRuntime) -> Result<(), Fail> {
    for count in 1..=64usize {
        assert!(rt; is_run(&rt, rt.alloc(), count)?, "{count}");
    }
    Ok(())
}

/// The contents of the configuration, or `@` for two terminals, the paths of a run, and its error,
/// with a bar between them. The script is `?`. The configuration is read first, then the script;
/// then they are checked in this order.
const FAULTS: &[&str] = &[
    "?|none.toml none.txt|cannot read none.toml: no such file",
    "?|long.txt none.txt|long.txt is too long",
    "?|line.toml none.txt|cannot read none.txt: no such file",
    "?|line.toml long.txt|long.txt is too long",
    "?|line.toml script.txt|config: not toml: line 1",
    "version = 1|line.toml script.txt|config: missing key poll_list",
    "@|line.toml script.txt|script line 1: not an event",
    "@|- -|CONFIG and SCRIPT cannot both be standard input",
];

/// Whether a run without a trace prints this and fails with this error. Standard input stays unread
/// if no path asks for it.
fn fails<R: Net>(
    runtime: &R,
    alloc: Global,
    files: (&str, &str),
    (paths, input): (&str, &str),
    (printed, error): (&str, &str),
) -> Result<bool, Fail> {
    let Ran {
        answer,
        out,
        left,
        ..
    } = run_at(runtime, alloc, files, (paths, input), (false, false));
    let is_read = left < input.len();
    if out.as_slice() != printed.as_bytes() || is_read == (input == "unread") {
        return Ok(false);
    }
    match answer {
        Ok(()) => Ok(false),
        Err(why) => Ok(why.to_string(alloc)?.as_str() == error),
    }
}

#[test]
fn a_run_names_the_first_fault(rt: HostRuntime) -> Result<(), Fail> {
    for row in FAULTS {
        let (line, told) = row.split_once('|').ok_or("no paths")?;
        let (paths, error) = told.split_once('|').ok_or("no error")?;
        let files = (if line == "@" { TWO_TERMINALS } else { line }, "?");
        let is_named = fails(&rt, rt.alloc(), files, (paths, "unread"), ("", error))?;
        assert!(rt; is_named, "{error}");
    }
    Ok(())
}

/// If an event is refused, what was printed before it stays, and the report follows; also if the
/// configuration or the script is standard input.
#[test]
fn a_refused_event_has_its_line_and_the_report(rt: HostRuntime) -> Result<(), Fail> {
    let error = "script line 2: refused: a transmission is pending";
    let script = "silence\nsilence\n";
    let printed = format!(in rt.alloc(); "control CALL A\n{REPORT}")?;
    for (line, text, input) in [
        (TWO_TERMINALS, script, FILES),
        (TWO_TERMINALS, "?", ("line.toml -", script)),
        ("?", script, ("- script.txt", TWO_TERMINALS)),
    ] {
        let is_told = fails(&rt, rt.alloc(), (line, text), input, (&printed, error))?;
        assert!(rt; is_told, "{}", input.0);
    }
    Ok(())
}
