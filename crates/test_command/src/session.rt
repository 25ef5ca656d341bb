//! Sessions: commands with what they are given and their expected results, as a text.
//!
//! `$` begins a command on a new machine, and `&` one on the machine of the command before it,
//! whose stores have what was kept; the words follow on the same line. Each line after it begins
//! with a mark: `<` for a line of standard input, `>` of standard output, `!` of standard error,
//! `#` of the trace, and `@` for one that a program is told that feeds the station, or a station
//! that is fed; a bar divides several of them. `words` gives more words. After a star a mark has
//! the number of times that the text comes, in which `^` is how often it came before, as in
//! `>*64 from ^: 4849`; within a text `{144 A}` is 144 times an A.
//!
//! `status` is the exit status, unless it is 0 or, with a line of standard error, 1; `usage` the
//! reason of wrong usage, `asks` what a station requests of the machine, `sent` how many octets it
//! sends, `shows` how what is shown last of the progress begins, and `calls` how often it asks to
//! be called when its output is ready. The trace is compared if one of its lines or `sent` is
//! given; `polled` and `traced` are the output and the trace of the run of `polled.txt`.
//!
//! `offered`, `known`, `arrived` and `printed` say what the stores have of a channel, and `keeps`
//! how many steps more they keep; `offered-before` and `arrived-before` are how many records they
//! count on each channel before those that they can give. `reads` is how many reads of the cable of
//! a run succeed. `widest` gives the terminals of the widest line on standard input, and `fills` as
//! many line feeds as it may have. All other marks set the scene, and `//` begins a comment.

use crate::cases::run_text;
use crate::files::{POLLED_PRINTED, POLLED_TRACED};
use crate::machine::{SILENT, Scene};
use crate::record::{Record, has};
use crate::stores::{count_of, keep};
use bsc_sockets::SocketsError;
use bsc_text::MAX_INPUT;
use std::alloc::Global;
use std::test::Fail;

/// What a command is given, and its expected results.
#[derive(Drop)]
struct Step {
    alloc: Global,
    scene: Scene,
    words: String,
    input: String,
    out: String,
    errors: String,
    trace: String,
    told: String,
    status: Option<usize>,
    asks: Option<&'static str>,
    sent: Option<usize>,
    shows: Option<&'static str>,
    calls: Option<usize>,
}

/// Returns the text before the first of these characters, and the text after it.
fn split(text: &str, at: char) -> (&str, &str) {
    match text.split_once(at) {
        Some((before, after)) => (before, after),
        None => (text, ""),
    }
}

/// Returns the number in this text.
pub(crate) fn number(text: &str) -> Result<usize, Fail> {
    match text.parse::<usize>() {
        Ok(number) => Ok(number),
        Err(_) => Err("not a number".into()),
    }
}

/// Adds a text in which a bar is a line feed, and `^` how often it came before.
fn add_plain(text: &mut String, plain: &str, before: usize) -> Result<(), Fail> {
    for character in plain.chars() {
        match character {
            '|' => text.push('\n')?,
            '^' => write!(text, "{before}")?,
            _ => text.push(character)?,
        }
    }
    Ok(())
}

/// Adds a text that may begin with a count, a text that comes as often, and a brace.
fn add_piece(text: &mut String, piece: &str, before: usize) -> Result<(), Fail> {
    let Some((group, after)) = piece.split_once('}') else {
        return add_plain(text, piece, before);
    };
    let (count, repeated) = split(group, ' ');
    for _ in 0..number(count)? {
        add_plain(text, repeated, before)?;
    }
    add_plain(text, after, before)
}

/// Adds this text of a session this many times, each time with this character at its end.
pub(crate) fn add(text: &mut String, added: &str, times: usize, end: char) -> Result<(), Fail> {
    for before in 0..times {
        for piece in added.split('{') {
            add_piece(text, piece, before)?;
        }
        text.push(end)?;
    }
    Ok(())
}

/// Sets what a line of a session says of the scene.
fn set(scene: &mut Scene, mark: &str, rest: &'static str) -> Result<(), Fail> {
    match mark {
        "hears" => scene.hears = rest,
        "times" => scene.times = number(rest)?,
        "others" => scene.others = Some(rest),
        "later" => scene.later = rest,
        "vacant" => scene.vacant = true,
        "steps" => scene.steps = rest,
        "says" => scene.says = rest,
        "late" => scene.late = number(rest)?,
        "peer-1" => scene.peer = 1,
        "unready" => scene.unready = count_of(rest)?,
        "input-fails" => scene.input_fails = true,
        "output-fails" => scene.output_fails = true,
        "disk-fails" => scene.disk_fails = true,
        "trace-fails" => scene.trace_fails = true,
        "address-in-use" => scene.refusal = Some(SocketsError::AddressInUse),
        "nobody-there" => scene.refusal = Some(SocketsError::NobodyThere),
        "no-address" => scene.refusal = Some(SocketsError::Address),
        "cannot-listen" => scene.refusal = Some(SocketsError::CannotListen),
        "nobody-connected" => scene.refusal = Some(SocketsError::NobodyConnected),
        _ => return Err("no such mark".into()),
    }
    Ok(())
}

/// Has the stores of a machine keep this many steps more and then fail.
fn limit(record: &Record, steps: u32) -> Result<(), Fail> {
    record.memory.try_borrow_mut()?.left = steps;
    Ok(())
}

/// Returns what was shown last of the progress: the work, and how much has arrived, is known, is in
/// doubt and is done.
fn shown(alloc: Global, record: &Record) -> Result<String, Fail> {
    let Some((work, counts)) = record.shown.get() else {
        return Ok(String::from_str(alloc, "nothing")?);
    };
    Ok(format!(in alloc;
        "{work:?} {} {} {} {}",
        counts.arrived, counts.known, counts.doubts, counts.done
    )?)
}

/// Returns the usage of the command with these words.
fn usage_of(words: &str) -> &'static str {
    let (name, _) = split(words, ' ');
    match name {
        "chart" => "chart [OPTIONS] [FILE]",
        "run" => "run [OPTIONS] <CONFIG> <SCRIPT>",
        "station" => "station [OPTIONS] <CONFIG>",
        "store" => "store [OPTIONS] <FILE> <WORK> [FIRST] [SECOND]",
        _ => "[COMMAND]",
    }
}

/// The terminals of the widest line.
const WIDEST: &str = "[[terminals]]|poll = \"A^\"|select = [\"a^\", \"b^\", \"c^\", \"d^\"]";

impl Step {
    fn new(alloc: Global) -> Step {
        Step {
            alloc,
            scene: SILENT,
            words: String::new(alloc),
            input: String::new(alloc),
            out: String::new(alloc),
            errors: String::new(alloc),
            trace: String::new(alloc),
            told: String::new(alloc),
            status: None,
            asks: None,
            sent: None,
            shows: None,
            calls: None,
        }
    }

    /// Reads a line of a session.
    fn read(&mut self, line: &'static str, record: &Record) -> Result<(), Fail> {
        let (mark, rest) = split(line, ' ');
        let (mark, times) = split(mark, '*');
        let times = if times.is_empty() { 1 } else { number(times)? };
        match mark {
            "" | "//" => {}
            "words" => add(&mut self.words, rest, times, ' ')?,
            "<" => add(&mut self.input, rest, times, '\n')?,
            ">" => add(&mut self.out, rest, times, '\n')?,
            "!" => add(&mut self.errors, rest, times, '\n')?,
            "#" => add(&mut self.trace, rest, times, '\n')?,
            "@" => add(&mut self.told, rest, times, '\n')?,
            "status" => self.status = Some(number(rest)?),
            "usage" => self.expect_usage(rest)?,
            "asks" => self.asks = Some(rest),
            "sent" => self.sent = Some(number(rest)?),
            "shows" => self.shows = Some(rest),
            "calls" => self.calls = Some(number(rest)?),
            "polled" => self.out.push_str(POLLED_PRINTED)?,
            "traced" => self.trace.push_str(POLLED_TRACED)?,
            "widest" => add(&mut self.input, WIDEST, 64, '\n')?,
            "fills" => self.fill_input()?,
            "keeps" => limit(record, count_of(rest)?)?,
            "offered-before" => record.offered_before.set(count_of(rest)?),
            "arrived-before" => record.arrived_before.set(count_of(rest)?),
            "reads" => record.wires.reads.set(number(rest)?),
            "offered" | "known" | "arrived" | "printed" => {
                keep(self.alloc, record, mark, rest, times)?;
            }
            _ => set(&mut self.scene, mark, rest)?,
        }
        Ok(())
    }

    /// Expects that the words are told to be wrong for this reason, and nothing is requested.
    fn expect_usage(&mut self, reason: &str) -> Result<(), Fail> {
        let usage = usage_of(&self.words);
        write!(
            self.errors,
            "error: {reason}\n\nUsage: bscline {usage}\n\nFor more information, try '--help'.\n"
        )?;
        self.status = Some(2);
        self.asks = Some("nothing");
        Ok(())
    }

    /// Gives as many line feeds on standard input as it may have yet.
    fn fill_input(&mut self) -> Result<(), Fail> {
        for _ in self.input.len()..MAX_INPUT {
            self.input.push('\n')?;
        }
        Ok(())
    }

    /// Returns the first result of a command that differs from what is expected.
    fn difference(&self, status: u8, record: &Record) -> Result<Option<&'static str>, Fail> {
        let is_shown = self.is_shown(record)?;
        let results = [
            (has(&record.errors, &self.errors), "standard error"),
            (has(&record.out, &self.out), "standard output"),
            (usize::from(status) == self.due_status(), "the exit status"),
            (is_shown, "the progress"),
            (has(&record.told, &self.told), "what a program is told"),
            (self.is_asked(record), "what is asked"),
            (self.is_traced(record), "the trace or what is sent"),
            (self.has_called(record), "how often it asks to be called"),
        ];
        for (is_due, what) in &results {
            if !*is_due {
                return Ok(Some(*what));
            }
        }
        Ok(None)
    }

    /// Returns the expected exit status.
    fn due_status(&self) -> usize {
        match self.status {
            Some(status) => status,
            None if self.errors.is_empty() => 0,
            None => 1,
        }
    }

    /// Whether the machine was asked for what it should be.
    fn is_asked(&self, record: &Record) -> bool {
        match self.asks {
            None => true,
            Some("nothing") => has(&record.asked, ""),
            Some(asks) => has(&record.asked, asks),
        }
    }

    /// Whether the progress was shown that should be.
    fn is_shown(&self, record: &Record) -> Result<bool, Fail> {
        match self.shows {
            Some(shows) => Ok(shown(self.alloc, record)?.as_str().starts_with(shows)),
            None => Ok(true),
        }
    }

    /// Whether the trace is the one that it should be, and as much was sent.
    fn is_traced(&self, record: &Record) -> bool {
        match self.sent {
            Some(sent) => record.count_sent() == sent && has(&record.trace, &self.trace),
            None if self.trace.is_empty() => true,
            None => has(&record.trace, &self.trace),
        }
    }

    /// Whether the station asked to be called as often as it should.
    fn has_called(&self, record: &Record) -> bool {
        match self.calls {
            Some(calls) => record.calls.get() == calls,
            None => true,
        }
    }
}

/// Runs a command of a session on the machine with this record.
fn run(alloc: Global, command: &'static str, record: &Record) -> Result<(), Fail> {
    let mut step = Step::new(alloc);
    let (head, lines) = split(command, '\n');
    let words = match head.strip_prefix(" ") {
        Some(words) => words,
        None => head,
    };
    add(&mut step.words, words, 1, ' ')?;
    for line in lines.split('\n') {
        step.read(line, record)?;
    }
    let status = run_text(alloc, &step.words, &step.input, step.scene, record)?;
    match step.difference(status, record)? {
        None => Ok(()),
        Some(what) => Err(Fail::new(format_args!("{words}: {what}"))),
    }
}

/// Runs the sessions of this text, in which each command must have its results.
pub(crate) fn play(alloc: Global, sessions: &'static str) -> Result<(), Fail> {
    for session in sessions.split('$') {
        let record = Record::new(alloc);
        for command in session.split('&') {
            if !command.is_empty() {
                run(alloc, command, &record)?;
            }
        }
    }
    Ok(())
}
