//! The files of the machine for tests, of which some cannot be opened or read, and what a run of
//! one prints.

use crate::machine::Machine;
use crate::pieces::Input;
use crate::record::Sink;
use bsc_chart::{Traces, write_passed_over};
use bsc_text::{Files, InputError, Unreadable};
use std::alloc::Global;
use std::io::{ErrorKind, Write};
use test_fixtures::configurations::{THREE_ADDRESSES, TWO_TERMINALS};

/// A record is offered at terminal 0, which is then polled.
const POLLED: &str = "offer-at 0 HI\nsilence\ncarry\ncarry\ncarry\ncarry\ncarry\ncarry\n";

/// The output of `POLLED` on a line of two terminals.
pub(crate) const POLLED_PRINTED: &str = "control CALL A
terminal 0 TEXT ETX 1
control ACK1
terminal 0 EOT
control CALL B
terminal 1 EOT
control CALL A
from 0: offered 1, known 1, spooled 1
  4849
to 0: offered 0, known 0, spooled 0
from 1: offered 0, known 0, spooled 0
to 1: offered 0, known 0, spooled 0
trusted
";

/// The trace of `POLLED`.
pub(crate) const POLLED_TRACED: &str = "+0 terminal 0 is A, selected as a.
+0 terminal 1 is B, selected as b.
+1 offered at terminal 0: |HI|
+2 silence
+3 control heard CALL A 161604ff1616c185ff
+4 terminal 0 heard TEXT ETX 1 161602c84919839bff
+4 arrived from 0: |HI|
+5 control heard ACK1 16161031ff
+6 terminal 0 heard EOT 161604ff
+7 control heard CALL B 161604ff1616c285ff
+8 terminal 1 heard EOT 161604ff
";

/// The same events, and then one that is refused.
const REFUSED: &str =
    "offer-at 0 HI\nsilence\ncarry\ncarry\ncarry\ncarry\ncarry\ncarry\nready 2\ncarry\n";

/// Two records of the most characters.
const LONGEST: &str = "AAAAAAAAAAAAAAAAAAAAAAAAAAAAAAAAAAAAAAAAAAAAAAAAAAAAAAAAAAAAAAAAAAAAAAAA\
    AAAAAAAAAAAAAAAAAAAAAAAAAAAAAAAAAAAAAAAAAAAAAAAAAAAAAAAAAAAAAAAAAAAAAAAA
AAAAAAAAAAAAAAAAAAAAAAAAAAAAAAAAAAAAAAAAAAAAAAAAAAAAAAAAAAAAAAAAAAAAAAAA\
    AAAAAAAAAAAAAAAAAAAAAAAAAAAAAAAAAAAAAAAAAAAAAAAAAAAAAAAAAAAAAAAAAAAAAAAA
";

/// A line on which as much is tried as may be.
const MOST_TRIES: &str = r#"version = 1
tries = 15
poll_list = [0]

[[terminals]]
poll = "A"
select = "a"
"#;

/// A line of three terminals.
const THREE_TERMINALS: &str = r#"version = 1
poll_list = [0]
terminals = [
  { poll = "A", select = "a" }, { poll = "B", select = "b" }, { poll = "C", select = "c" },
]
"#;

/// Returns the text of the file at this path.
fn text_at(path: &str) -> Option<&'static str> {
    match path {
        "line.toml" => Some(TWO_TERMINALS),
        "three.toml" => Some(THREE_ADDRESSES),
        "tries.toml" => Some(MOST_TRIES),
        "more.toml" => Some(THREE_TERMINALS),
        "polled.txt" => Some(POLLED),
        "refused.txt" => Some(REFUSED),
        "wrong.txt" => Some("carry\n\ncarry 1\n"),
        "hi.cards" => Some("HI\n"),
        "longest.cards" => Some(LONGEST),
        _ => None,
    }
}

/// Returns the text of 10,000 records of seven characters.
fn long_deck(alloc: Global) -> Result<Vec<u8>, InputError> {
    let mut text = Vec::new(alloc);
    for _ in 0..10_000 {
        if text.write_all(b"AAAAAAA\n").is_err() {
            return Err(InputError::Memory);
        }
    }
    Ok(text)
}

impl Files for Machine<'_> {
    fn read_file(&mut self, path: &str) -> Result<Vec<u8>, InputError> {
        if path == "deck.cards" {
            return long_deck(self.alloc);
        }
        let Some(text) = text_at(path) else {
            let why = match path {
                "secret" => Unreadable::PermissionDenied,
                _ => Unreadable::NoSuchFile,
            };
            return Err(InputError::Device { why });
        };
        match Vec::from_slice(self.alloc, text.as_bytes()) {
            Ok(text) => Ok(text),
            Err(_) => Err(InputError::Memory),
        }
    }
}

/// Returns the trace at this path.
fn trace_at(path: &str) -> Option<Input<'static>> {
    let (text, fault) = match path {
        "trace.txt" => (
            "+5 control sent EOT 1604\n+6 one that is longer than a line has room\n",
            None,
        ),
        "directory" => ("", Some(ErrorKind::IsADirectory)),
        "broken" => ("+5 silence\n+6 silence", Some(ErrorKind::Interrupted)),
        _ => return None,
    };
    let left = text.as_bytes();
    Some(Input { left, fault })
}

impl Traces for Machine<'_> {
    type File = Input<'static>;

    ghost tells = { λ _. Unit {0} };

    ghost opens = { λ _ _. Unit {0} };

    ghost refuses = { λ _ _. Unit {0} };

    fn open_trace(&mut self, path: &str) -> Result<Input<'static>, Unreadable> {
        match trace_at(path) {
            Some(file) => Ok(file),
            None if path == "secret" => Err(Unreadable::PermissionDenied),
            None => Err(Unreadable::NoSuchFile),
        }
    }

    fn columns(&mut self) -> Option<String> {
        match String::from_str(self.alloc, "40") {
            Ok(text) => Some(text),
            Err(_) => None,
        }
    }

    fn passed_over(&mut self, count: u64) {
        let _ = write_passed_over(count, &mut Sink::new(&self.record.errors, false));
    }
}
