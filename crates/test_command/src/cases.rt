//! Commands that run on a machine for tests.

use crate::machine::{Machine, Scene};
use crate::pieces::Input;
use crate::record::{Record, Sink};
use bsc_command::{Fault, command};
use std::alloc::{AllocError, Global};
use std::io;
use std::io::{BufWriter, ErrorKind, Read};

/// Returns the name of the program and then the words of this text, which are divided by spaces.
/// Two quotes are the empty word.
pub(crate) fn words_of(alloc: Global, text: &str) -> Result<Vec<String>, AllocError> {
    let mut words = Vec::new(alloc);
    words.push(String::from_str(alloc, "bscline")?)?;
    for word in text.split(' ') {
        if word == "''" {
            words.push(String::new(alloc))?;
        } else if !word.is_empty() {
            words.push(String::from_str(alloc, word)?)?;
        }
    }
    Ok(words)
}

/// Runs a command with these words, of which the first is the name of the program, and this
/// standard input. Returns its exit status; what else became of it is in the record.
pub(crate) fn run<R: Read>(
    alloc: Global,
    words: Result<Vec<String>, Fault>,
    input: &mut R,
    scene: Scene,
    record: &Record,
) -> io::Result<u8> {
    record.begin()?;
    let mut machine = Machine {
        alloc,
        scene,
        serves_traced: false,
        record,
    };
    let mut out = BufWriter::new(alloc, record.output(&scene))?;
    let mut errors = Sink::new(&record.errors, false);
    Ok(command(alloc, words, input, &mut machine, &mut out, &mut errors))
}

/// Runs a command with the words of this text and this standard input, which fails after it if it
/// does so in the scene. Returns its exit status.
pub(crate) fn run_text(
    alloc: Global,
    words: &str,
    input: &str,
    scene: Scene,
    record: &Record,
) -> io::Result<u8> {
    let mut input = Input {
        left: input.as_bytes(),
        fault: match scene.input_fails {
            true => Some(ErrorKind::Interrupted),
            false => None,
        },
    };
    let words = words_of(alloc, words)?;
    run(alloc, Ok(words), &mut input, scene, record)
}
