//! Words, paths and keys with line feeds and with codes that a terminal obeys: each fault is one
//! line, and the text of wrong usage has its own lines only.

use crate::cases::run;
use crate::faults::{are_told, running};
use crate::machine::SILENT;
use crate::record::Record;
use crate::session::play;
use bsc_attending::AttendingError;
use bsc_block::RecordError;
use bsc_command::Fault;
use bsc_run::RunningError;
use bsc_station::OfferError;
use bsc_storing::StoringError;
use bsc_text::{TextError, Unreadable};
use std::alloc::{AllocError, Global};
use std::test::Fail;

/// A path with a line feed, a control sequence of a terminal, a backslash and letters that are not
/// ASCII.
const PATH: &str = "a\n\x1b[31m\\\u{e9}\u{85}\u{202e}b";

/// The lines of the faults in whose texts the path is.
const LINES: &[&str] = &[
    "bscline: cannot read a\\n\\x1b[31m\\\\\\xc3\\xa9\\xc2\\x85\\xe2\\x80\\xaeb: no such file\n",
    "bscline: a\\n\\x1b[31m\\\\\\xc3\\xa9\\xc2\\x85\\xe2\\x80\\xaeb is too long\n",
    "bscline: a\\n\\x1b[31m\\\\\\xc3\\xa9\\xc2\\x85\\xe2\\x80\\xaeb line 2: record too long\n",
    "bscline: a\\n\\x1b[31m\\\\\\xc3\\xa9\\xc2\\x85\\xe2\\x80\\xaeb line 2: record too long\n",
];

/// Returns the fault of the line at this place.
fn fault_at(alloc: Global, place: usize) -> Result<Fault, AllocError> {
    let path = String::from_str(alloc, PATH)?;
    let (line, why) = (2, RecordError::TooLong);
    let refused = OfferError::Refused { line, why };
    Ok(match place {
        0 => {
            let why = Unreadable::NoSuchFile;
            running(RunningError::from(TextError::CannotRead { path, why }))
        }
        1 => running(RunningError::from(TextError::FileTooLong { path })),
        2 => Fault::Attending {
            error: AttendingError::Offer {
                path,
                error: refused,
            },
        },
        _ => Fault::Storing {
            error: StoringError::Offer {
                path,
                error: refused,
            },
        },
    })
}

#[test]
fn a_path_is_within_the_line_of_a_fault(rt: HostRuntime) -> Result<(), Fail> {
    for (place, line) in LINES.iter().enumerate() {
        let fault = fault_at(rt.alloc(), place)?;
        assert!(rt; are_told(rt.alloc(), &[fault], 1, line), "{line}");
    }
    Ok(())
}

/// Words after the name of the program, and the lines of the text of wrong usage that is told for
/// them but the first word and the last line. A command of `feed` is one line.
type Row = (&'static [&'static str], &'static str);

const WORDS: &[Row] = &[
    (
        &["ev\x1b[31mil\nbscline: forged"],
        "unrecognized subcommand 'ev\\x1b[31mil\\nbscline: forged'\n\nUsage: bscline [COMMAND]",
    ),
    (
        &["a\\b\u{85}\u{202e}"],
        "unrecognized subcommand 'a\\\\b\\xc2\\x85\\xe2\\x80\\xae'\n\nUsage: bscline [COMMAND]",
    ),
    (
        &["help", "ev\nil"],
        "unrecognized subcommand 'ev\\nil'\n\nUsage: bscline [COMMAND]",
    ),
    (
        &["run", "c", "s", "a\n\tb\r"],
        "unexpected argument 'a\\n\\tb\\r' found\n\n\
        Usage: bscline run [OPTIONS] <CONFIG> <SCRIPT>",
    ),
    (
        &["run", "c", "s", "--ev\x07il\n"],
        "unexpected argument '--ev\\x07il\\n' found\n\n  \
        tip: to pass '--ev\\x07il\\n' as a value, use '-- --ev\\x07il\\n'\n\n\
        Usage: bscline run <CONFIG> <SCRIPT>",
    ),
    (
        &["run", "c", "s", "--quiet=a\nb"],
        "unexpected value 'a\\nb' for '--quiet' found; no more were expected\n\n\
        Usage: bscline run --quiet <CONFIG> <SCRIPT>",
    ),
    (
        &["run", "c\nd"],
        "the following required arguments were not provided:\n  <SCRIPT>\n\n\
        Usage: bscline run <CONFIG> <SCRIPT>",
    ),
    (
        &["feed", "p:1", "status\nstop"],
        "COMMAND is more than one line\n\nUsage: bscline feed <ADDRESS> [COMMAND]...",
    ),
];

/// Returns these words after this name of the program.
fn words_after(alloc: Global, name: &str, words: &[&str]) -> Result<Vec<String>, AllocError> {
    let mut given = Vec::new(alloc);
    given.push(String::from_str(alloc, name)?)?;
    for word in words {
        given.push(String::from_str(alloc, word)?)?;
    }
    Ok(given)
}

/// Whether wrong usage with this text is told for these words.
fn is_told(alloc: Global, given: Vec<String>, text: &str) -> Result<bool, Fail> {
    let (record, mut input) = (Record::new(alloc), b"".as_slice());
    let status = run(alloc, Ok(given), &mut input, SILENT, &record)?;
    let told = format!(in alloc; "error: {text}\n\nFor more information, try '--help'.\n")?;
    Ok(status == 2 && record.has_printed("", &told))
}

/// A program may be started by any name.
#[test]
fn a_word_is_within_its_line(rt: HostRuntime) -> Result<(), Fail> {
    for name in ["bscline", "/usr/bin/other", "ev\x1b[31m\nil"] {
        for (words, text) in WORDS {
            let given = words_after(rt.alloc(), name, words)?;
            assert!(rt; is_told(rt.alloc(), given, text)?, "{text}");
        }
    }
    Ok(())
}

/// A key with a line feed and a control sequence.
const KEY: &str = "\
$ station - --terminal 0 --connect h:1
< \"evil\\u001b[31m\\nbscline: forged\" = 1
! bscline: config: unknown key evil\\x1b[31m\\nbscline: forged
status 2
asks nothing
";

#[test]
fn a_key_is_within_its_line(rt: HostRuntime) -> Result<(), Fail> {
    play(rt.alloc(), KEY)
}
