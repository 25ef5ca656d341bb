//! A machine with stores in memory, of which calls fail, and with files.

use crate::facts::{Fact, change};
use crate::lines::OWN;
use bsc_options::{Given, Words, read_store_work};
use bsc_spool::{Change, Channel, Found, Progress, Store, StoreFault};
use bsc_store::TableStore;
use bsc_storing::{Opened, StoreFiles, StoringError, store};
use bsc_text::{Files, InputError, Unreadable};
use sqlite::{Connection, MemStore};
use std::alloc::{AllocError, Global};
use std::io::Write;
use test_fixtures::Full;
use test_fixtures::configurations::THREE_ADDRESSES;

/// A store in memory. The table is on the heap: what moves it takes long to check, what moves a box
/// does not.
#[derive(Drop)]
pub(crate) struct Kept {
    table: Box<TableStore<MemStore>>,

    /// Which calls fail: `commits`, `reads` or `closes`; or none.
    fails: &'static str,
}

impl Kept {
    /// Fails with this fault, if such calls fail.
    fn call(&self, what: &str, fault: StoreFault) -> Result<(), StoreFault> {
        if self.fails == what {
            return Err(fault);
        }
        Ok(())
    }
}

impl Store for Kept {
    ghost keeps = { λ _ _ _. Unit {0} };

    ghost stays = { λ _ _. Unit {0} };

    ghost survives = { λ _ _ _. Unit {0} };

    ghost sound = { λ _. Unit {0} };

    ghost reads = { λ _ _. Unit {0} };

    ghost counts = { λ _ _ _ _. Unit {0} };

    ghost finds_offered = { λ _ _ _ _ _ _. Unit {0} };

    ghost finds_arrived = { λ _ _ _ _ _ _. Unit {0} };

    fn commit(&mut self, step: &[Change]) -> Result<(), StoreFault> {
        self.call("commits", StoreFault::Full)?;
        self.table.commit(step)
    }

    fn progress(&mut self, channel: &Channel) -> Result<Progress, StoreFault> {
        self.call("reads", StoreFault::Unreachable)?;
        self.table.progress(channel)
    }

    fn offered(
        &mut self,
        channel: &Channel,
        mark: i64,
        more: u32,
    ) -> Result<Option<Found>, StoreFault> {
        self.call("reads", StoreFault::Unreachable)?;
        self.table.offered(channel, mark, more)
    }

    fn arrived(
        &mut self,
        channel: &Channel,
        mark: i64,
        more: u32,
    ) -> Result<Option<Found>, StoreFault> {
        self.call("reads", StoreFault::Unreachable)?;
        self.table.arrived(channel, mark, more)
    }
}

/// A machine with a store at the paths `control` and `terminal`, once they are made, and with the
/// files `line.toml`, `own.toml` and `cards.txt`, and two whose last line is no record.
#[derive(Drop)]
pub(crate) struct Machine {
    alloc: Global,
    control: Option<Opened<Kept>>,
    terminal: Option<Opened<Kept>>,

    /// The path of a store, and which of its calls fail.
    pub(crate) fails: (&'static str, &'static str),
}

/// Makes a store in memory, with this text of its line.
fn store_of(alloc: Global, text: &str) -> Result<Opened<Kept>, StoreFault> {
    let Ok(line) = String::from_str(alloc, text) else {
        return Err(StoreFault::OutOfMemory);
    };
    let Ok(conn) = Connection::open_in_memory(alloc) else {
        return Err(StoreFault::OutOfMemory);
    };
    let begun = match TableStore::begin(conn, text) {
        Ok(table) => Box::new(alloc, table),
        Err(fault) => return Err(fault),
    };
    let Ok(table) = begun else {
        return Err(StoreFault::OutOfMemory);
    };
    let store = Kept { table, fails: "" };
    Ok(Opened { store, line })
}

/// Returns the machine without stores.
pub(crate) fn no_stores(alloc: Global) -> Machine {
    Machine {
        alloc,
        control: None,
        terminal: None,
        fails: ("", ""),
    }
}

/// A record of the full length of `line.toml`, and one that is longer by one.
pub(crate) const LONGEST: &str = "0123456789012345678901234567890123456789\
    0123456789012345678901234567890123456789";

const LONGER: &str = "HI
0123456789012345678901234567890123456789\
    01234567890123456789012345678901234567890";

impl Files for Machine {
    fn read_file(&mut self, path: &str) -> Result<Vec<u8>, InputError> {
        let text = match path {
            "line.toml" => THREE_ADDRESSES,
            "own.toml" => OWN,
            "cards.txt" => "ONE\nTWO\n\n",
            "wrong.txt" => "ONE\n\x02\n",
            "long.txt" => LONGER,
            _ => {
                let why = Unreadable::NoSuchFile;
                return Err(InputError::Device { why });
            }
        };
        match Vec::from_slice(self.alloc, text.as_bytes()) {
            Ok(text) => Ok(text),
            Err(_) => Err(InputError::Memory),
        }
    }
}

impl StoreFiles for Machine {
    type Kept = Kept;

    fn open_kept(&mut self, path: &str) -> Result<Opened<Kept>, StoreFault> {
        let opened = match path {
            "control" => self.control.take(),
            "terminal" => self.terminal.take(),
            "none" => return Err(StoreFault::Missing),
            _ => return Err(StoreFault::Damaged),
        };
        let Some(Opened { store, line }) = opened else {
            return Err(StoreFault::InUse);
        };
        let (failing, fails) = self.fails;
        let store = Kept {
            table: store.table,
            fails: if path == failing { fails } else { "" },
        };
        Ok(Opened { store, line })
    }

    fn close_kept(&mut self, opened: Opened<Kept>) -> Result<(), StoreFault> {
        let closed = opened.store.call("closes", StoreFault::Full);
        if opened.line.as_str().starts_with("control station\n") {
            self.control = Some(opened);
        } else {
            self.terminal = Some(opened);
        }
        closed
    }

    fn make_kept(&mut self, path: &str, line: &str) -> Result<(), StoreFault> {
        let is_there = match path {
            "control" => self.control.is_some(),
            _ => self.terminal.is_some(),
        };
        if is_there {
            return Err(StoreFault::Taken);
        }
        let opened = store_of(self.alloc, line)?;
        self.close_kept(opened)
    }
}

/// Returns the word after this option.
fn value(words: &'static str, option: &str) -> Option<&'static str> {
    let (_, rest) = words.split_once(option)?;
    rest.split(' ').next()
}

/// The arguments of a work on a store, in order: the path of the store, the work, and up to two
/// words more.
const ARGUMENTS: &[&str] = &["FILE", "WORK", "FIRST", "SECOND"];

/// The options with a value, and what comes before it.
const VALUES: &[(&str, &str)] = &[("terminal", " --terminal "), ("from", " --from ")];

/// The options without one, and how they are given.
const FLAGS: &[(&str, &str)] = &[("control", " --control"), ("text", " --text")];

/// Returns what is given of an argument or an option with a value.
fn value_given(alloc: Global, id: &'static str, word: Option<&str>) -> Result<Given, AllocError> {
    let mut texts = Vec::new(alloc);
    if let Some(word) = word {
        texts.push(String::from_str(alloc, word)?)?;
    }
    Ok(Given {
        id,
        times: 0,
        texts,
    })
}

/// Returns the words as the command has read them.
fn words_of(alloc: Global, text: &'static str) -> Result<Words, AllocError> {
    let mut given = Vec::new(alloc);
    let mut words = text.split(" --").next().unwrap_or("").split(' ');
    for id in ARGUMENTS {
        given.push(value_given(alloc, *id, words.next())?)?;
    }
    for (id, option) in VALUES {
        given.push(value_given(alloc, *id, value(text, *option))?)?;
    }
    for (id, option) in FLAGS {
        given.push(Given {
            id: *id,
            times: if text.contains(*option) { 1 } else { 0 },
            texts: Vec::new(alloc),
        })?;
    }
    Ok(Words { given })
}

/// Does what the words ask for, with this standard input.
fn done<W: Write>(
    alloc: Global,
    machine: &mut Machine,
    words: &'static str,
    input: &str,
    out: &mut W,
) -> Result<(), StoringError> {
    let words = words_of(alloc, words)?;
    let mut input = input.as_bytes();
    match read_store_work(&words) {
        Err(_) => Err(StoringError::NoTerminal),
        Ok(work) => store(
            alloc,
            words.required("FILE"),
            work,
            &mut input,
            machine,
            out,
        ),
    }
}

/// Does what the words ask for, with this standard input, and returns what was printed, and then
/// the text of the error, if any.
pub(crate) fn told(
    alloc: Global,
    machine: &mut Machine,
    words: &'static str,
    input: &str,
) -> Result<Vec<u8>, StoringError> {
    let mut out = Vec::new(alloc);
    match done(alloc, machine, words, input, &mut out) {
        Ok(()) => Ok(out),
        Err(error) => match write!(out, "refused: {error}") {
            Ok(()) => Ok(out),
            Err(_) => Err(StoringError::Memory),
        },
    }
}

/// Whether what the words ask for fails because the output does, which takes nothing.
pub(crate) fn is_unprinted(alloc: Global, machine: &mut Machine, words: &'static str) -> bool {
    let mut out = Full { left: 0 };
    let result = done(alloc, machine, words, "", &mut out);
    matches!(result, Err(StoringError::Output))
}

/// Keeps a fact of a channel in the store at a path.
pub(crate) fn keep(
    machine: &mut Machine,
    path: &str,
    channel: Channel,
    fact: Fact,
) -> Result<(), StoreFault> {
    let change = change(channel, fact)?;
    let mut opened = machine.open_kept(path)?;
    let done = opened.store.commit(&[change]);
    machine.close_kept(opened)?;
    done
}
