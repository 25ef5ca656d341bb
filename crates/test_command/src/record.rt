//! What a command prints, tells, requests, sends and traces on a machine made for tests.

use crate::machine::Scene;
use crate::wires::Wires;
use bsc_text::progress::{Counts, Meter, Timer, Work};
use std::alloc::Global;
use std::cell::{Cell, RefCell};
use std::io;
use std::io::{Error, ErrorKind, Write};
use test_fixtures::Memory;

/// Octets that are written in one place and compared in another.
pub(crate) type Octets = RefCell<Vec<u8>>;

/// Whether these are the octets of a text.
pub(crate) fn has(octets: &Octets, text: &str) -> bool {
    match octets.try_borrow() {
        Ok(octets) => octets.as_slice() == text.as_bytes(),
        Err(_) => false,
    }
}

/// What became of the commands on a machine.
#[derive(Drop)]
pub(crate) struct Record {
    /// What the last command printed, and told on standard error.
    pub(crate) out: Octets,
    pub(crate) errors: Octets,

    /// What it requested of the machine for a station; nothing if it requested nothing.
    pub(crate) asked: Octets,

    /// What all commands sent and traced, and what they told a program that feeds a station, or a
    /// station that is fed.
    pub(crate) sent: Octets,
    pub(crate) trace: Octets,
    pub(crate) told: Octets,

    /// Whether a flush of standard output also syncs it.
    pub(crate) syncs: Cell<bool>,

    /// How often the station asked to be called when standard output takes more.
    pub(crate) calls: Cell<usize>,

    /// What was shown of the progress last.
    pub(crate) shown: Cell<Option<(Work, Counts)>>,

    /// The connections of a run.
    pub(crate) wires: Wires,

    /// What is kept in the stores of the machine, beyond the end of a command.
    pub(crate) memory: RefCell<Memory>,

    /// How many records that were offered, and that arrived, the stores count on each channel
    /// before those that they can give.
    pub(crate) offered_before: Cell<u32>,
    pub(crate) arrived_before: Cell<u32>,
}

impl Record {
    pub(crate) fn new(alloc: Global) -> Record {
        Record {
            out: RefCell::new(Vec::new(alloc)),
            errors: RefCell::new(Vec::new(alloc)),
            asked: RefCell::new(Vec::new(alloc)),
            sent: RefCell::new(Vec::new(alloc)),
            trace: RefCell::new(Vec::new(alloc)),
            told: RefCell::new(Vec::new(alloc)),
            syncs: Cell::new(false),
            calls: Cell::new(0),
            shown: Cell::new(None),
            wires: Wires::new(alloc),
            memory: RefCell::new(Memory::new(alloc)),
            offered_before: Cell::new(0),
            arrived_before: Cell::new(0),
        }
    }

    /// Forgets what the command before printed, told and requested.
    pub(crate) fn begin(&self) -> io::Result<()> {
        self.out.try_borrow_mut()?.clear();
        self.errors.try_borrow_mut()?.clear();
        self.asked.try_borrow_mut()?.clear();
        Ok(())
    }

    /// Whether the last command printed this, and told this on standard error.
    pub(crate) fn has_printed(&self, out: &str, errors: &str) -> bool {
        has(&self.out, out) && has(&self.errors, errors)
    }

    /// The number of octets that were sent.
    pub(crate) fn count_sent(&self) -> usize {
        match self.sent.try_borrow() {
            Ok(octets) => octets.len(),
            Err(_) => 0,
        }
    }

    /// Standard output.
    pub(crate) fn output(&self, scene: &Scene) -> Sink<'_> {
        let unsynced = match scene.disk_fails {
            true => Some(&self.syncs),
            false => None,
        };
        Sink {
            octets: &self.out,
            fails: scene.output_fails,
            unsynced,
        }
    }
}

/// A clock that stands still. Each time is one to show the progress, if there is work whose
/// progress is to be shown.
#[derive(Drop)]
pub(crate) struct Metered<'a> {
    pub(crate) work: Option<Work>,
    pub(crate) record: &'a Record,
}

impl Timer for Metered<'_> {
    fn milliseconds(&mut self) -> u64 {
        0
    }
}

impl Meter for Metered<'_> {
    fn is_due(&mut self) -> bool {
        self.work.is_some()
    }

    fn show(&mut self, counts: Counts) {
        if let Some(work) = self.work {
            self.record.shown.set(Some((work, counts)));
        }
    }
}

/// A stream into a record: standard output, standard error, the trace, or the sending side of a
/// connection.
#[derive(Drop)]
pub(crate) struct Sink<'a> {
    octets: &'a Octets,

    /// Whether each write fails.
    fails: bool,

    /// If the disk of the stream fails: whether a flush also syncs it.
    unsynced: Option<&'a Cell<bool>>,
}

impl Sink<'_> {
    /// Returns the stream into these octets, of which each write fails or none.
    pub(crate) fn new(octets: &Octets, fails: bool) -> Sink<'_> {
        Sink {
            octets,
            fails,
            unsynced: None,
        }
    }
}

impl Write for Sink<'_> {
    fn write(&mut self, octets: &[u8]) -> io::Result<usize> {
        if self.fails {
            return Err(Error::from(ErrorKind::StorageFull));
        }
        self.octets.try_borrow_mut()?.write(octets)
    }

    fn flush(&mut self) -> io::Result<()> {
        match self.unsynced {
            Some(syncs) if syncs.get() => Err(Error::from(ErrorKind::StorageFull)),
            _ => Ok(()),
        }
    }
}
