//! Connections in memory for the runs of two terminals.

ghost use Rattle.std.specs.Prelude.{◌≡◌, IfOk, length};

use bsc_carrier::Cable;
use std::alloc::{AllocError, Global};
use std::cell::{Cell, RefCell};
use std::collections::VecDeque;
use std::io;
use std::io::{Error, ErrorKind, Read, Write};

/// The octets that one end wrote and the other end has not read yet.
type Pipe = RefCell<VecDeque<u8>>;

/// The connections of two terminals, each a pipe down to its terminal and one up from it.
#[derive(Drop)]
pub(crate) struct Wires {
    first_down: Pipe,
    first_up: Pipe,
    second_down: Pipe,
    second_up: Pipe,

    /// How many reads succeed before they fail.
    pub(crate) reads: Cell<usize>,
}

impl Wires {
    pub(crate) fn new(alloc: Global) -> Wires {
        Wires {
            first_down: RefCell::new(VecDeque::new(alloc)),
            first_up: RefCell::new(VecDeque::new(alloc)),
            second_down: RefCell::new(VecDeque::new(alloc)),
            second_up: RefCell::new(VecDeque::new(alloc)),
            reads: Cell::new(usize::MAX),
        }
    }

    /// A cable of both connections.
    pub(crate) fn cable(&self, alloc: Global) -> Result<Cable<End<'_>>, AllocError>
        ensures { IfOk result (λ cable. length cable.control_ends ≡ 2) }
    {
        let control_ends = Vec::from_array(
            alloc,
            [
                self.joined(&self.first_up, &self.first_down),
                self.joined(&self.second_up, &self.second_down),
            ],
        )?;
        let terminal_ends = Vec::from_array(
            alloc,
            [
                self.joined(&self.first_down, &self.first_up),
                self.joined(&self.second_down, &self.second_up),
            ],
        )?;
        Ok(Cable::new(control_ends, terminal_ends))
    }

    /// The end of a connection that reads and writes these.
    fn joined<'a>(&'a self, reads: &'a Pipe, writes: &'a Pipe) -> End<'a> {
        let left = &self.reads;
        End {
            reads,
            writes,
            left,
        }
    }
}

/// An end of a connection. It reads what the other end wrote, and finds the end of the stream if
/// nothing is left, unless its reads fail.
#[derive(Drop)]
pub(crate) struct End<'a> {
    reads: &'a Pipe,
    writes: &'a Pipe,
    left: &'a Cell<usize>,
}

impl Read for End<'_> {
    fn read(&mut self, buffer: &mut [u8]) -> io::Result<usize> {
        let left = self.left.get();
        if left == 0 {
            return Err(Error::from(ErrorKind::ConnectionReset));
        }
        self.left.set(left - 1);
        self.reads.try_borrow_mut()?.read(buffer)
    }
}

impl Write for End<'_> {
    fn write(&mut self, octets: &[u8]) -> io::Result<usize> {
        self.writes.try_borrow_mut()?.write(octets)
    }

    fn flush(&mut self) -> io::Result<()> {
        Ok(())
    }
}
