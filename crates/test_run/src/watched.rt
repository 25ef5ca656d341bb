//! Connections in memory, and a watch that counts the calls of one of their ends or of the writer
//! and lets some of them go wrong.

ghost use Rattle.std.specs.Prelude.{◌≡◌, ◌≤◌, IfOk};
ghost use Rattle.bsc_run.specs.Crossing.{connection_count};

use bsc_carrier::Cable;
use std::alloc::{AllocError, Global};
use std::cell::{Cell, RefCell};
use std::collections::VecDeque;
use std::io;
use std::io::{Error, ErrorKind, Read, Write};

/// The maker of calls: an end of the connection of a terminal, or the writer of the output or of
/// the trace.
#[derive(Clone, Copy, PartialEq, Eq)]
pub(crate) enum Part {
    ControlEnd { terminal: usize },
    TerminalEnd { terminal: usize },
    Writer,
    Tracer,
}

/// How a call goes wrong.
#[derive(Clone, Copy, PartialEq, Eq)]
pub(crate) enum Trouble {
    /// It fails.
    Failed,

    /// It is interrupted before it moves an octet.
    Interrupted,

    /// It moves no octet: a read finds the end of the stream, a write accepts nothing.
    Nothing,
}

/// The calls that go wrong, counted from 1.
#[derive(Clone, Copy)]
pub(crate) enum When {
    At { call: usize },
    EverySecond,
}

/// No call goes wrong, nothing is traced, and it is always time to show the progress.
pub(crate) const NO_TROUBLE: Plan = Plan {
    part: Part::Writer,
    trouble: Trouble::Failed,
    when: When::At { call: 0 },
    most: usize::MAX,
    traced: false,
    due: true,
};

/// The same, with a trace.
pub(crate) const TRACED: Plan = Plan {
    traced: true,
    ..NO_TROUBLE
};

impl When {
    fn is_at(self, number: usize) -> bool {
        match self {
            When::At { call } => call == number,
            When::EverySecond => number % 2 == 0,
        }
    }
}

/// How a run is made: which calls of which part go wrong, and how; that no call moves more than
/// `most` octets; and whether the run is traced, and it is time to show its progress.
#[derive(Clone, Copy)]
pub(crate) struct Plan {
    pub(crate) part: Part,
    pub(crate) trouble: Trouble,
    pub(crate) when: When,
    pub(crate) most: usize,
    pub(crate) traced: bool,
    pub(crate) due: bool,
}

/// What was seen of a run: the number of calls that the part of the plan made, how many of them
/// went wrong, and how many calls any part made after the first of those.
#[derive(Clone, Copy)]
pub(crate) struct Seen {
    pub(crate) calls: usize,
    pub(crate) troubles: usize,
    pub(crate) later: usize,
}

/// Applies a plan to the calls of a run, and counts them.
#[derive(Drop)]
pub(crate) struct RunWatch {
    pub(crate) plan: Plan,
    seen: Cell<Seen>,
}

impl RunWatch {
    pub(crate) fn new(plan: Plan) -> RunWatch {
        RunWatch {
            plan,
            seen: Cell::new(Seen {
                calls: 0,
                troubles: 0,
                later: 0,
            }),
        }
    }

    pub(crate) fn seen(&self) -> Seen {
        self.seen.get()
    }

    /// Counts a call of this part, and returns whether it goes wrong.
    fn count_call(&self, part: Part) -> bool {
        let mut seen = self.seen.get();
        if seen.troubles > 0 {
            seen.later = seen.later.wrapping_add(1);
        }
        let mut is_wrong = false;
        if part == self.plan.part {
            seen.calls = seen.calls.wrapping_add(1);
            is_wrong = self.plan.when.is_at(seen.calls);
        }
        if is_wrong {
            seen.troubles = seen.troubles.wrapping_add(1);
        }
        self.seen.set(seen);
        is_wrong
    }

    /// The number of octets that a call of this part may move, at most `wanted`.
    fn admit(&self, part: Part, wanted: usize) -> io::Result<usize>
        ensures { IfOk result (λ count. count ≤ wanted) }
    {
        if !self.count_call(part) {
            return Ok(wanted.min(self.plan.most));
        }
        match self.plan.trouble {
            Trouble::Failed => Err(Error::from(ErrorKind::BrokenPipe)),
            Trouble::Interrupted => Err(Error::from(ErrorKind::Interrupted)),
            Trouble::Nothing => Ok(0),
        }
    }
}

/// A reader or a writer whose calls are watched.
#[derive(Drop)]
pub(crate) struct Watched<'a, S: Drop> {
    pub(crate) inner: S,
    pub(crate) part: Part,
    pub(crate) watch: &'a RunWatch,
}

impl<S: Read + Drop> Read for Watched<'_, S> {
    fn read(&mut self, buf: &mut [u8]) -> io::Result<usize> {
        let most = self.watch.admit(self.part, buf.len())?;
        self.inner.read(&mut buf[..most])
    }
}

impl<S: Write + Drop> Write for Watched<'_, S> {
    fn write(&mut self, buf: &[u8]) -> io::Result<usize> {
        let most = self.watch.admit(self.part, buf.len())?;
        self.inner.write(&buf[..most])
    }

    fn flush(&mut self) -> io::Result<()> {
        self.inner.flush()
    }
}

/// The octets that one end wrote and the other end has not read yet.
type Pipe = RefCell<VecDeque<u8>>;

/// A connection of two pipes: down to its terminal, and up from it.
#[derive(Drop)]
pub(crate) struct Connection {
    down: Pipe,
    up: Pipe,
}

impl Connection {
    fn new(alloc: Global) -> Connection {
        let (down, up) = (VecDeque::new(alloc), VecDeque::new(alloc));
        Connection {
            down: RefCell::new(down),
            up: RefCell::new(up),
        }
    }

    /// The end at the control station of the connection of this terminal.
    fn control_end<'a>(&'a self, terminal: usize, watch: &'a RunWatch) -> Watched<'a, End<'a>> {
        let (reads, writes) = (&self.up, &self.down);
        Watched {
            inner: End { reads, writes },
            part: Part::ControlEnd { terminal },
            watch,
        }
    }

    /// The end at this terminal.
    fn terminal_end<'a>(&'a self, terminal: usize, watch: &'a RunWatch) -> Watched<'a, End<'a>> {
        let (reads, writes) = (&self.down, &self.up);
        Watched {
            inner: End { reads, writes },
            part: Part::TerminalEnd { terminal },
            watch,
        }
    }
}

/// The connections of two terminals.
#[derive(Drop)]
pub(crate) struct Connections {
    first: Connection,
    second: Connection,
}

impl Connections {
    pub(crate) fn new(alloc: Global) -> Connections {
        Connections {
            first: Connection::new(alloc),
            second: Connection::new(alloc),
        }
    }

    /// A cable of both connections, whose calls are watched.
    pub(crate) fn cable<'a>(
        &'a self,
        alloc: Global,
        watch: &'a RunWatch,
    ) -> Result<Cable<Watched<'a, End<'a>>>, AllocError>
        ensures { IfOk result (λ cable. connection_count cable ≡ 2) }
    {
        let control_ends = Vec::from_array(
            alloc,
            [
                self.first.control_end(0, watch),
                self.second.control_end(1, watch),
            ],
        )?;
        let terminal_ends = Vec::from_array(
            alloc,
            [
                self.first.terminal_end(0, watch),
                self.second.terminal_end(1, watch),
            ],
        )?;
        Ok(Cable::new(control_ends, terminal_ends))
    }
}

/// An end of a connection. It reads what the other end wrote, and finds the end of the stream if
/// nothing is left.
#[derive(Drop)]
pub(crate) struct End<'a> {
    reads: &'a Pipe,
    writes: &'a Pipe,
}

impl Read for End<'_> {
    fn read(&mut self, buf: &mut [u8]) -> io::Result<usize> {
        self.reads.try_borrow_mut()?.read(buf)
    }
}

impl Write for End<'_> {
    fn write(&mut self, buf: &[u8]) -> io::Result<usize> {
        self.writes.try_borrow_mut()?.write(buf)
    }

    fn flush(&mut self) -> io::Result<()> {
        Ok(())
    }
}

/// A writer into memory whose calls are watched.
pub(crate) fn watched_writer<'a>(
    alloc: Global,
    watch: &'a RunWatch,
    part: Part,
) -> Watched<'a, Vec<u8>> {
    let inner = Vec::new(alloc);
    Watched { inner, part, watch }
}
