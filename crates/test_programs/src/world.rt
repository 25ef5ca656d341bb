//! Programs and their connections, in memory.

use bsc_serving::{Called, MAX_PROGRAMS, Programs};
use std::alloc::{AllocError, Global};
use std::cell::{Cell, RefCell};
use std::collections::VecDeque;
use std::io;
use std::io::{Error, ErrorKind, Read, Write};
use std::test::Fail;

/// How many programs a world has.
const PROGRAMS: usize = 2 * MAX_PROGRAMS + 1;

/// What one program says and was told.
#[derive(Drop)]
pub(crate) struct Program {
    said: RefCell<VecDeque<u8>>,
    told: RefCell<Vec<u8>>,

    /// Whether it says nothing more, and whether its connection is reset.
    ended: Cell<bool>,
    reset: Cell<bool>,

    /// How many octets it takes yet, and how many a read or a write moves at most.
    room: Cell<usize>,
    pub(crate) piece: Cell<usize>,

    /// Its place, once it is taken, and whether the system has something to tell of it.
    place: Cell<Option<usize>>,
    changed: Cell<bool>,

    /// How many reads and writes there were.
    pub(crate) calls: Cell<usize>,
}

impl Program {
    fn new(alloc: Global) -> Program {
        Program {
            said: RefCell::new(VecDeque::new(alloc)),
            told: RefCell::new(Vec::new(alloc)),
            ended: Cell::new(false),
            reset: Cell::new(false),
            room: Cell::new(usize::MAX),
            piece: Cell::new(usize::MAX),
            place: Cell::new(None),
            changed: Cell::new(false),
            calls: Cell::new(0),
        }
    }

    /// Says more.
    pub(crate) fn say(&self, octets: &[u8]) -> Result<(), Fail> {
        let _ = self.said.try_borrow_mut()?.write(octets)?;
        self.changed.set(true);
        Ok(())
    }

    /// Says this, this many times.
    pub(crate) fn say_often(&self, octets: &[u8], times: usize) -> Result<(), Fail> {
        for _ in 0..times {
            self.say(octets)?;
        }
        Ok(())
    }

    /// Ends its side.
    pub(crate) fn end(&self) {
        self.ended.set(true);
        self.changed.set(true);
    }

    /// Resets its connection.
    pub(crate) fn reset(&self) {
        self.reset.set(true);
        self.changed.set(true);
    }

    /// Takes this many octets more.
    pub(crate) fn make_room(&self, count: usize) {
        self.room.set(count);
        self.changed.set(true);
    }

    /// Whether it was told exactly this since this was asked last.
    pub(crate) fn was_told(&self, expected: &[u8]) -> Result<bool, Fail> {
        let mut told = self.told.try_borrow_mut()?;
        let is_told = told.as_slice() == expected;
        told.clear();
        Ok(is_told)
    }

    /// How many lines it was told.
    pub(crate) fn lines(&self) -> usize {
        let mut count = 0usize;
        if let Ok(told) = self.told.try_borrow() {
            for octet in told.as_slice() {
                if *octet == b'\n' {
                    count = count.saturating_add(1);
                }
            }
        }
        count
    }

    /// How many octets it has said that nobody has read.
    pub(crate) fn unread(&self) -> usize {
        match self.said.try_borrow() {
            Ok(said) => said.len(),
            Err(_) => 0,
        }
    }
}

/// All programs of a test, in the order in which they connect, and what is asked of the system.
#[derive(Drop)]
pub(crate) struct World {
    programs: Vec<Program>,

    /// How many of them have connected, and how many of these were taken or turned away.
    connected: Cell<usize>,
    met: Cell<usize>,

    /// How many were turned away, and how often the next wait was to end at once.
    pub(crate) turned_away: Cell<usize>,
    pub(crate) calls: Cell<usize>,
}

impl World {
    /// Returns a world of which no program has connected.
    pub(crate) fn new(alloc: Global) -> Result<World, AllocError> {
        let mut programs = Vec::new(alloc);
        for _ in 0..PROGRAMS {
            programs.push(Program::new(alloc))?;
        }
        Ok(World {
            programs,
            connected: Cell::new(0),
            met: Cell::new(0),
            turned_away: Cell::new(0),
            calls: Cell::new(0),
        })
    }

    /// Lets the first programs connect, this many in all.
    pub(crate) fn connect(&self, count: usize) {
        self.connected.set(count.min(self.programs.len()));
    }

    /// Returns the program with this number.
    pub(crate) fn at(&self, number: usize) -> Result<&Program, Fail> {
        match self.programs.get(number) {
            Some(program) => Ok(program),
            None => Err(Fail::new("no such program")),
        }
    }

    /// Returns the programs as a machine gives them.
    pub(crate) fn scripted(&self) -> Scripted<'_> {
        Scripted {
            world: self,
            asked: 0,
            newcomer: false,
        }
    }

    /// Returns the next program that has connected and was not met, and meets it.
    fn meet(&self) -> Option<&Program> {
        let met = self.met.get();
        if met >= self.connected.get() {
            return None;
        }
        self.met.set(met.saturating_add(1));
        self.programs.get(met)
    }
}

/// The programs of a world: the one of which is told next, and whether it is to be told that
/// programs have connected.
#[derive(Drop)]
pub(crate) struct Scripted<'a> {
    world: &'a World,
    asked: usize,
    newcomer: bool,
}

impl<'a> Programs for Scripted<'a> {
    type Stream = End<'a>;

    fn ask(&mut self) {
        self.asked = 0;
        self.newcomer = self.world.met.get() < self.world.connected.get();
    }

    fn next(&mut self) -> Option<Called> {
        if self.newcomer {
            self.newcomer = false;
            return Some(Called::Newcomer);
        }
        for number in self.asked..self.world.programs.len() {
            if let Some(program) = self.world.programs.get(number) {
                if let Some(place) = program.place.get() {
                    if program.changed.get() {
                        program.changed.set(false);
                        self.asked = number;
                        return Some(Called::Program { place });
                    }
                }
            }
        }
        None
    }

    fn accept(&mut self, place: usize) -> Option<End<'a>> {
        let program = self.world.meet()?;
        program.place.set(Some(place));
        program.changed.set(false);
        Some(End { program })
    }

    fn turn_away(&mut self) -> bool {
        let away = self.world.meet().is_some();
        if away {
            let count = self.world.turned_away.get();
            self.world.turned_away.set(count.saturating_add(1));
        }
        away
    }

    fn call(&mut self) {
        let count = self.world.calls.get();
        self.world.calls.set(count.saturating_add(1));
    }
}

/// The end of a connection at the station.
#[derive(Drop)]
pub(crate) struct End<'a> {
    program: &'a Program,
}

/// Counts a call, which fails if the connection is reset. Each third call is interrupted.
fn called(program: &Program) -> io::Result<()> {
    let calls = program.calls.get();
    program.calls.set(calls.wrapping_add(1));
    if calls % 3 == 2 {
        return Err(Error::from(ErrorKind::Interrupted));
    }
    if program.reset.get() {
        return Err(Error::from(ErrorKind::ConnectionReset));
    }
    Ok(())
}

impl Read for End<'_> {
    fn read(&mut self, buffer: &mut [u8]) -> io::Result<usize> {
        called(self.program)?;
        let mut said = self.program.said.try_borrow_mut()?;
        if said.is_empty() && !self.program.ended.get() {
            return Err(Error::from(ErrorKind::WouldBlock));
        }
        let most = buffer.len().min(self.program.piece.get());
        said.read(&mut buffer[..most])
    }
}

impl Write for End<'_> {
    fn write(&mut self, octets: &[u8]) -> io::Result<usize> {
        called(self.program)?;
        let room = self.program.room.get();
        let most = octets.len().min(self.program.piece.get()).min(room);
        if most == 0 {
            return Err(Error::from(ErrorKind::WouldBlock));
        }
        self.program.room.set(room - most);
        self.program.told.try_borrow_mut()?.write(&octets[..most])
    }

    fn flush(&mut self) -> io::Result<()> {
        Ok(())
    }
}
