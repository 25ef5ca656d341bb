//! The programs of a station, as a machine gives them.

use std::io::{Read, Write};

/// The most programs that a station serves at a time.
pub const MAX_PROGRAMS: usize = 64;

/// What happened to the sockets of programs.
#[derive(Clone, Copy, Debug, PartialEq, Eq)]
pub enum Called {
    /// Programs have connected, one or more.
    Newcomer,

    /// The program at this place may have said something, or may take more of what is told to it.
    Program { place: usize },
}

/// The programs of a station, as a machine gives them. Places are counted from 0, and are below
/// [`MAX_PROGRAMS`].
pub trait Programs {
    /// The connection of a program. Neither a read nor a write waits: what cannot be done at once
    /// fails with `WouldBlock`, and `Program` then tells when it is to be tried again.
    type Stream: Read + Write + Drop;

    /// Asks the system what has happened since it was last asked, without waiting.
    fn ask(&mut self);

    /// Returns the next thing that has happened, each once after it was asked; `None` if there is
    /// no more.
    fn next(&mut self) -> Option<Called>;

    /// Takes a program that has connected; it will be at this place. Returns `None` if nobody is
    /// waiting.
    fn accept(&mut self, place: usize) -> Option<Self::Stream>;

    /// Turns away a program that has connected, since no place is free. Returns false if nobody is
    /// waiting.
    fn turn_away(&mut self) -> bool;

    /// Has the next wait of the station end at once, so that the programs are served again.
    fn call(&mut self);
}
