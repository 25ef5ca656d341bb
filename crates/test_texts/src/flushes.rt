//! What is printed for the lines of an input is flushed before the input is read further.

use crate::ladders::words_of;
use bsc_chart::draw;
use bsc_trace::naming::{names, show};
use std::alloc::Global;
use std::cell::Cell;
use std::io;
use std::io::{Read, Write};
use std::test::Fail;

/// How many octets were written, and how many of them are flushed.
#[derive(Drop)]
struct Screen {
    written: Cell<usize>,
    flushed: Cell<usize>,
}

/// Writes on a screen.
#[derive(Drop)]
struct Shown<'a> {
    screen: &'a Screen,
}

impl Write for Shown<'_> {
    fn write(&mut self, octets: &[u8]) -> io::Result<usize> {
        let written = self.screen.written.get();
        self.screen
            .written
            .set(written.saturating_add(octets.len()));
        Ok(octets.len())
    }

    fn flush(&mut self) -> io::Result<()> {
        self.screen.flushed.set(self.screen.written.get());
        Ok(())
    }
}

/// Gives a piece at each read, and keeps how much is flushed before each.
#[derive(Drop)]
struct Typed<'a> {
    pieces: &'static [&'static str],

    /// The number of pieces that were given.
    given: usize,

    screen: &'a Screen,
    seen: Vec<usize>,
}

impl Read for Typed<'_> {
    fn read(&mut self, buffer: &mut [u8]) -> io::Result<usize> {
        self.seen.push(self.screen.flushed.get())?;
        let Some(piece) = self.pieces.get(self.given) else {
            return Ok(0);
        };
        self.given = self.given.saturating_add(1);
        piece.as_bytes().read(buffer)
    }
}

/// A command that prints something for each line.
#[derive(Clone, Copy, Debug)]
enum Call {
    Names,
    Show,
    Chart,
}

/// Prints what a command prints for the lines of an input.
fn prints<R: Read, W: Write>(
    alloc: Global,
    call: Call,
    input: &mut R,
    out: &mut W,
) -> Result<(), Fail> {
    match call {
        Call::Names => Ok(names(alloc, input, out)?),
        Call::Show => Ok(show(alloc, input, out)?),
        Call::Chart => {
            let words = words_of(alloc, "ascii")?;
            draw(alloc, &words, None, input, out)?;
            Ok(())
        }
    }
}

/// Returns how much was flushed on a screen before each read of an input in these pieces.
fn flushed(
    alloc: Global,
    call: Call,
    pieces: &'static [&'static str],
    screen: &Screen,
) -> Result<Vec<usize>, Fail> {
    let mut input = Typed {
        pieces,
        given: 0,
        screen,
        seen: Vec::new(alloc),
    };
    let mut out = Shown { screen };
    prints(alloc, call, &mut input, &mut out)?;
    Ok(input.seen)
}

/// A command, the pieces of its input, and how much is flushed before each read: nothing before the
/// first, then what is printed for all whole lines. An input that has ended is not read again.
const FLUSHED: &[(Call, &[&str], &[usize])] = &[
    (
        Call::Names,
        &["16 04\n", "16 10 B0 FF\n16 04\n16", " 04"],
        &[0, 4, 13, 13],
    ),
    (Call::Show, &["16 04\n", "16", " 04\n"], &[0, 4, 4, 8]),
    (Call::Chart, &["+5 silence\n", "\n"], &[0, 60, 60]),
];

#[test]
fn lines_are_flushed_before_a_read(rt: HostRuntime) -> Result<(), Fail> {
    for (call, pieces, seen) in FLUSHED {
        let screen = Screen {
            written: Cell::new(0),
            flushed: Cell::new(0),
        };
        let flushed = flushed(rt.alloc(), *call, *pieces, &screen)?;
        assert!(rt; flushed.as_slice() == *seen, "{call:?} {flushed:?}");
    }
    Ok(())
}
