//! The octets that a command reads in a test, piece by piece.

use std::io;
use std::io::Read;

/// Returns the octets with this name: a transmission as a socket record, or as raw octets, or a
/// part of one; none if there is no such name. The octets are those of docs/PROTOCOL.md.
fn octets_of(name: &str) -> &'static [u8] {
    match name {
        "call-A" => b"\x00\x09\x16\x16\x04\xFF\x16\x16\xC1\x85\xFF",
        "call-a" => b"\x00\x09\x16\x16\x04\xFF\x16\x16\x61\x85\xFF",
        "call-c" => b"\x00\x09\x16\x16\x04\xFF\x16\x16\xE3\x85\xFF",
        "call-A63" => b"\x00\x0B\x16\x16\x04\xFF\x16\x16\xC1\xB6\xB3\x85\xFF",
        "call-d63" => b"\x00\x0B\x16\x16\x04\xFF\x16\x16\x64\xB6\xB3\x85\xFF",
        "ack0" => b"\x00\x05\x16\x16\x10\xB0\xFF",
        "ack1" => b"\x00\x05\x16\x16\x10\x31\xFF",
        "text" => b"\x00\x09\x16\x16\x02\xC8\x49\x19\x83\x9B\xFF",
        "eot" => b"\x00\x04\x16\x16\x04\xFF",
        "raw-call-A" => b"\x16\x16\x04\xFF\x16\x16\xC1\x85\xFF",
        "raw-call-a" => b"\x16\x16\x04\xFF\x16\x16\x61\x85\xFF",
        "raw-ack1" => b"\x16\x16\x10\x31\xFF",
        "raw-text" => b"\x16\x16\x02\xC8\x49\x19\x83\x9B\xFF",
        "raw-eot" => b"\x16\x16\x04\xFF",
        _ => part_of(name),
    }
}

/// What may follow a length that no socket record can have.
const REST: &[u8] = &[0x55; 2048];

/// The characters of a longest record.
const LONGEST: &[u8] = &[0xC1; 144];

/// Returns the octets of a part of a socket record: one that ends too early, a length that none can
/// have, what follows it, and the parts of a text of seven records of 144 characters.
fn part_of(name: &str) -> &'static [u8] {
    match name {
        "cut" => b"\x00\x05\x16\x16",
        "length" => b"\xFF\xFF",
        "rest" => REST,
        "seven" => b"\x04\x02\x16\x16\x02",
        "record" => LONGEST,
        "us" => b"\x1F\x1F",
        "etb" => b"\x97\x97\xFF",
        "etx" => b"\x83\x83\xFF",
        _ => b"",
    }
}

/// Returns the transmissions of a list of names, one in each read, the list some times, and then
/// the end of the stream. At the name `reset` each read fails.
#[derive(Drop)]
pub(crate) struct Pieces {
    names: &'static str,
    times: usize,
    left: &'static str,
    piece: &'static [u8],
    is_reset: bool,
}

impl Pieces {
    pub(crate) fn new(names: &'static str, times: usize) -> Pieces {
        Pieces {
            names,
            times,
            left: "",
            piece: b"",
            is_reset: false,
        }
    }

    /// Goes to the next transmission, if there is one.
    fn advance(&mut self) {
        if self.left.is_empty() {
            if self.times == 0 {
                return;
            }
            self.times -= 1;
            self.left = self.names;
        }
        let left = self.left;
        let (name, rest) = match left.split_once(' ') {
            Some((name, rest)) => (name, rest),
            None => (left, ""),
        };
        self.is_reset = name == "reset";
        self.piece = octets_of(name);
        self.left = rest;
    }
}

impl Read for Pieces {
    fn read(&mut self, buffer: &mut [u8]) -> io::Result<usize> {
        if self.piece.is_empty() {
            self.advance();
        }
        if self.is_reset {
            return Err(io::Error::from(io::ErrorKind::ConnectionReset));
        }
        let count = self.piece.len().min(buffer.len());
        buffer[..count].copy_from_slice(&self.piece[..count]);
        self.piece = &self.piece[count..];
        Ok(count)
    }
}

/// Returns the octets of a text, and then its end or a fault.
#[derive(Drop)]
pub(crate) struct Input<'a> {
    pub(crate) left: &'a [u8],
    pub(crate) fault: Option<io::ErrorKind>,
}

impl Read for Input<'_> {
    fn read(&mut self, buffer: &mut [u8]) -> io::Result<usize> {
        if self.left.is_empty() {
            if let Some(kind) = self.fault {
                return Err(io::Error::from(kind));
            }
        }
        self.left.read(buffer)
    }
}
