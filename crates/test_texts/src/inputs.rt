//! Properties of inputs that no contract states: calls that succeed, streams that fail, and refused
//! growths.
use bsc_text::{InputError, LineEnd, MAX_INPUT, Unreadable, read_input, read_line, read_octets};
use std::alloc::{AllocError, Global};
use std::io;
use std::io::{BufReader, Error, ErrorKind, Read};
use std::test::Fail;
use test_alloc::{Refusal, Refusing};

/// The text with each of its parts in angle brackets this many times.
pub(crate) fn repeated(alloc: Global, text: &str, count: usize) -> Result<String, AllocError> {
    let mut all = String::new(alloc);
    for piece in text.split('<') {
        let (part, rest) = piece.split_once('>').unwrap_or(("", piece));
        all.push_str(&part.repeat(alloc, count)?)?;
        all.push_str(rest)?;
    }
    Ok(all)
}

/// Returns one octet in each read, as long as octets are left, and counts the reads.
#[derive(Drop)]
struct Drip {
    left: usize,
    reads: usize,
}

impl Read for Drip {
    fn read(&mut self, buffer: &mut [u8]) -> io::Result<usize> {
        self.reads = self.reads.wrapping_add(1);
        if self.left == 0 || buffer.is_empty() {
            return Ok(0);
        }
        self.left -= 1;
        buffer[0] = b' ';
        Ok(1)
    }
}

/// Returns the text in one read, fails once with an error of this kind, and then ends.
#[derive(Drop)]
pub(crate) struct Broken {
    pub(crate) text: &'static [u8],
    pub(crate) kind: Option<ErrorKind>,
}

impl Read for Broken {
    fn read(&mut self, buffer: &mut [u8]) -> io::Result<usize> {
        if !self.text.is_empty() {
            return self.text.read(buffer);
        }
        match self.kind.take() {
            Some(kind) => Err(Error::from(kind)),
            None => Ok(0),
        }
    }
}

// Whether a stream of this many octets, one in each read, is read whole in one read more, or is too
// long if it has more than an input may have, and then not read further.
fn is_read_whole(left: usize, alloc: Global) -> bool {
    let mut drip = Drip { left, reads: 0 };
    let is_right = match read_input(alloc, &mut drip) {
        Ok(input) => left <= MAX_INPUT && input.len() == left,
        Err(error) => left > MAX_INPUT && error == InputError::TooLong,
    };
    is_right && drip.reads == MAX_INPUT + 1
}

// Whether a line of this many octets, one in each read, is read whole, or is too long if it has
// more than a line may have.
fn is_line_read_whole(left: usize, alloc: Global) -> bool {
    let Ok(mut reader) = BufReader::new(alloc, Drip { left, reads: 0 }) else {
        return false;
    };
    let mut line = Vec::new(alloc);
    match read_line(&mut reader, &mut line) {
        Ok(end) => left <= MAX_INPUT && end == LineEnd::InputEnd && line.len() == left,
        Err(error) => left > MAX_INPUT && error == InputError::TooLong,
    }
}

/// An input and a line of the greatest length with one octet in each read, and longer ones.
#[test]
fn one_octet_a_read(rt: HostRuntime) {
    assert!(rt; MAX_INPUT == 1_048_576);
    assert!(rt; is_read_whole(MAX_INPUT, rt.alloc()));
    assert!(rt; is_read_whole(MAX_INPUT + 1, rt.alloc()));
    assert!(rt; is_line_read_whole(MAX_INPUT, rt.alloc()));
    assert!(rt; is_line_read_whole(MAX_INPUT + 1, rt.alloc()));
}

/// Kinds of errors, and why an input could not be read.
const REASONS: &[(ErrorKind, Unreadable)] = &[
    (ErrorKind::Interrupted, Unreadable::ReadFault),
    (ErrorKind::NotFound, Unreadable::NoSuchFile),
    (ErrorKind::PermissionDenied, Unreadable::PermissionDenied),
];

// Whether this is the error of an input and of a line of which a read fails after good ones with an
// error of this kind.
fn is_error(kind: ErrorKind, error: InputError, alloc: Global) -> bool {
    let mut broken = Broken {
        text: b"16 04\n",
        kind: Some(kind),
    };
    let is_input_error = read_input(alloc, &mut broken).err() == Some(error);
    let broken = Broken {
        text: b"16 04\n16",
        kind: Some(kind),
    };
    let Ok(mut reader) = BufReader::new(alloc, broken) else {
        return false;
    };
    let mut line = Vec::new(alloc);
    is_input_error
        && read_line(&mut reader, &mut line) == Ok(LineEnd::LineFeed)
        && read_line(&mut reader, &mut line) == Err(error)
}

/// The reason why a read failed is kept, and an interrupted read is not repeated.
#[test]
fn why_a_read_failed(rt: HostRuntime) {
    for (kind, why) in REASONS {
        let error = InputError::Device { why: *why };
        assert!(rt; is_error(*kind, error, rt.alloc()), "{error}");
    }
}

// Whether the result is out of memory if this allocator refused something, and the whole input
// otherwise.
fn is_read_or_refused(alloc: &Refusing) -> bool {
    let mut drip = Drip {
        left: 1000,
        reads: 0,
    };
    match read_input(alloc, &mut drip) {
        Ok(input) => alloc.refused() == 0 && input.len() == 1000,
        Err(error) => alloc.refused() > 0 && error == InputError::Memory,
    }
}

/// Hexadecimal text, with spaces anywhere and letters of both cases.
const HEXADECIMAL: &[u8] = b"1616 10 b0 fF  1 6 1610B0FF";

// Whether the result is out of memory if this allocator refused something, and the octets
// otherwise.
fn are_octets_or_refused(alloc: &Refusing) -> bool {
    let expected = b"\x16\x16\x10\xb0\xff\x16\x16\x10\xb0\xff".as_slice();
    match read_octets(alloc, HEXADECIMAL) {
        Ok(Some(octets)) => alloc.refused() == 0 && octets.as_slice() == expected,
        Ok(None) => false,
        Err(AllocError) => alloc.refused() > 0,
    }
}

// Whether the result is out of memory if this allocator refused something, and a line otherwise.
fn is_line_or_refused(global: Global, alloc: &Refusing) -> bool {
    let drip = Drip {
        left: 1000,
        reads: 0,
    };
    let Ok(mut reader) = BufReader::new(global, drip) else {
        return false;
    };
    let mut line = Vec::new(alloc);
    match read_line(&mut reader, &mut line) {
        Ok(_) => alloc.refused() == 0 && line.len() == 1000,
        Err(error) => alloc.refused() > 0 && error == InputError::Memory,
    }
}

/// Each growth for an input, for octets and for a line is refused in turn; the result is out of
/// memory.
#[test]
fn each_growth_of_an_input_of_octets_and_of_a_line(rt: HostRuntime) -> Result<(), Fail> {
    let alloc = Refusing::new(rt.alloc());
    for request in alloc.in_turn(Refusal::Nth, 4..19) {
        let number = request?;
        assert!(rt; is_read_or_refused(&alloc), "{number}");
    }
    for request in alloc.in_turn(Refusal::Nth, 2..19) {
        let number = request?;
        assert!(rt; are_octets_or_refused(&alloc), "{number}");
    }
    for request in alloc.in_turn(Refusal::Nth, 4..19) {
        let number = request?;
        assert!(rt; is_line_or_refused(rt.alloc(), &alloc), "{number}");
    }
    Ok(())
}
