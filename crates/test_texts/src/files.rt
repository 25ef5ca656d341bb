//! Texts at paths: what the files of a machine have, and why a file has none.
use bsc_text::{Files, InputError, MAX_INPUT, STANDARD_INPUT, TextError, Unreadable, read_text};
use std::alloc::Global;

/// The path of every file.
const PATH: &str = "line.toml";

/// A machine on which each file has this many octets, or cannot be read.
#[derive(Drop)]
struct Machine {
    alloc: Global,
    answer: Result<usize, InputError>,

    /// The number of files that were read.
    reads: usize,
}

/// The octet at this place of a text.
fn octet_at(place: usize) -> u8 {
    (place % 251) as u8
}

impl Files for Machine {
    fn read_file(&mut self, _path: &str) -> Result<Vec<u8>, InputError> {
        self.reads = self.reads.wrapping_add(1);
        let mut text = Vec::new(self.alloc);
        for place in 0..self.answer? {
            if text.push(octet_at(place)).is_err() {
                return Err(InputError::Memory);
            }
        }
        Ok(text)
    }
}

/// The text at a path, if each file has this answer, and how many files were read.
fn text_at(
    alloc: Global,
    path: &str,
    answer: Result<usize, InputError>,
) -> (Result<Vec<u8>, TextError>, usize) {
    let mut files = Machine {
        alloc,
        answer,
        reads: 0,
    };
    let text = read_text(alloc, path, &mut b"ab\ncd".as_slice(), &mut files);
    (text, files.reads)
}

/// Whether these are the octets of a text of this length.
fn is_text(text: &[u8], length: usize) -> bool {
    for (place, octet) in text.iter().enumerate() {
        if *octet != octet_at(place) {
            return false;
        }
    }
    text.len() == length
}

/// Whether the text of a file with this many octets is read whole, with one read.
fn is_read_whole(alloc: Global, length: usize) -> bool {
    let (text, reads) = text_at(alloc, PATH, Ok(length));
    match text {
        Ok(text) => is_text(&text, length) && reads == 1,
        Err(_) => false,
    }
}

/// Whether standard input is read whole, and no file.
fn is_input_read(alloc: Global) -> bool {
    let (text, reads) = text_at(alloc, STANDARD_INPUT, Ok(1));
    match text {
        Ok(text) => text.as_slice() == b"ab\ncd".as_slice() && reads == 0,
        Err(_) => false,
    }
}

/// Lengths of files: those about the size of a read, and the longest.
const LENGTHS: &[usize] = &[0, 1, 4_096, 4_097, 65_537, MAX_INPUT];

#[test]
fn texts_of_files_and_of_standard_input_are_read_whole(rt: HostRuntime) {
    for length in LENGTHS {
        assert!(rt; is_read_whole(rt.alloc(), *length), "{length}");
    }
    assert!(rt; is_input_read(rt.alloc()));
}

/// Whether what is told of a file that cannot be read is its path and this reason, or one of its
/// own if the file is too long or there is no memory for it.
fn is_told(alloc: Global, error: InputError) -> bool {
    let (text, _) = text_at(alloc, PATH, Err(error));
    match text {
        Err(TextError::CannotRead { path, why }) => {
            path.as_str() == PATH && error == InputError::Device { why }
        }
        Err(TextError::FileTooLong { path }) => {
            path.as_str() == PATH && error == InputError::TooLong
        }
        Err(TextError::Memory) => error == InputError::Memory,
        _ => false,
    }
}

/// The reasons why a file cannot be read.
const REASONS: &[Unreadable] = &[
    Unreadable::NoSuchFile,
    Unreadable::PermissionDenied,
    Unreadable::IsADirectory,
    Unreadable::NotInADirectory,
    Unreadable::ReadFault,
];

#[test]
fn why_a_file_cannot_be_read(rt: HostRuntime) {
    for why in REASONS {
        assert!(rt; is_told(rt.alloc(), InputError::Device { why: *why }));
    }
    assert!(rt; is_told(rt.alloc(), InputError::TooLong));
    assert!(rt; is_told(rt.alloc(), InputError::Memory));
}
