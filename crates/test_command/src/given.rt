//! The arguments with which the program was started: many, long ones, and those that are not text.

use crate::faults::are_told;
use bsc_command::given_words;
use std::alloc::Global;
use std::env::FillError;
use std::rt::{Env, HostRuntime};
use std::test::Fail;

/// A runtime whose program was started with this many arguments. Each is `w`, but the one at this
/// place is an octet as many times as its length says.
#[derive(Drop)]
struct Started<'a> {
    host: &'a HostRuntime,
    count: usize,
    place: usize,
    length: usize,
    octet: u8,
}

impl Started<'_> {
    /// The length of the argument at this place, and the octet in it.
    fn word(&self, place: usize) -> (usize, u8) {
        match place == self.place {
            true => (self.length, self.octet),
            false => (1, b'w'),
        }
    }

    /// Whether the arguments are given.
    fn are_given(&self) -> bool {
        let Ok(words) = given_words(self) else {
            return false;
        };
        words.len() == self.count
            && words.iter().enumerate().all(|(place, word)| {
                let (length, octet) = self.word(place);
                word.len() == length && word.as_bytes().iter().all(|&it| it == octet)
            })
    }
}

impl Alloc for Started<'_> {
    type A = Global;

    fn alloc(&self) -> Global {
        self.host.alloc()
    }
}

impl Env for Started<'_> {
    fn arg(&self, place: usize, buffer: &mut [u8]) -> Result<usize, FillError> {
        if self.count <= place {
            return Err(FillError::NotPresent);
        }
        let (length, octet) = self.word(place);
        if buffer.len() < length {
            return Err(FillError::TooLong);
        }
        buffer[..length].fill(octet);
        Ok(length)
    }

    fn var(&self, _name: &str, _buffer: &mut [u8]) -> Result<usize, FillError> {
        Err(FillError::NotPresent)
    }

    fn var_at(&self, _place: usize, _buffer: &mut [u8]) -> Result<usize, FillError> {
        Err(FillError::NotPresent)
    }
}

#[test]
fn each_argument_is_given(rt: HostRuntime) -> Result<(), Fail> {
    for (count, place, length) in [(0, 0, 0), (4, 2, 0), (2_000, 1_999, 131_071)] {
        let started = Started {
            host: &rt,
            count,
            place,
            length,
            octet: b'x',
        };
        assert!(rt; started.are_given(), "{count}");
    }
    Ok(())
}

/// An argument that is not UTF-8 is wrong usage, wherever it is.
#[test]
fn an_argument_that_is_not_text_is_wrong_usage(rt: HostRuntime) -> Result<(), Fail> {
    let told = "error: a word is not UTF-8\n\nUsage: bscline [COMMAND]\n\n\
        For more information, try '--help'.\n";
    for place in [0, 1, 9] {
        let started = Started {
            host: &rt,
            count: 10,
            place,
            length: 1,
            octet: 0xff,
        };
        let Err(fault) = given_words(&started) else {
            return Err("it is text".into());
        };
        assert!(rt; are_told(rt.alloc(), &[fault], 2, told), "{place}");
    }
    Ok(())
}
