//! The work of `bscline feed`, over a station that says what the test has it say.

use bsc_clients::command::FeedError::{Closed, Input, NotOneLine, Output, Refused, TooLong};
use bsc_clients::command::{FeedError, feed};
use bsc_text::MAX_INPUT;
use std::alloc::Global;
use std::io;
use std::io::{ErrorKind, Read, Write};
use std::test::Fail;

/// The words of a session, its input, what the station says before it closes the connection, what
/// is sent to the station, and what is printed, with bars between them; and the result.
type Session = (&'static str, Result<(), FeedError>);

const SESSIONS: &[Session] = &[
    (
        "|status\r\n\n# a line\n\r\r\nstop|to 0.0: offered 0, known 0\nok\nok\n|status\nstop\n|\
        to 0.0: offered 0, known 0\nok\nok\n",
        Ok(()),
    ),
    (
        "offer to 0.1 GOOD DAY|not read\n|ok 3\nmore\n|offer to 0.1 GOOD DAY\n|ok 3\n",
        Ok(()),
    ),
    (
        "offer from 0|A\n\n# B\r\nC|ok 0\nok 1\nok 2\nok 3\n|\
        offer from 0 A\noffer from 0 \noffer from 0 # B\noffer from 0 C\n|ok 0\nok 1\nok 2\nok 3\n",
        Ok(()),
    ),
    (
        "|urgent\nstop\nstatus\n|ok\narrived from 0 1 ok\nfault no such channel\nok\n|\
        urgent\nstop\n|ok\narrived from 0 1 ok\nfault no such channel\n",
        Err(Refused),
    ),
    // A line without its end is not printed.
    (
        "follow from 0 0||ok\narrived from 0 0 HELLO\ndelivered to 0.0 1\narri|follow from 0 0\n|\
        ok\narrived from 0 0 HELLO\ndelivered to 0.0 1\n",
        Ok(()),
    ),
    (
        "|follow from 0\nurgent\n|ok\nok\nfault x\nok\n|follow from 0\nurgent\n|ok\nok\nfault x\n",
        Err(Refused),
    ),
    ("|stop\nstatus\n|ok\nto 0|stop\nstatus\n|ok\n", Err(Closed)),
    ("status\nstop||ok\nok\n||", Err(NotOneLine)),
];

#[test]
fn a_station_is_fed(rt: HostRuntime) -> Result<(), Fail> {
    for (session, due) in SESSIONS {
        assert!(rt; goes(rt.alloc(), FREE, session, *due)?, "{session}");
    }
    Ok(())
}

/// Whether the input, and the connection, fail and do not end, and how many octets the station and
/// the output take before a write to them fails.
type Devices = (bool, bool, usize, usize);

/// Nothing fails.
const FREE: Devices = (false, false, 100, 100);

/// The input fails, the connection does, or the station hears only the beginning of a command.
const UNREAD: Devices = (true, false, 100, 100);

const CUT: Devices = (false, true, 100, 100);

const DEAF: Devices = (false, false, 3, 100);

/// What a station said that hears nothing is printed, which may be why.
const FAULTS: &[(Devices, &str, FeedError)] = &[
    (UNREAD, "|stop\n|ok\nok\n|stop\n|ok\n", Input),
    (CUT, "|stop\nstatus\n|ok\n|stop\nstatus\n|ok\n", Closed),
    (DEAF, "|stop\n||sto|", Closed),
    (DEAF, "|stop\n|ok\n|sto|ok\n", Closed),
    (DEAF, "|stop\n|fault x\n|sto|fault x\n", Refused),
];

/// How many octets the output takes of more that are to be printed.
const UNPRINTED: &[(usize, &str)] = &[
    (0, "|stop\nstatus\n|ok\nok\n|stop\n|"),
    (2, "|stop\nstatus\n|ok\nok\n|stop\n|ok"),
    (3, "|stop\nstatus\n|ok\nok\n|stop\nstatus\n|ok\n"),
    (5, "|stop\nstatus\n|ok\nok\n|stop\nstatus\n|ok\nok"),
];

#[test]
fn a_read_or_a_write_that_fails_is_told(rt: HostRuntime) -> Result<(), Fail> {
    for (devices, session, why) in FAULTS {
        let is_right = goes(rt.alloc(), *devices, session, Err(*why))?;
        assert!(rt; is_right, "{session}");
    }
    for (room, session) in UNPRINTED {
        let devices = (false, false, 100, *room);
        let is_right = goes(rt.alloc(), devices, session, Err(Output))?;
        assert!(rt; is_right, "{session}");
    }
    Ok(())
}

#[test]
fn a_line_that_is_too_long_is_told(rt: HostRuntime) -> Result<(), Fail> {
    let mut session = String::from_str(rt.alloc(), "|")?;
    for _ in 0..MAX_INPUT + 1 {
        session.push_str("x")?;
    }
    session.push_str("|||")?;
    assert!(rt; goes(rt.alloc(), FREE, session.as_str(), Err(TooLong))?);
    Ok(())
}

/// Whether a session goes as it says, if the input and the station give one octet at a time and if
/// they give all at once.
fn goes(
    alloc: Global,
    devices: Devices,
    session: &str,
    due: Result<(), FeedError>,
) -> Result<bool, Fail> {
    Ok(goes_by(alloc, devices, session, due, 1)? && goes_by(alloc, devices, session, due, 4_096)?)
}

/// Whether a session goes as it says, if the input and the station give this many octets at a time.
fn goes_by(
    alloc: Global,
    (input_fails, heard_fails, said_room, out_room): Devices,
    session: &str,
    due: Result<(), FeedError>,
    piece: usize,
) -> Result<bool, Fail> {
    let mut parts = session.split('|');
    let words = words_of(alloc, parts.next().unwrap_or(""))?;
    let mut input = Gives {
        left: parts.next().unwrap_or("").as_bytes(),
        piece,
        fails: input_fails,
    };
    let mut heard = Gives {
        left: parts.next().unwrap_or("").as_bytes(),
        piece,
        fails: heard_fails,
    };
    let mut said = Takes::new(alloc, said_room);
    let mut out = Takes::new(alloc, out_room);
    let result = feed(alloc, &words, &mut input, &mut heard, &mut said, &mut out);
    let is_seen = match result {
        Ok(()) | Err(FeedError::Refused) => out.flushed == out.lines(),
        Err(_) => true,
    };
    let is_said = said.took(parts.next().unwrap_or("").as_bytes());
    let is_printed = out.took(parts.next().unwrap_or("").as_bytes());
    Ok(is_seen && result == due && is_said && is_printed)
}

/// The words of the command.
fn words_of(alloc: Global, words: &str) -> Result<Vec<String>, Fail> {
    let mut given = Vec::new(alloc);
    if words.is_empty() {
        return Ok(given);
    }
    for word in words.split(' ') {
        given.push(String::from_str(alloc, word)?)?;
    }
    Ok(given)
}

/// Gives these octets, at most `piece` at a time, and then ends or fails.
#[derive(Drop)]
struct Gives<'a> {
    left: &'a [u8],
    piece: usize,
    fails: bool,
}

impl Read for Gives<'_> {
    fn read(&mut self, buffer: &mut [u8]) -> io::Result<usize> {
        if self.left.is_empty() && self.fails {
            return Err(io::Error::from(ErrorKind::ConnectionReset));
        }
        let mut piece = self.left;
        if let Some(first) = self.left.get(..self.piece) {
            piece = first;
        }
        let count = piece.read(buffer)?;
        if let Some(rest) = self.left.get(count..) {
            self.left = rest;
        }
        Ok(count)
    }
}

/// Takes this many octets, one at a time, and then fails.
#[derive(Drop)]
struct Takes {
    taken: Vec<u8>,
    room: usize,

    /// How often it was flushed. Each line that is printed is flushed, so that it is seen at once.
    flushed: usize,
}

impl Takes {
    fn new(alloc: Global, room: usize) -> Takes {
        Takes {
            taken: Vec::new(alloc),
            room,
            flushed: 0,
        }
    }

    /// How many lines it has taken.
    fn lines(&self) -> usize {
        let mut count = 0usize;
        'octets: for octet in self.taken.as_slice() {
            if *octet == b'\n' {
                count = count.saturating_add(1);
            }
        }
        count
    }

    /// Whether it has taken these octets.
    fn took(&self, octets: &[u8]) -> bool {
        &self.taken[..] == octets
    }
}

impl Write for Takes {
    fn write(&mut self, octets: &[u8]) -> io::Result<usize> {
        let Some(first) = octets.first() else {
            return Ok(0);
        };
        if self.taken.len() >= self.room || self.taken.push(*first).is_err() {
            return Err(io::Error::from(ErrorKind::BrokenPipe));
        }
        Ok(1)
    }

    fn flush(&mut self) -> io::Result<()> {
        self.flushed = self.flushed.saturating_add(1);
        Ok(())
    }
}
