//! The state of a line after a workload, as a line of text that is the same here and in
//! bench/line_plain.

ghost use Rattle.std.specs.Prelude.{◌<◌};
ghost use Rattle.bsc_line_model.specs.Line.{IsChannel, terminal_count};

use bsc_bid::Speaker;
use bsc_block::RecordError;
use bsc_control::Way;
use bsc_frame::{Wire, encode};
use bsc_line::{Line, LineError, Transmission};
use std::alloc::Global;
use std::io;
use std::io::Write;

/// A digest of numbers and octets.
#[derive(Clone, Copy)]
pub struct Digest {
    sum: u64,
}

impl Digest {
    pub fn new() -> Digest {
        Digest {
            sum: 0xcbf2_9ce4_8422_2325,
        }
    }

    pub fn number(&mut self, number: usize) {
        self.sum = (self.sum ^ number as u64).wrapping_mul(0x0000_0100_0000_01b3);
        self.sum ^= self.sum >> 32;
    }

    pub fn octets(&mut self, octets: &[u8]) {
        self.number(octets.len());
        for octet in octets {
            self.number(usize::from(*octet));
        }
    }

    /// Adds the answer to an event, and what is pending after it.
    pub fn event(&mut self, answer: Result<(), LineError>, line: &Line<Global>) {
        self.number(code(answer));
        match line.pending() {
            None => self.number(0),
            Some(sent) => self.transmission(&sent),
        }
        self.number(usize::from(line.trusted()));
    }

    /// Adds the sender of a transmission, and its octets.
    fn transmission(&mut self, sent: &Transmission<'_>) {
        let mut octets = Wire::new();
        encode(&sent.message, &mut octets);
        self.number(speaker_code(sent.speaker));
        self.octets(octets.as_slice());
    }
}

/// A number for each station.
fn speaker_code(speaker: Speaker) -> usize {
    match speaker {
        Speaker::Control => 1,
        Speaker::Terminal { number } => number.wrapping_add(2),
    }
}

/// A number for each answer.
fn code(answer: Result<(), LineError>) -> usize {
    match answer {
        Ok(()) => 0,
        Err(LineError::NothingSent) => 1,
        Err(LineError::NotControl) => 2,
        Err(LineError::WrongCount) => 3,
        Err(LineError::Pending) => 4,
        Err(LineError::NoSuchTerminal) => 5,
        Err(LineError::NoSuchAddress) => 6,
        Err(LineError::Memory) => 7,
        Err(LineError::NotInDoubt) => 8,
        Err(LineError::CountMismatch) => 9,
        Err(LineError::BadRecord(RecordError::TooLong)) => 10,
        Err(LineError::BadRecord(RecordError::NotText(place))) => place.wrapping_add(11),
    }
}

/// Totals over all channels.
#[derive(Drop)]
struct Left {
    digest: Digest,
    offered: usize,
    known: usize,
    spooled: usize,
    doubts: usize,
}

impl Left {
    /// The totals of this line, with the digest of the events before.
    fn on(line: &Line<Global>, digest: Digest) -> Left {
        let mut left = Left {
            digest,
            offered: 0,
            known: 0,
            spooled: 0,
            doubts: 0,
        };
        for terminal in 0..line.terminals() {
            left.terminal(line, terminal);
        }
        left
    }

    fn terminal(&mut self, line: &Line<Global>, terminal: usize)
        requires { terminal < terminal_count line.now }
    {
        self.channel(line, terminal, Way::FromTerminal);
        for select in 0..line.addresses(terminal) {
            self.channel(line, terminal, Way::ToTerminal(select));
        }
    }

    fn channel(&mut self, line: &Line<Global>, terminal: usize, way: Way)
        requires { IsChannel line.now terminal way }
    {
        let known = line.known(terminal, way);
        let in_doubt = line.in_doubt(terminal, way);
        let offered = line.offered(terminal, way).len();
        let spooled = line.spooled(terminal, way);
        self.digest.number(offered);
        self.digest.number(known);
        self.digest.number(usize::from(in_doubt));
        self.digest.number(spooled.len());
        for place in 0..spooled.len() {
            self.digest.octets(spooled.chars(place));
        }
        self.offered = self.offered.wrapping_add(offered);
        self.known = self.known.wrapping_add(known);
        self.spooled = self.spooled.wrapping_add(spooled.len());
        self.doubts = self.doubts.wrapping_add(usize::from(in_doubt));
    }
}

/// Prints the totals of the line, with the digest of the events before.
pub fn print<W: Write>(out: &mut W, digest: Digest, line: &Line<Global>) -> io::Result<()> {
    let left = Left::on(line, digest);
    let (offered, known, spooled, doubts) = (left.offered, left.known, left.spooled, left.doubts);
    let trust = if line.trusted() { "" } else { "not " };
    let sum = left.digest.sum;
    writeln!(
        out,
        "offered {offered}, known {known}, spooled {spooled}, in doubt {doubts}, \
         {trust}trusted, {sum:016x}"
    )
}
