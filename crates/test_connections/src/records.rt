//! Socket records and cables over streams in memory, and records that arrive in pieces.

ghost use Rattle.std.specs.Prelude.{◌≤◌};

use bsc_carrier::laws::any_pieces;
use bsc_carrier::{Assembler, Cable, CarrierError, DeviceFault, Octets, read_record, write_record};
use std::alloc::{AllocError, Global};
use std::io;
use std::io::{Error, ErrorKind, Read, Write};
use std::test::Fail;

/// A stream in memory, which moves a limited number of octets in each call, counts its calls, and
/// fails at a given one. What is written to it is dropped.
#[derive(Drop)]
struct MemoryStream<'a> {
    /// The octets that are left to read.
    input: &'a [u8],
    /// The greatest number of octets that a call moves.
    step: usize,
    /// The number of reads and writes so far.
    calls: usize,
    /// The number of the call that fails, counted from 1; 0 if none does.
    fails_at: usize,
}

impl<'a> MemoryStream<'a> {
    /// A stream that returns these octets.
    fn new(input: &'a [u8], step: usize, fails_at: usize) -> MemoryStream<'a> {
        MemoryStream {
            input,
            step,
            calls: 0,
            fails_at,
        }
    }

    /// Counts a call, and returns whether it fails.
    fn fails(&mut self) -> bool {
        self.calls = self.calls.wrapping_add(1);
        self.fails_at == self.calls
    }
}

impl Read for MemoryStream<'_> {
    fn read(&mut self, buf: &mut [u8]) -> io::Result<usize> {
        if self.fails() {
            return Err(Error::from(ErrorKind::Interrupted));
        }
        let most = buf.len().min(self.step);
        self.input.read(&mut buf[..most])
    }
}

impl Write for MemoryStream<'_> {
    fn write(&mut self, buf: &[u8]) -> io::Result<usize> {
        if self.fails() {
            return Err(Error::from(ErrorKind::Interrupted));
        }
        Ok(buf.len().min(self.step))
    }

    fn flush(&mut self) -> io::Result<()> {
        Ok(())
    }
}

/// The octets of the positive acknowledgement ACK0.
const ACK0: &[u8] = &[0x16, 0x16, 0x10, 0xb0, 0xff];

/// The record of ACK0.
const RECORD: &[u8] = &[0x00, 0x05, 0x16, 0x16, 0x10, 0xb0, 0xff];

/// Octets of a stream that then ends, and the result of a read from it; true means that ACK0 was
/// read.
const READ: &[(&[u8], Result<bool, CarrierError>)] = &[
    (RECORD, Ok(true)),
    (&[], Ok(false)),
    (&[0x00, 0x00], Err(CarrierError::Length)),
    (&[0x08, 0x01], Err(CarrierError::Length)),
    (&[0x00, 0x05, 0x16, 0x16], Err(CarrierError::Short)),
];

/// Whether a read of these octets has this result, and ACK0 is heard if it is true, else nothing.
fn is_read(octets: &[u8], answer: Result<bool, CarrierError>) -> bool {
    let mut heard = Octets::new();
    let told = read_record(&mut MemoryStream::new(octets, 4096, 0), &mut heard);
    let expected: &[u8] = if answer == Ok(true) { ACK0 } else { &[] };
    told == answer && heard.as_slice() == expected
}

#[test]
fn a_record_is_written_and_read_whole_or_not_at_all(rt: HostRuntime) -> Result<(), Fail> {
    for (octets, answer) in READ {
        assert!(rt; is_read(octets, *answer), "{octets:?}");
    }
    let mut output = Vec::new(rt.alloc());
    write_record(&mut output, ACK0)?;
    assert!(rt; output.as_slice() == RECORD);
    any_pieces();
    Ok(())
}

/// A piece of a stream; the answer to it: how many octets are taken, and whether the last of them
/// completes a record; how many are wanted then; and what the last complete record carries.
type Piece = (
    &'static [u8],
    Result<(usize, bool), CarrierError>,
    usize,
    &'static [u8],
);

/// Streams in pieces. What is not taken of a piece is dropped.
const STREAMS: &[&[Piece]] = &[
    &[
        (&[0x00], Ok((1, false)), 1, &[]),
        (&[0x02, 0x16, 0x04, 0x00], Ok((3, true)), 2, &[0x16, 0x04]),
        (&[0x00], Ok((1, false)), 1, &[0x16, 0x04]),
    ],
    &[
        (&[], Ok((0, false)), 2, &[]),
        (&[0x00], Ok((1, false)), 1, &[]),
        (&[0x05], Ok((1, false)), 5, &[]),
        (&[0x16, 0x16], Ok((2, false)), 3, &[]),
        (&[0x10, 0xb0, 0xff, 0x00], Ok((3, true)), 2, ACK0),
        (&[0x08, 0x01], Err(CarrierError::Length), 0, ACK0),
        (&[0x00], Err(CarrierError::Length), 0, ACK0),
    ],
];

/// Whether the assembler takes the piece so.
fn takes(assembler: &mut Assembler, piece: &Piece) -> bool {
    let (octets, answer, wanted, carried) = *piece;
    assembler.feed(octets) == answer
        && assembler.wanted() == wanted
        && assembler.between() == (wanted == 2)
        && assembler.octets() == carried
}

#[test]
fn pieces_are_taken_up_to_the_end_of_a_record(rt: HostRuntime) {
    for pieces in STREAMS {
        let mut assembler = Assembler::new();
        for (place, piece) in pieces.iter().enumerate() {
            assert!(rt; takes(&mut assembler, piece), "{place}");
        }
    }
}

/// The record of ACK0 three times.
const THREE_RECORDS: &[u8] = &[
    0x00, 0x05, 0x16, 0x16, 0x10, 0xb0, 0xff, 0x00, 0x05, 0x16, 0x16, 0x10, 0xb0, 0xff, 0x00, 0x05,
    0x16, 0x16, 0x10, 0xb0, 0xff,
];

/// Feeds all of a piece that ends at most three records. Returns how many records of ACK0 it
/// completes.
fn completed(assembler: &mut Assembler, piece: &[u8]) -> u32 {
    let mut rest = piece;
    let mut count = 0u32;
    for _ in 0..4u8 {
        let Ok((taken, is_complete)) = assembler.feed(rest) else {
            return 0;
        };
        if is_complete && assembler.octets() == ACK0 {
            count = count.saturating_add(1);
        }
        rest = rest.get(taken..).unwrap_or(&[]);
    }
    count
}

/// How many records of ACK0 the three pieces make into which a stream is cut at these places.
fn completed_of(stream: &[u8], first: usize, second: usize) -> Option<u32> {
    let mut assembler = Assembler::new();
    let mut count = completed(&mut assembler, stream.get(..first)?);
    for piece in [stream.get(first..second)?, stream.get(second..)?] {
        count = count.saturating_add(completed(&mut assembler, piece));
    }
    assembler.between().then_some(count)
}

#[test]
fn three_records_are_the_same_wherever_the_stream_is_cut(rt: HostRuntime) {
    for second in 0..=THREE_RECORDS.len() {
        for first in 0..=second {
            let count = completed_of(THREE_RECORDS, first, second);
            assert!(rt; count == Some(3), "{first}, {second}");
        }
    }
}

/// Whether a record of this many SYN is written and read by these numbers of writes and reads, if
/// each moves this many octets at most.
fn is_moved(length: usize, step: usize, writes: usize, reads: usize) -> bool
    requires least { 1 ≤ length }
    requires most { length ≤ 2048 }
{
    let mut record = [0x16; 2050];
    record[0] = (length / 256) as u8;
    record[1] = (length % 256) as u8;
    let mut sender = MemoryStream::new(&[], step, 0);
    let mut receiver = MemoryStream::new(&record[..length + 2], step, 0);
    let mut heard = Octets::new();
    write_record(&mut sender, &record[2..length + 2]).is_ok()
        && matches!(read_record(&mut receiver, &mut heard), Ok(true))
        && heard.len() == length
        && sender.calls == writes
        && receiver.calls == reads
}

#[test]
fn records_are_moved_by_few_calls(rt: HostRuntime) {
    assert!(rt; is_moved(2048, 1, 2050, 2050));
    assert!(rt; is_moved(2048, 4096, 1, 2) && is_moved(1, 4096, 1, 2));
}

/// Whether a write of ACK0 whose call at this place fails, and a read likewise, return `Device`,
/// and nothing is heard.
fn is_device(place: usize) -> bool {
    let mut heard = Octets::new();
    let wrote = write_record(&mut MemoryStream::new(&[], 1, place), ACK0);
    let answer = read_record(&mut MemoryStream::new(RECORD, 1, place), &mut heard);
    let why = DeviceFault::Other;
    wrote == Err(CarrierError::Device { why })
        && answer == Err(CarrierError::Device { why })
        && heard.is_empty()
}

/// A write that takes no octets is the last.
#[test]
fn device_comes_only_after_a_failed_call(rt: HostRuntime) {
    for place in 1..=7usize {
        assert!(rt; is_device(place), "call {place}");
    }
    let mut stuck = MemoryStream::new(&[], 0, 0);
    assert!(rt; !is_device(8) && write_record(&mut stuck, ACK0).is_err() && stuck.calls == 1);
}

/// A record of one octet, SYN.
const SYN: &[u8] = &[0x00, 0x01, 0x16];

/// A record of another octet, EOT.
const EOT: &[u8] = &[0x00, 0x01, 0x04];

/// What the terminals' ends of two connections return, and the error of a call for all terminals.
/// An error that is due is not replaced by `Device`.
const WRONG: &[(&[u8], &[u8], CarrierError)] = &[
    (SYN, EOT, CarrierError::Unequal),
    (&[], SYN, CarrierError::Short),
    (&[0x00, 0x00], SYN, CarrierError::Length),
    (SYN, &[0x00, 0x02, 0x04], CarrierError::Short),
    (SYN, &[0x08, 0x01], CarrierError::Length),
];

type Answer = Result<(), CarrierError>;

const DEVICE: Answer = Err(CarrierError::Device {
    why: DeviceFault::Other,
});

/// The number of an end and the number of its call that fails. The ends of the first connection are
/// 0 and 1, those of the second 2 and 3, the control station's end first. The first call is 1; 0
/// means that none fails.
type Failing = (usize, usize);

/// The end with this number, which returns these octets, one in each call.
fn end(input: &[u8], place: usize, failing: Failing) -> MemoryStream<'_> {
    let call = if place == failing.0 { failing.1 } else { 0 };
    MemoryStream::new(input, 1, call)
}

/// A cable of two connections, whose control station's ends return SYN, and whose terminals' ends
/// return these octets.
fn cable<'a>(
    alloc: Global,
    first: &'a [u8],
    second: &'a [u8],
    failing: Failing,
) -> Result<Cable<MemoryStream<'a>>, AllocError> {
    let control_ends = [end(SYN, 0, failing), end(SYN, 2, failing)];
    let terminal_ends = [end(first, 1, failing), end(second, 3, failing)];
    let control_ends = Vec::from_array(alloc, control_ends)?;
    let terminal_ends = Vec::from_array(alloc, terminal_ends)?;
    Ok(Cable::new(control_ends, terminal_ends))
}

/// Whether a call for all terminals and then one for the second terminal, each with the octet SYN,
/// have these results. After the first, SYN was heard, or with an error nothing.
fn answers(cable: &mut Cable<MemoryStream<'_>>, down: Answer, up: Answer) -> bool {
    let mut heard = Octets::new();
    if cable.terminals() != 2 || cable.down(&[0x16], &mut heard) != down {
        return false;
    }
    heard.len() == usize::from(down.is_ok()) && cable.up(1, &[0x16], &mut heard) == up
}

/// Whether the error of the first call is that of the second, too.
fn is_told(alloc: Global, first: &[u8], second: &[u8], error: CarrierError) -> bool {
    match cable(alloc, first, second, (0, 0)) {
        Ok(mut cable) => answers(&mut cable, Err(error), Err(error)),
        Err(_) => false,
    }
}

#[test]
fn what_is_read_at_an_end_is_told(rt: HostRuntime) {
    for (first, second, error) in WRONG {
        assert!(rt; is_told(rt.alloc(), first, second, *error), "{error}");
    }
}

/// Whether the calls have the due results if no end returns anything but SYN. Each takes three
/// reads or writes of each end that it uses.
fn is_device_at(alloc: Global, end: usize, call: usize) -> bool {
    let is_in_first = call <= 3;
    let is_in_second = is_in_first || (end >= 2 && call <= 6);
    match cable(alloc, SYN, SYN, (end, call)) {
        Ok(mut cable) => {
            let down = if is_in_first { DEVICE } else { Ok(()) };
            let up = if is_in_second { DEVICE } else { Ok(()) };
            answers(&mut cable, down, up)
        }
        Err(_) => false,
    }
}

/// Each of the first seven calls of each of four ends fails in turn.
#[test]
fn first_failed_call_is_the_error_from_then_on(rt: HostRuntime) {
    for end in 0..4usize {
        for call in 1..=7usize {
            assert!(rt; is_device_at(rt.alloc(), end, call), "{end}, {call}");
        }
    }
}
