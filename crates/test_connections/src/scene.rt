//! What happens at a station and around it, by the words of scripts. Its clock is that of the
//! system, and can be moved.

use crate::calls::{Programs, input};
use crate::meeting::{Machine, Untold, begin, bound, peer, peers};
use crate::waits::wait_goes;
use bsc_connections::{Awaited, Handled, Pace, Waiter};
use bsc_sockets::{ConnectionSettings, Listening, SocketsError};
use std::alloc::Allocator;
use std::io::{ErrorKind, Read, Write};
use std::net::{Net, Shutdown, SocketAddr, TcpStream};
use std::os::fd::AsRawFd;
use std::test::Fail;
use std::time::{Clock, Duration, Instant};

/// A word of a script: what happens, and after colons at which place and with what.
#[derive(Clone, Copy)]
pub(crate) struct Word<'a> {
    /// What happens.
    pub(crate) verb: &'a str,

    /// The number after the first colon; 0 if there is none.
    pub(crate) number: usize,

    /// What stands after the second colon.
    pub(crate) second: &'a str,

    /// What stands after the last colon.
    pub(crate) last: &'a str,
}

impl<'a> Word<'a> {
    /// Reads a word.
    fn read(text: &'a str) -> Word<'a> {
        let (verb, rest) = divided(text);
        let (first, second) = divided(rest);
        Word {
            verb,
            number: number_in(first),
            second,
            last: if second.is_empty() { first } else { second },
        }
    }

    /// What a wait has to return, by the last part of the word.
    pub(crate) fn awaited(&self) -> Option<Awaited> {
        match self.last {
            "octets" => Some(Awaited::Octets { connection: 0 }),
            "octets1" => Some(Awaited::Octets { connection: 1 }),
            "gap" => Some(Awaited::Gap { connection: 0 }),
            "timeout" => Some(Awaited::TimeOut),
            "newcomer" => Some(Awaited::Newcomer),
            "stranger" => Some(Awaited::NotAllowed),
            "stopped" => Some(Awaited::Stopped),
            "call" => Some(Awaited::Client),
            _ => None,
        }
    }
}

/// The text before the first colon, and what stands after it.
fn divided(text: &str) -> (&str, &str) {
    match text.split_once(':') {
        Some((front, rest)) => (front, rest),
        None => (text, ""),
    }
}

/// The number in a text; 0 if it is none.
fn number_in(text: &str) -> usize {
    match text.parse::<usize>() {
        Ok(number) => number,
        Err(_) => 0,
    }
}

/// What is around a station.
#[derive(Drop)]
pub(crate) struct Scene<'a> {
    pub(crate) rt: &'a HostRuntime,
    machine: &'a Machine<'a>,

    /// The address at which the station listens.
    address: SocketAddr,

    /// The first peer, and those that have connected after it.
    first: &'a TcpStream,
    later: Vec<TcpStream>,

    /// The other end of its input.
    input: &'a TcpStream,

    /// The programs that it serves.
    programs: &'a Programs,
}

impl Scene<'_> {
    /// Lets another peer connect, and returns whether it does.
    pub(crate) fn comes(&mut self) -> bool {
        match peer(self.rt, self.address) {
            Ok(peer) => self.later.push(peer).is_ok(),
            Err(_) => false,
        }
    }

    /// A program calls that the station serves.
    pub(crate) fn calls(&self) -> bool {
        self.programs.call()
    }

    /// Lets an hour but for a tenth of a second pass in the next wait, once its pause has begun.
    pub(crate) fn lets_an_hour_pass(&self) {
        self.machine
            .happens_later(Duration::from_millis(3_599_900), None);
    }

    /// The peer with this number.
    fn peer(&self, number: usize) -> Option<&TcpStream> {
        if number == 0 {
            return Some(self.first);
        }
        self.later.get(number - 1)
    }

    /// Whether what a word says of a peer happens: `sends:PEER:OCTETS`; `hears:PEER:OCTETS`, none
    /// at the end of the connection; `ends:PEER`; `empties:PEER`, by which it reads all that has
    /// arrived.
    fn peer_goes(&self, word: &Word<'_>) -> Option<bool> {
        let mut peer = self.peer(word.number)?;
        match word.verb {
            "sends" => Some(peer.write_all(word.second.as_bytes()).is_ok()),
            "hears" => Some(reads(&mut peer, word.second.as_bytes())),
            "ends" => Some(peer.shutdown(Shutdown::Both).is_ok()),
            "empties" => Some(peer.set_nonblocking(true).is_ok() && empties(&mut peer)),
            _ => None,
        }
    }

    /// Whether what a word says happens around the station: `comes`, another peer connects;
    /// `later`, the first peer sends an octet while the next wait goes on; `minutes:NUMBER`, so
    /// many pass; `types`, there is an octet in the input; `closes`, the other end of the input is
    /// closed; `calls`, a program calls.
    fn goes(&mut self, word: &Word<'_>) -> Option<bool> {
        match word.verb {
            "comes" => Some(self.comes()),
            "later" => {
                self.machine.happens_later(Duration::ZERO, Some(b'x'));
                Some(true)
            }
            "minutes" => {
                let seconds = (word.number as u64).saturating_mul(60);
                self.machine.passes(Duration::from_secs(seconds));
                Some(true)
            }
            "types" => {
                let mut input = self.input;
                Some(input.write_all(b"x").is_ok())
            }
            "closes" => Some(self.input.shutdown(Shutdown::Both).is_ok()),
            "calls" => Some(self.calls()),
            _ => self.peer_goes(word),
        }
    }
}

/// Reads until nothing is left, and returns whether that happens.
fn empties<R: Read>(reader: &mut R) -> bool {
    let mut buffer = [0u8; 4_096];
    for _ in 0..100_000u32 {
        if reader.read(&mut buffer).is_err() {
            return true;
        }
    }
    false
}

/// Whether a read of at most four octets gives these; none at the end of the input.
pub(crate) fn reads<R: Read>(reader: &mut R, expected: &[u8]) -> bool {
    let mut buffer = [0u8; 4];
    match reader.read(&mut buffer) {
        Ok(count) => buffer.get(..count) == Some(expected),
        Err(_) => false,
    }
}

/// Whether a read of the connection at this place gives these octets.
pub(crate) fn reads_at<R: Read, W>(
    connections: &mut [(R, W)],
    place: usize,
    expected: &[u8],
) -> bool {
    match connections.get_mut(place) {
        Some((reading, _)) => reads(reading, expected),
        None => false,
    }
}

/// Whether a read of the connection at this place would block.
fn blocks_at<R: Read, W>(connections: &mut [(R, W)], place: usize) -> bool {
    let Some((reading, _)) = connections.get_mut(place) else {
        return false;
    };
    match reading.read(&mut [0u8; 4]) {
        Ok(_) => false,
        Err(error) => error.kind() == ErrorKind::WouldBlock,
    }
}

/// Whether the connection at this place accepts these octets.
pub(crate) fn writes_at<R, W: Write>(
    connections: &mut [(R, W)],
    place: usize,
    octets: &[u8],
) -> bool {
    match connections.get_mut(place) {
        Some((_, writing)) => writing.write_all(octets).is_ok(),
        None => false,
    }
}

/// Writes on the connection at this place until there is no room. Returns whether the last write
/// failed with a time-out after at least 40 milliseconds, and less than four seconds.
fn fills_at<R, W: Write>(
    rt: &HostRuntime,
    connections: &mut [(R, W)],
    place: usize,
) -> Option<bool> {
    let (_, writing) = connections.get_mut(place)?;
    let octets = [0x55; 4_096];
    for _ in 0..100_000u32 {
        let start = Instant::now(rt).ok()?;
        if let Err(error) = writing.write(&octets) {
            let passed = start.elapsed(rt).ok()?.as_millis();
            let is_in_time = 40 <= passed && passed < 4_000;
            return Some(is_in_time && error.kind() == ErrorKind::TimedOut);
        }
    }
    None
}

/// Whether what a word says of a connection happens: `reads:PLACE:OCTETS`, none at the end of the
/// input; `blocks:PLACE`, if a read would block; `writes:PLACE:OCTETS`; `fills:PLACE`.
fn connection_goes<R: Read, W: Write>(
    rt: &HostRuntime,
    connections: &mut [(R, W)],
    word: &Word<'_>,
) -> Option<bool> {
    match word.verb {
        "reads" => Some(reads_at(connections, word.number, word.second.as_bytes())),
        "blocks" => Some(blocks_at(connections, word.number)),
        "writes" => Some(writes_at(connections, word.number, word.second.as_bytes())),
        "fills" => fills_at(rt, connections, word.number),
        _ => None,
    }
}

/// Closes the connection at this place, if there is one.
fn drops<R: Drop, W: Drop, A: Allocator>(connections: &mut Vec<(R, W), A>, place: usize) -> bool {
    let is_there = place < connections.len();
    if is_there {
        drop(connections.remove(place));
    }
    is_there
}

/// Whether the peer that connected takes this place.
fn joins_at<R: Drop, W: Drop, A: Allocator, S: Waiter<R, W>>(
    sockets: &mut S,
    connections: &mut Vec<(R, W), A>,
    place: usize,
) -> bool {
    match sockets.join(place) {
        Some(joined) if place <= connections.len() => connections.insert(place, joined).is_ok(),
        _ => false,
    }
}

/// Tells the station what a word says, and returns whether it is such a word: `silence` and
/// `rests`, a silence was handled, and it goes on at once or after a pause; `answers:PLACE`;
/// `gap`, that of the first connection begins; `clears:PLACE`, nothing is left to read;
/// `refuses`, the peer that connected is turned away.
fn is_told<R, W, S: Waiter<R, W>>(sockets: &mut S, word: &Word<'_>) -> bool {
    let connection = word.number;
    match word.verb {
        "silence" => sockets.handled(Handled::Silence, Pace::AtOnce),
        "rests" => sockets.handled(Handled::Silence, Pace::AfterPause),
        "answers" => sockets.handled(Handled::Answered { connection }, Pace::AtOnce),
        "gap" => sockets.begin_gap(0),
        "clears" => sockets.nothing_left(connection),
        "refuses" => sockets.turn_away(),
        _ => return false,
    }
    true
}

/// Whether what a word says of the station happens: `drops:PLACE` closes a connection;
/// `joins:PLACE`, the peer that connected takes this place; `lacks:PLACE`, there is none that may;
/// `may` and `late`, what is sent now is in time or not.
fn station_goes<R: Drop, W: Drop, A: Allocator, S: Waiter<R, W>>(
    sockets: &mut S,
    connections: &mut Vec<(R, W), A>,
    word: &Word<'_>,
) -> bool {
    match word.verb {
        "drops" => drops(connections, word.number),
        "joins" => joins_at(sockets, connections, word.number),
        "lacks" => !joins_at(sockets, connections, word.number),
        "may" => sockets.may_send(),
        "late" => !sockets.may_send(),
        _ => is_told(sockets, word),
    }
}

/// Whether what a word says happens.
fn goes<R: Read + Drop, W: Write + Drop, A: Allocator, S: Waiter<R, W>>(
    scene: &mut Scene<'_>,
    sockets: &mut S,
    connections: &mut Vec<(R, W), A>,
    word: &Word<'_>,
) -> bool {
    if let Some(goes) = connection_goes(scene.rt, connections, word) {
        return goes;
    }
    if let Some(goes) = wait_goes(scene, sockets, word) {
        return goes;
    }
    match scene.goes(word) {
        Some(goes) => goes,
        None => station_goes(sockets, connections, word),
    }
}

/// The place of the first word of a script that does not happen, if there is one.
fn first_wrong<R: Read + Drop, W: Write + Drop, A: Allocator, S: Waiter<R, W>>(
    scene: &mut Scene<'_>,
    sockets: &mut S,
    connections: &mut Vec<(R, W), A>,
    script: &str,
) -> Option<usize> {
    let mut place = 0usize;
    for word in script.split(' ') {
        if !goes(scene, sockets, connections, &Word::read(word)) {
            return Some(place);
        }
        place = place.saturating_add(1);
    }
    None
}

/// The same at a station with these settings on this machine, that waits for this many peers first.
fn first_wrong_at<N: Net + Clock>(
    machine: &N,
    listening: Listening,
    (count, settings): (usize, ConnectionSettings),
    scene: &mut Scene<'_>,
    script: &str,
) -> Result<Option<usize>, SocketsError> {
    let (alloc, wanted) = (scene.rt.alloc(), peers(count));
    let mut begun = begin(machine, alloc, listening, wanted, settings, &mut Untold)?;
    let begun = &mut *begun;
    Ok(first_wrong(scene, &mut begun.sockets, &mut begun.connections, script))
}

/// What a station watches beside its peers: an input that asks it to end; the programs that it
/// serves; or, in place of standard output, these, beside programs that never call.
#[derive(Clone, Copy)]
pub(crate) enum Besides {
    Nothing,
    Input,
    Programs,
    Output,
}

/// Plays a script at a new station with these settings, which waits for this many peers, with the
/// other end of its input and the programs that it serves.
fn play_with(
    rt: &HostRuntime,
    wanted: (usize, ConnectionSettings),
    (input, programs): (&TcpStream, &Programs),
    script: &str,
) -> Result<(), Fail> {
    let (listening, address) = bound(rt)?;
    let first = peer(rt, address)?;
    let machine = Machine::with_far(rt, &first, &[]);
    let mut scene = Scene {
        rt,
        machine: &machine,
        address,
        first: &first,
        later: Vec::new(rt.alloc()),
        input,
        programs,
    };
    for _ in 1..wanted.0 {
        scene.comes();
    }
    match first_wrong_at(&machine, listening, wanted, &mut scene, script)? {
        Some(place) => Err(Fail::new(format_args!("word {place} of {script}"))),
        None => Ok(()),
    }
}

/// Plays a script at a new station with these settings, which waits for this many peers. The first
/// one connects in any case.
pub(crate) fn play(
    rt: &HostRuntime,
    (count, settings): (usize, ConnectionSettings),
    besides: Besides,
    script: &str,
) -> Result<(), Fail> {
    let (own, other) = input(rt)?;
    let programs = Programs::new(rt)?;
    let mut settings = settings;
    match besides {
        Besides::Nothing => {}
        Besides::Input => settings.stops_with = Some(own.as_raw_fd()),
        Besides::Programs => settings.serves = Some(programs.descriptor()),
        Besides::Output => {
            settings.serves = Some(own.as_raw_fd());
            settings.prints = Some(programs.descriptor());
        }
    }
    play_with(rt, (count, settings), (&other, &programs), script)
}
