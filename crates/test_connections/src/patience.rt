//! How a station waits for its peers, how long, and what is reported meanwhile; and peers and
//! newcomers at each of as many places as there may be.

use crate::beginning::has_passed;
use crate::calls::input;
use crate::meeting::{
    MOST, Machine, QUIET, Times, allowed, begin, bound, passes, peer, peers, peers_of, settings,
};
use crate::scene::{reads, reads_at, writes_at};
use bsc_connections::{Awaited, Waiter};
use bsc_sockets::{ConnectionSettings, Listening, Peers, Reception, SocketsError};
use std::alloc::Global;
use std::io::{Read, Write};
use std::net::{SocketAddr, TcpStream};
use std::os::fd::AsRawFd;
use std::test::Fail;
use std::time::{Duration, Instant};

/// Records what is reported, a word for each report with its numbers, and lets something happen
/// with each of them.
#[derive(Drop)]
struct Reports<'a> {
    machine: &'a Machine<'a>,
    address: SocketAddr,

    /// The peers that have connected, in order.
    far: Vec<TcpStream>,

    /// The letters of what happens with each report that is still to come: `c`, another peer
    /// connects after 5 milliseconds; `l`, all that are there leave, and another one connects; `h`,
    /// 300 milliseconds pass; `j`, the clock moves on by an hour but for a tenth of a second; `-`,
    /// nothing.
    script: &'static [u8],

    /// What was reported.
    told: String,
}

impl<'a> Reports<'a> {
    /// Nothing is reported yet of a station at this address.
    fn new(
        machine: &'a Machine<'a>,
        address: SocketAddr,
        far: Vec<TcpStream>,
        script: &'static [u8],
    ) -> Reports<'a> {
        Reports {
            machine,
            address,
            far,
            script,
            told: String::new(machine.rt.alloc()),
        }
    }

    /// Another peer connects.
    fn connects(&mut self) {
        if let Ok(next) = peer(self.machine.rt, self.address) {
            let _ = self.far.push(next);
        }
    }

    /// Lets happen what is next in the script.
    fn happens(&mut self) {
        let Some((&next, rest)) = self.script.split_first() else {
            return;
        };
        self.script = rest;
        match next {
            b'c' => {
                passes(self.machine.rt, 5);
                self.connects();
            }
            b'l' => {
                self.far.clear();
                self.connects();
            }
            b'h' => {
                passes(self.machine.rt, 300);
            }
            b'j' => self.machine.passes(Duration::from_millis(3_599_900)),
            _ => {}
        }
    }

    /// Returns the number of the peer with this address, by the order in which they connected.
    fn number_of(&self, peer: Option<SocketAddr>) -> usize {
        for (number, far) in self.far.iter().enumerate() {
            if far.local_addr().ok() == peer {
                return number;
            }
        }
        99
    }
}

impl Reception for Reports<'_> {
    fn listens(&mut self, address: SocketAddr) {
        if address == self.address {
            let _ = write!(self.told, "listens; ");
        }
        self.happens();
    }

    fn waits(&mut self, connected: usize, wanted: usize) {
        let _ = write!(self.told, "waits {connected} {wanted}; ");
        self.happens();
    }

    fn joined(&mut self, place: usize, peer: SocketAddr) {
        let number = self.number_of(Some(peer));
        let _ = write!(self.told, "joined {place} {number}; ");
        self.happens();
    }

    fn left(&mut self, place: usize, peer: Option<SocketAddr>) {
        let is_named = peer.is_some();
        let _ = write!(self.told, "left {place} {is_named}; ");
        self.happens();
    }

    fn refused(&mut self, peer: SocketAddr) {
        let number = self.number_of(Some(peer));
        let _ = write!(self.told, "refused {number}; ");
        self.happens();
    }
}

/// How a station waits: for how many peers, and how many connect before that, from 127.0.0.1; how
/// many milliseconds it is patient; which addresses may connect; what happens meanwhile, as
/// `Reports` has it; after how many milliseconds at least it ends; why; and what is reported first.
type Case = (
    (usize, usize),
    u64,
    &'static str,
    &'static [u8],
    u128,
    SocketsError,
    &'static str,
);

const HOUR: u64 = 3_600_000;

const CASES: &[Case] = &[
    // The patience begins anew for each peer.
    (
        (2, 1),
        200,
        "127.0.0.1",
        b"---h",
        500,
        SocketsError::NobodyConnected,
        "listens; waits 0 2; joined 0 0; waits 1 2; ",
    ),
    // An hour of patience is an hour, of which a tenth of a second is left.
    (
        (1, 1),
        HOUR,
        "127.0.0.2",
        b"--j",
        100,
        SocketsError::NobodyConnected,
        "listens; waits 0 1; refused 0; ",
    ),
    // Peers that are refused use up the patience, however often another one comes.
    (
        (1, 1),
        60,
        "127.0.0.2/32",
        b"--cccccccccccccccccccccccccccccccccccccccccccc",
        60,
        SocketsError::NobodyConnected,
        "listens; waits 0 1; refused 0; refused 1; ",
    ),
    // They do not hide that the station is asked to end.
    (
        (1, 40),
        HOUR,
        "127.0.0.2",
        b"",
        0,
        SocketsError::Stopped,
        "listens; waits 0 1; ",
    ),
];

/// The number of connections of a station that waits for these peers, or why it ends.
fn connections_of(
    machine: &Machine<'_>,
    listening: Listening,
    wanted: Peers,
    settings: ConnectionSettings,
    reports: &mut Reports<'_>,
) -> Result<usize, SocketsError> {
    let begun = begin(
        machine,
        machine.rt.alloc(),
        listening,
        wanted,
        settings,
        reports,
    )?;
    Ok(begun.connections.len())
}

/// Whether a station with these settings waits as the case says.
fn waits(rt: &HostRuntime, case: &Case, settings: ConnectionSettings) -> Result<bool, Fail> {
    let ((wanted, come), patience, _, script, least, why, told) = *case;
    let wanted = Peers {
        patience: Duration::from_millis(patience),
        ..peers(wanted)
    };
    let (listening, address) = bound(rt)?;
    let machine = Machine::new(rt, &[]);
    let far = peers_of(rt, rt.alloc(), address, come)?;
    let mut reports = Reports::new(&machine, address, far, script);
    let start = Instant::now(rt)?;
    let ended = connections_of(&machine, listening, wanted, settings, &mut reports);
    has_passed(rt, start, least)?;
    let told_all = reports.told.as_str();
    Ok(ended == Err(why) && told_all.starts_with(told) && !told_all.contains("refused 39; "))
}

/// Whether a station waits as the case says. Its input has ended, and it ends with it if that is
/// due.
fn goes(rt: &HostRuntime, case: &Case) -> Result<bool, Fail> {
    let mut settings = settings();
    settings.allowed = allowed(case.2)?;
    let (input, other) = input(rt)?;
    drop(other);
    if case.5 == SocketsError::Stopped {
        settings.stops_with = Some(input.as_raw_fd());
    }
    waits(rt, case, settings)
}

#[test]
fn a_station_waits_as_long_as_it_is_patient(rt: HostRuntime) -> Result<(), Fail> {
    for case in CASES {
        if !goes(&rt, case)? {
            return Err(Fail::new(case.6));
        }
    }
    Ok(())
}

/// The number of peers for which a station with two places waits, the number of connections with
/// which it begins, and what is reported if two peers connect.
const FIRST: &[(usize, usize, &str)] = &[
    (0, 0, "listens; "),
    (1, 1, "listens; waits 0 1; joined 0 0; "),
    (
        3,
        2,
        "listens; waits 0 2; joined 0 0; waits 1 2; joined 1 1; ",
    ),
];

/// Whether a station that waits for this many peers begins with these connections, and reports
/// this.
fn begins(rt: &HostRuntime, (begin_with, count, told): (usize, usize, &str)) -> Result<bool, Fail> {
    let wanted = Peers {
        begin_with,
        ..peers(2)
    };
    let mut settings = settings();
    settings.allowed = allowed("127.0.0.1")?;
    let (listening, address) = bound(rt)?;
    let machine = Machine::new(rt, &[]);
    let far = peers_of(rt, rt.alloc(), address, 2)?;
    let mut reports = Reports::new(&machine, address, far, b"");
    let begun = connections_of(&machine, listening, wanted, settings, &mut reports);
    Ok(begun == Ok(count) && reports.told.as_str() == told)
}

#[test]
fn a_station_begins_with_those_that_it_waits_for(rt: HostRuntime) -> Result<(), Fail> {
    for case in FIRST {
        assert!(rt; begins(&rt, *case)?, "{}", case.2);
    }
    Ok(())
}

/// What is reported if of two peers the first goes before the second connects: another peer is
/// waited for, and takes the place.
const ANEW: &str = "listens; waits 0 2; joined 0 0; waits 1 2; joined 1 0; left 0 true; waits 1 2; \
    joined 0 1; ";

#[test]
fn a_peer_that_has_gone_is_waited_for_anew(rt: HostRuntime) -> Result<(), Fail> {
    let mut settings = settings();
    settings.allowed = allowed("127.0.0.1")?;
    let two = Peers {
        keeps_listening: false,
        ..peers(2)
    };
    let (listening, address) = bound(&rt)?;
    let machine = Machine::new(&rt, &[]);
    let far = peers_of(&rt, rt.alloc(), address, 1)?;
    let mut reports = Reports::new(&machine, address, far, b"--l--c");
    let connections = connections_of(&machine, listening, two, settings, &mut reports);
    assert!(rt; connections == Ok(2) && reports.told.as_str() == ANEW);
    Ok(())
}

/// Whether the peer of a place is named there, what it sends is heard, a gap ends after that, and
/// what the station sends arrives at the peer.
fn is_at<R: Read, W: Write, S: Waiter<R, W>>(
    sockets: &mut S,
    connections: &mut [(R, W)],
    place: usize,
    peer: &mut TcpStream,
) -> Result<bool, Fail> {
    let is_named = sockets.peer(place) == Some(peer.local_addr()?);
    peer.write_all(b"here")?;
    let is_told = sockets.wait(true)? == Awaited::Octets { connection: place };
    let is_read = reads_at(connections, place, b"here");
    sockets.nothing_left(place);
    sockets.begin_gap(place);
    let gap = sockets.wait(true)? == Awaited::Gap { connection: place };
    let is_written = writes_at(connections, place, b"too") && reads(peer, b"too");
    Ok(is_named && is_told && is_read && gap && is_written)
}

/// Whether this peer, which has connected, is told of and takes this place.
fn takes<R: Read + Drop, W: Write + Drop, S: Waiter<R, W>>(
    sockets: &mut S,
    connections: &mut Vec<(R, W)>,
    place: usize,
    newcomer: &mut TcpStream,
) -> Result<bool, Fail> {
    if sockets.wait(true)? != Awaited::Newcomer || place >= connections.len() {
        return Ok(false);
    }
    let Some(joined) = sockets.join(place) else {
        return Ok(false);
    };
    drop(connections.remove(place));
    connections.insert(place, joined)?;
    is_at(sockets, connections, place, newcomer)
}

/// The number of places, from the first one on, at which a peer is heard and answered, and then a
/// newcomer that takes the place.
fn taken<R: Read + Drop, W: Write + Drop, S: Waiter<R, W>>(
    rt: &HostRuntime,
    (address, far): (SocketAddr, &mut [TcpStream]),
    sockets: &mut S,
    connections: &mut Vec<(R, W)>,
) -> Result<usize, Fail> {
    let mut newcomers = Vec::new(rt.alloc());
    for first in far.iter_mut() {
        let place = newcomers.len();
        if !is_at(sockets, connections, place, first)? {
            break;
        }
        let mut newcomer = peer(rt, address)?;
        if !takes(sockets, connections, place, &mut newcomer)? {
            break;
        }
        newcomers.push(newcomer)?;
    }
    Ok(newcomers.len())
}

/// What has to be reported of this many peers, which join one after another.
fn due_of(alloc: Global, count: usize) -> Result<String, Fail> {
    let mut due = String::from_str(alloc, "listens; ")?;
    for number in 0..count {
        write!(due, "waits {number} {count}; joined {number} {number}; ")?;
    }
    Ok(due)
}

/// The number of places that newcomers take at a station at which as many peers as there may be
/// have connected.
fn taken_at(
    rt: &HostRuntime,
    (listening, address): (Listening, SocketAddr),
    reports: &mut Reports<'_>,
) -> Result<usize, Fail> {
    let set = Times { gap: 2, ..QUIET }.settings();
    let mut begun = begin(rt, rt.alloc(), listening, peers(MOST), set, reports)?;
    let begun = &mut *begun;
    let peers = (address, reports.far.as_mut_slice());
    taken(rt, peers, &mut begun.sockets, &mut begun.connections)
}

#[test]
fn newcomers_take_each_of_64_places(rt: HostRuntime) -> Result<(), Fail> {
    let due = due_of(rt.alloc(), MOST)?;
    let (listening, address) = bound(&rt)?;
    let machine = Machine::new(&rt, &[]);
    let far = peers_of(&rt, rt.alloc(), address, MOST)?;
    let mut reports = Reports::new(&machine, address, far, b"");
    let taken = taken_at(&rt, (listening, address), &mut reports)?;
    assert!(rt; taken == MOST && reports.told.as_str() == due.as_str());
    Ok(())
}
