//! How the machine connects to a peer, and how long it tries; and its cables.

use crate::fake::{Fake, NO_FILE};
use bsc_attending::{Network, Wanted};
use bsc_machine::{Peer, Streams, connect_within};
use bsc_options::Place;
use bsc_run::Cables;
use bsc_sockets::SocketsError;
use bsc_trust::Networks;
use std::cell::RefCell;
use std::fs::File;
use std::net::{Net, TcpListener};
use std::rt::{Files, HostRuntime};
use std::test::Fail;
use std::time::{Clock, Duration};

/// The connections of a terminal at this place.
pub(crate) fn wanted(place: Place<'_>) -> Wanted<'_> {
    Wanted {
        place,
        connections: 1,
        begin_with: 1,
        raw: false,
        allowed: Networks::new(),
        stops: false,
        serves: None,
        prints: None,
        stays: false,
        begins: false,
        skips: false,
        time_out: 1_000,
        gap: 50,
        patience: 400,
        replace_after: 3_000,
        pause: 20,
        line_time_out: 1_000,
        trace: false,
    }
}

/// How many connections a machine makes as it is asked to.
pub(crate) fn opened<R: AllocGlobal + Clock + Eprint + Files<File = File> + Net>(
    runtime: &R,
    wanted: &Wanted<'_>,
) -> Result<usize, SocketsError> {
    let streams = Streams::new(false);
    let opened = streams.machine(runtime).open(wanted)?;
    Ok(opened.connections.len())
}

/// Whether an attempt to connect to this address comes to this after this many milliseconds.
fn comes_to(fake: &Fake<'_>, address: &str, due: Result<usize, SocketsError>, time: u64) -> bool {
    opened(fake, &wanted(Place::Connect { address })) == due && fake.time.get() == time
}

/// A station connects at once to a peer that listens. If nobody does, it gives up when its patience
/// has passed, and not before.
#[test]
fn a_station_connects_to_the_peer_at_its_address(rt: HostRuntime) -> Result<(), Fail> {
    let listener = TcpListener::bind(&rt, "127.0.0.3:0")?;
    let port = listener.local_addr()?.port();
    let text = format!(in rt.alloc(); "127.0.0.3:{port}")?;
    let fake = Fake::new(&rt, NO_FILE);
    assert!(rt; comes_to(&fake, &text, Ok(1), 0) && listener.accept().is_ok());
    drop(listener);
    assert!(rt; comes_to(&fake, &text, Err(SocketsError::NobodyThere), 400));
    assert!(rt; comes_to(&fake, "127.0.0.3", Err(SocketsError::Address), 400));
    assert!(rt; fake.has_told(""));
    Ok(())
}

/// A peer at which nobody is for some attempts, each of which takes this many milliseconds, and
/// that then answers. It keeps the time of each attempt, and how long it may wait.
#[derive(Drop)]
struct Late<'a> {
    fake: &'a Fake<'a>,
    takes: u64,
    misses: usize,
    answer: Result<&'static str, SocketsError>,
    tried: RefCell<Vec<(u64, u128)>>,
}

impl Late<'_> {
    /// Keeps an attempt, and returns how many there were before.
    fn keep(&self, patience: Duration) -> Option<usize> {
        let mut tried = self.tried.try_borrow_mut().ok()?;
        let before = tried.len();
        let attempt = (self.fake.time.get(), patience.as_millis());
        tried.push(attempt).ok()?;
        Some(before)
    }

    /// Whether these are the attempts.
    fn has_tried(&self, attempts: &[(u64, u128)]) -> bool {
        match self.tried.try_borrow() {
            Ok(tried) => tried.as_slice() == attempts,
            Err(_) => false,
        }
    }
}

impl Peer for Late<'_> {
    type Connection = &'static str;

    ghost gives = { λ _ _. Unit {0} };

    fn connect(&self, patience: Duration) -> Result<&'static str, SocketsError> {
        let Some(before) = self.keep(patience) else {
            return Err(SocketsError::Memory);
        };
        self.fake.sleep(Duration::from_millis(self.takes));
        if before < self.misses {
            return Err(SocketsError::NobodyThere);
        }
        self.answer
    }
}

/// How many milliseconds each attempt of a station with a patience of 350 takes, at how many nobody
/// is there, whether the station meets its peer, and when each begins and how long it may wait.
type Attempts = (u64, usize, bool, &'static [(u64, u128)]);

/// Five attempts, of which the last one begins when the patience ends.
const FIVE: &[(u64, u128)] = &[(0, 350), (100, 350), (200, 250), (300, 150), (350, 50)];

const ATTEMPTS: &[Attempts] = &[
    (0, 0, true, &[(0, 350)]),
    (0, 4, true, FIVE),
    (0, 5, false, FIVE),
    (120, 5, false, &[(0, 350), (220, 230), (350, 10)]),
    (351, 1, false, &[(0, 350)]),
];

/// Returns a peer at which each attempt takes this long, and that answers after these misses.
fn peer_after<'a>(fake: &'a Fake<'a>, takes: u64, misses: usize) -> Late<'a> {
    Late {
        fake,
        takes,
        misses,
        answer: Ok("there"),
        tried: RefCell::new(Vec::new(fake.alloc())),
    }
}

/// What the attempts come to.
fn met(fake: &Fake<'_>, peer: &Late<'_>) -> Result<&'static str, SocketsError> {
    connect_within(fake, Duration::from_millis(350), peer)
}

/// Whether a station makes these attempts, and they come to what they say.
fn are_made(host: &HostRuntime, attempts: &Attempts) -> bool {
    let (takes, misses, is_met, tried) = attempts;
    let fake = Fake::new(host, NO_FILE);
    let peer = peer_after(&fake, *takes, *misses);
    let due = match *is_met {
        true => Ok("there"),
        false => Err(SocketsError::NobodyThere),
    };
    met(&fake, &peer) == due && peer.has_tried(tried)
}

/// Whether a station tries 36,000 times in an hour.
fn is_met_in_an_hour(host: &HostRuntime) -> bool {
    let fake = Fake::new(host, NO_FILE);
    let peer = peer_after(&fake, 0, 35_999);
    connect_within(&fake, Duration::from_secs(3_600), &peer) == Ok("there")
}

#[test]
fn a_station_tries_until_its_patience_ends(rt: HostRuntime) -> Result<(), Fail> {
    for (place, attempts) in ATTEMPTS.iter().enumerate() {
        assert!(rt; are_made(&rt, attempts), "{place}");
    }
    assert!(rt; is_met_in_an_hour(&rt));
    Ok(())
}

/// Another error than that nobody is there ends the attempts, and so does a clock that cannot be
/// read.
#[test]
fn a_station_tries_no_more_after_an_error(rt: HostRuntime) -> Result<(), Fail> {
    let fake = Fake::new(&rt, NO_FILE);
    let mut peer = peer_after(&fake, 0, 1);
    peer.answer = Err(SocketsError::CannotWatchInput);
    assert!(rt; met(&fake, &peer) == Err(SocketsError::CannotWatchInput));
    assert!(rt; peer.has_tried(&[(0, 350), (100, 350)]));
    fake.ticks.set(false);
    let peer = peer_after(&fake, 0, 0);
    assert!(rt; met(&fake, &peer) == Err(SocketsError::Sockets) && peer.has_tried(&[]));
    Ok(())
}

/// A cable has as many connections as are asked for, up to 64.
#[test]
fn a_cable_has_its_connections(rt: HostRuntime) -> Result<(), Fail> {
    let (fake, streams) = (Fake::new(&rt, NO_FILE), Streams::new(false));
    let mut machine = streams.machine(&fake);
    for count in [1, 64] {
        assert!(rt; matches!(&machine.connect(count), Ok(cable) if cable.terminals() == count));
    }
    Ok(())
}
