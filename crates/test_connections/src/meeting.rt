//! A station that listens, and the peers that connected to it, on a machine with a clock that a
//! test moves, and with a host that has the addresses that a test names.

use bsc_sockets::{
    Begun, ConnectionSettings, Listening, Peers, Reception, SocketsError, connect, listen,
};
use bsc_trust::{Network, NetworkError, Networks};
use std::alloc::{Allocator, Global};
use std::cell::Cell;
use std::io;
use std::io::{Read, Write};
use std::net::{Net, SocketAddr, TcpListener, TcpStream};
use std::test::Fail;
use std::time::{Clock, Duration, Instant};

/// What happens in a later reading of the clock: the number of that reading, 1 for the next one;
/// how far the clock moves on before it; and the octet that the peer sends, if it sends one.
type Due = (u32, Duration, Option<u8>);

/// What the far end of a connection has read: the number of readings of the clock meanwhile, the
/// number of octets, and whether they are those that it has to read.
type HasRead = (u32, usize, bool);

/// A machine with a clock that a test moves, and with a host. What happens while a station waits
/// happens when the station reads the clock.
#[derive(Drop)]
pub(crate) struct Machine<'a> {
    pub(crate) rt: &'a HostRuntime,

    /// The addresses of every host, whatever its port is.
    host: &'a [SocketAddr],

    /// The far end of a connection.
    far: Option<&'a TcpStream>,

    /// How far the clock is ahead of that of the system.
    ahead: Cell<Duration>,

    /// What happens in a later reading of the clock.
    due: Cell<Option<Due>>,

    /// What the far end has read. It reads all that has arrived whenever the clock is read.
    read: Cell<HasRead>,

    /// More than 4,346 octets of those that the far end has to read, which come again after 251, if
    /// it reads.
    octets: &'a [u8],
}

impl<'a> Machine<'a> {
    /// A machine whose clock is that of the system, with a host of these addresses.
    pub(crate) fn new(rt: &'a HostRuntime, host: &'a [SocketAddr]) -> Machine<'a> {
        Machine {
            rt,
            host,
            far: None,
            ahead: Cell::new(Duration::ZERO),
            due: Cell::new(None),
            read: Cell::new((0, 0, true)),
            octets: &[],
        }
    }

    /// The same with this far end of a connection, which reads these octets, again and again, if
    /// there are any.
    pub(crate) fn with_far(
        rt: &'a HostRuntime,
        far: &'a TcpStream,
        octets: &'a [u8],
    ) -> Machine<'a> {
        Machine {
            far: Some(far),
            octets,
            ..Machine::new(rt, &[])
        }
    }

    /// Moves the clock on.
    pub(crate) fn passes(&self, time: Duration) {
        self.ahead.set(self.ahead.get().saturating_add(time));
    }

    /// Moves the clock on and has the peer send this octet when it is read after the next time.
    pub(crate) fn happens_later(&self, time: Duration, octet: Option<u8>) {
        self.due.set(Some((2, time, octet)));
    }

    /// What the far end has read by now.
    pub(crate) fn has_read(&self) -> HasRead {
        self.read.get()
    }

    /// Counts a reading, and lets happen what is due.
    fn happens(&self) {
        let Some((readings, time, octet)) = self.due.get() else {
            return;
        };
        if readings > 1 {
            self.due.set(Some((readings - 1, time, octet)));
            return;
        }
        self.due.set(None);
        self.passes(time);
        if let (Some(mut far), Some(octet)) = (self.far, octet) {
            let _ = far.write_all(&[octet]);
        }
    }

    /// Lets the far end read all that has arrived, if it reads.
    pub(crate) fn empties(&self) {
        let Some(mut far) = self.far else {
            return;
        };
        let (readings, mut count, mut is_right) = self.read.get();
        let mut buffer = [0u8; 4_096];
        for _ in 0..100_000u32 {
            if self.octets.is_empty() {
                break;
            }
            let read = match far.read(&mut buffer) {
                Ok(read) if read > 0 => read,
                _ => break,
            };
            is_right = is_right && self.is_next(count, &buffer[..read]);
            count = count.saturating_add(read);
        }
        self.read.set((readings.saturating_add(1), count, is_right));
    }

    /// Whether the far end has to read these octets after this many.
    fn is_next(&self, count: usize, octets: &[u8]) -> bool {
        match self.octets.get(count % 251..) {
            Some(expected) => expected.starts_with(octets),
            None => false,
        }
    }
}

impl Clock for Machine<'_> {
    fn monotonic(&self) -> io::Result<Duration> {
        self.happens();
        self.empties();
        Ok(self.rt.monotonic()?.saturating_add(self.ahead.get()))
    }

    fn since_1970(&self) -> io::Result<Duration> {
        self.rt.since_1970()
    }
}

impl Net for Machine<'_> {
    type Stream = TcpStream;

    type Listener = TcpListener;

    fn bind(&self, address: SocketAddr) -> io::Result<TcpListener> {
        self.rt.bind(address)
    }

    fn connect(&self, address: SocketAddr) -> io::Result<TcpStream> {
        self.rt.connect(address)
    }

    fn lookup_host(&self, _host: &str, _port: u16, found: &mut [SocketAddr]) -> io::Result<usize> {
        let count = self.host.len().min(found.len());
        found[..count].copy_from_slice(&self.host[..count]);
        Ok(count)
    }
}

/// A time so long that a test which waits for it has failed.
pub(crate) fn patience() -> Duration {
    Duration::from_secs(5)
}

/// The times of a station in milliseconds.
#[derive(Clone, Copy)]
pub(crate) struct Times {
    pub(crate) time_out: u64,

    /// How long what the station sends is in time.
    pub(crate) late_after: u64,

    pub(crate) gap: u64,

    /// How long after its last answer a connection may be replaced.
    pub(crate) replace_after: u64,

    pub(crate) pause: u64,

    /// Whether a time-out has passed when the station begins.
    pub(crate) begins: bool,

    /// Whether a time-out passes at once that nobody can break.
    pub(crate) skips: bool,
}

/// A connection may be replaced after two time-outs.
pub(crate) const SHORT: Times = Times {
    time_out: 40,
    late_after: 5_000,
    gap: 10,
    replace_after: 80,
    pause: 15,
    begins: false,
    skips: false,
};

/// The same, with a time-out and a gap that pass in no test.
pub(crate) const QUIET: Times = Times {
    time_out: 600_000,
    gap: 600_000,
    ..SHORT
};

impl Times {
    /// The settings of a station with these times.
    pub(crate) fn settings(&self) -> ConnectionSettings {
        ConnectionSettings {
            time_out: Duration::from_millis(self.time_out),
            late_after: Duration::from_millis(self.late_after),
            gap: Duration::from_millis(self.gap),
            replace_after: Duration::from_millis(self.replace_after),
            pause: Duration::from_millis(self.pause),
            begins: self.begins,
            skips: self.skips,
            allowed: Networks::new(),
            stops_with: None,
            serves: None,
            prints: None,
        }
    }
}

/// The settings of a station with short times.
pub(crate) fn settings() -> ConnectionSettings {
    SHORT.settings()
}

/// The addresses of this network.
pub(crate) fn allowed(text: &str) -> Result<Networks, NetworkError> {
    let network = Network::read(text)?;
    match Networks::new().with(network) {
        Some(allowed) => Ok(allowed),
        None => Ok(Networks::new()),
    }
}

/// A listener on a port that the system chose, and its address.
pub(crate) fn bound(rt: &HostRuntime) -> Result<(Listening, SocketAddr), SocketsError> {
    let listening = Listening::bind(rt, "127.0.0.1:0")?;
    let address = listening.address()?;
    Ok((listening, address))
}

/// A peer that has connected to this address and waits at most `patience` for octets.
pub(crate) fn peer(rt: &HostRuntime, address: SocketAddr) -> io::Result<TcpStream> {
    let stream = TcpStream::connect(rt, address)?;
    stream.set_read_timeout(Some(patience()))?;
    Ok(stream)
}

/// The most peers.
pub(crate) const MOST: usize = 64;

/// Returns what was begun on the heap: what moves it takes long to check, what moves a box does
/// not.
fn on_heap<T: Drop, A: Allocator>(
    alloc: A,
    begun: Result<T, SocketsError>,
) -> Result<Box<T, A>, SocketsError> {
    match begun {
        Ok(begun) => match Box::new(alloc, begun) {
            Ok(boxed) => Ok(boxed),
            Err(_) => Err(SocketsError::Memory),
        },
        Err(why) => Err(why),
    }
}

/// The sockets of a station that waits for at most 64 peers.
pub(crate) fn begin<'a, N: Net + Clock, A: Allocator + Copy, H: Reception>(
    machine: &'a N,
    alloc: A,
    listening: Listening,
    peers: Peers,
    settings: ConnectionSettings,
    reception: &mut H,
) -> Result<Box<Begun<'a, N, A>, A>, SocketsError> {
    if peers.count > MOST {
        return Err(SocketsError::Memory);
    }
    on_heap(
        alloc,
        listen(machine, alloc, listening, peers, settings, reception),
    )
}

/// The sockets of a station that connects to a peer at this address.
pub(crate) fn reach<'a, N: Net + Clock, A: Allocator + Copy>(
    machine: &'a N,
    alloc: A,
    address: &str,
    settings: ConnectionSettings,
) -> Result<Box<Begun<'a, N, A>, A>, SocketsError> {
    on_heap(
        alloc,
        connect(machine, alloc, address, patience(), settings),
    )
}

/// This many peers. After they have connected, another one is a newcomer.
pub(crate) fn peers(count: usize) -> Peers {
    Peers {
        count,
        begin_with: count,
        patience: patience(),
        keeps_listening: true,
    }
}

/// Is told nothing of how a station waits for its peers.
#[derive(Drop)]
pub(crate) struct Untold;

impl Reception for Untold {
    fn listens(&mut self, _address: SocketAddr) {}

    fn waits(&mut self, _connected: usize, _wanted: usize) {}

    fn joined(&mut self, _place: usize, _peer: SocketAddr) {}

    fn left(&mut self, _place: usize, _peer: Option<SocketAddr>) {}

    fn refused(&mut self, _peer: SocketAddr) {}
}

/// This many peers that have connected to this address.
pub(crate) fn peers_of(
    rt: &HostRuntime,
    alloc: Global,
    address: SocketAddr,
    count: usize,
) -> Result<Vec<TcpStream>, Fail> {
    let mut peers = Vec::new(alloc);
    for _ in 0..count {
        peers.push(peer(rt, address)?)?;
    }
    Ok(peers)
}

/// Lets this many milliseconds pass; false if the clock fails.
pub(crate) fn passes(rt: &HostRuntime, milliseconds: u128) -> bool {
    let Ok(start) = Instant::now(rt) else {
        return false;
    };
    for _ in 0..u64::MAX {
        match start.elapsed(rt) {
            Ok(passed) if passed.as_millis() < milliseconds => {}
            Ok(_) => return true,
            Err(_) => return false,
        }
    }
    false
}
