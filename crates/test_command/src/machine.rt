//! A machine for tests, with a few files, scripted connections, the connections of two terminals in
//! memory and no sockets.

use crate::pieces::Pieces;
use crate::programs::Feeders;
use crate::record::{Metered, Record, Sink};
use crate::wires::End;
use bsc_attending::{Network, Opened, Reachable, Readiness, Wanted};
use bsc_carrier::Cable;
use bsc_carrier::loopback::LoopbackError;
use bsc_clients::{ClientsError, ServedAt};
use bsc_connections::{Awaited, Handled, LiveError, Pace, Waiter};
use bsc_options::Place;
use bsc_run::Cables;
use bsc_sockets::SocketsError;
use bsc_text::progress::Work;
use std::alloc::Global;
use std::io;
use std::io::Write;
use std::net::{IpAddr, Ipv4Addr, SocketAddr};
use std::os::fd::RawFd;

/// Returns the address of the peer with this number; `None` for 0.
fn peer_by(number: u8) -> Option<IpAddr> {
    match number {
        0 => None,
        number => Some(IpAddr::V4(Ipv4Addr::new(10, 0, 0, number))),
    }
}

/// Reports octets to read for each `r` of the steps, a gap for each `g`, another peer for each `j`,
/// a time-out for each `t`, that a program may have to be served for each `c`, and that the station
/// is asked to end for each `s`, and fails at each `f`. After the last step there are always octets
/// to read: two times on each connection in turn, eight times on the last one, and then on the
/// first.
#[derive(Drop)]
pub(crate) struct Scripted<'a> {
    steps: &'static [u8],

    /// The transmissions of another peer.
    later: &'static str,

    /// The number of the peer, if there is one connection. If there are more, that of each is its
    /// place.
    peer: u8,

    /// The place of the last connection.
    last: usize,

    /// How often there were octets to read after the last step.
    reads: usize,

    record: &'a Record,
}

impl Scripted<'_> {
    /// Returns the place of the connection that has octets to read next, after the last step.
    fn next_read(&mut self) -> usize {
        let turn = self.reads / 2;
        self.reads = self.reads.saturating_add(1);
        if turn < self.last {
            turn
        } else if turn < self.last.saturating_add(4) {
            self.last
        } else {
            0
        }
    }
}

impl<'a> Waiter<Pieces, Sink<'a>> for Scripted<'a> {
    ghost waits = { λ _ _ _ _. Unit {0} };

    ghost handles = { λ _ _ _ _. Unit {0} };

    ghost begins_gap = { λ _ _ _. Unit {0} };

    ghost has_nothing_left = { λ _ _ _. Unit {0} };

    ghost joins = { λ _ _ _ _. Unit {0} };

    ghost turns_away = { λ _ _. Unit {0} };

    ghost may_replace = { λ _ _. Unit {0} };

    ghost permits = { λ _ _ _. Unit {0} };

    ghost names = { λ _ _ _. Unit {0} };

    ghost names_newcomer = { λ _ _. Unit {0} };

    fn wait(&mut self, _is_reached: bool) -> Result<Awaited, LiveError> {
        let Some(&step) = self.steps.first() else {
            let connection = self.next_read();
            return Ok(Awaited::Octets { connection });
        };
        self.steps = &self.steps[1..];
        match step {
            b't' => Ok(Awaited::TimeOut),
            b'g' => Ok(Awaited::Gap { connection: 0 }),
            b'j' => Ok(Awaited::Newcomer),
            b'c' => Ok(Awaited::Client),
            b's' => Ok(Awaited::Stopped),
            b'f' => Err(LiveError::Wait),
            _ => Ok(Awaited::Octets { connection: 0 }),
        }
    }

    fn handled(&mut self, _what: Handled, _pace: Pace) {}

    fn may_send(&mut self) -> bool {
        true
    }

    fn replaceable(&self) -> Option<usize> {
        None
    }

    fn peer(&self, connection: usize) -> Option<SocketAddr> {
        let number = match self.last {
            0 => self.peer,
            _ => u8::try_from(connection).ok()?,
        };
        Some(SocketAddr::new(peer_by(number)?, 2780))
    }

    fn newcomer(&self) -> Option<SocketAddr> {
        None
    }

    fn begin_gap(&mut self, _connection: usize) {}

    fn nothing_left(&mut self, _connection: usize) {}

    fn join(&mut self, _connection: usize) -> Option<(Pieces, Sink<'a>)> {
        Some(connection(self.record, self.later, 1))
    }

    fn turn_away(&mut self) {}
}

/// Returns both sides of a connection on which these transmissions come this many times.
fn connection<'a>(record: &'a Record, hears: &'static str, times: usize) -> (Pieces, Sink<'a>) {
    (Pieces::new(hears, times), Sink::new(&record.sent, false))
}

/// What a command hears, and what fails or waits on its machine.
#[derive(Clone, Copy)]
pub(crate) struct Scene {
    /// The names of the transmissions on the last connection.
    pub(crate) hears: &'static str,

    /// How often all of them come.
    pub(crate) times: usize,

    /// Those on each other connection; `None` if there is one connection only, whatever is asked
    /// for.
    pub(crate) others: Option<&'static str>,

    /// Those of another peer.
    pub(crate) later: &'static str,

    /// Whether no connection is made before a peer connects later.
    pub(crate) vacant: bool,

    /// The waits before them.
    pub(crate) steps: &'static str,

    /// What a program sends that feeds the station, or what a station says that is fed; a bar
    /// stands for a line feed.
    pub(crate) says: &'static str,

    /// How many times the programs are asked for before that one connects.
    pub(crate) late: usize,

    /// The number of the peer; 0 if its address is not known.
    pub(crate) peer: u8,

    /// How often standard output takes nothing when it is asked whether it does.
    pub(crate) unready: u32,

    /// Whether reading standard input fails after its text.
    pub(crate) input_fails: bool,

    /// Whether standard output accepts nothing.
    pub(crate) output_fails: bool,

    /// Whether the disk of standard output fails.
    pub(crate) disk_fails: bool,

    /// Whether the trace cannot be written.
    pub(crate) trace_fails: bool,

    /// Why no connections can be made, if they cannot.
    pub(crate) refusal: Option<SocketsError>,
}

/// A machine on which nothing is heard and nothing fails.
pub(crate) const SILENT: Scene = Scene {
    hears: "",
    times: 1,
    others: None,
    later: "",
    vacant: false,
    steps: "",
    says: "",
    late: 0,
    peer: 0,
    unready: 0,
    input_fails: false,
    output_fails: false,
    disk_fails: false,
    trace_fails: false,
    refusal: None,
};

/// Whether standard output takes more: at first not, this many times.
#[derive(Drop)]
pub(crate) struct Rooms<'a> {
    unready: u32,
    record: &'a Record,
}

impl Readiness for Rooms<'_> {
    ghost tells = { λ _ _. Unit {0} };

    fn room(&mut self) -> usize {
        if self.unready == 0 {
            return 4_096;
        }
        self.unready -= 1;
        0
    }

    fn call_when_ready(&mut self) {
        let calls = self.record.calls.get();
        self.record.calls.set(calls.saturating_add(1));
    }

    fn descriptor(&self) -> Option<RawFd> {
        match self.unready {
            0 => None,
            _ => Some(8),
        }
    }
}

/// A machine with the files of tests and connections to other processes.
#[derive(Drop)]
pub(crate) struct Machine<'a> {
    pub(crate) alloc: Global,
    pub(crate) scene: Scene,

    /// Whether it is told in a line of the trace where programs can reach the station.
    pub(crate) serves_traced: bool,
    pub(crate) record: &'a Record,
}

/// Whether the peer with this number may connect.
fn allows(wanted: &Wanted<'_>, number: u8) -> bool {
    match peer_by(number) {
        Some(peer) => wanted.allowed.allows(peer),
        None => false,
    }
}

impl Machine<'_> {
    /// Writes what a station requests of this machine.
    fn request<W: Write>(&self, wanted: &Wanted<'_>, text: &mut W) -> io::Result<()> {
        match wanted.place {
            Place::Listen { address } => write!(text, "listen {address}")?,
            Place::Connect { address } => write!(text, "connect {address}")?,
        }
        write!(
            text,
            " by {}, {}/{}, gap {}, patience {}, replace {}, pause {}",
            wanted.connections,
            wanted.time_out,
            wanted.line_time_out,
            wanted.gap,
            wanted.patience,
            wanted.replace_after,
            wanted.pause
        )?;
        let flags = [
            (wanted.raw, ", raw"),
            (wanted.stays, ", stays"),
            (wanted.begins, ", begins"),
            (wanted.skips, ", skips"),
            (wanted.stops, ", stops"),
            (wanted.trace, ", traced"),
            (wanted.serves.is_some(), ", called"),
            (wanted.prints.is_some(), ", prints"),
            (self.serves_traced, ", told in the trace"),
            (!allows(wanted, 1), ", without 1"),
            (!allows(wanted, 2), ", without 2"),
        ];
        for (is_set, flag) in &flags {
            if *is_set {
                text.write_all(flag.as_bytes())?;
            }
        }
        if wanted.stays && wanted.begin_with > 0 {
            write!(text, ", after {}", wanted.begin_with)?;
        }
        Ok(())
    }
}

impl<'a> Cables for Machine<'a> {
    type Stream = End<'a>;

    type Meter = Metered<'a>;

    fn meter(&mut self, work: Option<Work>) -> Metered<'a> {
        let record = self.record;
        Metered { work, record }
    }

    /// Makes connections of two terminals only: one has no sockets, and more have no memory.
    fn connect(&mut self, count: usize) -> Result<Cable<End<'a>>, LoopbackError> {
        match count {
            2 => {}
            0 | 1 => return Err(LoopbackError::Sockets),
            _ => return Err(LoopbackError::Memory),
        }
        let record = self.record;
        match record.wires.cable(self.alloc) {
            Ok(cable) => Ok(cable),
            Err(_) => Err(LoopbackError::Memory),
        }
    }
}

impl<'a> Network for Machine<'a> {
    type Reader = Pieces;

    type Writer = Sink<'a>;

    type Waiter = Scripted<'a>;

    type Timer = Metered<'a>;

    type Programs = Feeders<'a>;

    type Trace = Sink<'a>;

    type Readiness = Rooms<'a>;

    ghost traces = { λ _ _. Unit {0} };

    ghost connects = { λ _ _ _ _. Unit {0} };

    ghost serves = { λ _ _ _ _ _. Unit {0} };

    ghost syncs = { λ _ _. Unit {0} };

    fn open(
        &mut self,
        wanted: &Wanted<'_>,
    ) -> Result<Opened<Pieces, Sink<'a>, Scripted<'a>>, SocketsError> {
        let record = self.record;
        if self
            .request(wanted, &mut Sink::new(&record.asked, false))
            .is_err()
        {
            return Err(SocketsError::Memory);
        }
        if let Some(refusal) = self.scene.refusal {
            return Err(refusal);
        }
        let (last, others) = match self.scene.others {
            Some(others) => (wanted.connections.saturating_sub(1), others),
            None => (0, ""),
        };
        let mut connections = Vec::new(self.alloc);
        for _ in 0..last {
            connections.push(connection(record, others, 1))?;
        }
        if !self.scene.vacant {
            connections.push(connection(record, self.scene.hears, self.scene.times))?;
        }
        Ok(Opened {
            waiter: Scripted {
                steps: self.scene.steps.as_bytes(),
                later: self.scene.later,
                peer: self.scene.peer,
                last,
                reads: 0,
                record,
            },
            connections,
            places: wanted.connections,
        })
    }

    /// Programs reach a station at `p:1` only.
    fn serve(
        &mut self,
        at: ServedAt<'_>,
        trace: bool,
    ) -> Result<Reachable<Feeders<'a>>, ClientsError> {
        self.serves_traced = trace;
        match at {
            ServedAt::Address {
                address: "p:1",
                anyone: false,
            } => Ok(Reachable {
                programs: self.feeders(self.scene.says, self.scene.late),
                descriptor: 9,
            }),
            _ => Err(ClientsError::InUse),
        }
    }

    fn timer(&mut self, work: Option<Work>) -> Metered<'a> {
        let record = self.record;
        Metered { work, record }
    }

    fn trace(&mut self, is_traced: bool) -> Sink<'a> {
        Sink::new(&self.record.trace, self.scene.trace_fails && is_traced)
    }

    fn readiness(&mut self) -> Rooms<'a> {
        Rooms {
            unready: self.scene.unready,
            record: self.record,
        }
    }

    fn sync_output(&mut self) {
        self.record.syncs.set(true);
    }
}
