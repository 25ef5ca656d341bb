//! The connections, the clock, the trace and the store that a station needs from the machine.

ghost use Rattle.std.specs.Prelude.{◌≡◌, ◌≤◌, ◌⊎◌, ℤ, Bool, Option, Result};
ghost use Rattle.bsc_clients.specs.declared.error.ClientsError.{ClientsError as ClientsErrorValue};
ghost use Rattle.bsc_clients.specs.declared.served_at.ServedAt.{ServedAt as ServedAtValue};
ghost use Rattle.bsc_sockets.specs.declared.error.SocketsError.{SocketsError as SocketsErrorValue};
ghost use Rattle.bsc_attending.specs.Wanted.{WantedValue, wanted_value};
ghost use Rattle.bsc_attending.specs.declared.network.Opened.{Opened as OpenedValue};
ghost use Rattle.bsc_attending.specs.declared.network.Reachable.{Reachable as ReachableValue};

use crate::Wanted;
use bsc_clients::{ClientsError, ServedAt};
use bsc_connections::Waiter;
use bsc_serving::Programs;
use bsc_sockets::SocketsError;
use bsc_spool::{Store, StoreFault};
use bsc_text::progress::{Meter, Timer, Work};
use std::io::{Read, Write};
use std::os::fd::RawFd;

/// The connections with which a station begins, in order, and the waiter for them.
#[derive(Drop)]
pub struct Opened<R: Drop, W: Drop, Q: Drop> {
    pub waiter: Q,
    pub connections: Vec<(R, W)>,

    /// The number of places for connections. Those after the connections are vacant.
    pub places: usize,
}

/// What programs reach that feed a station, and the descriptor that is readable when one of them
/// may have to be served.
#[derive(Drop)]
pub struct Reachable<P: Drop> {
    pub programs: P,
    pub descriptor: RawFd,
}

/// Tells whether standard output takes more without waiting for its reader.
pub trait Readiness {
    /// Whether this may be the descriptor.
    ghost tells: { Self → Option ℤ → Type 0 };

    /// Returns how many octets standard output takes now without waiting: at least 4,096, or 0. If
    /// it cannot be asked, or fails, it is taken to be ready, and what is written to it tells.
    fn room(&mut self) -> usize
        ensures { (result ≡ 0) ⊎ (4096 ≤ result) };

    /// Has the descriptor become readable once standard output takes more, at once if it does now.
    fn call_when_ready(&mut self);

    /// Returns the descriptor that is readable when standard output may take more again; `None` if
    /// it never has to be waited for.
    fn descriptor(&self) -> Option<RawFd>
        ensures { tells self.now result };
}

/// Connections to other processes, a clock, a writer for the trace, and standard output beside what
/// is written to it.
pub trait Network {
    /// The receiving side of a connection to another process.
    type Reader: Read + Drop;

    /// The sending side of a connection to another process.
    type Writer: Write + Drop;

    /// The waiter for connections to other processes.
    type Waiter: Waiter<Self::Reader, Self::Writer> + Drop;

    /// The clock, which also shows how far the station has come.
    type Timer: Timer + Meter + Drop;

    /// The programs that feed a station.
    type Programs: Programs + Drop;

    /// The writer for the trace.
    type Trace: Write + Drop;

    /// What tells whether standard output takes more.
    type Readiness: Readiness + Drop;

    /// Whether this may be the writer for the trace of what happens, if that is traced, or if it is
    /// not.
    ghost traces: { Bool → Self.Trace → Type 0 };

    /// What it means that it makes connections: the machine before, those that are asked for, the
    /// result, and the machine after.
    ghost connects: { Self → WantedValue
        → Result (OpenedValue Self.Reader Self.Writer Self.Waiter) SocketsErrorValue → Self
        → Type 0 };

    /// What it means that it lets programs reach a station: the machine before, the place, whether
    /// what happens is traced, the result, and the machine after.
    ghost serves: { Self → ServedAtValue → Bool
        → Result (ReachableValue Self.Programs) ClientsErrorValue → Self → Type 0 };

    /// What it means that each flush of standard output syncs it from now on: the machine before
    /// and after.
    ghost syncs: { Self → Self → Type 0 };

    /// Makes the connections that a station asks for.
    fn open(
        &mut self,
        wanted: &Wanted<'_>,
    ) -> Result<Opened<Self::Reader, Self::Writer, Self::Waiter>, SocketsError>
        ensures connected { connects self.old (wanted_value wanted.now) result self.new };

    /// Lets programs that feed a station reach it here. At an address of the network, it is told
    /// on standard error which one that is, if `trace` in a line of the trace.
    fn serve(
        &mut self,
        at: ServedAt<'_>,
        trace: bool,
    ) -> Result<Reachable<Self::Programs>, ClientsError>
        ensures served { serves self.old at.entry trace result self.new };

    /// Returns a clock that starts now. Progress is shown of this work, or none; and only if
    /// standard error is a terminal.
    fn timer(&mut self, progress: Option<Work>) -> Self::Timer;

    /// Returns the writer for the trace, which is standard error. If what happens is not traced,
    /// what it does not take is lost, and is no fault.
    fn trace(&mut self, is_traced: bool) -> Self::Trace
        ensures { traces is_traced result };

    /// Returns what tells whether standard output takes more.
    fn readiness(&mut self) -> Self::Readiness;

    /// From now on each flush of standard output also syncs it, if it is a regular file. The flush
    /// fails if that does.
    fn sync_output(&mut self)
        ensures synced { syncs self.old self.new };
}

/// The stores of a machine.
pub trait Stores {
    /// A store.
    type Store: Store + Drop;

    /// Opens the store at this path, which has to belong to the station with this text.
    fn open_store(&mut self, path: &str, own: &str) -> Result<Self::Store, StoreFault>;
}
