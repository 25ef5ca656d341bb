//! A cable whose connections are TCP connections over the loopback address, with both ends in this
//! process.

ghost use Rattle.std.specs.Prelude.{◌≡◌, ◌≤◌, length, IfOk, None};

use crate::Cable;
use crate::limits::MAX_CONNECTIONS;
use std::alloc::{AllocError, AllocFailed, Allocator};
use std::io;
use std::net::{Net, OpenListener, OpenStream, SocketAddr, TcpListener};
use std::time::Duration;
use thiserror::Error;

/// How many seconds an end waits for octets, or for room for octets, before its read or write
/// fails. What one end has written can be read at once at the other, so an end that waits this long
/// waits for nothing.
pub const TIME_OUT_SECONDS: u64 = 5;

/// Why connections could not be made.
#[derive(Clone, Copy, Debug, PartialEq, Eq, Error)]
pub enum LoopbackError {
    /// The system refused a socket or a setting of it, or another process connected in place of the
    /// near end.
    #[error("cannot make the sockets")]
    Sockets,

    /// Memory could not be allocated.
    #[error("out of memory")]
    Memory,
}

impl From<io::Error> for LoopbackError {
    ghost use Rattle.std.specs.Prelude.{◌≡◌};
    ghost use Rattle.bsc_carrier.specs.declared.loopback.LoopbackError.TheVariants.{Sockets};

    ghost from_gives = { λ _ error. error ≡ Sockets };

    fn from(_error: io::Error) -> LoopbackError {
        LoopbackError::Sockets
    }
}

impl<T: Drop> From<AllocFailed<T>> for LoopbackError {
    ghost use Rattle.std.specs.Prelude.{◌≡◌};
    ghost use Rattle.bsc_carrier.specs.declared.loopback.LoopbackError.TheVariants.{Memory};

    ghost from_gives = { λ _ error. error ≡ Memory };

    fn from(_error: AllocFailed<T>) -> LoopbackError {
        LoopbackError::Memory
    }
}

/// Creates a cable of this many new connections, 1 to 64, over the loopback address. Each end sends
/// its octets at once, and waits at most `TIME_OUT_SECONDS`. Fails with `Sockets` if the system
/// refuses a socket, for example because too many files are open, or if the peer of an accepted
/// connection is not the near end; fails with `Memory` if memory cannot be allocated.
pub fn connect<R: Net, A: Allocator + Copy>(
    rt: &R,
    alloc: A,
    count: usize,
) -> Result<Cable<R::Stream, A>, LoopbackError>
    requires least { 1 ≤ count }
    requires most { count ≤ MAX_CONNECTIONS }
    ensures count { IfOk result (λ cable. length cable.control_ends ≡ count) }
    ensures fault { IfOk result (λ cable. cable.fault ≡ None) }
{
    let listener = TcpListener::bind(rt, "127.0.0.1:0")?;
    let address = listener.local_addr()?;
    let mut control_ends = Vec::new(alloc);
    let mut terminal_ends = Vec::new(alloc);
    'connections: for _ in 0..count {
        let (near, far) = connect_one(rt, &listener, address)?;
        control_ends.push(near)?;
        terminal_ends.push(far)?;
    }
    Ok(Cable::new(control_ends, terminal_ends))
}

/// Returns the two ends of a new connection.
fn connect_one<R: Net>(
    rt: &R,
    listener: &R::Listener,
    address: SocketAddr,
) -> Result<(R::Stream, R::Stream), LoopbackError> {
    let near = rt.connect(address)?;
    let (far, peer) = listener.accept()?;
    if peer != near.local_addr()? {
        return Err(LoopbackError::Sockets);
    }
    set_up(&near)?;
    set_up(&far)?;
    Ok((near, far))
}

/// Makes an end send its octets at once, and limits how long its reads and writes wait.
fn set_up<S: OpenStream>(end: &S) -> io::Result<()> {
    let time_out = Some(Duration::from_secs(TIME_OUT_SECONDS));
    end.set_nodelay(true)?;
    end.set_read_timeout(time_out)?;
    end.set_write_timeout(time_out)
}
