//! The sockets of the programs of a station.

ghost use Rattle.std.specs.Prelude.{◌≡◌, false, IfErr, IfOk, IfSome};
ghost use Rattle.bsc_clients.specs.Calls.{IsNext, nothing_called};
ghost use Rattle.bsc_clients.specs.Listening.{IsListenError, IsLocal};
ghost use Rattle.bsc_clients.specs.Listening.{is_for_anyone};

use crate::calls::{Calls, LISTENER, WAKER};
use crate::listener::{Listener, bind};
use crate::socket_file::{SocketFile, bind_path};
use crate::stream::Stream;
use crate::{ClientsError, ServedAt};
use bsc_serving::{Called, MAX_PROGRAMS, Programs};
use mio::{Events, Poll, Token, Waker};
use std::alloc::Global;
use std::fs::{File, Files};
use std::io::{ErrorKind, Read, Write};
use std::net::{Net, SocketAddr};
use std::os::fd::{AsRawFd, RawFd};
use std::time::Duration;

/// What a program is told that is turned away, since no place is free.
const FULL: &[u8] = b"fault every place is taken\n";

/// The sockets of the programs of a station: where they connect, and what the system reports of
/// them. If that is at a path, the socket file is removed when this is dropped, but not a file that
/// has taken its place.
#[derive(Drop)]
pub struct Clients<'a, N: Files> {
    /// The socket file, if programs connect at a path. It comes before the listener, so that it is
    /// removed while nobody else can listen there, and not a file that another station has made.
    file: Option<SocketFile<'a, N>>,
    poll: Poll,
    events: Events,
    /// Has the next wait for the descriptor end.
    waker: Waker,
    listener: Listener,
    calls: Calls,
    /// The address of the host at which programs connect; None at a path.
    host: Option<SocketAddr>,
}

/// Where programs connect: the socket file, the listener and the address of the host.
#[derive(Drop)]
struct Place<'a, N: Files> {
    file: Option<SocketFile<'a, N>>,
    listener: Listener,
    host: Option<SocketAddr>,
}

impl<'a, N: Net + Files<File = File>> Clients<'a, N> {
    /// Listens for programs there. Of a host with several addresses it listens at the first that
    /// can be bound. A socket file has mode 0600 from when it can be reached; one at which nobody
    /// listens any more is replaced.
    ///
    /// Fails with `Address` if the text is not an address, with `NotLoopback` if not anyone may
    /// reach the station and an address is not a loopback address, with `InUse` if another process
    /// listens there, with `OtherFile` if there is a file at the path that is not a socket, with
    /// `CannotListen` if the system does not let this process listen there, with `Sockets` if it
    /// refuses what else is needed, and with `Memory` if memory cannot be allocated.
    pub fn listen(
        runtime: &'a N,
        alloc: Global,
        at: ServedAt<'_>,
    ) -> Result<Clients<'a, N>, ClientsError>
        ensures local { is_for_anyone at.entry ≡ false → IfOk result (λ clients.
            IfSome clients.host (λ host. IsLocal host)) }
        ensures nothing { IfOk result (λ clients. clients.calls ≡ nothing_called) }
        ensures failed { IfErr result (IsListenError at.entry) }
    {
        let Place {
            mut listener,
            host,
            file,
        } = bind_there(runtime, alloc, at)?;
        let poll = Poll::new(runtime)?;
        listener.register(poll.registry(), LISTENER)?;
        let waker = Waker::new(poll.registry(), Token(WAKER))?;
        Ok(Clients {
            poll,
            events: Events::with_capacity(alloc, MAX_PROGRAMS + 2)?,
            waker,
            listener,
            calls: Calls::new(),
            host,
            file,
        })
    }
}

impl<'a, N: Net + Files> Clients<'a, N> {
    /// Returns the address and port at which it listens, as the system tells them; None at a path.
    pub fn address(&self) -> Option<SocketAddr> {
        self.listener.address()
    }

    /// Returns the descriptor that is reported readable when a program may have to be served. It is
    /// open as long as this is.
    pub fn descriptor(&self) -> RawFd {
        self.poll.as_raw_fd()
    }

    /// Takes the next program that has connected; None if nobody is waiting, or the system cannot
    /// accept it now.
    fn take(&mut self) -> Option<Stream> {
        for _ in 0..u64::MAX {
            match self.listener.accept() {
                Ok(stream) => return Some(stream),
                Err(error) => match error.kind() {
                    ErrorKind::WouldBlock => {
                        self.calls.nobody_waits();
                        return None;
                    }
                    ErrorKind::ConnectionAborted | ErrorKind::Interrupted => {}
                    _ => return None,
                },
            }
        }
        None
    }
}

/// Listens there.
fn bind_there<'a, N: Net + Files<File = File>>(
    runtime: &'a N,
    alloc: Global,
    at: ServedAt<'_>,
) -> Result<Place<'a, N>, ClientsError>
    ensures local { is_for_anyone at.entry ≡ false → IfOk result (λ place.
        IfSome place.host (λ host. IsLocal host)) }
    ensures failed { IfErr result (IsListenError at.entry) }
{
    match at {
        ServedAt::Address { address, anyone } => {
            let (listener, host) = bind(runtime, alloc, address, anyone)?;
            Ok(Place {
                listener: Listener::Tcp { listener },
                host: Some(host),
                file: None,
            })
        }
        ServedAt::Path { path } => {
            let (listener, file) = bind_path(runtime, alloc, path)?;
            Ok(Place {
                listener: Listener::Unix { listener },
                host: None,
                file: Some(file),
            })
        }
    }
}

impl<'a, N: Net + Files> Programs for Clients<'a, N> {
    type Stream = Stream;

    /// If the system cannot tell, nothing has happened. A program that could not be accepted when
    /// it was last asked for is told of again.
    fn ask(&mut self) {
        let _ = self.poll.poll(&mut self.events, Some(Duration::ZERO));
        self.calls.record(&self.events);
    }

    fn next(&mut self) -> Option<Called>
        ensures { IsNext self.old.calls result self.new.calls }
    {
        self.calls.next()
    }

    /// A program that cannot be registered is turned away, and the next one is taken.
    fn accept(&mut self, place: usize) -> Option<Stream> {
        for _ in 0..u64::MAX {
            let mut stream = self.take()?;
            if stream.register(self.poll.registry(), place).is_ok() {
                return Some(stream);
            }
        }
        None
    }

    /// It is told why, if the system has room for that. What it has sent is read first, since the
    /// system may drop what was written to a program if something of it is left.
    fn turn_away(&mut self) -> bool {
        match self.take() {
            Some(mut stream) => {
                let _ = stream.read(&mut [0u8; 1024]);
                let _ = stream.write(FULL);
                true
            }
            None => false,
        }
    }

    fn call(&mut self) {
        let _ = self.waker.wake();
    }
}
