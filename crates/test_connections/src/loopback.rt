//! Cables over the loopback address, and how their ends are made, on a machine that only records
//! it.

ghost use Rattle.std.specs.Prelude.{◌≤◌, length};

use bsc_carrier::loopback::{LoopbackError, connect};
use bsc_carrier::{Cable, CarrierError, Octets};
use std::alloc::Global;
use std::cell::Cell;
use std::io;
use std::io::{Read, Write};
use std::net::{Ipv4Addr, Net, OpenListener, OpenStream, SocketAddr, SocketAddrV4};
use std::os::fd::{AsRawFd, RawFd};
use std::test::Fail;
use std::time::Duration;

/// Whether a call succeeded and what was heard is what was sent.
fn is_heard(answer: Result<(), CarrierError>, heard: &Octets, sent: &[u8]) -> bool {
    answer.is_ok() && heard.as_slice() == sent
}

/// Whether the first octets go down to all terminals, the later ones up from this terminal, and the
/// first ones down to it again, each replacing what was heard before.
fn goes_each_way<S: Read + Write + Drop>(
    cable: &mut Cable<S>,
    terminal: usize,
    first: &[u8],
    later: &[u8],
    heard: &mut Octets,
) -> bool
    requires first_some { 1 ≤ length first.now }
    requires first_most { length first.now ≤ 2048 }
    requires later_some { 1 ≤ length later.now }
    requires later_most { length later.now ≤ 2048 }
{
    if terminal >= cable.terminals() {
        return false;
    }
    let down = cable.down(first, heard);
    let goes_down = is_heard(down, heard, first);
    let up = cable.up(terminal, later, heard);
    let goes_up = is_heard(up, heard, later);
    let down_to = cable.down_to(terminal, first, heard);
    goes_down && goes_up && is_heard(down_to, heard, first)
}

/// The first of 64 terminals with which the largest records, which differ from those of the other
/// terminals, and the smallest ones do not go each way.
fn first_wrong_terminal<S: Read + Write + Drop>(cable: &mut Cable<S>) -> Option<u8> {
    let mut heard = Octets::new();
    for terminal in 0..64u8 {
        let first = [0x80 + terminal; 2048];
        let later = [0xc0 + terminal; 2048];
        let place = usize::from(terminal);
        if !goes_each_way(cable, place, &first, &later, &mut heard)
            || !goes_each_way(cable, place, &first[..1], &later, &mut heard)
        {
            return Some(terminal);
        }
    }
    None
}

#[test]
fn sixty_four_connections_carry_records_each_way(rt: HostRuntime) -> Result<(), Fail> {
    let mut cable = connect(&rt, rt.alloc(), 64)?;
    assert_eq!(rt; first_wrong_terminal(&mut cable), None);
    Ok(())
}

/// The errors and their messages.
const PRINTED: &[(LoopbackError, &str)] = &[
    (LoopbackError::Sockets, "cannot make the sockets"),
    (LoopbackError::Memory, "out of memory"),
];

#[test]
fn errors_are_printed(rt: HostRuntime) -> Result<(), Fail> {
    for (error, text) in PRINTED {
        assert!(rt; error.to_string(rt.alloc())?.as_str() == *text, "{text}");
    }
    Ok(())
}

/// How often each of these things was done: a listener was bound to a port of 127.0.0.1 that the
/// system chooses; an end connected to it; an end was set to send its octets at once; it was set to
/// wait 5 seconds when it reads; the same when it writes; and anything else.
type Done = [u32; 6];

/// A machine without a network, whose listeners accept a peer with this port.
#[derive(Clone, Copy)]
struct Recording<'a> {
    done: &'a Cell<Done>,
    accepted: u16,
}

/// A listener, or an end of a connection.
#[derive(Drop)]
struct End<'a> {
    machine: Recording<'a>,
    address: SocketAddr,
}

/// The port at which each listener listens, and that of each end that connects.
const LISTENS: u16 = 2_780;

const NEAR: u16 = 2_781;

/// The address of this port.
fn at(port: u16) -> SocketAddr {
    SocketAddr::V4(SocketAddrV4::new(Ipv4Addr::LOCALHOST, port))
}

impl Recording<'_> {
    /// Counts the thing with this number if it is as it has to be, and else as something else.
    fn counts(&self, number: usize, is_right: bool) {
        let mut done = self.done.get();
        let place = if is_right && number < 5 { number } else { 5 };
        done[place] = done[place].saturating_add(1);
        self.done.set(done);
    }
}

impl<'a> Net for Recording<'a> {
    type Stream = End<'a>;

    type Listener = End<'a>;

    fn bind(&self, address: SocketAddr) -> io::Result<End<'a>> {
        self.counts(0, address == at(0));
        let machine = *self;
        let address = at(LISTENS);
        Ok(End { machine, address })
    }

    fn connect(&self, address: SocketAddr) -> io::Result<End<'a>> {
        self.counts(1, address == at(LISTENS));
        let machine = *self;
        let address = at(NEAR);
        Ok(End { machine, address })
    }
}

impl<'a> OpenListener for End<'a> {
    type Stream = End<'a>;

    fn accept(&self) -> io::Result<(End<'a>, SocketAddr)> {
        let machine = self.machine;
        let address = self.address;
        Ok((End { machine, address }, at(machine.accepted)))
    }

    fn local_addr(&self) -> io::Result<SocketAddr> {
        Ok(self.address)
    }
}

/// Whether this is 5 seconds.
fn is_five(time: Option<Duration>) -> bool {
    time == Some(Duration::from_secs(5))
}

impl OpenStream for End<'_> {
    fn local_addr(&self) -> io::Result<SocketAddr> {
        Ok(self.address)
    }

    fn set_nodelay(&self, nodelay: bool) -> io::Result<()> {
        self.machine.counts(2, nodelay);
        Ok(())
    }

    fn set_read_timeout(&self, time: Option<Duration>) -> io::Result<()> {
        self.machine.counts(3, is_five(time));
        Ok(())
    }

    fn set_write_timeout(&self, time: Option<Duration>) -> io::Result<()> {
        self.machine.counts(4, is_five(time));
        Ok(())
    }
}

impl AsRawFd for End<'_> {
    fn as_raw_fd(&self) -> RawFd {
        0
    }
}

impl Read for End<'_> {
    fn read(&mut self, _buffer: &mut [u8]) -> io::Result<usize> {
        Ok(0)
    }
}

impl Write for End<'_> {
    fn write(&mut self, _octets: &[u8]) -> io::Result<usize> {
        Ok(0)
    }

    fn flush(&mut self) -> io::Result<()> {
        Ok(())
    }
}

/// What is done to connect this many connections, each accepted from this port.
fn connected(alloc: Global, count: u8, accepted: u16) -> Result<Done, LoopbackError> {
    let done = Cell::new([0; 6]);
    if count == 0 || count > 64 {
        return Ok(done.get());
    }
    let machine = Recording {
        done: &done,
        accepted,
    };
    connect(&machine, alloc, usize::from(count))?;
    Ok(done.get())
}

/// Whether this many connections are made, and both ends of each are set to send their octets at
/// once and to wait 5 seconds.
fn is_set_up(alloc: Global, count: u8) -> bool {
    let (connections, ends) = (u32::from(count), 2 * u32::from(count));
    match connected(alloc, count, NEAR) {
        Ok(done) => done.as_slice() == [1, connections, ends, ends, ends, 0].as_slice(),
        Err(_) => false,
    }
}

#[test]
fn each_end_of_1_to_64_connections_is_set_up(rt: HostRuntime) {
    for count in 1..=64u8 {
        assert!(rt; is_set_up(rt.alloc(), count), "{count}");
    }
}

#[test]
fn a_stranger_is_no_end_of_a_cable(rt: HostRuntime) {
    let told = connected(rt.alloc(), 2, LISTENS).err();
    assert!(rt; told == Some(LoopbackError::Sockets));
}
