//! How connections begin, also to hosts with several addresses, and the errors if they cannot.

use crate::meeting::{Machine, Untold, begin, bound, patience, peers, reach, settings};
use crate::scene::{reads_at, writes_at};
use bsc_connections::{Awaited, Waiter};
use bsc_sockets::{ConnectionSettings, Listening, Peers, SocketsError, connect_to_any};
use std::alloc::{AllocError, Allocator, Global};
use std::io::{Read, Write};
use std::net::{Ipv4Addr, SocketAddr, SocketAddrV4, TcpListener, TcpStream};
use std::test::Fail;
use std::time::{Duration, Instant};

/// The number of connections of a station with these settings to the listener at this address.
pub(crate) fn connections_to<A: Allocator + Copy>(
    rt: &HostRuntime,
    alloc: A,
    address: &str,
    settings: ConnectionSettings,
) -> Result<usize, SocketsError> {
    let begun = reach(rt, alloc, address, settings)?;
    Ok(begun.connections.len())
}

/// The number of connections of a station with these settings that waits for a peer that does not
/// come.
pub(crate) fn connections_with(
    rt: &HostRuntime,
    alloc: Global,
    settings: ConnectionSettings,
) -> Result<usize, SocketsError> {
    let (listening, _) = bound(rt)?;
    let begun = begin(rt, alloc, listening, peers(1), settings, &mut Untold)?;
    Ok(begun.connections.len())
}

/// Fails unless the result is this fault.
pub(crate) fn is_told<T: Drop>(
    told: Result<T, SocketsError>,
    fault: SocketsError,
) -> Result<(), Fail> {
    match told.err() {
        Some(told) if told == fault => Ok(()),
        told => Err(Fail::new(format_args!("{told:?}, and not {fault:?}"))),
    }
}

/// Fails unless at least `least` milliseconds and less than four seconds have passed since `start`.
pub(crate) fn has_passed(rt: &HostRuntime, start: Instant, least: u128) -> Result<(), Fail> {
    let passed = start.elapsed(rt)?.as_millis();
    if least <= passed && passed < 4_000 {
        Ok(())
    } else {
        Err(Fail::new(format_args!("after {passed} ms")))
    }
}

/// Addresses at which a program cannot listen, and the faults. No interface of this machine has the
/// first one, which is reserved for documentation (RFC 5737).
const NO_ADDRESSES: &[(&str, SocketsError)] = &[
    ("192.0.2.1:0", SocketsError::NotHere),
    ("127.0.0.1", SocketsError::Address),
    ("127.0.0.1:99999", SocketsError::Address),
    ("", SocketsError::Address),
];

#[test]
fn what_is_no_address_here_is_named(rt: HostRuntime) -> Result<(), Fail> {
    for (address, fault) in NO_ADDRESSES {
        is_told(Listening::bind(&rt, *address), *fault)?;
    }
    let begun = connections_to(&rt, rt.alloc(), "nothing", settings());
    is_told(begun, SocketsError::Address)
}

/// The address as text.
pub(crate) fn text(alloc: Global, address: SocketAddr) -> Result<String, AllocError> {
    format!(in alloc; "{address}")
}

#[test]
fn an_address_in_use_is_named(rt: HostRuntime) -> Result<(), Fail> {
    let (_listening, address) = bound(&rt)?;
    let text = text(rt.alloc(), address)?;
    is_told(
        Listening::bind(&rt, text.as_str()),
        SocketsError::AddressInUse,
    )
}

/// An address at which a listener was closed.
pub(crate) fn left(rt: &HostRuntime) -> Result<SocketAddr, SocketsError> {
    let (listening, address) = bound(rt)?;
    drop(listening);
    Ok(address)
}

#[test]
fn nobody_there_is_told_at_once(rt: HostRuntime) -> Result<(), Fail> {
    let text = text(rt.alloc(), left(&rt)?)?;
    let start = Instant::now(&rt)?;
    let begun = connections_to(&rt, rt.alloc(), text.as_str(), settings());
    is_told(begun, SocketsError::NobodyThere)?;
    has_passed(&rt, start, 0)
}

/// Whether a station is told of an octet that arrives on its first connection.
fn hears<R: Read, W, S: Waiter<R, W>>(sockets: &mut S, connections: &mut [(R, W)]) -> bool {
    let first = Awaited::Octets { connection: 0 };
    sockets.wait(true) == Ok(first) && reads_at(connections, 0, &[0x16])
}

/// Whether a station that listens hears an octet of a station that connected to it with these
/// connections, and a third station then gets `NobodyThere`.
fn listens_to<P, Q: Write>(
    rt: &HostRuntime,
    alloc: Global,
    listening: Listening,
    near: &mut [(P, Q)],
    address: &str,
) -> Result<bool, SocketsError> {
    let wanted = Peers {
        keeps_listening: false,
        ..peers(1)
    };
    let mut begun = begin(rt, alloc, listening, wanted, settings(), &mut Untold)?;
    let begun = &mut *begun;
    let meets = writes_at(near, 0, &[0x16]) && hears(&mut begun.sockets, &mut begun.connections);
    let third = connections_to(rt, alloc, address, settings());
    Ok(meets && third == Err(SocketsError::NobodyThere))
}

/// Whether a station that connects knows the address of its peer, it and one that listens exchange
/// an octet, and a third one is refused.
fn meet(
    rt: &HostRuntime,
    alloc: Global,
    listening: Listening,
    address: &str,
) -> Result<bool, SocketsError> {
    let there = listening.address()?;
    let mut begun = reach(rt, alloc, address, settings())?;
    let is_named = begun.sockets.peer(0) == Some(there);
    let meets = listens_to(rt, alloc, listening, &mut begun.connections, address)?;
    Ok(is_named && meets)
}

#[test]
fn two_of_ours_meet_and_a_third_is_refused(rt: HostRuntime) -> Result<(), Fail> {
    let (listening, address) = bound(&rt)?;
    let text = text(rt.alloc(), address)?;
    assert!(rt; meet(&rt, rt.alloc(), listening, text.as_str())?);
    Ok(())
}

/// The address to which a station connects that connects to a host, whose name needs a port.
fn connected(machine: &Machine<'_>, alloc: Global) -> Result<Option<SocketAddr>, SocketsError> {
    let begun = reach(machine, alloc, "host:1", settings())?;
    Ok(begun.sockets.peer(0))
}

/// Whether a station that connects to a host with these addresses, and one that connects to any of
/// them, connects to this one.
fn reaches(
    machine: &Machine<'_>,
    alloc: Global,
    host: &[SocketAddr],
    address: SocketAddr,
) -> Result<bool, SocketsError> {
    match connect_to_any(machine, alloc, host, patience(), settings()) {
        Ok(begun) => Ok(
            begun.sockets.peer(0) == Some(address) && connected(machine, alloc)? == Some(address),
        ),
        Err(why) => Err(why),
    }
}

/// Two of the addresses answer, and then only the last one.
#[test]
fn the_first_of_32_addresses_that_answers_is_connected_to(rt: HostRuntime) -> Result<(), Fail> {
    let (_first, first) = bound(&rt)?;
    let (_last, last) = bound(&rt)?;
    let nobody = left(&rt)?;
    let mut host = [nobody; 32];
    host[2] = first;
    host[31] = last;
    assert!(rt; reaches(&Machine::new(&rt, &host), rt.alloc(), &host, first)?);
    host[2] = nobody;
    assert!(rt; reaches(&Machine::new(&rt, &host), rt.alloc(), &host, last)?);
    Ok(())
}

/// A host without addresses, and one at whose addresses nobody listens.
#[test]
fn a_host_where_nobody_listens_is_told(rt: HostRuntime) -> Result<(), Fail> {
    let nowhere = connected(&Machine::new(&rt, &[]), rt.alloc());
    is_told(nowhere, SocketsError::NobodyThere)?;
    let host = [left(&rt)?; 32];
    let nobody = connected(&Machine::new(&rt, &host), rt.alloc());
    is_told(nobody, SocketsError::NobodyThere)
}

/// As many connections to a listener as wait to be accepted there. The system does not answer
/// another one.
fn waiting(rt: &HostRuntime, alloc: Global, address: SocketAddr) -> Result<Vec<TcpStream>, Fail> {
    let mut waiting = Vec::new(alloc);
    'peers: for _ in 0..10_000u32 {
        match TcpStream::connect_timeout(rt, &address, Duration::from_millis(200)) {
            Ok(peer) => waiting.push(peer)?,
            Err(_) => return Ok(waiting),
        }
    }
    Err("the listener has no limit".into())
}

/// A station waits for the answer of a peer as long as it is patient, and no longer.
#[test]
fn an_address_that_does_not_answer_is_told_in_time(rt: HostRuntime) -> Result<(), Fail> {
    let listener = TcpListener::bind(&rt, "127.0.0.1:0")?;
    let address = listener.local_addr()?;
    let _waiting = waiting(&rt, rt.alloc(), address)?;
    let start = Instant::now(&rt)?;
    let patience = Duration::from_millis(60);
    let begun = connect_to_any(&rt, rt.alloc(), &[address], patience, settings());
    is_told(begun, SocketsError::NobodyThere)?;
    has_passed(&rt, start, 60)
}

/// An address with this IPv4 address, whose port the system chooses.
fn at(address: Ipv4Addr) -> SocketAddr {
    SocketAddr::V4(SocketAddrV4::new(address, 0))
}

/// At the addresses before the last one another listener listens.
#[test]
fn a_station_listens_at_the_last_of_32_addresses(rt: HostRuntime) -> Result<(), Fail> {
    let (_taken, taken) = bound(&rt)?;
    let mut host = [taken; 32];
    host[31] = at(Ipv4Addr::LOCALHOST);
    let machine = Machine::new(&rt, &host);
    let address = Listening::bind(&machine, "host:1")?.address()?;
    assert!(rt; address.ip() == at(Ipv4Addr::LOCALHOST).ip());
    assert!(rt; address.port() != taken.port() && address.port() != 0);
    Ok(())
}

/// Fails unless this is why a station cannot listen at a host with these addresses.
fn is_not_bound(rt: &HostRuntime, host: &[SocketAddr], why: SocketsError) -> Result<(), Fail> {
    is_told(Listening::bind(&Machine::new(rt, host), "host:1"), why)
}

/// If no address can be bound, the last one tells why. No interface of this machine has the other
/// one, which is reserved for documentation (RFC 5737).
#[test]
fn the_last_address_tells_why_none_is_bound(rt: HostRuntime) -> Result<(), Fail> {
    let (_taken, taken) = bound(&rt)?;
    let other = at(Ipv4Addr::new(192, 0, 2, 1));
    is_not_bound(&rt, &[other, other, taken], SocketsError::AddressInUse)?;
    is_not_bound(&rt, &[taken, taken, other], SocketsError::NotHere)?;
    is_not_bound(&rt, &[], SocketsError::Address)
}
