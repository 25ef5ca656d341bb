//! How the machine lets programs reach a station, and how it reaches one.

use crate::fake::{Fake, NO_FILE};
use bsc_attending::{Network, Reachable};
use bsc_clients::command::{FeedError, Stations};
use bsc_clients::{ClientsError, ServedAt};
use bsc_machine::Streams;
use bsc_serving::{Called, Programs};
use std::io;
use std::io::{Error, ErrorKind, Read, Write};
use std::net::{IpAddr, Ipv4Addr, Net, SocketAddr};
use std::test::Fail;
use std::time::Duration;

/// How often a program is asked for what it says.
const ASKS: usize = 1_000_000;

/// Whether these octets arrive next.
fn hears<R: Read>(stream: &mut R, octets: &[u8]) -> bool {
    for _ in 0..ASKS {
        let mut buffer = [0u8; 16];
        match stream.read(&mut buffer) {
            Ok(count) => return buffer.get(..count) == Some(octets),
            Err(error) if error.kind() == ErrorKind::WouldBlock => {}
            Err(_) => return false,
        }
    }
    false
}

/// Takes the program that has connected at the first place, hears a line of it, and answers.
fn answer<P: Programs + Drop>(reachable: &mut Reachable<P>) -> io::Result<()> {
    for _ in 0..ASKS {
        reachable.programs.ask();
        if let Some(Called::Newcomer) = reachable.programs.next() {
            break;
        }
    }
    let Some(mut stream) = reachable.programs.accept(0) else {
        return Err(Error::from(ErrorKind::NotConnected));
    };
    if !hears(&mut stream, b"status\n") {
        return Err(Error::from(ErrorKind::InvalidData));
    }
    stream.write_all(b"ok\n")
}

/// Reaches the station at this address, says a line, and returns whether it is answered.
fn is_answered<H: Stations, P: Programs + Drop>(
    machine: &mut H,
    address: &str,
    reachable: &mut Reachable<P>,
) -> io::Result<bool> {
    let Ok(mut reached) = machine.reach(address) else {
        return Ok(false);
    };
    reached.said.write_all(b"status\n")?;
    answer(reachable)?;
    Ok(hears(&mut reached.heard, b"ok\n"))
}

/// Returns an address at which nothing can be served, one at which programs can be, at a port that
/// the system chooses, and one at which nobody listens.
fn addresses() -> [SocketAddr; 3] {
    let here = IpAddr::V4(Ipv4Addr::new(127, 0, 0, 1));
    [
        SocketAddr::new(IpAddr::V4(Ipv4Addr::new(192, 0, 2, 1)), 0),
        SocketAddr::new(here, 0),
        SocketAddr::new(here, 1),
    ]
}

/// Returns the address that stands in a line after this start.
fn address_after(line: &str, start: &str) -> Option<SocketAddr> {
    line.strip_prefix(start)?.trim_end().parse().ok()
}

/// Returns whether programs reach a station of this machine by a host, of whose addresses the
/// station can listen at the second one only, and at the first one of which nobody listens later.
/// It is told where they do after this start of a line, which is one of the trace if `trace`.
fn are_served(fake: &Fake<'_>, trace: bool, start: &str) -> io::Result<bool> {
    let streams = Streams::new(false);
    let mut machine = streams.machine(fake);
    let [elsewhere, here, closed] = addresses();
    fake.hosts.set(Some([elsewhere, here]));
    let at = ServedAt::Address {
        address: "host:0",
        anyone: true,
    };
    let Ok(mut reachable) = machine.serve(at, trace) else {
        return Ok(false);
    };
    let Some(served) = address_after(fake.told()?.as_str(), start) else {
        return Ok(false);
    };
    fake.hosts.set(Some([closed, served]));
    Ok(
        reachable.descriptor == reachable.programs.descriptor()
            && is_answered(&mut machine, "host:1", &mut reachable)?,
    )
}

#[test]
fn programs_reach_a_station(rt: HostRuntime) -> Result<(), Fail> {
    let fake = Fake::new(&rt, NO_FILE);
    assert!(rt; are_served(&fake, false, "serving programs at ")?);
    assert!(rt; fake.patience.get() == Some(Duration::from_secs(3)));
    assert!(rt; are_served(&fake, true, "+0 serving programs at ")?);
    Ok(())
}

/// Why a machine does not reach a station there.
fn unreached<R: AllocGlobal + Net>(runtime: &R, address: &str) -> Option<FeedError> {
    let streams = Streams::new(false);
    streams.machine(runtime).reach(address).err()
}

#[test]
fn it_is_told_why_programs_and_stations_do_not_meet(rt: HostRuntime) -> Result<(), Fail> {
    let fake = Fake::new(&rt, NO_FILE);
    let everywhere = ServedAt::Address {
        address: "0.0.0.0:0",
        anyone: false,
    };
    let streams = Streams::new(false);
    let why = streams.machine(&fake).serve(everywhere, false).err();
    assert!(rt; why == Some(ClientsError::NotLoopback) && fake.has_told(""));
    for (address, due) in [
        ("127.0.0.1:1", FeedError::NobodyThere),
        ("unix:/nowhere/of/a/station", FeedError::NobodyThere),
        ("127.0.0.1", FeedError::Address),
    ] {
        let error = unreached(&fake, address);
        assert!(rt; error == Some(due), "{address}");
    }
    Ok(())
}
