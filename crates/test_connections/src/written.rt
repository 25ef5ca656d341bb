//! What is written while the system has no room for it.

use crate::meeting::{Machine, SHORT, Times, Untold, begin, bound, peer, peers};
use bsc_sockets::{Listening, SocketsError};
use std::alloc::{AllocError, Global};
use std::io::Write;
use std::net::Net;
use std::test::Fail;
use std::time::Clock;

/// A write waits so long for room that a test whose write fails has failed.
const PATIENT: Times = Times {
    time_out: 5_000,
    ..SHORT
};

/// The octets 0 to 250, again and again: so many that the system never has room for all of them.
fn counting(alloc: Global) -> Result<Vec<u8>, AllocError> {
    let mut front = [0u8; 251];
    for (octet, number) in front.iter_mut().zip(0..251u8) {
        *octet = number;
    }
    let mut octets = Vec::new(alloc);
    for _ in 0..65_536u32 {
        octets.extend_from_slice(&front)?;
    }
    Ok(octets)
}

/// Writes on the first connection until the far end has read while a write waited, and the clock
/// was read at least 12 times meanwhile. Returns the number of octets that were written.
fn writes<R, W: Write>(
    machine: &Machine<'_>,
    connections: &mut [(R, W)],
    octets: &[u8],
) -> Option<usize> {
    let (_, writing) = connections.first_mut()?;
    let mut written = 0usize;
    for _ in 0..100_000u32 {
        let count = writing.write(octets.get(written % 251..)?).ok()?;
        written = written.checked_add(count)?;
        if machine.has_read().0 >= 12 {
            return Some(written);
        }
    }
    None
}

/// Whether the far end reads exactly this many octets, and those that it has to read.
fn is_read(machine: &Machine<'_>, due: usize) -> bool {
    for _ in 0..1_000_000u32 {
        machine.empties();
        let (_, count, is_right) = machine.has_read();
        if count >= due {
            return is_right && count == due;
        }
    }
    false
}

/// Writes to the only peer of a station on this machine, as `writes` does.
fn written_to<N: Net + Clock>(
    own: &N,
    alloc: Global,
    listening: Listening,
    machine: &Machine<'_>,
    octets: &[u8],
) -> Result<Option<usize>, SocketsError> {
    let set = PATIENT.settings();
    let mut begun = begin(own, alloc, listening, peers(1), set, &mut Untold)?;
    Ok(writes(machine, &mut begun.connections, octets))
}

/// Whether these octets are written in order to a far end that reads only while a write waits.
fn are_written(rt: &HostRuntime, octets: &[u8]) -> Result<bool, Fail> {
    let (listening, address) = bound(rt)?;
    let far = peer(rt, address)?;
    far.set_nonblocking(true)?;
    let machine = Machine::with_far(rt, &far, octets);
    match written_to(&machine, rt.alloc(), listening, &machine, octets)? {
        Some(written) => Ok(is_read(&machine, written)),
        None => Ok(false),
    }
}

#[test]
fn what_waits_for_room_is_written_in_order(rt: HostRuntime) -> Result<(), Fail> {
    let octets = counting(rt.alloc())?;
    assert!(rt; are_written(&rt, &octets)?);
    Ok(())
}
