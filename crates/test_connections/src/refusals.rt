//! Each growth of memory is refused in turn.

use crate::beginning::{connections_to, text};
use crate::meeting::{MOST, QUIET, Untold, begin, bound, peer, peers, peers_of, settings};
use bsc_connections::{Awaited, Waiter};
use bsc_sockets::{Listening, Sockets, SocketsError};
use std::alloc::{Allocator, Global};
use std::io::{Read, Write};
use std::net::{SocketAddr, TcpStream};
use std::test::Fail;
use test_alloc::{Refusal, Refusing};

/// Fails unless there is one connection, or a growth was refused and the result is out of memory.
fn is_told(alloc: &Refusing<Global>, begun: Result<usize, SocketsError>) -> Result<(), Fail> {
    match begun {
        Ok(1) if alloc.refused() == 0 => Ok(()),
        Err(SocketsError::Memory) if alloc.refused() > 0 => Ok(()),
        _ => Err("another result".into()),
    }
}

/// A peer connects to a station that listens, while growths of the station may be refused.
fn listen_to_one(rt: &HostRuntime, alloc: &Refusing<Global>) -> Result<(), Fail> {
    let (listening, address) = bound(rt)?;
    let _far = peer(rt, address)?;
    let told = match begin(rt, alloc, listening, peers(1), settings(), &mut Untold) {
        Ok(begun) => Ok(begun.connections.len()),
        Err(why) => Err(why),
    };
    is_told(alloc, told)
}

#[test]
fn each_growth_at_the_one_that_listens(rt: HostRuntime) -> Result<(), Fail> {
    let alloc = Refusing::new(rt.alloc());
    for request in alloc.in_turn(Refusal::Nth, 5..11) {
        request?;
        listen_to_one(&rt, &alloc)?;
    }
    Ok(())
}

#[test]
fn each_growth_at_the_one_that_connects(rt: HostRuntime) -> Result<(), Fail> {
    let (_listening, address) = bound(&rt)?;
    let text = text(rt.alloc(), address)?;
    let alloc = Refusing::new(rt.alloc());
    for request in alloc.in_turn(Refusal::Nth, 7..15) {
        request?;
        let begun = connections_to(&rt, &alloc, text.as_str(), settings());
        is_told(&alloc, begun)?;
    }
    Ok(())
}

/// A station with one place, whose peer has closed its connection, and the address at which it
/// listens.
fn without_peer<'a, A: Allocator + Copy>(
    rt: &'a HostRuntime,
    alloc: A,
) -> Result<(Sockets<'a, HostRuntime, A>, SocketAddr), Fail> {
    let (listening, address) = bound(rt)?;
    let _first = peer(rt, address)?;
    let begun = begin(rt, alloc, listening, peers(1), settings(), &mut Untold)?;
    Ok((Box::into_inner(begun).sockets, address))
}

/// A newcomer for which a growth is refused is turned away, and the next one joins. The connection
/// is closed at once in either case, so that it reads the end.
fn two_newcomers<R: Drop, W: Drop, S: Waiter<R, W>>(
    rt: &HostRuntime,
    alloc: &Refusing<Global>,
    sockets: &mut S,
    address: SocketAddr,
) -> Result<(), Fail> {
    for refused in [1, 9] {
        let mut far = peer(rt, address)?;
        if sockets.wait(true)? != Awaited::Newcomer {
            return Err("no newcomer".into());
        }
        alloc.refuse_nth(refused);
        let joins = sockets.join(0).is_some();
        if joins != (refused == 9) || far.read(&mut [0u8; 1])? != 0 {
            return Err("otherwise".into());
        }
    }
    Ok(())
}

#[test]
fn a_growth_for_a_newcomer(rt: HostRuntime) -> Result<(), Fail> {
    let alloc = Refusing::new(rt.alloc());
    let (mut sockets, address) = without_peer(&rt, &alloc)?;
    two_newcomers(&rt, &alloc, &mut sockets, address)
}

/// How many of the connections and the newcomer of a station are told of in 260 waits.
fn told_of<R, W, S: Waiter<R, W>>(sockets: &mut S) -> Result<usize, Fail> {
    let (mut told, mut count) = ([false; 65], 0usize);
    for _ in 0..260u16 {
        let place = match sockets.wait(true)? {
            Awaited::Octets { connection } => connection,
            Awaited::Newcomer => 64,
            _ => return Err("something else".into()),
        };
        if place < 65 && !told[place] {
            told[place] = true;
            count = count.saturating_add(1);
        }
    }
    Ok(count)
}

/// How many of these peers, which all have sent something, and a newcomer a station is told of that
/// has not waited yet.
fn told_at(
    rt: &HostRuntime,
    alloc: &Refusing<Global>,
    (listening, address): (Listening, SocketAddr),
    far: &mut [TcpStream],
) -> Result<usize, Fail> {
    let set = QUIET.settings();
    let mut begun = begin(rt, alloc, listening, peers(MOST), set, &mut Untold)?;
    for peer in far.iter_mut() {
        peer.write_all(b"here")?;
    }
    let _newcomer = peer(rt, address)?;
    alloc.refuse_from(1);
    told_of(&mut begun.sockets)
}

#[test]
fn a_wait_for_64_peers_and_another_needs_no_growth(rt: HostRuntime) -> Result<(), Fail> {
    let alloc = Refusing::new(rt.alloc());
    let (listening, address) = bound(&rt)?;
    let mut far = peers_of(&rt, rt.alloc(), address, MOST)?;
    let told = told_at(&rt, &alloc, (listening, address), far.as_mut_slice())?;
    assert!(rt; told == 65 && alloc.refused() == 0);
    Ok(())
}
