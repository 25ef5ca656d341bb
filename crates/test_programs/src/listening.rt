//! Addresses at which a station listens, or may not, and at which no program reaches one.

use crate::sockets::{at, refused, text_of, unreached};
use bsc_clients::{Clients, ClientsError};
use std::net::{SocketAddr, TcpListener};
use std::test::Fail;

/// Texts of addresses, whether anyone may reach the station there, and why it cannot listen. No
/// interface of this machine has 192.0.2.1, which is reserved for documentation (RFC 5737).
const REFUSED: &[(&str, bool, ClientsError)] = &[
    ("0.0.0.0:0", false, ClientsError::NotLoopback),
    ("192.0.2.1:0", false, ClientsError::NotLoopback),
    ("[::]:0", false, ClientsError::NotLoopback),
    ("127.0.0.1", false, ClientsError::Address),
    ("", true, ClientsError::Address),
    ("192.0.2.1:0", true, ClientsError::NotHere),
];

#[test]
fn addresses_at_which_a_station_cannot_listen_are_told(rt: HostRuntime) -> Result<(), Fail> {
    for (address, anyone, why) in REFUSED {
        let fault = refused(&rt, at(address, *anyone));
        assert!(rt; fault == Some(*why), "{address}");
    }
    Ok(())
}

/// The address at which a station listens that is to listen there.
fn listens_at(rt: &HostRuntime, address: &str, anyone: bool) -> Option<SocketAddr> {
    match Clients::listen(rt, rt.alloc(), at(address, anyone)) {
        Ok(clients) => clients.address(),
        Err(_) => None,
    }
}

#[test]
fn a_station_listens_at_an_address_of_this_machine(rt: HostRuntime) {
    let local = listens_at(&rt, "127.0.0.1:0", false);
    assert!(rt; local.is_some_and(|address| address.ip().is_loopback() && address.port() != 0));
    let anyone = listens_at(&rt, "0.0.0.0:0", true);
    assert!(rt; anyone.is_some_and(|address| !address.ip().is_loopback() && address.port() != 0));
}

#[test]
fn an_address_in_use_and_one_where_nobody_is_are_told(rt: HostRuntime) -> Result<(), Fail> {
    let listener = TcpListener::bind(&rt, "127.0.0.1:0")?;
    let text = text_of(rt.alloc(), listener.local_addr()?)?;
    assert!(rt; refused(&rt, at(&text, false)) == Some(ClientsError::InUse));
    drop(listener);
    assert!(rt; unreached(&rt, at(&text, false)) == Some(ClientsError::NobodyThere));
    assert!(rt; unreached(&rt, at("nothing", false)) == Some(ClientsError::Address));
    Ok(())
}
