//! Makes the first connections of a station.

ghost use Rattle.std.specs.Prelude.{◌≡◌, ◌<◌, ◌≤◌, ◌^◌, ◌+◌, [], false, true, is_some, length};
ghost use Rattle.std.specs.Prelude.{IfErr, IfOk, IfSome, IsNone, IsSome, OnOk, Some, min};
ghost use Rattle.std.specs.Prelude.{slice_get, ℕ};
ghost use Rattle.std.specs.Net.ToAddrs.{host_addrs};
ghost use Rattle.bsc_sockets.specs.Beginning.{HasAdmitted, is_allowed};
ghost use Rattle.bsc_sockets.specs.Listening.{IsAddressError, IsConnectError, IsDenied};
ghost use Rattle.bsc_sockets.specs.Listening.{IsListenError, IsPeerError, IsUnwatched};
ghost use Rattle.bsc_sockets.specs.Standings.{after_joining, new_standings, standings_value};

use crate::directions::{Reading, Writing};
use crate::listening::addresses;
use crate::writable::Writable;
use crate::{ConnectionSettings, Listening, Sockets, SocketsError};
use mio::net::TcpStream;
use std::alloc::Allocator;
use std::io;
use std::io::ErrorKind;
use std::net::{HostAddrs, Net, SocketAddr};
use std::time::{Clock, Duration};

/// The peers that connect to a station. (Own.)
#[derive(Clone, Copy, Debug, PartialEq, Eq)]
pub struct Peers {
    /// The most peers that are connected at a time: the number of places.
    pub count: usize,

    /// The number of peers that one waits for; of more than there are places, for as many as these.
    pub begin_with: usize,

    /// How long to wait for each peer, counted from the arrival of the one before it.
    pub patience: Duration,

    /// Whether a further peer is a newcomer; else the system refuses it.
    pub keeps_listening: bool,
}

/// Is told how a station waits for its peers.
pub trait Reception {
    /// Peers can connect at this address from now on.
    fn listens(&mut self, address: SocketAddr);

    /// This many peers have connected of those that are wanted, and the station waits for the next.
    fn waits(&mut self, connected: usize, wanted: usize);

    /// This peer has the connection at this place.
    fn joined(&mut self, place: usize, peer: SocketAddr);

    /// The peer at this place has gone before the station began, or the system refused what its
    /// connection needs.
    fn left(&mut self, place: usize, peer: Option<SocketAddr>);

    /// The address of this peer may not connect, and it was turned away.
    fn refused(&mut self, peer: SocketAddr);
}

/// Sockets with a connection at each of their first places.
#[derive(Drop)]
pub struct Begun<'a, N: Net + Clock, A: Allocator> {
    /// The sockets, which wait for the connections.
    pub sockets: Sockets<'a, N, A>,

    /// The two directions of each connection, by place. The places after them are vacant.
    pub connections: Vec<(Reading, Writing<'a, N, A>), A>,
}

/// Connects to a peer that listens at this address; of a host with several addresses, to the first
/// that answers. Fails with `Address` if the text is not an address, and otherwise as
/// [`connect_to_any`].
pub fn connect<'a, N: Net + Clock, A: Allocator + Copy>(
    runtime: &'a N,
    alloc: A,
    address: &str,
    patience: Duration,
    settings: ConnectionSettings,
) -> Result<Begun<'a, N, A>, SocketsError>
    ensures count { IfOk result (λ begun. length begun.connections.items ≡ 1) }
    ensures settings { IfOk result (λ begun. begun.sockets.settings ≡ settings) }
    ensures places { IfOk result (λ begun. begun.sockets.places ≡ 1) }
    ensures failed { IfErr result (IsAddressError (is_some settings.stops_with)) }
{
    let hosts = collected(alloc, addresses(runtime, address)?)?;
    connect_to_any(runtime, alloc, &hosts, patience, settings)
}

/// Returns all addresses of a host, in order.
fn collected<A: Allocator>(alloc: A, hosts: HostAddrs) -> Result<Vec<SocketAddr, A>, SocketsError>
    ensures all { IfOk result (λ all. all.items ≡ host_addrs hosts) }
    ensures failed { IfErr result (λ why. why ≡ SocketsError.Memory) }
{
    let mut all = Vec::new(alloc);
    'hosts: for host in hosts {
        all.push(host)?;
    }
    Ok(all)
}

/// Connects to the first of these addresses that answers. Fails with `NobodyThere` if no address
/// gives a connection, for example because the peer refuses, cannot be reached, or does not answer
/// within `patience`, with `CannotWatchInput` if the system does not report the descriptor that
/// asks the station to end, with `Sockets` if it refuses what else the connection needs, and with
/// `Memory` if memory cannot be allocated.
pub fn connect_to_any<'a, N: Net + Clock, A: Allocator + Copy>(
    runtime: &'a N,
    alloc: A,
    addresses: &[SocketAddr],
    patience: Duration,
    settings: ConnectionSettings,
) -> Result<Begun<'a, N, A>, SocketsError>
    ensures count { IfOk result (λ begun. length begun.connections.items ≡ 1) }
    ensures settings { IfOk result (λ begun. begun.sockets.settings ≡ settings) }
    ensures places { IfOk result (λ begun. begun.sockets.places ≡ 1) }
    ensures failed { IfErr result (IsConnectError (is_some settings.stops_with)) }
{
    let mut begun = Begun::new(runtime, alloc, 1, settings)?;
    let stream = first_answer(runtime, alloc, addresses, patience)?;
    let peer = stream.peer_addr().ok();
    begun.add(0, stream, peer)?;
    Ok(begun)
}

/// Returns a stream to the first of these addresses that answers.
fn first_answer<N: Net + Clock, A: Allocator + Copy>(
    runtime: &N,
    alloc: A,
    addresses: &[SocketAddr],
    patience: Duration,
) -> Result<TcpStream, SocketsError>
    ensures { IfErr result (IsConnectError false) }
{
    let mut writable = Writable::new(runtime, alloc)?;
    for address in addresses {
        if let Ok(stream) = connect_to(runtime, &mut writable, *address, patience) {
            return Ok(stream);
        }
    }
    Err(SocketsError::NobodyThere)
}

/// Returns a stream to the peer at this address.
fn connect_to<N: Net + Clock, A: Allocator>(
    runtime: &N,
    writable: &mut Writable<A>,
    address: SocketAddr,
    patience: Duration,
) -> io::Result<TcpStream> {
    let mut stream = TcpStream::connect(runtime, address)?;
    writable.wait(runtime, &mut stream, patience)?;
    match stream.take_error()? {
        Some(error) => Err(error),
        None if is_own(&stream) => Err(io::Error::from(ErrorKind::ConnectionRefused)),
        None => Ok(stream),
    }
}

/// Whether both ends of this stream are the same. If nobody listens at a port of this machine, the
/// system may choose that port for a socket that connects to it, and then connects it to itself;
/// whoever wants to listen there finds the address in use.
fn is_own(stream: &TcpStream) -> bool {
    match (stream.local_addr(), stream.peer_addr()) {
        (Ok(here), Ok(there)) => here == there,
        _ => false,
    }
}

/// Makes a place for each of these peers, fewer than 65,536, and takes a connection from each of
/// those that are waited for, in the order in which they connect. The other places stay vacant.
/// With none to wait for it returns at once. A peer whose address is not allowed is turned away,
/// and the patience goes on meanwhile. Fails with `NobodyConnected` if a peer does not connect
/// within their patience, which begins anew for each, with `Stopped` if the station is asked to end
/// before that, with `CannotWatchInput` if the system does not report the descriptor that asks it
/// to, with `Sockets` if it refuses what the sockets need, and with `Memory` if memory cannot be
/// allocated. A peer that the system cannot accept is tried again; one for which it refuses what a
/// connection needs, for example since no descriptor is left, is turned away and waited for anew.
/// If it keeps listening, a further peer is a newcomer; else the system refuses that peer. The
/// reception is told of the address and of each peer. A peer that has gone before the last one
/// connected is told too, and waited for anew.
pub fn listen<'a, N: Net + Clock, A: Allocator + Copy, H: Reception>(
    runtime: &'a N,
    alloc: A,
    listening: Listening,
    peers: Peers,
    settings: ConnectionSettings,
    reception: &mut H,
) -> Result<Begun<'a, N, A>, SocketsError>
    requires { peers.count < 2 ^ 16 }
    ensures count { IfOk result (λ begun.
        length begun.connections.items ≡ min peers.begin_with peers.count) }
    ensures settings { IfOk result (λ begun. begun.sockets.settings ≡ settings) }
    ensures refuses { peers.keeps_listening ≡ false
        → IfOk result (λ begun. IsNone begun.sockets.listener) }
    ensures listens { peers.keeps_listening ≡ true
        → IfOk result (λ begun. IsSome begun.sockets.listener) }
    ensures places { IfOk result (λ begun. begun.sockets.places ≡ peers.count) }
    ensures admitted { IfOk result (λ begun.
        HasAdmitted settings.allowed (min peers.begin_with peers.count)
        (standings_value begun.sockets.standings)) }
    ensures failed { IfErr result (IsListenError (is_some settings.stops_with)) }
{
    let mut begun = Begun::new(runtime, alloc, peers.count, settings)?;
    begun.take_peers(listening, peers, reception)?;
    Ok(begun)
}

impl<'a, N: Net + Clock, A: Allocator + Copy> Begun<'a, N, A> {
    /// Creates this many places, none of which has a connection yet.
    fn new(
        runtime: &'a N,
        alloc: A,
        places: usize,
        settings: ConnectionSettings,
    ) -> Result<Begun<'a, N, A>, SocketsError>
        requires { places < 2 ^ 16 }
        ensures none { IfOk result (λ begun. begun.connections.items ≡ []) }
        ensures settings { IfOk result (λ begun. begun.sockets.settings ≡ settings) }
        ensures places { IfOk result (λ begun. begun.sockets.places ≡ places) }
        ensures strangers { IfOk result
            (λ begun. standings_value begun.sockets.standings ≡ new_standings places) }
        ensures failed { IfErr result (IsUnwatched (is_some settings.stops_with)) }
    {
        let sockets = Sockets::new(runtime, alloc, places, settings)?;
        Ok(Begun {
            sockets,
            connections: Vec::new(alloc),
        })
    }

    /// Makes this stream the connection at this place, which must be the next one, of the peer with
    /// this address, if it is known.
    fn add(
        &mut self,
        place: usize,
        stream: TcpStream,
        peer: Option<SocketAddr>,
    ) -> Result<(), SocketsError>
        ensures count { OnOk result
            (length self.new.connections.items ≡ length self.old.connections.items + 1) }
        ensures settings { self.new.sockets.settings ≡ self.old.sockets.settings }
        ensures places { self.new.sockets.places ≡ self.old.sockets.places }
        ensures listener { self.new.sockets.listener ≡ self.old.sockets.listener }
        ensures peer { OnOk result (standings_value self.new.sockets.standings
            ≡ after_joining peer (standings_value self.old.sockets.standings) place
            (slice_get self.old.sockets.standings.places.items place)) }
        ensures failed { IfErr result IsDenied }
    {
        let directions = self.sockets.open(place, stream, peer)?;
        self.connections.push(directions)?;
        Ok(())
    }

    /// Takes a connection from each of these peers that is waited for, and then keeps listening or
    /// stops.
    fn take_peers<H: Reception>(
        &mut self,
        listening: Listening,
        peers: Peers,
        reception: &mut H,
    ) -> Result<(), SocketsError>
        requires { self.old.connections.items ≡ [] }
        ensures count { OnOk result
            (length self.new.connections.items ≡ min peers.begin_with peers.count) }
        ensures settings { self.new.sockets.settings ≡ self.old.sockets.settings }
        ensures refuses { peers.keeps_listening ≡ false
            → OnOk result (IsNone self.new.sockets.listener) }
        ensures listens { peers.keeps_listening ≡ true
            → OnOk result (IsSome self.new.sockets.listener) }
        ensures places { self.new.sockets.places ≡ self.old.sockets.places }
        ensures admitted { peers.count ≤ length self.old.sockets.standings.places.items
            → OnOk result (HasAdmitted self.old.sockets.settings.allowed
            (min peers.begin_with peers.count) (standings_value self.new.sockets.standings)) }
        ensures failed { IfErr result IsPeerError }
    {
        if let Ok(address) = listening.address() {
            reception.listens(address);
        }
        self.sockets.take_peers_of(listening)?;
        let waited_for = peers.begin_with.min(peers.count);
        self.add_peers(waited_for, peers.patience, reception)?;
        self.replace_gone(peers.patience, reception)?;
        if !peers.keeps_listening {
            self.sockets.stop_listening();
        }
        Ok(())
    }

    /// Takes a connection from each of the next peers that connect, up to this many.
    fn add_peers<H: Reception>(
        &mut self,
        peers: usize,
        patience: Duration,
        reception: &mut H,
    ) -> Result<(), SocketsError>
        requires { self.old.connections.items ≡ [] }
        ensures count { OnOk result (length self.new.connections.items ≡ peers) }
        ensures settings { self.new.sockets.settings ≡ self.old.sockets.settings }
        ensures places { self.new.sockets.places ≡ self.old.sockets.places }
        ensures listener { self.new.sockets.listener ≡ self.old.sockets.listener }
        ensures admitted { peers ≤ length self.old.sockets.standings.places.items
            → OnOk result (HasAdmitted self.old.sockets.settings.allowed peers
            (standings_value self.new.sockets.standings)) }
        ensures failed { IfErr result IsPeerError }
    {
        'peers: for place in 0..peers {
            reception.waits(place, peers);
            let address = self.add_peer(place, patience, reception)?;
            reception.joined(place, address);
        }
        Ok(())
    }

    /// Makes the next peer that may connect the connection at this place, which must be the next
    /// one, and returns its address.
    fn add_peer<H: Reception>(
        &mut self,
        place: usize,
        patience: Duration,
        reception: &mut H,
    ) -> Result<SocketAddr, SocketsError>
        ensures count { OnOk result
            (length self.new.connections.items ≡ length self.old.connections.items + 1) }
        ensures settings { self.new.sockets.settings ≡ self.old.sockets.settings }
        ensures places { self.new.sockets.places ≡ self.old.sockets.places }
        ensures listener { self.new.sockets.listener ≡ self.old.sockets.listener }
        ensures peer { IfOk result (λ address. standings_value self.new.sockets.standings
            ≡ after_joining (Some address) (standings_value self.old.sockets.standings) place
            (slice_get self.old.sockets.standings.places.items place)) }
        ensures admitted { IfOk result
            (λ address. is_allowed self.old.sockets.settings.allowed address ≡ true) }
        ensures failed { IfErr result IsPeerError }
    {
        let made = self.sockets.next_connection(place, patience, reception)?;
        self.connections.push(made.directions)?;
        Ok(made.address)
    }

    /// Takes another peer for each that has gone, until all are there.
    fn replace_gone<H: Reception>(
        &mut self,
        patience: Duration,
        reception: &mut H,
    ) -> Result<(), SocketsError>
        ensures count { OnOk result (length self.new.connections.items
            ≡ length self.old.connections.items) }
        ensures settings { self.new.sockets.settings ≡ self.old.sockets.settings }
        ensures places { self.new.sockets.places ≡ self.old.sockets.places }
        ensures listener { self.new.sockets.listener ≡ self.old.sockets.listener }
        ensures admitted { (count : ℕ)
            → HasAdmitted self.old.sockets.settings.allowed count
            (standings_value self.old.sockets.standings)
            → OnOk result (HasAdmitted self.old.sockets.settings.allowed count
            (standings_value self.new.sockets.standings)) }
        ensures failed { IfErr result IsPeerError }
    {
        'gone: for _ in 0..u64::MAX {
            let Some(place) = self.first_gone() else {
                return Ok(());
            };
            self.replace(place, patience, reception)?;
        }
        Err(SocketsError::NobodyConnected)
    }

    /// Takes another peer for the one at this place.
    fn replace<H: Reception>(
        &mut self,
        place: usize,
        patience: Duration,
        reception: &mut H,
    ) -> Result<(), SocketsError>
        requires { place < length self.old.connections.items }
        ensures count { length self.new.connections.items
            ≡ length self.old.connections.items }
        ensures settings { self.new.sockets.settings ≡ self.old.sockets.settings }
        ensures places { self.new.sockets.places ≡ self.old.sockets.places }
        ensures listener { self.new.sockets.listener ≡ self.old.sockets.listener }
        ensures admitted { (count : ℕ)
            → HasAdmitted self.old.sockets.settings.allowed count
            (standings_value self.old.sockets.standings)
            → OnOk result (HasAdmitted self.old.sockets.settings.allowed count
            (standings_value self.new.sockets.standings)) }
        ensures failed { IfErr result IsPeerError }
    {
        let wanted = self.connections.len();
        reception.left(place, self.sockets.standings.peer(place));
        reception.waits(wanted.saturating_sub(self.count_gone()), wanted);
        let made = self.sockets.next_connection(place, patience, reception)?;
        self.connections[place] = made.directions;
        reception.joined(place, made.address);
        Ok(())
    }

    /// Returns the first place whose peer has gone.
    fn first_gone(&self) -> Option<usize>
        ensures { IfSome result (λ place. place < length self.now.connections.items) }
    {
        'places: for place in 0..self.connections.len() {
            if self.connections[place].0.is_gone() {
                return Some(place);
            }
        }
        None
    }

    /// Returns how many peers have gone.
    fn count_gone(&self) -> usize {
        let mut count = 0usize;
        'places: for connection in self.connections.iter() {
            if connection.0.is_gone() {
                count = count.saturating_add(1);
            }
        }
        count
    }
}
