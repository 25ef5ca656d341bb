//! A peer that sends and ends its connection at once, and peers that take vacant places: a station
//! that answers every message, and a monitor that records what it is told.

use crate::meeting::{QUIET, Untold, begin, bound, peer, peers, peers_of};
use bsc_bid::Station;
use bsc_carrier::CarrierError;
use bsc_connections::{
    Connection, Decoded, Framing, Gaps, LiveError, Monitor, Note, Pace, SocketRecords, attend,
};
use bsc_frame::{Heard, MessageBuffer, Reply};
use bsc_sockets::{Begun, Listening, Peers};
use std::alloc::{AllocError, Global};
use std::io;
use std::io::{Read, Write};
use std::net::{Shutdown, SocketAddr, TcpStream};
use std::test::Fail;

/// Answers a message with ACK0 and a failed text with NAK, and sends EOT after a silence.
#[derive(Drop)]
struct Answers;

impl Station for Answers {
    ghost use Rattle.std.specs.Prelude.{◌≡◌, ⊤, None, false, refl};
    ghost use Rattle.bsc_frame.specs.declared.message.Heard.TheVariants.{Noise};

    ghost hears = { λ old heard new sent. heard ≡ Noise → (new ≡ old) × (sent ≡ None) };

    ghost acts = { λ _ _ _. ⊤ };

    ghost holds = { λ _. false };

    fn answer(&mut self, heard: &Heard<'_>, sent: &mut MessageBuffer) {
        match heard {
            Heard::Noise => sent.clear(),
            Heard::Failed => sent.set_reply(Reply::Nak),
            Heard::Whole(_) => sent.set_reply(Reply::Ack0),
        }
    }

    fn act(&mut self, sent: &mut MessageBuffer) {
        sent.set_eot();
    }

    fn holds_line(&self) -> bool {
        false
    }

    ghost ignores_noise = { λ old new sent hears. hears refl };
}

/// Records what it is told, and ends the station once that is what has to be told.
#[derive(Drop)]
struct Records {
    /// What it was told: of octets their number, and of a connection its place.
    told: String,

    /// What has to be told.
    due: &'static str,

    has_ended: bool,
}

impl Records {
    /// Has been told nothing of this yet.
    fn new(alloc: Global, due: &'static str) -> Records {
        Records {
            told: String::new(alloc),
            due,
            has_ended: false,
        }
    }
}

/// Records a note.
fn tell(told: &mut String, note: &Note<'_>) {
    let _ = match *note {
        Note::Heard {
            connection,
            transmission,
        } => {
            let count = transmission.octets().len();
            write!(told, "heard {connection} {count}; ")
        }
        Note::Silence => write!(told, "silence; "),
        Note::Sent { transmission } => {
            let count = transmission.octets().len();
            write!(told, "sent {count}; ")
        }
        Note::Closed {
            connection,
            why: Some(why),
            ..
        } => write!(told, "closed {connection}, {why}; "),
        Note::Closed { connection, .. } => write!(told, "closed {connection}; "),
        Note::Joined {
            connection,
            replaces,
            ..
        } => write!(told, "joined {connection} {replaces}; "),
        Note::Refused { .. } => write!(told, "refused; "),
        _ => write!(told, "something else; "),
    };
}

impl Monitor<Answers> for Records {
    ghost use Rattle.std.specs.Prelude.{true};
    ghost use Rattle.bsc_connections.specs.declared.awaited.Pace.TheVariants.{AtOnce};

    ghost has_ended = { λ records. records.has_ended };

    ghost admits = { λ _ _ _ _. true };

    ghost may_answer = { λ _ _ _. true };

    ghost paces = { λ _. AtOnce };

    ghost is_told = { λ _ _ _ _ _. Unit {0} };

    fn note(&mut self, _station: &Answers, note: Note<'_>) -> Result<bool, LiveError> {
        tell(&mut self.told, &note);
        if self.told.as_str() == self.due {
            self.has_ended = true;
        }
        Ok(!self.has_ended)
    }

    fn admits(&self, _station: &Answers, _connection: usize, _transmission: &Decoded<'_>) -> bool {
        true
    }

    fn may_answer(&self, _station: &Answers, _connection: usize) -> bool {
        true
    }

    fn pace(&self) -> Pace {
        Pace::AtOnce
    }
}

/// A peer that has connected to this address, sent these octets, and ended its connection so.
fn ended(
    rt: &HostRuntime,
    address: SocketAddr,
    octets: &[u8],
    how: Shutdown,
) -> io::Result<TcpStream> {
    let mut peer = peer(rt, address)?;
    peer.write_all(octets)?;
    peer.shutdown(how)?;
    Ok(peer)
}

/// These connections with this framing.
fn framed<R: Read + Drop, W: Write + Drop, F: Framing + Drop>(
    alloc: Global,
    connections: Vec<(R, W)>,
) -> Result<Vec<Connection<R, W, F>>, AllocError> {
    let mut framed = Vec::new(alloc);
    for (reader, writer) in connections {
        framed.push(Connection::new(reader, writer))?;
    }
    Ok(framed)
}

/// Attends a station over the connection of one peer of this listener, until it was told this or
/// what it waits for fails. Returns whether it was told.
fn is_told<F: Framing + Drop>(
    rt: &HostRuntime,
    alloc: Global,
    listening: Listening,
    due: &'static str,
) -> Result<bool, Fail> {
    let settings = QUIET.settings();
    let begun = begin(rt, alloc, listening, peers(1), settings, &mut Untold)?;
    let Begun {
        mut sockets,
        connections,
    } = Box::into_inner(begun);
    let mut raw = framed::<_, _, F>(alloc, connections)?;
    let mut monitor = Records::new(alloc, due);
    Ok(attend(&mut Answers, &mut raw, &mut sockets, &mut monitor) == Ok(()))
}

/// Fails unless a station is told this of a peer that sends these octets and ends so.
fn hears<F: Framing + Drop>(
    rt: &HostRuntime,
    octets: &[u8],
    how: Shutdown,
    due: &'static str,
) -> Result<(), Fail> {
    let (listening, address) = bound(rt)?;
    let _peer = ended(rt, address, octets, how)?;
    if is_told::<F>(rt, rt.alloc(), listening, due)? {
        Ok(())
    } else {
        Err(Fail::new(due))
    }
}

/// A peer that reads no answer ends both directions, and one that reads an answer ends its own.
/// Noise is not answered, and EOT is. Of a transmission without a length 2,049 octets are heard.
#[test]
fn what_a_peer_sent_before_it_ended_is_heard(rt: HostRuntime) -> Result<(), Fail> {
    let (end, answered) = (Shutdown::Write, "heard 0 4; sent 5; closed 0; ");
    hears::<Gaps>(&rt, &[0x16, 0x16], Shutdown::Both, "heard 0 2; closed 0; ")?;
    hears::<Gaps>(&rt, &[0x16, 0x16, 0x04, 0xff], end, answered)?;
    hears::<Gaps>(&rt, &[0x55; 3_000], end, "heard 0 2049; closed 0; ")?;
    hears::<SocketRecords>(&rt, &[0, 4, 0x16, 0x16, 0x04, 0xff], end, answered)
}

/// The longest record and the shortest are heard, a longer one closes the connection, and so does
/// the end within a record.
#[test]
fn records_of_each_length_are_heard(rt: HostRuntime) -> Result<(), Fail> {
    let mut octets = [0x55; 2_055];
    octets[..2].copy_from_slice(&[8, 0]);
    octets[2_050..].copy_from_slice(&[0, 1, 0x55, 8, 1]);
    let due = "heard 0 2048; heard 0 1; closed 0, the length of a record is wrong; ";
    hears::<SocketRecords>(&rt, &octets, Shutdown::Write, due)?;
    let due = "closed 0, the input ended within a record; ";
    hears::<SocketRecords>(&rt, &[0], Shutdown::Write, due)?;
    let refused = SocketRecords::write(&mut Vec::<u8>::new(rt.alloc()), &[]);
    assert!(rt; refused == Err(CarrierError::Length));
    Ok(())
}

/// Whether of three peers that connect to a station with two vacant places the first two get these,
/// in order, and the third none.
fn are_taken(rt: &HostRuntime, listening: Listening) -> Result<bool, Fail> {
    let two = Peers {
        begin_with: 0,
        ..peers(2)
    };
    let begun = begin(
        rt,
        rt.alloc(),
        listening,
        two,
        QUIET.settings(),
        &mut Untold,
    )?;
    let Begun { mut sockets, .. } = Box::into_inner(begun);
    let mut vacant = Vec::new(rt.alloc());
    for _ in 0..2u8 {
        vacant.push(Connection::<_, _, SocketRecords>::vacant())?;
    }
    let mut monitor = Records::new(rt.alloc(), "joined 0 false; joined 1 false; refused; ");
    Ok(attend(&mut Answers, &mut vacant, &mut sockets, &mut monitor) == Ok(()))
}

#[test]
fn newcomers_take_vacant_places(rt: HostRuntime) -> Result<(), Fail> {
    let (listening, address) = bound(&rt)?;
    let _peers = peers_of(&rt, rt.alloc(), address, 3)?;
    assert!(rt; are_taken(&rt, listening)?);
    Ok(())
}
