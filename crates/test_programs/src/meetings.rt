//! Programs that connect to a station, send and are told.
//!
//! A scene is a text: what it shows, an arrow, and its acts, with semicolons between them. An act
//! is a word, a place or the number of a program N, and octets X.
//!
//! | act | what happens, or what holds then |
//! |---|---|
//! | `connects`, `comes N` | a program connects; and is taken at place N when the wait ends |
//! | `waits`, `quiet` | the descriptor is reported, and the station asks; or it is not reported |
//! | `asks` | the station asks what has happened |
//! | `newcomer`, `tells N` | it is told next of programs that have connected, or of place N |
//! | `each N`, `nothing` | it is told of the first N places and of no more, or of nothing |
//! | `takes N` | the only program that has connected is taken at place N |
//! | `turns-away`, `nobody` | a program is turned away, or nobody is there |
//! | `calls` | the next wait is to end |
//! | `says N X`, `hears N X` | program N says X, or hears it, which is its end if it is nothing |
//! | `reads N X`, `idle N` | the station reads X of program N, or nothing that is there yet |
//! | `writes N X`, `fills N` | it writes X to program N, or all that the system takes at once |
//! | `ends`, `closes` | the last program ends its connection, or the station does |

use crate::acts::{number, split};
use crate::sockets::{Program, Station, at, connects, fails_at_last, hears, hears_nothing, sends};
use bsc_clients::{ServedAt, Stream};
use bsc_serving::{Called, Programs};
use std::io::ErrorKind;
use std::net::TcpStream;
use std::test::Fail;
use std::time::Duration;

/// Scenes at an address.
const SCENES: &[&str] = &[
    "a newcomer is told of once whenever the station asks, until it is taken once => \
    connects; waits; newcomer; nothing; asks; newcomer; nothing; takes 5",
    "a program is heard and told at the last place, and hears the end => \
    comes 63; waits; tells 63; nothing; idle 0; says 0 status\n; waits; tells 63; nothing; \
    reads 0 status\n; writes 0 ok\n; hears 0 ok\n; closes; hears 0",
    "a program that ends reads as an end => comes 0; ends; waits; tells 0; nothing; reads 0",
    "a write does not wait: the system takes no more when its buffers are full => comes 0; fills 0",
    // What the last program hears was sent after all that was said has arrived.
    "six programs that say something at once are all told of at once, the first place first => \
    comes 5; comes 4; comes 3; comes 2; comes 1; comes 0; asks; each 6; says 0 A; says 1 A; \
    says 2 A; says 3 A; says 4 A; says 5 A; writes 5 ok\n; hears 5 ok\n; asks; each 6",
    "a program that is turned away is told why, and nobody is before one connects => \
    nobody; connects; waits; turns-away; nobody; hears 0 fault every place is taken\n; hears 0",
    "a call ends one wait and tells nothing => \
    quiet; calls; waits; nothing; quiet; calls; waits",
];

/// Scenes at a path.
const AT_A_PATH: &[&str] = &[
    "a program is heard and told => comes 1; idle 0; says 0 stop\n; waits; reads 0 stop\n; \
    writes 0 ok\n; hears 0 ok\n; closes; hears 0",
    "a program that is turned away is told why, whatever it has said => connects; \
    says 0 status\n; waits; turns-away; hears 0 fault every place is taken\n; hears 0",
];

/// A station, the connections of its programs, and the programs.
#[derive(Drop)]
struct Stage<'a> {
    rt: &'a HostRuntime,
    station: Station<'a>,
    streams: Vec<Stream>,
    programs: Vec<Program>,
}

impl Stage<'_> {
    /// Whether this act goes as it says.
    fn goes(&mut self, act: &str) -> Result<bool, Fail> {
        let (word, rest) = split(act);
        match word {
            "connects" => self.connect(),
            "comes" => Ok(self.connect()? && self.is_called()? && self.takes(number(rest)?)),
            "takes" => Ok(self.takes(number(rest)?)),
            "waits" => self.is_called(),
            "quiet" => Ok(!self.station.is_called_within(Duration::ZERO)?),
            "ends" => Ok(self.programs.pop().is_some()),
            "closes" => Ok(self.streams.pop().is_some()),
            "tells" => Ok(tells(&mut self.station.clients, number(rest)?)),
            "each" => Ok(tells_each(&mut self.station.clients, number(rest)?)),
            _ if rest.is_empty() => station_goes(&mut self.station.clients, word),
            _ => self.moves(word, rest),
        }
    }

    /// Whether octets are moved between a program and the station.
    fn moves(&mut self, word: &str, rest: &str) -> Result<bool, Fail> {
        let (place, octets) = split(rest);
        let (place, octets) = (number(place)?, octets.as_bytes());
        match word {
            "says" => Ok(sends(&mut self.program(place)?.said, octets)),
            "hears" => Ok(hears(&mut self.program(place)?.heard, octets)),
            "reads" => Ok(hears(self.stream(place)?, octets)),
            "writes" => Ok(sends(self.stream(place)?, octets)),
            "idle" => Ok(hears_nothing(self.stream(place)?)),
            "fills" => Ok(fails_at_last(self.stream(place)?) == Some(ErrorKind::WouldBlock)),
            _ => Err(Fail::new("no act")),
        }
    }

    /// Returns a program.
    fn program(&mut self, number: usize) -> Result<&mut Program, Fail> {
        match self.programs.get_mut(number) {
            Some(program) => Ok(program),
            None => Err(Fail::new("no such program")),
        }
    }

    /// Returns the connection of a program at the station.
    fn stream(&mut self, number: usize) -> Result<&mut Stream, Fail> {
        match self.streams.get_mut(number) {
            Some(stream) => Ok(stream),
            None => Err(Fail::new("no such connection")),
        }
    }

    /// Lets a program connect, and returns true.
    fn connect(&mut self) -> Result<bool, Fail> {
        let address = self.station.clients.address();
        self.programs.push(connects(self.rt, address, PATH)?)?;
        Ok(true)
    }

    /// Whether the descriptor is reported soon.
    fn is_called(&mut self) -> Result<bool, Fail> {
        self.station.is_called_within(Duration::from_secs(10))
    }

    /// Whether the only program that has connected is taken at this place.
    fn takes(&mut self, place: usize) -> bool {
        match takes_one(&mut self.station.clients, place) {
            Some(stream) => self.streams.push(stream).is_ok(),
            None => false,
        }
    }
}

/// Takes the only program that has connected at this place; None if there are others or none.
fn takes_one<P: Programs>(programs: &mut P, place: usize) -> Option<P::Stream> {
    let stream = programs.accept(place)?;
    match programs.accept(place) {
        Some(_) => None,
        None => Some(stream),
    }
}

/// Whether the station is told next of the program at this place.
fn tells<P: Programs>(programs: &mut P, place: usize) -> bool {
    programs.next() == Some(Called::Program { place })
}

/// Whether the station is told next of the programs at the first places, and of no others.
fn tells_each<P: Programs>(programs: &mut P, count: usize) -> bool {
    for place in 0..count {
        if !tells(programs, place) {
            return false;
        }
    }
    programs.next().is_none()
}

/// Whether an act of a station goes as it says.
fn station_goes<P: Programs>(programs: &mut P, word: &str) -> Result<bool, Fail> {
    match word {
        "asks" => programs.ask(),
        "calls" => programs.call(),
        "newcomer" => return Ok(programs.next() == Some(Called::Newcomer)),
        "nothing" => return Ok(programs.next().is_none()),
        "turns-away" => return Ok(programs.turn_away()),
        "nobody" => return Ok(!programs.turn_away()),
        _ => return Err(Fail::new("no act")),
    }
    Ok(true)
}

/// The path of the scenes at a path.
const PATH: &str = "served";

/// Whether all acts of a scene go as they say.
fn all_go(rt: &HostRuntime, place: ServedAt<'_>, scene: &str) -> Result<bool, Fail> {
    let (_, acts) = scene.split_once(" => ").unwrap_or(("", ""));
    let mut stage = Stage {
        rt,
        station: Station::listens(rt, place)?,
        streams: Vec::new(rt.alloc()),
        programs: Vec::new(rt.alloc()),
    };
    for act in acts.split(';') {
        if !stage.goes(act.strip_prefix(" ").unwrap_or(act))? {
            return Ok(false);
        }
    }
    Ok(true)
}

#[test]
fn programs_and_a_station_meet(rt: HostRuntime) -> Result<(), Fail> {
    for scene in SCENES {
        assert!(rt; all_go(&rt, at("127.0.0.1:0", false), scene)?, "{scene}");
    }
    for scene in AT_A_PATH {
        let place = ServedAt::Path { path: PATH };
        assert!(rt; all_go(&rt, place, scene)?, "{scene}");
    }
    Ok(())
}
