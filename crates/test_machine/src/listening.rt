//! How the machine waits for peers, and what it tells of that.

use crate::connecting::{opened, wanted};
use crate::fake::{Fake, NO_FILE};
use bsc_attending::Wanted;
use bsc_options::Place;
use bsc_sockets::SocketsError;
use bsc_trust::{Network, Networks};
use std::net::TcpListener;
use std::rt::HostRuntime;
use std::test::Fail;

/// Where the station listens, at a port that the system chooses.
const HERE: Place<'static> = Place::Listen {
    address: "127.0.0.2:0",
};

/// Whether this is the line, which may have `~` in place of a port.
fn is_line(told: &str, line: &str) -> bool {
    let Some((front, back)) = line.split_once('~') else {
        return told == line;
    };
    match told.strip_prefix(front) {
        Some(rest) => rest != back && rest.trim_start_matches(is_digit) == back,
        None => false,
    }
}

/// Whether this is a digit of a port.
fn is_digit(character: char) -> bool {
    character.is_ascii_digit()
}

/// Whether these are the lines, which may have `~` in place of ports.
fn are_lines(told: &str, lines: &str) -> bool {
    let mut rest = lines.lines();
    for told in told.lines() {
        match rest.next() {
            Some(line) if is_line(told, line) => {}
            _ => return false,
        }
    }
    rest.next().is_none()
}

/// What the control station tells that waits for two terminals.
const CONTROL: &str = "listening at 127.0.0.2:~
waiting for terminals: 0 of 2 connected
connection 0 from 127.0.0.1:~ joined
waiting for terminals: 1 of 2 connected
connection 1 from 127.0.0.1:~ joined
";

/// What the control station tells that waits for nobody.
const AT_ONCE: &str = "listening at 127.0.0.2:~
";

/// What a terminal tells with a trace that waits for the control station.
const TRACED: &str = "+0 listening at 127.0.0.2:~
+0 waiting for the control station
+0 connection 0 from 127.0.0.1:~ joined
";

/// What a terminal tells that turns two peers away, after which its 60 seconds have passed.
const TURNED_AWAY: &str = "listening at 127.0.0.2:~
waiting for the control station
refused 127.0.0.1:~: its address is not allowed
refused 127.0.0.1:~: its address is not allowed
";

/// Peers from other addresses than those of the system.
fn elsewhere() -> Networks {
    match Network::read("10.0.0.0/8") {
        Ok(network) => Networks::new().with(network).unwrap_or(Networks::new()),
        Err(_) => Networks::new(),
    }
}

/// What is wanted of a machine, how many peers connect, how many connections it makes, and what it
/// tells, with `~` in place of each port.
type Waits = (
    Wanted<'static>,
    usize,
    Result<usize, SocketsError>,
    &'static str,
);

fn cases() -> [Waits; 4] {
    let one = wanted(HERE);
    let control = Wanted {
        connections: 2,
        begin_with: 2,
        stays: true,
        ..one
    };
    let at_once = Wanted {
        begin_with: 0,
        ..control
    };
    let traced = Wanted { trace: true, ..one };
    let closed = Wanted {
        allowed: elsewhere(),
        ..one
    };
    let nobody = Err(SocketsError::NobodyConnected);
    [
        (control, 2, Ok(2), CONTROL),
        (at_once, 0, Ok(0), AT_ONCE),
        (traced, 1, Ok(1), TRACED),
        (closed, 3, nobody, TURNED_AWAY),
    ]
}

/// Whether a machine waits as this says, and tells it.
fn is_told(host: &HostRuntime, waits: &Waits) -> Result<bool, Fail> {
    let (asked, peers, due, lines) = waits;
    let fake = Fake::new(host, NO_FILE);
    fake.due.set(*peers);
    let is_due = opened(&fake, asked) == *due;
    Ok(is_due && are_lines(fake.told()?.as_str(), lines))
}

#[test]
fn a_station_tells_how_it_waits(rt: HostRuntime) -> Result<(), Fail> {
    for waits in &cases() {
        assert!(rt; is_told(&rt, waits)?, "{}", waits.3);
    }
    Ok(())
}

#[test]
fn it_is_told_why_a_station_cannot_listen(rt: HostRuntime) -> Result<(), Fail> {
    let listener = TcpListener::bind(&rt, "127.0.0.4:0")?;
    let port = listener.local_addr()?.port();
    let text = format!(in rt.alloc(); "127.0.0.4:{port}")?;
    let fake = Fake::new(&rt, NO_FILE);
    for (address, due) in [
        (text.as_str(), SocketsError::AddressInUse),
        ("127.0.0.4", SocketsError::Address),
    ] {
        let result = opened(&fake, &wanted(Place::Listen { address }));
        assert!(rt; result == Err(due), "{address}");
    }
    assert!(rt; fake.has_told(""));
    Ok(())
}
