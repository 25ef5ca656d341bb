//! A runtime for tests. What it prints is kept, its clock and its environment are set, its standard
//! output is a file that a test names, and peers connect to a station that tells that it listens.
//! Everything else is that of the system.

use std::alloc::{Allocator, Global};
use std::cell::{Cell, RefCell};
use std::env::FillError;
use std::fmt::Display;
use std::fs::{Metadata, OpenOptions};
use std::io;
use std::io::{Error, ErrorKind, Write};
use std::net::{Net, SocketAddr, TcpListener, TcpStream};
use std::rt::{Env, Files, HostRuntime};
use std::time::{Clock, Duration};

/// The path of standard output.
const STANDARD_OUTPUT: &str = "/dev/stdout";

/// The variable of the environment that tells the width of the terminal.
const COLUMNS: &str = "COLUMNS";

/// What stands before the address in the line that tells where a station listens.
const LISTENING: &str = "listening at ";

/// What stands before the address in the line that tells which peer was turned away.
const REFUSED: &str = "refused ";

/// The file that standard output is: the path whose kind is told, and the path that is opened.
pub(crate) type Taken = (&'static str, &'static str);

/// Standard output is no file.
pub(crate) const NO_FILE: Taken = ("/dev/null", "/dev/null");

/// The runtime.
#[derive(Drop)]
pub(crate) struct Fake<'a> {
    host: &'a HostRuntime,

    /// What standard output and standard error took, and whether they take what is printed.
    out: RefCell<Vec<u8>>,
    told: RefCell<Vec<u8>>,
    pub(crate) takes: Cell<bool>,

    /// The time in milliseconds, and whether the clock can be read.
    pub(crate) time: Cell<u64>,
    pub(crate) ticks: Cell<bool>,

    /// The width of the terminal that the environment tells.
    pub(crate) columns: Cell<Option<&'static str>>,

    /// The file that standard output is, and how often it was opened.
    taken: Taken,
    pub(crate) opened: Cell<usize>,

    /// The addresses of each host; those that the system knows if this has none.
    pub(crate) hosts: Cell<Option<[SocketAddr; 2]>>,

    /// How long the last attempt to connect might wait, if it was limited.
    pub(crate) patience: Cell<Option<Duration>>,

    /// How many peers connect once a station tells that it listens, and those that have.
    pub(crate) due: Cell<usize>,
    peers: RefCell<Vec<TcpStream>>,
}

impl<'a> Fake<'a> {
    /// Returns a runtime that has printed nothing, to which no peer connects.
    pub(crate) fn new(host: &'a HostRuntime, taken: Taken) -> Fake<'a> {
        let alloc = host.alloc();
        Fake {
            host,
            out: RefCell::new(Vec::new(alloc)),
            told: RefCell::new(Vec::new(alloc)),
            takes: Cell::new(true),
            time: Cell::new(0),
            ticks: Cell::new(true),
            columns: Cell::new(None),
            taken,
            opened: Cell::new(0),
            hosts: Cell::new(None),
            patience: Cell::new(None),
            due: Cell::new(0),
            peers: RefCell::new(Vec::new(alloc)),
        }
    }

    /// Returns what was printed on standard error, and forgets it.
    pub(crate) fn told(&self) -> Result<String, Error> {
        let mut told = self.told.try_borrow_mut()?;
        let mut text = String::new(self.host.alloc());
        if let Ok(told) = str::from_utf8(told.as_slice()) {
            text.push_str(told)?;
        }
        told.clear();
        Ok(text)
    }

    /// Whether this was printed on standard error, which is then forgotten.
    pub(crate) fn has_told(&self, text: &str) -> bool {
        match self.told() {
            Ok(told) => told.as_str() == text,
            Err(_) => false,
        }
    }

    /// Whether this was printed on standard output.
    pub(crate) fn has_printed(&self, octets: &[u8]) -> bool {
        match self.out.try_borrow() {
            Ok(out) => out.as_slice() == octets,
            Err(_) => false,
        }
    }

    /// Lets happen what follows the lines that are on standard error: peers connect to a station
    /// that listens, and half a minute passes when a peer is turned away.
    fn happens(&self) -> io::Result<()> {
        let told = self.told.try_borrow()?;
        let Ok(text) = str::from_utf8(told.as_slice()) else {
            return Ok(());
        };
        if !text.ends_with('\n') {
            return Ok(());
        }
        let Some(line) = text.lines().last() else {
            return Ok(());
        };
        if line.contains(REFUSED) {
            self.passes(30_000);
        }
        match address_in(line) {
            Some(address) => self.meets(address),
            None => Ok(()),
        }
    }

    /// Lets the peers that are due connect to this address.
    fn meets(&self, address: SocketAddr) -> io::Result<()> {
        let mut peers = self.peers.try_borrow_mut()?;
        for _ in 0..self.due.get() {
            peers.push(self.host.connect(address)?)?;
        }
        self.due.set(0);
        Ok(())
    }

    /// Lets this many milliseconds pass.
    fn passes(&self, time: u64) {
        self.time.set(self.time.get().saturating_add(time));
    }
}

/// Returns the address in the line that tells where a station listens.
fn address_in(line: &str) -> Option<SocketAddr> {
    match line.split_once(LISTENING) {
        Some((_, address)) => address.parse().ok(),
        None => None,
    }
}

impl Alloc for Fake<'_> {
    type A = Global;

    fn alloc(&self) -> Global {
        self.host.alloc()
    }
}

impl Eprint for Fake<'_> {
    fn eprint<D: Display + Drop>(&self, value: D) -> io::Result<()> {
        if !self.takes.get() {
            return Err(Error::from(ErrorKind::StorageFull));
        }
        write!(self.told.try_borrow_mut()?, "{value}")?;
        self.happens()
    }

    fn eprintln<D: Display + Drop>(&self, value: D) -> io::Result<()> {
        self.eprint(value)?;
        self.eprint("\n")
    }
}

impl Print for Fake<'_> {
    fn print<D: Display + Drop>(&self, value: D) -> io::Result<()> {
        write!(self.out.try_borrow_mut()?, "{value}")
    }

    fn println<D: Display + Drop>(&self, value: D) -> io::Result<()> {
        writeln!(self.out.try_borrow_mut()?, "{value}")
    }

    fn write_all(&self, octets: &[u8]) -> io::Result<()> {
        if !self.takes.get() {
            return Err(Error::from(ErrorKind::StorageFull));
        }
        self.out.try_borrow_mut()?.extend_from_slice(octets)?;
        Ok(())
    }
}

impl Clock for Fake<'_> {
    fn monotonic(&self) -> io::Result<Duration> {
        if !self.ticks.get() {
            return Err(Error::from(ErrorKind::Unsupported));
        }
        Ok(Duration::from_millis(self.time.get()))
    }

    fn since_1970(&self) -> io::Result<Duration> {
        Ok(Duration::ZERO)
    }

    fn sleep(&self, duration: Duration) {
        self.passes(u64::try_from(duration.as_millis()).unwrap_or(u64::MAX));
    }
}

impl Env for Fake<'_> {
    fn arg(&self, _place: usize, _buffer: &mut [u8]) -> Result<usize, FillError> {
        Err(FillError::NotPresent)
    }

    fn var(&self, name: &str, buffer: &mut [u8]) -> Result<usize, FillError> {
        if name != COLUMNS {
            return Err(FillError::NotPresent);
        }
        let Some(columns) = self.columns.get() else {
            return Err(FillError::NotPresent);
        };
        let count = columns.len();
        if buffer.len() < count {
            return Err(FillError::TooLong);
        }
        buffer[..count].copy_from_slice(columns.as_bytes());
        Ok(count)
    }

    fn var_at(&self, _place: usize, _buffer: &mut [u8]) -> Result<usize, FillError> {
        Err(FillError::NotPresent)
    }
}

impl Net for Fake<'_> {
    type Stream = TcpStream;

    type Listener = TcpListener;

    fn bind(&self, address: SocketAddr) -> io::Result<TcpListener> {
        self.host.bind(address)
    }

    fn connect(&self, address: SocketAddr) -> io::Result<TcpStream> {
        self.host.connect(address)
    }

    fn connect_timeout(&self, address: SocketAddr, patience: Duration) -> io::Result<TcpStream> {
        self.patience.set(Some(patience));
        self.host.connect_timeout(address, patience)
    }

    fn lookup_host(&self, host: &str, port: u16, found: &mut [SocketAddr]) -> io::Result<usize> {
        let Some(hosts) = self.hosts.get() else {
            return self.host.lookup_host(host, port, found);
        };
        let count = hosts.len().min(found.len());
        found[..count].copy_from_slice(&hosts[..count]);
        Ok(count)
    }
}

impl Files for Fake<'_> {
    type File = <HostRuntime as Files>::File;

    type Dir = <HostRuntime as Files>::Dir;

    fn open_file(&self, how: &OpenOptions, path: &str) -> io::Result<Self::File> {
        if path != STANDARD_OUTPUT {
            return self.host.open_file(how, path);
        }
        self.opened.set(self.opened.get().saturating_add(1));
        self.host.open_file(how, self.taken.1)
    }

    fn metadata(&self, path: &str) -> io::Result<Metadata> {
        if path != STANDARD_OUTPUT {
            return self.host.metadata(path);
        }
        self.host.metadata(self.taken.0)
    }

    fn open_dir(&self, path: &str) -> io::Result<Self::Dir> {
        self.host.open_dir(path)
    }

    fn symlink_metadata(&self, path: &str) -> io::Result<Metadata> {
        self.host.symlink_metadata(path)
    }

    fn copy(&self, from: &str, to: &str) -> io::Result<u64> {
        self.host.copy(from, to)
    }

    fn rename(&self, from: &str, to: &str) -> io::Result<()> {
        self.host.rename(from, to)
    }

    fn remove_file(&self, path: &str) -> io::Result<()> {
        self.host.remove_file(path)
    }

    fn create_dir(&self, path: &str) -> io::Result<()> {
        self.host.create_dir(path)
    }

    fn remove_dir(&self, path: &str) -> io::Result<()> {
        self.host.remove_dir(path)
    }

    fn remove_dir_all<B: Allocator>(&self, alloc: B, path: &str) -> io::Result<()> {
        self.host.remove_dir_all(alloc, path)
    }
}
