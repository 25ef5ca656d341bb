//! Two stations that exchange their records, each with a store and a monitor that prints at once,
//! and are begun again from their stores.

ghost use Rattle.std.specs.Prelude.{◌≡◌, ◌<◌, IfOk};

use crate::fakes::{Event, tell_event};
use bsc_bid::{Speaker, Station};
use bsc_block::Record;
use bsc_config::{Config, read_config};
use bsc_connections::{Decoded, LiveError, Monitor, Note, Pace};
use bsc_control::Control;
use bsc_frame::Wire;
use bsc_keeping::{Keeper, Keeping, Own, Prints, Stored, begin_control, begin_terminal};
use bsc_spool::StoreFault;
use bsc_station::{LineStation, LineTerminal, Party, new_control, new_terminal};
use std::alloc::Global;
use std::test::Fail;
use test_fixtures::Memory;
use test_fixtures::configurations::THREE_ADDRESSES;

/// Returns the configuration of the tests.
fn line(alloc: Global) -> Result<Config, Fail> {
    Ok(read_config(alloc, THREE_ADDRESSES.as_bytes())?)
}

/// A monitor that accepts everything, and knows of no channel what is printed.
#[derive(Drop)]
struct Quiet;

impl Prints for Quiet {
    ghost use Rattle.std.specs.Prelude.{None};

    ghost printed = { λ _ _. None };

    ghost prints = { λ _ _ _ _. Unit {0} };

    fn printed(&self, _number: usize) -> Option<usize> {
        None
    }

    fn print<P: Party>(&mut self, _station: &P) {}
}

impl<S> Monitor<S> for Quiet {
    ghost use Rattle.std.specs.Prelude.{true, false};
    ghost use Rattle.bsc_connections.specs.declared.awaited.Pace.TheVariants.{AtOnce};

    ghost has_ended = { λ _. false };

    ghost admits = { λ _ _ _ _. true };

    ghost may_answer = { λ _ _ _. true };

    ghost paces = { λ _. AtOnce };

    ghost is_told = { λ _ _ _ _ _. Unit {0} };

    fn note(&mut self, _station: &S, _note: Note<'_>) -> Result<bool, LiveError> {
        Ok(true)
    }

    fn admits(&self, _station: &S, _connection: usize, _transmission: &Decoded<'_>) -> bool {
        true
    }

    fn may_answer(&self, _station: &S, _connection: usize) -> bool {
        true
    }

    fn pace(&self) -> Pace {
        Pace::AtOnce
    }
}

/// A station whose records are kept in memory.
#[derive(Drop)]
struct Kept<S: Drop> {
    station: S,
    watch: Quiet,
    stored: Stored<Memory, Quiet>,
}

impl<S: LineStation + Drop> Kept<S> {
    /// Returns the station with its store, at which nothing has happened yet.
    fn new(station: S, keeper: Keeper<Memory>) -> Kept<S> {
        let stored = Stored {
            keeper,
            printer: Quiet,
        };
        Kept {
            station,
            watch: Quiet,
            stored,
        }
    }

    /// Hears these octets, and returns whether the wire has an answer that may be sent.
    fn hear(&mut self, octets: &[u8], wire: &mut Wire) -> Result<bool, LiveError> {
        let is_sent = self.station.hear(octets, wire);
        let connection = 0;
        self.tell(Event::Heard { connection, octets })?;
        Ok(is_sent)
    }

    /// Acts on a silence, and returns whether the wire has something that may be sent.
    fn silence(&mut self, wire: &mut Wire) -> Result<bool, LiveError> {
        let is_sent = self.station.silence(wire);
        self.tell(Event::Silence)?;
        Ok(is_sent)
    }

    /// Tells the monitor what happened.
    fn tell(&mut self, event: Event<'_>) -> Result<bool, LiveError> {
        let mut monitor = Keeping::new(&mut self.watch, &mut self.stored);
        tell_event(&self.station, &mut monitor, event)
    }

    /// Keeps a record that is offered to this selection address of this terminal, and returns it.
    fn offer(&mut self, terminal: usize, select: usize, new: Record) -> Result<Record, StoreFault> {
        self.stored.keeper.offer(terminal, select, new)
    }

    /// Returns why a step was not kept.
    fn fault(&self) -> Option<StoreFault> {
        self.stored.keeper.fault()
    }

    /// Ends the process of the station, and returns what outlives it.
    fn into_store(self) -> Memory {
        self.stored.keeper.into_store()
    }
}

/// Returns the control station of the line, made again from its store.
fn control(
    alloc: Global,
    config: &Config,
    store: Memory,
) -> Result<Box<Kept<Control<Global>>>, Fail> {
    let own = Own::of(alloc, config, Speaker::Control)?;
    let mut control = new_control(alloc, config)?;
    let keeper = begin_control(alloc, &mut control, own, store, false)?;
    Ok(Box::new(alloc, Kept::new(control, keeper))?)
}

/// Returns terminal 0 of the line, made again from its store.
fn terminal(
    alloc: Global,
    config: &Config,
    store: Memory,
) -> Result<Box<Kept<LineTerminal<Global>>>, Fail> {
    if config.terminals() == 0 {
        return Err(Fail::new("no terminal"));
    }
    let own = Own::of(alloc, config, Speaker::Terminal { number: 0 })?;
    let mut terminal = new_terminal(alloc, config, 0);
    let keeper = begin_terminal(alloc, &mut terminal, own, store, false)?;
    Ok(Box::new(alloc, Kept::new(terminal, keeper))?)
}

/// The record with this number, 0 to 999.
fn record(number: usize) -> Result<Record, Fail> {
    let digit = |unit: usize| b'0' + (number / unit % 10) as u8;
    Ok(Record::read(&[digit(100), digit(10), digit(1)], 80)?)
}

/// How many records each channel carries.
const RECORDS: usize = 12;

/// The control station and a terminal.
#[derive(Drop)]
struct Stations {
    control: Box<Kept<Control<Global>>>,
    terminal: Box<Kept<LineTerminal<Global>>>,
}

/// Returns the line whose stations begin with these stores.
fn line_of(alloc: Global, config: &Config, stores: (Memory, Memory)) -> Result<Stations, Fail> {
    let (outward, inward) = stores;
    Ok(Stations {
        control: control(alloc, config, outward)?,
        terminal: terminal(alloc, config, inward)?,
    })
}

/// Keeps all records for a selection address of terminal 0. Each is given back.
fn offer_all<S: LineStation + Drop>(station: &mut Kept<S>, select: usize) -> Result<(), Fail> {
    for number in 0..RECORDS {
        let given_back = station.offer(0, select, record(number)?)?;
        if given_back.chars() != record(number)?.chars() {
            return Err(Fail::new("another record"));
        }
    }
    Ok(())
}

/// Returns the line whose stations begin with all records to send in their stores.
fn line_to_send(alloc: Global, config: &Config) -> Result<Stations, Fail> {
    let mut line = line_of(alloc, config, (Memory::new(alloc), Memory::new(alloc)))?;
    offer_all(&mut *line.control, 0)?;
    offer_all(&mut *line.control, 1)?;
    offer_all(&mut *line.terminal, 0)?;
    line_of(alloc, config, stores_left_by(line))
}

/// Whether a station has received all records of the channel with this number, each once and in
/// order.
fn has_all<S: Party>(station: &S, number: usize) -> Result<bool, Fail> {
    if number >= station.spools() {
        return Ok(false);
    }
    let records = station.received(number).records;
    for place in 0..records.len() {
        if records.chars(place) != record(place)?.chars() {
            return Ok(false);
        }
    }
    Ok(records.len() == RECORDS)
}

/// Whether all records of the line have arrived.
fn arrived(line: &Stations) -> Result<bool, Fail> {
    let is_outward = has_all(&line.terminal.station, 0)? && has_all(&line.terminal.station, 1)?;
    Ok(is_outward && has_all(&line.control.station, 0)?)
}

/// Lets the control station act on a silence, and each station hear what the other one sends.
fn exchange(line: &mut Stations) -> Result<(), Fail> {
    let (mut wire, mut answer) = (Wire::new(), Wire::new());
    let mut is_sent = line.control.silence(&mut wire)?;
    for _ in 0..200u8 {
        if !is_sent || !line.terminal.hear(&wire, &mut answer)? {
            return Ok(());
        }
        wire = Wire::new();
        is_sent = line.control.hear(&answer, &mut wire)?;
        answer = Wire::new();
    }
    Ok(())
}

/// Ends the processes of both stations. Returns what outlives them.
fn stores_left_by(line: Stations) -> (Memory, Memory) {
    let Stations { control, terminal } = line;
    (
        Box::into_inner(control).into_store(),
        Box::into_inner(terminal).into_store(),
    )
}

/// Lets the stations exchange what they have to send, and returns whether all records have arrived.
fn exchanges(line: &mut Stations) -> Result<bool, Fail> {
    for _ in 0..100u8 {
        exchange(line)?;
    }
    arrived(line)
}

/// A record that was not kept as known would arrive twice.
#[test]
fn all_records_arrive_and_are_there_when_both_begin_again(rt: HostRuntime) -> Result<(), Fail> {
    let config = line(rt.alloc())?;
    let mut line = line_to_send(rt.alloc(), &config)?;
    assert!(rt; exchanges(&mut line)?);
    let mut again = line_of(rt.alloc(), &config, stores_left_by(line))?;
    assert!(rt; arrived(&again)? && exchanges(&mut again)?);
    Ok(())
}

/// The fault with which an offer for an address of terminal 0 fails at a store with so many commits
/// left, if the keeper has it too.
fn fault_of(
    alloc: Global,
    config: &Config,
    left: u32,
    select: usize,
) -> Result<Option<StoreFault>, Fail> {
    let record = record(9)?;
    let mut store = Memory::new(alloc);
    store.left = left;
    let mut station = control(alloc, config, store)?;
    let fault = station.offer(0, select, record).err();
    Ok(if station.fault() == fault {
        fault
    } else {
        None
    })
}

/// A store that is full, and an address that is not there.
#[test]
fn an_offer_is_refused_by_name(rt: HostRuntime) -> Result<(), Fail> {
    let config = line(rt.alloc())?;
    assert!(rt; fault_of(rt.alloc(), &config, 0, 0)? == Some(StoreFault::Full));
    assert!(rt; fault_of(rt.alloc(), &config, 9, 2)? == Some(StoreFault::Refused));
    Ok(())
}
