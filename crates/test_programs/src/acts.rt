//! Scenes: what programs do at a control station, and what has to come of it.
//!
//! A scene is a text: what it shows, an arrow, and its acts, with semicolons between them. An act
//! is a word, the number of a program unless it is of all programs, and a number N or octets X.
//!
//! | act | what happens, or what holds then |
//! |---|---|
//! | `connect N` | the first N programs have connected |
//! | `say P X`, `often P N X` | program P says X, or says it N times |
//! | `asks P X` | program P says X, and all are served 20 times |
//! | `each N X` | the system tells of the first N programs, which say X |
//! | `end P`, `reset P` | program P ends its side, or its connection is reset |
//! | `piece P N` | a read or a write of P moves N octets at most from now on |
//! | `room P N` | program P takes N octets more, and no others |
//! | `serve N` | all are served N times, and none asks the station to end |
//! | `stops N` | all are served until one asks the station to end, at most N times |
//! | `arrive X` | the record X arrives from terminal 0 |
//! | `told P X` | program P was told exactly X since the last `told P` |
//! | `lines P N`, `fewer P N` | program P was told N lines, or fewer |
//! | `unread P N` | N octets of P were not read |
//! | `moves P N` | there were N reads and writes of P |
//! | `away N` | N programs were turned away |
//! | `calls N`, `under N` | the next wait was to end at once N times, or fewer |

use crate::stations::{Quiet, control};
use crate::world::{Program, Scripted, World};
use bsc_bid::Station;
use bsc_block::Record;
use bsc_control::Control;
use bsc_serving::Serving;
use bsc_station::LineStation;
use std::alloc::Global;
use std::test::Fail;
use test_fixtures::on_heap;

/// Fails unless all acts of each scene hold.
pub(crate) fn play(alloc: Global, scenes: &[&'static str]) -> Result<(), Fail> {
    for scene in scenes {
        let (_, acts) = scene.split_once(" => ").unwrap_or(("", ""));
        if !all_hold(alloc, acts)? {
            return Err(Fail::new(*scene));
        }
    }
    Ok(())
}

/// Plays acts, and returns whether each of them holds.
pub(crate) fn all_hold(alloc: Global, acts: &str) -> Result<bool, Fail> {
    let world = World::new(alloc)?;
    all_hold_in(alloc, &world, acts)
}

/// Plays acts in this world, and returns whether each of them holds.
fn all_hold_in(alloc: Global, world: &World, acts: &str) -> Result<bool, Fail> {
    let mut station = control(alloc)?;
    let mut serving = on_heap(alloc, Serving::new(alloc, world.scripted()))?;
    for act in acts.split(';') {
        let act = act.strip_prefix(" ").unwrap_or(act);
        if !holds(world, &mut serving, &mut station, act)? {
            return Ok(false);
        }
    }
    Ok(true)
}

/// Returns the first word of a text, and what follows the space after it.
pub(crate) fn split(text: &str) -> (&str, &str) {
    text.split_once(' ').unwrap_or((text, ""))
}

/// Returns a number.
pub(crate) fn number(text: &str) -> Result<usize, Fail> {
    match text.parse() {
        Ok(number) => Ok(number),
        Err(_) => Err(Fail::new("no number")),
    }
}

/// Plays one act, and returns whether it holds.
fn holds(
    world: &World,
    serving: &mut Serving<Scripted<'_>>,
    station: &mut Control<Global>,
    act: &str,
) -> Result<bool, Fail> {
    let (word, rest) = split(act);
    match word {
        "connect" => world.connect(number(rest)?),
        "serve" => return Ok(!is_stopped(serving, station, number(rest)?)?),
        "stops" => return is_stopped(serving, station, number(rest)?),
        "arrive" => return arrives(station, rest.as_bytes()),
        "away" => return Ok(world.turned_away.get() == number(rest)?),
        "calls" => return Ok(world.calls.get() == number(rest)?),
        "under" => return Ok(world.calls.get() < number(rest)?),
        "asks" => {
            let (program, octets) = split(rest);
            world.at(number(program)?)?.say(octets.as_bytes())?;
            return Ok(!is_stopped(serving, station, 20)?);
        }
        "each" => {
            let (count, octets) = split(rest);
            for program in 0..number(count)? {
                world.at(program)?.say(octets.as_bytes())?;
            }
        }
        _ => {
            let (program, rest) = split(rest);
            return shows(world.at(number(program)?)?, word, rest);
        }
    }
    Ok(true)
}

/// Serves the programs until one asks the station to end, at most this many times. Returns whether
/// one does.
pub(crate) fn is_stopped<S: LineStation>(
    serving: &mut Serving<Scripted<'_>>,
    station: &mut S,
    times: usize,
) -> Result<bool, Fail> {
    for _ in 0..times {
        if serving.serve(station, &mut Quiet, &mut Quiet)? {
            return Ok(true);
        }
    }
    Ok(false)
}

/// Lets a record arrive from terminal 0 of a control station, and returns whether it did.
fn arrives(control: &mut Control<Global>, chars: &[u8]) -> Result<bool, Fail> {
    if control.terminals() == 0 {
        return Ok(false);
    }
    Ok(control.keep_arrived(0, Record::read(chars, 144)?).is_ok())
}

/// Plays an act of one program, in which nobody is served, and returns whether it holds.
fn shows(program: &Program, word: &str, rest: &str) -> Result<bool, Fail> {
    match word {
        "say" => program.say(rest.as_bytes())?,
        "often" => {
            let (times, octets) = split(rest);
            program.say_often(octets.as_bytes(), number(times)?)?;
        }
        "end" => program.end(),
        "reset" => program.reset(),
        "piece" => program.piece.set(number(rest)?),
        "room" => program.make_room(number(rest)?),
        "told" => return program.was_told(rest.as_bytes()),
        "lines" => return Ok(program.lines() == number(rest)?),
        "fewer" => return Ok(program.lines() < number(rest)?),
        "unread" => return Ok(program.unread() == number(rest)?),
        "moves" => return Ok(program.calls.get() == number(rest)?),
        _ => return Err(Fail::new("no act")),
    }
    Ok(true)
}
