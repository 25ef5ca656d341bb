//! Programs that a station serves which keeps its records.

use crate::stations::{Quiet, control, line};
use crate::world::World;
use bsc_bid::Speaker;
use bsc_block::Record;
use bsc_connections::LiveError;
use bsc_control::Control;
use bsc_frame::Address;
use bsc_keeping::{Own, Stored, begin_control};
use bsc_serving::Serving;
use bsc_spool::{Change, Channel, Store};
use std::alloc::Global;
use std::test::Fail;
use test_fixtures::{Memory, on_heap};

/// Returns what keeps the records of a control station, which is made again from its store.
fn begun(
    alloc: Global,
    station: &mut Control<Global>,
    store: Memory,
) -> Result<Box<Stored<Memory, Quiet>>, Fail> {
    let config = line(alloc)?;
    let own = Own::of(alloc, &config, Speaker::Control)?;
    let keeper = begin_control(alloc, station, own, store, false)?;
    let printer = Quiet;
    Ok(Box::new(alloc, Stored { keeper, printer })?)
}

/// Serves the programs of a control station once, and returns the result.
fn served(alloc: Global, world: &World, store: Memory) -> Result<Result<bool, LiveError>, Fail> {
    let mut station = control(alloc)?;
    let mut stored = begun(alloc, &mut station, store)?;
    let mut serving = on_heap(alloc, Serving::new(alloc, world.scripted()))?;
    Ok(serving.serve(&mut *station, &mut *stored, &mut Quiet))
}

/// What programs say, each of which is served once, and what each has to be told.
type Talks = &'static [(&'static [u8], &'static [u8])];

/// A control station over a store: what the case shows, whether a record is in doubt on the second
/// channel to terminal 0, how many commits succeed, the talks, and the result of serving.
type Case = (&'static str, bool, u32, Talks, Result<bool, LiveError>);

const CASES: &[Case] = &[
    (
        "what is answered is kept",
        false,
        2,
        &[(
            b"offer to 0.1 ONE\noffer to 0.1 TWO\nrelease to 0.1 0\n",
            b"ok 0\nok 1\nfault not in doubt\n",
        )],
        Ok(false),
    ),
    (
        "a record that is not kept is not answered, and no program is served after it",
        false,
        1,
        &[
            (b"offer to 0 ONE\noffer to 0 TWO\n", b"ok 0\n"),
            (b"stop\n", b""),
        ],
        Err(LiveError::Unkept),
    ),
    (
        "a release is kept, but not one of a count that does not fit",
        true,
        100,
        &[(
            b"release to 0.1 2\nrelease to 0.1 1\nfollow to 0.1 0\n",
            b"fault count mismatch\nok\nok\ndelivered to 0.1 1\n",
        )],
        Ok(false),
    ),
    (
        "a release that is not kept is not answered",
        true,
        0,
        &[(b"release to 0.1 1\n", b"")],
        Err(LiveError::Unkept),
    ),
];

/// Returns the channel to terminal 0 at its second address.
fn second() -> Result<Channel, Fail> {
    let selection = Address::read(b"c")?;
    Ok(Channel::To { selection })
}

/// Returns the change by which a record is offered there.
fn offered() -> Result<Change, Fail> {
    let (channel, record) = (second()?, Record::read(b"ONE", 80)?);
    Ok(Change::Offered { channel, record })
}

/// Returns the change by which it is in doubt.
fn doubted() -> Result<Change, Fail> {
    let (channel, known, in_doubt) = (second()?, 0, 1);
    Ok(Change::Known {
        channel,
        known,
        in_doubt,
    })
}

/// Returns a store, with a record in doubt on the second channel or not, of which this many commits
/// succeed.
fn store_of(alloc: Global, is_doubtful: bool, left: u32) -> Result<Memory, Fail> {
    let mut store = Memory::new(alloc);
    if is_doubtful {
        store.commit(&[offered()?])?;
        store.commit(&[doubted()?])?;
    }
    store.left = left;
    Ok(store)
}

/// Whether serving has the result of the case, and the programs are told what they have to be told.
fn goes(alloc: Global, case: &Case) -> Result<bool, Fail> {
    let (_, is_doubtful, left, talks, due) = case;
    let world = World::new(alloc)?;
    world.connect(talks.len());
    for (number, (said, _)) in talks.iter().enumerate() {
        world.at(number)?.say(said)?;
    }
    let store = store_of(alloc, *is_doubtful, *left)?;
    Ok(served(alloc, &world, store)? == *due && are_told(&world, talks)?)
}

/// Whether each program was told what it has to be told.
fn are_told(world: &World, talks: Talks) -> Result<bool, Fail> {
    for (number, (_, told)) in talks.iter().enumerate() {
        if !world.at(number)?.was_told(told)? {
            return Ok(false);
        }
    }
    Ok(true)
}

#[test]
fn what_is_answered_is_kept(rt: HostRuntime) -> Result<(), Fail> {
    for case in CASES {
        assert!(rt; goes(rt.alloc(), case)?, "{}", case.0);
    }
    Ok(())
}
