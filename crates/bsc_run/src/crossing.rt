//! Transfers octets over the cable.

ghost use Rattle.std.specs.Prelude.{◌≡◌, ◌≤◌, ◌<◌, length, map, option_map, OnOk, IfOk, IfErr};
ghost use Rattle.std.specs.Prelude.{IsSome};
ghost use Rattle.std.specs.Result.{result_err};
ghost use Rattle.bsc_carrier.specs.Record.{IsCarried};
ghost use Rattle.bsc_line_model.specs.Hearing.{octets_in};
ghost use Rattle.bsc_run.specs.Faults.{IsItemsFault};
ghost use Rattle.bsc_run.specs.Crossing.{connection_count, HasConnection, Crosses, ItemCrosses};
ghost use Rattle.bsc_run.specs.Crossing.{ItemsCross, streams_of};

use crate::error::StepError;
use bsc_bid::Speaker;
use bsc_carrier::{Cable, CarrierError, Octets};
use bsc_config::script::HeardOctets;
use std::alloc::{AllocError, Allocator};
use std::io::{Read, Write};

/// Sends octets over the cable from `speaker` to the stations that hear it, and stores the octets
/// that arrive in `heard`.
pub(crate) fn cross<S: Read + Write + Drop, A: Allocator>(
    cable: &mut Cable<S, A>,
    speaker: Speaker,
    octets: &[u8],
    heard: &mut Octets,
) -> Result<(), CarrierError>
    requires connected { HasConnection speaker cable.old }
    requires carried { IsCarried octets.now }
    ensures crossed { OnOk result
        (Crosses (streams_of S.contents S.remaining) speaker octets.now heard.new.items
        cable.old cable.new) }
    ensures count { connection_count cable.new ≡ connection_count cable.old }
    ensures fault { cable.new.fault ≡ result_err result }
{
    match speaker {
        Speaker::Control => cable.down(octets, heard),
        Speaker::Terminal { number } => cable.up(number, octets, heard),
    }
}

/// Sends each item over the connection with its number, one after another, and returns what arrived
/// for each.
pub(crate) fn cross_each<S: Read + Write + Drop, A: Allocator, B: Allocator, C: Allocator>(
    alloc: C,
    cable: &mut Cable<S, A>,
    items: &[Option<HeardOctets<B>>],
) -> Result<Vec<Option<Octets>, C>, StepError>
    requires { length items.now ≤ connection_count cable.old }
    ensures crossed { IfOk result (λ heard. ItemsCross (streams_of S.contents S.remaining)
        items.now (map (option_map (λ w. w.items)) heard.items) cable.old cable.new) }
    ensures faults { IfErr result (IsItemsFault cable.new.fault) }
    ensures count { connection_count cable.new ≡ connection_count cable.old }
{
    let mut heard = Vec::new(alloc);
    'items: for (terminal, item) in items.iter().enumerate() {
        let word = cross_item(cable, terminal, item)?;
        heard.push(word)?;
    }
    Ok(heard)
}

/// Sends an item over the connection with this number, and returns what arrived.
fn cross_item<S: Read + Write + Drop, A: Allocator, B: Allocator>(
    cable: &mut Cable<S, A>,
    terminal: usize,
    item: &Option<HeardOctets<B>>,
) -> Result<Option<Octets>, CarrierError>
    requires { terminal < connection_count cable.old }
    ensures crossed { IfOk result (λ word. ItemCrosses (streams_of S.contents S.remaining)
        terminal item.now (option_map (λ w. w.items) word) cable.old cable.new) }
    ensures count { connection_count cable.new ≡ connection_count cable.old }
    ensures fault { IfErr result (λ error. IsSome cable.new.fault) }
{
    match item {
        None => Ok(None),
        Some(sent) => {
            let mut heard = Octets::new();
            cable.down_to(terminal, sent.as_slice(), &mut heard)?;
            Ok(Some(heard))
        }
    }
}

/// Returns the octets of each word as a slice.
pub(crate) fn slices<'a, C: Allocator>(
    alloc: C,
    words: &'a [Option<Octets>],
) -> Result<Vec<Option<&'a [u8]>, C>, AllocError>
    ensures { IfOk result (λ slices.
        map octets_in slices.items ≡ map (option_map (λ w. w.items)) words.now) }
{
    let mut slices = Vec::new(alloc);
    'words: for word in words {
        slices.push(slice_of(word))?;
    }
    Ok(slices)
}

/// Returns the octets of a word as a slice.
fn slice_of(word: &Option<Octets>) -> Option<&[u8]>
    ensures { octets_in result ≡ option_map (λ w. w.items) word.now }
{
    match word {
        Some(octets) => Some(octets.as_slice()),
        None => None,
    }
}
