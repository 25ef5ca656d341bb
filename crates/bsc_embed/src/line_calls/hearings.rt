//! Each terminal hears a transmission in its own way.

ghost use Rattle.bsc_embed.specs.LineHearings.{CarriesEach};

use crate::interface::Fault;
use bsc_bid::limits::MAX_TERMINALS;
use bsc_line::Line;
use std::alloc::Global;

/// The length that stands for a loss: a terminal with it hears nothing.
pub const LOST: usize = usize::MAX;

/// Lets each terminal hear its own piece of these octets, which are cut one after the other: a
/// length for each terminal, in the order of their numbers; `LOST` means that the transmission is
/// lost there. Faults, in this order: `WrongCount` if there are more than 64 lengths, or if those
/// that are not `LOST` do not add up to the number of the octets; `NothingSent` if nothing is
/// pending; `NotControl` if a terminal's transmission is pending; `WrongCount` if the number of
/// lengths is not that of the terminals.
pub fn carry_each(line: &mut Line<Global>, octets: &[u8], lengths: &[usize]) -> Result<(), Fault>
    ensures { CarriesEach octets.now lengths.now line.old line.new result }
{
    if lengths.len() > MAX_TERMINALS {
        return Err(Fault::WrongCount);
    }
    let mut items: [Option<&[u8]>; MAX_TERMINALS] = [None; MAX_TERMINALS];
    let mut rest = octets;
    for (place, length) in lengths.iter().enumerate() {
        if *length == LOST {
            items[place] = None;
        } else {
            if *length > rest.len() {
                return Err(Fault::WrongCount);
            }
            items[place] = Some(&rest[..*length]);
            rest = &rest[*length..];
        }
    }
    if !rest.is_empty() {
        return Err(Fault::WrongCount);
    }
    line.carry_each(&items[..lengths.len()])?;
    Ok(())
}
