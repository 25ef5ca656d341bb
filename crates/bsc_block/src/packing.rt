//! Divides waiting records into blocks, and builds the text of a block.
ghost use Rattle.std.specs.Prelude.{◌≡◌, ◌+◌, ◌≤◌, ◌<◌, ◌≢◌, [], length, take, drop, Some};
ghost use Rattle.bsc_frame.specs.Texts.{IsUnit};
ghost use Rattle.bsc_frame.specs.Units.{text_unit};
ghost use Rattle.bsc_frame.specs.declared.message.Message.TheVariants as m;
ghost use Rattle.bsc_block.specs.Records.{IsRecord};
ghost use Rattle.bsc_block.specs.Blocks.{unit_of, cost as cost_of, taken, AreShort, IsTaken};
ghost use Rattle.bsc_block.specs.Blocks.{block_text};

use crate::limits::MIN_BLOCK_CHARS;
use crate::{Format, Records};
use bsc_frame::limits::MAX_UNITS;
use bsc_frame::{End, MessageBuffer, Unit};
use std::alloc::Allocator;

/// Returns how many of the waiting records, those from a place on, go into the next block: as many
/// from the front as fit its limit, and at most seven; 0 if no record waits. No record may be
/// longer than the full length.
pub fn pack<A: Allocator>(records: &Records<A>, from: usize, format: Format) -> usize
    requires there { from ≤ length records.now.items }
    requires short { AreShort format.full records.now.items }
    ensures value { result ≡ taken format (drop from records.now.items) }
    ensures greatest { IsTaken format (drop from records.now.items) result }
    ensures some { drop from records.now.items ≢ [] → 1 ≤ result }
{
    let waiting = records.len() - from;
    let limit = usize::from(format.block_chars());
    let mut total = 0;
    for count in 0..waiting {
        total += cost(records.chars(from + count), format);
        if count == MAX_UNITS || total > limit {
            return count;
        }
    }
    waiting
}

/// Returns what a record of these characters counts in a block: its characters, the ending
/// character, and EM if it is marked.
fn cost(chars: &[u8], format: Format) -> usize
    requires { IsRecord chars.now }
    ensures value { result ≡ cost_of format chars.now }
    ensures bound { result ≤ MIN_BLOCK_CHARS }
{
    let unit = unit(chars, format);
    unit.chars.len() + 1 + usize::from(unit.em)
}

/// Returns the unit of a record of these characters. It is marked by EM if the record is shorter
/// than the full length.
fn unit(chars: &[u8], format: Format) -> Unit<'_>
    requires { IsRecord chars.now }
    ensures value { text_unit result ≡ unit_of format.full chars.now }
    ensures unit { IsUnit (text_unit result) }
{
    Unit {
        chars,
        em: chars.len() < usize::from(format.full()),
    }
}

/// Puts the text of 1 to 7 records, `count` of them from a place on, with this end, into `message`,
/// whatever was there (GA27-3004: text and intermediate text blocks). No record may be longer than
/// the full length.
pub fn build<A: Allocator>(
    records: &Records<A>,
    from: usize,
    count: usize,
    format: Format,
    end: End,
    message: &mut MessageBuffer,
)
    requires some { 1 ≤ count }
    requires few { count ≤ MAX_UNITS }
    requires there { from + count ≤ length records.now.items }
    requires short { AreShort format.full records.now.items }
    ensures { message.new
        ≡ Some (m.Text
        (block_text format (take count (drop from records.now.items)) end)) }
{
    let mut units = [Unit {
        chars: &[],
        em: false,
    }; MAX_UNITS];
    prove!(count <= records.len() - from);
    for place in 0..count {
        units[place] = unit(records.chars(from + place), format);
    }
    message.set_text(&units[..count], end);
}
