//! Comparisons of the records of a queue or of a spool with their expected characters.
ghost use Rattle.std.specs.Prelude.{◌≡◌, ◌↔◌, IsTrue, Some};
ghost use Rattle.std.specs.List.{slice_get};
ghost use Rattle.test_fixtures.specs.Records.{Begins, values};

use bsc_block::Records;
use std::alloc::Allocator;

/// Whether these are the characters of the record.
fn is_of(own: &[u8], chars: &[u8]) -> bool
    ensures { IsTrue result ↔ (own.now ≡ chars.now) }
{
    own == chars
}

/// Whether the expected characters at this place are those of the record.
#[tactic(auto, using(crate::proofs::Fronts::value_steps))]
fn has_at(expected: &[&[u8]], place: usize, own: &[u8]) -> bool
    ensures { IsTrue result ↔ (slice_get (values expected.now) place ≡ Some own.now) }
{
    place < expected.len() && is_of(own, expected[place])
}

/// Whether the records have the first of these characters, in order.
#[tactic(auto, using(crate::proofs::Fronts::front_more, crate::proofs::Fronts::front_at))]
pub fn are_front<A: Allocator>(records: &Records<A>, expected: &[&[u8]]) -> bool
    ensures { IsTrue result ↔ Begins records.now.items (values expected.now) }
{
    for place in 0..records.len() {
        if !has_at(expected, place, records.chars(place)) {
            return false;
        }
    }
    true
}

/// Whether the records have exactly these characters, in order.
pub fn are_records<A: Allocator>(records: &Records<A>, expected: &[&[u8]]) -> bool
    ensures { IsTrue result ↔ (records.now.items ≡ values expected.now) }
{
    records.len() == expected.len() && are_front(records, expected)
}
