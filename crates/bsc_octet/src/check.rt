//! The check of a unit: one octet, which carries the longitudinal sum of the unit with odd parity
//! (GA27-3004: longitudinal redundancy checking).
ghost use Rattle.std.specs.Prelude.{◌≡◌, ◌≤◌, ◌+◌, ◌++◌, take};
ghost use Rattle.std.specs.Option.{option_copied};
ghost use Rattle.bsc_octet.specs.Octet.{odd_octet, longitudinal_sum};
ghost use Rattle.bsc_octet.specs.Check.{check, after_check};

use crate::longitudinal::sum;
use crate::parity::to_line;

/// The number of octets of a check.
pub const CHECK_OCTETS: usize = 1;

/// Returns the check of the codes: the octet that carries their sum.
#[tactic(auto, using(crate::proofs::Checks::check_no, crate::proofs::Checks::check_is))]
fn check_of(codes: &[u8]) -> u8
    ensures { result ≡ odd_octet (longitudinal_sum codes.now) }
{
    let Some(check) = to_line(sum(codes)) else {
        unreachable!();
    };
    check
}

/// Writes the check of the first `count` octets, or of the codes that they carry, after them and
/// returns the new count.
#[tactic(auto, using(std::proofs::lemmas::List::take_more_set))]
pub fn put_check<const N: usize>(octets: &mut [u8; N], count: usize) -> usize
    requires { count + CHECK_OCTETS ≤ N }
    ensures octets { take result octets.new
        ≡ take count octets.old ++ check (take count octets.old) }
    ensures count { result ≡ count + CHECK_OCTETS }
{
    octets[count] = check_of(&octets[..count]);
    count + CHECK_OCTETS
}

/// Returns the octets after the check of `unit`, which is codes or the octets that carry them;
/// `None` if `octets` do not begin with that check.
#[tactic(auto, using(crate::proofs::Checks::check_wrong, crate::proofs::Checks::check_right))]
pub fn after_check<'a>(unit: &[u8], octets: &'a [u8]) -> Option<&'a [u8]>
    ensures { option_copied result ≡ after_check unit.now octets.entry.now }
{
    if octets.is_empty() {
        return None;
    }
    if octets[0] != check_of(unit) {
        return None;
    }
    Some(&octets[1..])
}
