//! Odd parity: each octet on the line carries a code of seven bits, and its eighth bit makes the
//! number of ones odd (GA27-3004: vertical redundancy checking in USASCII).
ghost use Rattle.std.specs.Prelude.{◌≡◌, ◌≢◌, ℕ, ◌+◌, ◌*◌, ◌%◌, ◌<◌, ◌≤◌, nat_lt, if◌then◌else◌};
ghost use Rattle.std.specs.Prelude.{Some, None, IsTrue, ◌↔◌, All, IfSome, IfNone};
ghost use Rattle.bsc_octet.specs.Octet.{IsCode, IsOdd, code_in, code_of, odd_octet};

use crate::lanes::are_odd;

/// Returns the octet that carries the code: `code` or `code + 0x80`, whichever has an odd number of
/// ones. Returns `None` if `code` is 0x80 or above (GA27-3004: USASCII with odd parity).
#[tactic(auto, unfolding(crate::specs::Octet::odd_octet))]
pub fn to_line(code: u8) -> Option<u8>
    ensures value { result ≡ (if nat_lt code 128 then Some (odd_octet code) else None) }
    ensures odd { IfSome result (λ o. IsOdd o × (o % 128 ≡ code)) }
    ensures none { IfNone result (128 ≤ code) }
{
    if code < 0x80 {
        Some(if code.count_ones() % 2 == 1 {
            code
        } else {
            code + 0x80
        })
    } else {
        None
    }
}

/// Returns the octet that carries the code, which is below 0x80. The parity is found by folding
/// bits because a compiler vectorizes that; it does not vectorize a count of ones with a test.
#[inline(always)]
pub fn carried(code: u8) -> u8
    requires { IsCode code }
    ensures { result ≡ odd_octet code }
{
    let fours = code ^ (code >> 4);
    let twos = fours ^ (fours >> 2);
    let ones = twos ^ (twos >> 1);
    code | ((!ones & 1) << 7)
}

/// Returns the code of an octet whose parity is right: its low seven bits.
#[inline(always)]
pub fn code_in(octet: u8) -> u8
    ensures { result ≡ code_in octet }
{
    octet % 0x80
}

/// Returns the code that the octet carries, 0x00 to 0x7f, or `None` if its parity is even
/// (GA27-3004: a VRC error).
#[tactic(auto, using(crate::proofs::OddOctets::code_of_even))]
pub fn from_line(octet: u8) -> Option<u8>
    ensures value { result ≡ code_of octet }
    ensures code { IfSome result (λ c. (c < 128) × (odd_octet c ≡ octet)) }
    ensures none { IfNone result ((c : ℕ) → c < 128 → odd_octet c ≢ octet) }
{
    if octet.count_ones() % 2 == 1 {
        Some(octet % 0x80)
    } else {
        None
    }
}

/// Returns whether every octet has odd parity; true if there are none.
pub fn all_odd(octets: &[u8]) -> bool
    ensures { IsTrue result ↔ All IsOdd octets.now }
{
    let (chunks, rest) = octets.as_chunks::<32>();
    if !are_odd(chunks) {
        return false;
    }
    rest_is_odd(rest)
}

/// Returns whether every octet after the last whole chunk has odd parity.
fn rest_is_odd(octets: &[u8]) -> bool
    ensures { IsTrue result ↔ All IsOdd octets.now }
{
    octets.iter().all(|octet| octet.count_ones() % 2 == 1)
}
