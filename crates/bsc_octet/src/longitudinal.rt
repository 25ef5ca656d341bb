//! The longitudinal sum: what a check character states of the characters that it covers (GA27-3004:
//! longitudinal redundancy checking).
ghost use Rattle.std.specs.Prelude.{◌≡◌, ◌%◌, ◌<◌, ℕ};
ghost use Rattle.std.specs.Int.{bit_at};
ghost use Rattle.bsc_octet.specs.Octet.{longitudinal_sum, with_bit};

use crate::lanes::xor_of;

/// Returns the longitudinal sum of the low seven bits of the octets, 0x00 to 0x7f; 0x00 if there
/// are none. Parity bits do not enter the sum, so octets from the line have the same sum as their
/// codes.
pub fn sum(octets: &[u8]) -> u8
    ensures value { result ≡ longitudinal_sum octets.now }
    ensures code { result < 128 }
{
    let (chunks, rest) = octets.as_chunks::<32>();
    (xor_of(chunks) ^ xor_of_rest(rest)) & 0x7f
}

/// Returns the exclusive or of the octets after the last whole chunk.
fn xor_of_rest(octets: &[u8]) -> u8
    ensures { (i : ℕ) → bit_at result i ≡ with_bit i octets.now % 2 }
{
    let mut total = 0;
    for octet in octets {
        total ^= *octet;
    }
    total
}
