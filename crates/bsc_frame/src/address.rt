//! Addresses: the characters by which the control station calls a terminal.
ghost use Rattle.std.specs.Prelude.{◌≡◌, ◌≢◌, ◌==◌, IfOk, not, option_map, position};
ghost use Rattle.std.specs.Ordering.{nat_cmp, as_partial_cmp};
ghost use Rattle.std.specs.Cmp.Lexicographic.{slice_cmp, nat_list_cmp_total, nat_list_eq_equiv};
ghost use Rattle.std.specs.Cmp.{partial_order_from_own_ties};
ghost use Rattle.std.specs.Cmp.Rules.{comparing, hashing};
ghost use Rattle.std.specs.Hash as fed;
ghost use Rattle.std.proofs.Common.{rules};
ghost use lib.Pointwise.{pointwise};
ghost use Rattle.bsc_frame.specs.Addresses.{IsAddress};
ghost use Rattle.bsc_octet.specs.Octet.{is_address_code};

use crate::limits::MAX_ADDRESS;
use bsc_octet::controls::ENQ;
use bsc_octet::{from_line, is_address_code};
use std::cmp::Ordering;
use std::hash::{Hash, Hasher};
use std::marker::Model;
use thiserror::Error;

/// Why codes are not an address.
#[derive(Clone, Copy, Debug, PartialEq, Eq, Error)]
pub enum AddressError {
    /// There are no codes.
    #[error("the address is empty")]
    Empty,

    /// There are more than seven codes.
    #[error("the address has more than seven characters")]
    TooLong,

    /// The first code that may not stand in an address is at this place, counted from 0.
    #[error("wrong character at {0}")]
    BadChar(usize),
}

/// An address: one to seven codes that may stand in one ([`is_address_code`]). GA27-3004 leaves the
/// addresses of a line to its owner; these limits are this project's.
///
/// Equality, order and hash are those of the list of its codes.
#[derive(Clone, Copy, Debug)]
pub struct Address {
    buffer: [u8; MAX_ADDRESS],
    len: u8,
}

impl Model for Address {
    ghost use Rattle.std.specs.Prelude.{ℕ, List, length, take};
    ghost use Rattle.bsc_frame.specs.Addresses.{HoldsAddress, padded};

    ghost Value = { List ℕ };

    ghost view = { λ a. take a.len a.buffer };

    ghost invariant = { λ a. HoldsAddress a.buffer a.len };

    ghost inverse = { λ codes. record { buffer = padded codes; len = length codes } };

    ghost inverse_ok = { λ a h. λ i. record { buffer = h.zeros i; len = h.long i } };
}

// The buffers have the same size and are zero after the codes, so they are compared as a whole,
// which costs less than comparing slices.
impl PartialEq for Address {
    ghost eq = { pointwise ◌==◌ };

    ghost laws = { Prim.search (comparing, rules) };

    fn eq(&self, other: &Address) -> bool {
        self.buffer == other.buffer && self.len == other.len
    }
}

impl Eq for Address {
    ghost laws = { nat_list_eq_equiv };
}

impl PartialOrd for Address {
    ghost partial_cmp = { as_partial_cmp (slice_cmp nat_cmp) };

    ghost laws = { partial_order_from_own_ties (Prim.search (comparing, rules))
        (Prim.search (comparing, rules)) };

    fn partial_cmp(&self, other: &Address) -> Option<Ordering> {
        Some(self.cmp(other))
    }
}

impl Ord for Address {
    ghost cmp = { slice_cmp nat_cmp };

    ghost total = { nat_list_cmp_total };

    ghost matches_partial_cmp = { Prim.search (comparing, rules) };

    ghost matches_eq = { Prim.search (comparing, rules) };

    fn cmp(&self, other: &Address) -> Ordering {
        self.codes().cmp(other.codes())
    }
}

impl Hash for Address {
    ghost hash_input = { fed.slice fed.u8 };

    ghost respects_eq = { Prim.search (hashing, rules) };

    fn hash<H: Hasher>(&self, state: &mut H) {
        self.codes().hash(state);
    }
}

/// Returns the place of the first code that may not stand in an address.
fn wrong_place(codes: &[u8]) -> Option<usize>
    ensures { result ≡ position (λ c. not (is_address_code c)) codes.now }
{
    codes.iter().position(|&code| !is_address_code(code))
}

impl Address {
    ghost use Rattle.bsc_frame.specs.Message.{read_address};
    ghost use Rattle.bsc_frame.specs.Reading.{call_of};
    ghost use Rattle.bsc_frame.specs.declared.message.Message.TheVariants.{Call};

    /// Returns the address with these codes, which have seven bits and no parity. The errors, in
    /// the order in which they are tested: `Empty` if there are no codes, `TooLong` if there are
    /// more than seven, `BadChar` with the place of the first code that may not stand in an
    /// address.
    pub fn read(codes: &[u8]) -> Result<Address, AddressError>
        ensures value { result ≡ read_address codes.now }
        ensures address { IfOk result (λ a. IsAddress a) }
    {
        if codes.is_empty() {
            return Err(AddressError::Empty);
        }
        if codes.len() > MAX_ADDRESS {
            return Err(AddressError::TooLong);
        }
        if let Some(place) = wrong_place(codes) {
            return Err(AddressError::BadChar(place));
        }
        let mut buffer = [0; MAX_ADDRESS];
        buffer[..codes.len()].copy_from_slice(codes);
        Ok(Address {
            buffer,
            len: codes.len() as u8,
        })
    }

    /// Returns the address that these octets of a call carry, up to the ENQ that ends them; `None`
    /// if they are not an address and ENQ. Each octet is tested and stored in one pass: moving an
    /// address as it grows would cost more than reading the whole call.
    pub(crate) fn called(octets: &[u8]) -> Option<Address>
        ensures { option_map Call result ≡ call_of octets.now }
    {
        let mut buffer = [0; MAX_ADDRESS];
        for (i, octet) in octets.iter().enumerate() {
            if *octet == ENQ {
                return if i > 0 && i + 1 == octets.len() {
                    Some(Address {
                        buffer,
                        len: i as u8,
                    })
                } else {
                    None
                };
            }
            if i == MAX_ADDRESS {
                return None;
            }
            let Some(code) = from_line(*octet) else {
                return None;
            };
            if !is_address_code(code) {
                return None;
            }
            buffer[i] = code;
        }
        None
    }

    /// Returns the codes of the address, 1 to 7 of them, each of which may stand in an address.
    pub fn codes(&self) -> &[u8]
        ensures value { result.now ≡ self.now }
        ensures address { IsAddress self.now }
    {
        &self.buffer[..usize::from(self.len)]
    }
}
