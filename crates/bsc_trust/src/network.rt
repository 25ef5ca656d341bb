//! A network of IP addresses.

ghost use Rattle.std.specs.Prelude.{◌≡◌, ◌≤◌, option_map};
ghost use Rattle.std.specs.Option.{SomeIff};
ghost use Rattle.std.specs.Str.Parse.{IsNumeral, digits_value};
ghost use Rattle.bsc_trust.specs.Addresses.{agree as agrees, is_ipv4_number};
ghost use Rattle.bsc_trust.specs.Addresses.{number_of as number, width_of as width};
ghost use Rattle.bsc_trust.specs.Networks.{contains as has, fixed_bits as fixed};
ghost use Rattle.bsc_trust.specs.NetworkTexts.{Reads, address_part, bits_part};

use std::net::{IpAddr, Ipv4Addr};
use thiserror::Error;

/// The number of the first IPv6 address to which an IPv4 address is mapped, `::ffff:0.0.0.0`.
const MAPPED: u128 = 0xffff_0000_0000;

/// The bits that the numbers of IPv6 addresses to which IPv4 addresses are mapped have in common.
const MAPPED_BITS: u32 = 96;

/// A network: an IP address and how many of its leading bits all addresses of the network share.
#[derive(Clone, Copy, Debug, PartialEq, Eq)]
pub struct Network {
    address: IpAddr,
    bits: u8,
}

/// Why a text is not a network.
#[derive(Clone, Copy, Debug, PartialEq, Eq, Error)]
pub enum NetworkError {
    /// The text, or its part before the first `/`, is not an IP address.
    #[error("not an IP address")]
    NoAddress,

    /// What follows the first `/` is not a number in decimal digits, or the address has fewer bits.
    #[error("not a number of bits of the address")]
    NoBits,
}

impl Network {
    /// Reads a network: an IP address, and then `/` and the number of leading bits in decimal
    /// digits, 0 to 32 for IPv4 and 0 to 128 for IPv6. Without `/` all bits count, so that the
    /// network is one address. Fails with `NoAddress` if there is no address, and with `NoBits` if
    /// there is one and no such number follows its `/`.
    pub fn read(text: &str) -> Result<Network, NetworkError>
        ensures { Reads text.now result }
    {
        let (address, digits) = parts(text);
        let Ok(address) = address.parse::<IpAddr>() else {
            return Err(NetworkError::NoAddress);
        };
        let most = width_of(address);
        let Some(digits) = digits else {
            return Ok(Network {
                address,
                bits: most,
            });
        };
        match bits_in(digits, most) {
            Some(bits) => Ok(Network { address, bits }),
            None => Err(NetworkError::NoBits),
        }
    }

    /// Returns a network for the places of a list that are not used: that of one address, which no
    /// peer has.
    pub(crate) fn nobody() -> Network {
        Network {
            address: IpAddr::V4(Ipv4Addr::UNSPECIFIED),
            bits: 32,
        }
    }

    /// Whether this address is in the network. An IPv4 address is only in networks of IPv4
    /// addresses, and in networks of the IPv6 addresses to which they are mapped: `::/0` does not
    /// contain it, and `::ffff:0:0/96` does.
    pub fn contains(&self, address: IpAddr) -> bool
        ensures { result ≡ has self.now address }
    {
        let number = number_of(address);
        let fixed = self.fixed_bits();
        agree(fixed, number_of(self.address), number)
            && (MAPPED_BITS <= fixed || !is_mapped(number))
    }

    /// Returns how many leading bits of the number of an address are the same for all addresses of
    /// the network.
    fn fixed_bits(&self) -> u32
        ensures { result ≡ fixed self.now }
    {
        let Network { address, bits } = *self;
        let before = 128 - u32::from(width_of(address));
        before + u32::from(bits)
    }
}

/// Returns how many bits an address has: 32 or 128.
fn width_of(address: IpAddr) -> u8
    ensures { result ≡ width address }
{
    match address {
        IpAddr::V4(_) => 32,
        IpAddr::V6(_) => 128,
    }
}

/// Returns the number of an address; for an IPv4 address that of the IPv6 address to which it is
/// mapped.
fn number_of(address: IpAddr) -> u128
    ensures { result ≡ number address }
{
    match address {
        IpAddr::V4(address) => MAPPED + u128::from(address.to_bits()),
        IpAddr::V6(address) => address.to_bits(),
    }
}

/// Whether this is the number of an IPv4 address.
fn is_mapped(number: u128) -> bool
    ensures { result ≡ is_ipv4_number number }
{
    number >> 32 == 0xffff
}

/// Whether two numbers agree in this many leading bits of 128.
fn agree(bits: u32, one: u128, other: u128) -> bool
    ensures { result ≡ agrees bits one other }
{
    let rest = 128u32.saturating_sub(bits);
    // For no bits the shift is by 128, for which `checked_shr` returns `None` for both numbers.
    one.checked_shr(rest) == other.checked_shr(rest)
}

/// Returns the text before the first `/`, and the text after it if there is one.
fn parts(text: &str) -> (&str, Option<&str>)
    ensures address { result.0.now ≡ address_part text.now }
    ensures bits { option_map (λ digits. digits.now) result.1 ≡ bits_part text.now }
{
    match text.split_once('/') {
        Some((address, digits)) => (address, Some(digits)),
        None => (text, None),
    }
}

/// Returns the number that these decimal digits write, if it is at most `most`.
fn bits_in(digits: &str, most: u8) -> Option<u8>
    ensures { SomeIff result (IsNumeral 10 digits.now × (digits_value 10 digits.now ≤ most))
        (digits_value 10 digits.now) }
{
    // `parse` also takes a plus sign before the digits.
    if digits.as_bytes().first() == Some(&b'+') {
        return None;
    }
    match digits.parse::<u8>() {
        Ok(bits) if bits <= most => Some(bits),
        _ => None,
    }
}
