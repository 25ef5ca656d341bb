//! How transmissions are spoiled.

ghost use Rattle.std.specs.Prelude.{◌<◌};

use std::alloc::AllocError;
use test_fixtures::Random;

/// What happens to the transmissions of a line.
#[derive(Clone, Copy)]
pub enum Spoiling {
    /// They are heard or lost.
    Loss,

    /// They are heard, lost, or damaged so that their check fails.
    Damage,

    /// Like damage, but a call may also reach some terminals and not others.
    Uneven,

    /// Anything may be heard in their place.
    Anything,
}

impl Spoiling {
    /// Whether everything on such a line is heard fairly.
    pub fn is_fair(self) -> bool {
        matches!(self, Spoiling::Loss | Spoiling::Damage)
    }

    /// Spoils these octets; `earlier` are octets that were sent before.
    pub fn spoil(
        self,
        random: &mut Random,
        octets: &mut Vec<u8>,
        earlier: &[u8],
    ) -> Result<(), AllocError> {
        match self {
            Spoiling::Loss => Ok(()),
            Spoiling::Damage | Spoiling::Uneven => damage(random, octets),
            Spoiling::Anything => replace(random, octets, earlier),
        }
    }
}

/// One of the kinds, at random.
pub fn any_spoiling(random: &mut Random) -> Spoiling {
    match random.below(6) {
        0 => Spoiling::Loss,
        1 | 2 => Spoiling::Damage,
        3 => Spoiling::Uneven,
        _ => Spoiling::Anything,
    }
}

/// Inverts one bit of the octets.
fn turn_bit(random: &mut Random, octets: &mut [u8]) {
    let place = random.below(octets.len());
    let bit = random.below(8);
    if let Some(octet) = octets.get_mut(place) {
        *octet ^= 1u8 << bit;
    }
}

/// Replaces one of the octets with any octet.
pub fn change(random: &mut Random, octets: &mut [u8]) {
    let place = random.below(octets.len());
    let value = random.octet();
    if let Some(octet) = octets.get_mut(place) {
        *octet = value;
    }
}

/// Adds some pads after the octets, sometimes so many that they are not decoded as a message.
fn add_pads(random: &mut Random, octets: &mut Vec<u8>) -> Result<(), AllocError> {
    let count = if random.one_in(64) {
        2048usize.saturating_add(random.below(2))
    } else {
        octets.len().saturating_add(random.below(4))
    };
    octets.resize(count, 0xff)
}

/// Damages the octets in such a way that no other message is heard: inverts one bit, adds pads, or
/// breaks them off, which may make a call an EOT.
fn damage(random: &mut Random, octets: &mut Vec<u8>) -> Result<(), AllocError> {
    match random.below(4) {
        0 => add_pads(random, octets)?,
        1 => octets.truncate(random.below(octets.len())),
        _ => turn_bit(random, octets),
    }
    Ok(())
}

/// Messages that may be heard in place of others: EOT, ENQ, each reply, a text that
/// fails its check, one with a record, one without, and a call to an address that no terminal has.
const OTHERS: [&[u8]; 11] = [
    b"\x16\x04",
    b"\x16\x85",
    b"\x16\x15",
    b"\x16\x10\xb0",
    b"\x16\x10\x31",
    b"\x16\x10\x3b",
    b"\x16\x10\xbc",
    b"\x16\x02\x85",
    b"\x16\x02\xc8\x49\x19\x83\x9b",
    b"\x16\x02\x83\x83",
    b"\x16\x04\xff\x16\xd9\x85",
];

/// Replaces the octets with these.
fn put(octets: &mut Vec<u8>, new: &[u8]) -> Result<(), AllocError> {
    octets.clear();
    octets.extend_from_slice(new)
}

/// Replaces these octets with what is heard in their place; `earlier` are octets that were sent
/// before.
fn replace(random: &mut Random, octets: &mut Vec<u8>, earlier: &[u8]) -> Result<(), AllocError> {
    match random.below(6) {
        0 => damage(random, octets)?,
        1 => change(random, octets),
        2 => put(octets, earlier)?,
        3 | 4 => put(octets, OTHERS[random.below(11)])?,
        _ => {}
    }
    Ok(())
}
