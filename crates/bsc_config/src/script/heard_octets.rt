//! Octets that are heard in place of what was sent.
ghost use Rattle.std.specs.Prelude.{◌≡◌, IfOk, option_map};
ghost use Rattle.bsc_carrier.specs.Record.{IsCarried};
ghost use Rattle.bsc_config.specs.Transmissions.{transmission_of};

use bsc_carrier::limits::MAX_RECORD;
use bsc_text::read_octets;
use std::alloc::{AllocError, Allocator};
use std::marker::Model;

/// The octets of one transmission: 1 to 2,048, the length of a socket record.
#[derive(Drop)]
pub struct HeardOctets<A: Allocator> {
    octets: Vec<u8, A>,
}

impl<A: Allocator> Model for HeardOctets<A> {
    ghost use Rattle.std.specs.Prelude.{ℕ, List};
    ghost use Rattle.bsc_carrier.specs.Record.{IsCarried};

    ghost Value = { List ℕ };

    ghost view = { λ t. t.octets.items };

    ghost invariant = { λ t. IsCarried t.octets.items };
}

impl<A: Allocator> HeardOctets<A> {
    /// Returns the octets.
    pub fn as_slice(&self) -> &[u8]
        ensures value { result.now ≡ self.now }
        ensures carried { IsCarried self.now }
    {
        self.octets.as_slice()
    }
}

/// Returns the octets of hexadecimal text without its spaces. Returns `None` if the text is not
/// hexadecimal, or has no octets or more than 2,048.
pub(crate) fn read_transmission<A: Allocator + Copy>(
    alloc: A,
    text: &[u8],
) -> Result<Option<HeardOctets<A>>, AllocError>
    ensures { IfOk result (λ t. t ≡ transmission_of text.now) }
{
    match read_octets(alloc, text)? {
        Some(octets) if (1..=MAX_RECORD).contains(&octets.len()) => Ok(Some(HeardOctets {
            octets,
        })),
        _ => Ok(None),
    }
}
