//! The checks of records.
//!
//! The database has no check of what its pages hold. So with each record there is one, by which a
//! record that is not as it was kept, or that is not in its place, is found when it is read.
ghost use Rattle.std.specs.Prelude.{◌≡◌, ◌++◌, [], ◌∷◌};
ghost use Rattle.std.specs.Int.{w32, to_le_bytes};
ghost use Rattle.bsc_store.specs.Checks.{digest_of};

use crate::channels::{address, way};
use bsc_spool::Channel;
use md5::{Digest, Md5};

/// How many octets of the digest are the check of a record.
pub(crate) const CHECK_OCTETS: usize = 8;

/// The greatest marks of the records that were offered and of those that arrived, in a store whose
/// records have checks. A record has the next mark; so its mark is also its number, counted from 1,
/// among those of all channels.
#[derive(Clone, Copy)]
pub(crate) struct Marks {
    pub(crate) offered: u32,
    pub(crate) arrived: u32,
}

/// Returns the digest of the mark of a record, its channel and its characters.
pub(crate) fn digest(mark: u32, channel: &Channel, chars: &[u8]) -> [u8; 16]
    ensures { result ≡ digest_of mark channel.now chars.now }
{
    let mark = mark.to_le_bytes();
    let mut hasher = Md5::new();
    hasher.update(mark.as_slice());
    hasher.update(way(channel).as_bytes());
    hasher.update(address(channel));
    hasher.update([0u8].as_slice());
    hasher.update(chars);
    hasher.finalize()
}
