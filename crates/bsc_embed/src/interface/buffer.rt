//! Octets in a buffer of the caller.

ghost use Rattle.std.specs.Prelude.{◌≡◌};
ghost use Rattle.bsc_embed.specs.Buffers.{IsPut};

use crate::interface::Fault;

/// Puts the octets at the front of the buffer and their number into `len`. The fault is `NoRoom` if
/// the buffer is too short for them; then nothing changes.
pub fn put(octets: &[u8], buffer: &mut [u8], len: &mut usize) -> Result<(), Fault>
    ensures { IsPut octets.now buffer.old len.old result buffer.new len.new }
{
    if octets.len() > buffer.len() {
        return Err(Fault::NoRoom);
    }
    buffer[..octets.len()].copy_from_slice(octets);
    *len = octets.len();
    Ok(())
}
