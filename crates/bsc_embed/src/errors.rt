//! The texts of errors.

ghost use Rattle.std.specs.Prelude.{◌≡◌, ◌++◌, length, drop};
ghost use Rattle.bsc_embed.specs.Errors.{text_within};

use crate::interface::Fault;

/// Stores what an error means, in English, at the front of the buffer, and returns the number of
/// its octets. Returns 0, and leaves the buffer unchanged, if no error has this number or if the
/// buffer is too short. In C `text` is two arguments, a pointer and a length.
#[unsafe(no_mangle)]
pub extern "C" fn bsc_error_text(error: u32, text: &mut [u8]) -> usize
    ensures count { result ≡ length (text_within (length text.old) error) }
    ensures octets { text.new ≡ text_within (length text.old) error ++ drop result text.old }
{
    let Some(fault) = Fault::numbered(error) else {
        return 0;
    };
    let octets = fault.text().as_bytes();
    if octets.len() > text.len() {
        return 0;
    }
    text[..octets.len()].copy_from_slice(octets);
    octets.len()
}
