//! What each terminal hears of a transmission.

ghost use Rattle.std.specs.Prelude.{◌≡◌, slice_index_or, None};
ghost use Rattle.bsc_line_model.specs.Hearing.{heard_in, octets_in};

use bsc_frame::{Heard, TextBuffer, decode};

/// What the terminals hear.
#[derive(Clone, Copy)]
pub(crate) enum Hearings<'a> {
    /// All hear the same, which was decoded once.
    Alike(&'a Heard<'a>),

    /// Each hears the item of its number; `None` is nothing.
    Each(&'a [Option<&'a [u8]>]),
}

/// Decodes an item: the octets that arrived, or noise if nothing arrived. The units of a text are
/// left in the buffer.
#[tactic(auto, unfolding(bsc_line_model::specs::Hearing::heard_in))]
pub(crate) fn hearing<'a>(item: Option<&[u8]>, buffer: &'a mut TextBuffer) -> Heard<'a>
    ensures { result ≡ heard_in (octets_in item.entry) }
{
    match item {
        Some(octets) => decode(octets, buffer),
        None => Heard::Noise,
    }
}

/// Returns the item of this number, or `None` if there is no such item.
pub(crate) fn item_at<'a>(items: &[Option<&'a [u8]>], place: usize) -> Option<&'a [u8]>
    ensures { octets_in result ≡ octets_in (slice_index_or items.now place None) }
{
    match items.get(place) {
        Some(item) => *item,
        None => None,
    }
}
