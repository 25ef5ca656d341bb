//! What is offered at the control station.

ghost use Rattle.std.specs.Prelude.{◌≡◌, option_map};
ghost use Rattle.bsc_options.specs.Offers.{channel_in, offer_in, offer_value};

use crate::numbers::octet_in;
use crate::splitting::split_at;

/// Records that are offered at the control station.
#[derive(Clone, Copy)]
pub struct Offer<'a> {
    /// The number of the terminal to which they go.
    pub terminal: usize,

    /// The number of its selection address to which they go.
    pub select: usize,

    /// The path of the text with the records; `-` is standard input.
    pub path: &'a str,
}

/// Returns the terminal and its selection address in `T.S`, or in `T` for address 0.
pub(crate) fn channel_of(text: &str) -> Option<(usize, usize)>
    ensures { result ≡ channel_in text.now }
{
    let (terminal, select) = split_at(text, '.');
    let terminal = octet_in(terminal)?;
    match select {
        Some(select) => Some((terminal, octet_in(select)?)),
        None => Some((terminal, 0)),
    }
}

/// Returns what `T.S=PATH` offers, or `T=PATH` for selection address 0; `None` for any other text.
/// T and S are numbers from 0 to 255.
pub fn offer_of(text: &str) -> Option<Offer<'_>>
    ensures { option_map offer_value result ≡ offer_in text.now }
{
    let (channel, path) = split_at(text, '=');
    let (terminal, select) = channel_of(channel)?;
    match path {
        Some(path) => Some(Offer {
            terminal,
            select,
            path,
        }),
        None => None,
    }
}
