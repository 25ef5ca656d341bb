//! Channels, by the names that a station prints.

ghost use Rattle.std.specs.Prelude.{◌≡◌, option_map};
ghost use Rattle.bsc_feed.specs.Channels.{channel_at, channel_in, split_value, to_in};
ghost use Rattle.bsc_feed.specs.Channels.{select_in as select};

use bsc_bid::{ChannelName, Way};
use bsc_text::{select_number, spells, split_at_first, split_word, terminal_number};

/// A channel that is named at the front of a text, and the text after the space that follows its
/// name; `None` if there is no space.
#[derive(Clone, Copy)]
pub(crate) struct Split<'a> {
    pub channel: ChannelName,
    pub rest: Option<&'a [u8]>,
}

/// Reads `T` or `T.S`, the terminal and the selection address of a channel to it.
fn read_to(place: &[u8]) -> Option<ChannelName>
    ensures { result ≡ to_in place.now }
{
    let (terminal, select) = split_at_first(place, b'.');
    let terminal = terminal_number(terminal)?;
    let select = read_select(select)?;
    Some(ChannelName {
        terminal,
        way: Way::ToTerminal(select),
    })
}

/// Reads the digit of a selection address; without a digit it is address 0.
fn read_select(digit: Option<&[u8]>) -> Option<usize>
    ensures { result ≡ select (option_map (λ digit. digit.now) digit.entry) }
{
    match digit {
        Some(digit) => select_number(digit),
        None => Some(0),
    }
}

/// Reads the name of a channel, whose two words are given.
fn read_channel(direction: &[u8], place: &[u8]) -> Option<ChannelName>
    ensures { result ≡ channel_in direction.now place.now }
{
    if spells(direction, "from") {
        let terminal = terminal_number(place)?;
        Some(ChannelName {
            terminal,
            way: Way::FromTerminal,
        })
    } else if spells(direction, "to") {
        read_to(place)
    } else {
        None
    }
}

/// Reads the name of a channel at the front of a text.
pub(crate) fn split_channel(text: &[u8]) -> Option<Split<'_>>
    ensures { option_map split_value result ≡ channel_at text.now }
{
    let (direction, rest) = split_word(text);
    let (place, rest) = split_word(rest?);
    let channel = read_channel(direction, place)?;
    Some(Split { channel, rest })
}
