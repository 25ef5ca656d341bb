//! The line of a store: its stations, as the text of the store names them.

ghost use Rattle.std.specs.Prelude.{◌≡◌, slice_get};
ghost use Rattle.bsc_storing.specs.Names.{addresses_of, channel_at, from_terminal as channel_from};
ghost use Rattle.bsc_storing.specs.Names.{receives_on, receiving_name, sending_name, sends_on};
ghost use Rattle.bsc_storing.specs.Names.{to_terminal as channel_to};

use bsc_bid::limits::MAX_SELECTS;
use bsc_bid::{ChannelName, Speaker, Terminal, Way};
use bsc_frame::Address;
use bsc_options::{StoreChannel, number_within};
use bsc_spool::{Channel, StoreFault};
use bsc_text::read_octets;
use std::alloc::Global;

/// The line of a store, and its station.
#[derive(Drop)]
pub struct KeptLine {
    /// The station to which the store belongs.
    pub station: Speaker,

    /// The full length of a record: 1 to 144.
    pub full: u8,

    /// The terminals of the line, in order.
    pub terminals: Vec<Terminal>,
}

impl KeptLine {
    /// Returns the channel with this name; none if the line has none.
    pub fn channel(&self, name: ChannelName) -> Option<Channel>
        ensures { result ≡ channel_at self.now name }
    {
        let terminal = self.terminals.get(name.terminal)?;
        match name.way {
            Way::FromTerminal => Some(Channel::From {
                terminal: terminal.poll(),
            }),
            Way::ToTerminal(select) if select < terminal.selects() => Some(Channel::To {
                selection: terminal.select(select),
            }),
            Way::ToTerminal(_) => None,
        }
    }

    /// Returns how many selection addresses the terminal with this number has; 0 if there is none.
    pub(crate) fn addresses(&self, number: usize) -> usize
        ensures { result ≡ addresses_of (slice_get self.now.terminals.items number) }
    {
        match self.terminals.get(number) {
            Some(terminal) => terminal.selects(),
            None => 0,
        }
    }

    /// Returns the name of a channel on which the station sends, if it is one: at the control
    /// station the channel to a selection address, at a terminal the one channel from it.
    pub fn sending(&self, channel: StoreChannel) -> Option<ChannelName>
        ensures { result ≡ sending_name self.now.station channel }
    {
        match self.station {
            Speaker::Control => Some(to_terminal(channel)),
            Speaker::Terminal { number } => from_terminal(channel, number),
        }
    }

    /// Returns the name of a channel on which the station receives, if it is one: at the control
    /// station the channel from a terminal, at a terminal the one to a selection address of it.
    pub fn receiving(&self, channel: StoreChannel) -> Option<ChannelName>
        ensures { result ≡ receiving_name self.now.station channel }
    {
        match self.station {
            Speaker::Control => from_terminal(channel, channel.terminal),
            Speaker::Terminal { number } if number == channel.terminal => Some(to_terminal(
                channel,
            )),
            Speaker::Terminal { .. } => None,
        }
    }

    /// Tells whether the station sends on the channel with this name.
    pub fn sends(&self, name: ChannelName) -> bool
        ensures { result ≡ sends_on self.now.station name name.way }
    {
        match (self.station, name.way) {
            (Speaker::Control, Way::ToTerminal(_)) => true,
            (Speaker::Terminal { number }, Way::FromTerminal) => number == name.terminal,
            _ => false,
        }
    }

    /// Tells whether the station receives on the channel with this name.
    pub fn receives(&self, name: ChannelName) -> bool
        ensures { result ≡ receives_on self.now.station name name.way }
    {
        match (self.station, name.way) {
            (Speaker::Control, Way::FromTerminal) => true,
            (Speaker::Terminal { number }, Way::ToTerminal(_)) => number == name.terminal,
            _ => false,
        }
    }
}

/// Returns the name of the channel to a selection address.
fn to_terminal(channel: StoreChannel) -> ChannelName
    ensures { result ≡ channel_to channel }
{
    ChannelName {
        terminal: channel.terminal,
        way: Way::ToTerminal(channel.select),
    }
}

/// Returns the name of the channel from a terminal, if it is that of the terminal with this number.
fn from_terminal(channel: StoreChannel, number: usize) -> Option<ChannelName>
    ensures { result ≡ channel_from channel number }
{
    let terminal = channel.terminal;
    if terminal != number || channel.select != 0 {
        return None;
    }
    let way = Way::FromTerminal;
    Some(ChannelName { terminal, way })
}

/// Returns the station that a line of the text names.
fn station_in(line: &str) -> Option<Speaker> {
    if line == "control station" {
        return Some(Speaker::Control);
    }
    let number = number_within(line.strip_prefix("terminal ")?, 0, 255)?;
    let number = usize::try_from(number).ok()?;
    Some(Speaker::Terminal { number })
}

/// Returns the full length of a record that a line of the text names.
fn full_in(line: &str) -> Option<u8> {
    let full = number_within(line.strip_prefix("full length ")?, 1, 144)?;
    u8::try_from(full).ok()
}

/// Returns the address in hexadecimal text; none if it is no address, or an allocation fails.
fn address_in(alloc: Global, text: &str) -> Option<Address> {
    match read_octets(alloc, text.as_bytes()) {
        Ok(Some(codes)) => Address::read(&codes).ok(),
        _ => None,
    }
}

/// Returns the selection addresses in hexadecimal text, each after a space, and their number.
fn selects_in(alloc: Global, text: &str, fill: Address) -> Option<([Address; MAX_SELECTS], usize)> {
    let mut selects = [fill; MAX_SELECTS];
    let mut count = 0usize;
    for word in text.split(' ') {
        if count >= MAX_SELECTS {
            return None;
        }
        selects[count] = address_in(alloc, word)?;
        count += 1;
    }
    Some((selects, count))
}

/// Returns the terminal that a line of the text names.
fn terminal_in(alloc: Global, line: &str) -> Option<Terminal> {
    let (poll, selects) = line.strip_prefix("polled ")?.split_once(" selected ")?;
    let poll = address_in(alloc, poll)?;
    let (selects, count) = selects_in(alloc, selects, poll)?;
    Terminal::new(poll, selects.get(..count)?).ok()
}

/// Adds the terminals that these lines name. Fails with `Damaged` at a line that names none.
fn add_terminals(
    alloc: Global,
    text: &str,
    terminals: &mut Vec<Terminal>,
) -> Result<(), StoreFault> {
    for line in text.lines() {
        let Some(terminal) = terminal_in(alloc, line) else {
            return Err(StoreFault::Damaged);
        };
        if terminals.push(terminal).is_err() {
            return Err(StoreFault::OutOfMemory);
        }
    }
    Ok(())
}

/// Returns the station and the full length in the first two lines of a text, and the other lines.
fn head_in(text: &str) -> Option<(Speaker, u8, &str)> {
    let (first, rest) = text.split_once('\n')?;
    let (second, rest) = rest.split_once('\n')?;
    Some((station_in(first)?, full_in(second)?, rest))
}

/// Returns the line and the station that the text of a store names. Fails with `Damaged` if it
/// names none.
pub fn read_line_text(alloc: Global, text: &str) -> Result<KeptLine, StoreFault> {
    let Some((station, full, rest)) = head_in(text) else {
        return Err(StoreFault::Damaged);
    };
    let mut terminals = Vec::new(alloc);
    add_terminals(alloc, rest, &mut terminals)?;
    Ok(KeptLine {
        station,
        full,
        terminals,
    })
}
