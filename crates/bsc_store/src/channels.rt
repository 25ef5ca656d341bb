//! What the tables have of a channel.
ghost use Rattle.std.specs.Prelude.{◌≡◌};
ghost use Rattle.bsc_store.specs.Channels.{way_of, address_of};

use bsc_spool::Channel;

/// Returns the word for the direction, as the tables have it.
pub(crate) fn way(channel: &Channel) -> &'static str
    ensures { result.now ≡ way_of channel.now }
{
    match channel {
        Channel::From { .. } => "from",
        Channel::To { .. } => "to",
    }
}

/// Returns the codes of the address.
pub(crate) fn address(channel: &Channel) -> &[u8]
    ensures { result.now ≡ address_of channel.now }
{
    match channel {
        Channel::From { terminal } => terminal.codes(),
        Channel::To { selection } => selection.codes(),
    }
}
