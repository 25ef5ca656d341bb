//! Reads the line of a command.

ghost use Rattle.std.specs.Prelude.{◌≡◌, option_map};
ghost use Rattle.bsc_text.specs.Hexadecimal.{octets_of};
ghost use Rattle.bsc_feed.specs.Commands.{IsRead, asked_after, asked_alone, asked_by, asked_in};
ghost use Rattle.bsc_feed.specs.Commands.{asked_with, follow_from, follow_in, offer_hex_in};
ghost use Rattle.bsc_feed.specs.Commands.{offer_in, offer_octets, or_not_a_command, poll_in};
ghost use Rattle.bsc_feed.specs.Commands.{ready_in, release_in};
ghost use Rattle.bsc_feed.specs.Channels.{channel_at};

use crate::channel::{Split, split_channel};
use crate::keyword::{Keyword, read_keyword};
use crate::number::count_of;
use crate::{Command, Fault};
use bsc_bid::ChannelName;
use bsc_text::{read_octets, spells, split_word};
use std::alloc::Allocator;

/// Returns the command of a line, of which the line feed and one carriage return before it are
/// dropped. Fails with `NotACommand` if it is none, else with `NotHexadecimal` if the record is not
/// hexadecimal text; `OutOfMemory` may come in place of the command of an `offer-hex`, or of
/// `NotHexadecimal`.
pub fn read_command<'a, A: Allocator + Copy>(
    alloc: A,
    line: &'a [u8],
) -> Result<Command<'a, A>, Fault>
    ensures { IsRead (asked_in line.now) result }
{
    let (word, rest) = split_word(line);
    match read_keyword(word) {
        Some(keyword) => read_after(alloc, keyword, rest),
        None => Err(Fault::NotACommand),
    }
}

/// Returns the command of a keyword, with or without the rest of the line.
fn read_after<'a, A: Allocator + Copy>(
    alloc: A,
    keyword: Keyword,
    rest: Option<&'a [u8]>,
) -> Result<Command<'a, A>, Fault>
    ensures { IsRead (asked_after (option_map (λ r. r.now) rest.entry) keyword) result }
{
    match rest {
        Some(rest) => read_with(alloc, keyword, rest),
        None => if_command(read_alone(keyword)),
    }
}

/// Returns the command, or the fault that there is none.
fn if_command<'a, A: Allocator>(command: Option<Command<'a, A>>) -> Result<Command<'a, A>, Fault>
    ensures { IsRead (or_not_a_command (option_map asked_by command.entry)) result }
{
    match command {
        Some(command) => Ok(command),
        None => Err(Fault::NotACommand),
    }
}

/// Returns the command of a keyword with nothing after it.
fn read_alone<'a, A: Allocator>(keyword: Keyword) -> Option<Command<'a, A>>
    ensures { option_map asked_by result ≡ asked_alone keyword }
{
    match keyword {
        Keyword::Status => Some(Command::Status),
        Keyword::Urgent => Some(Command::Urgent),
        Keyword::Stop => Some(Command::Stop),
        _ => None,
    }
}

/// Returns the command of a keyword with the rest of the line.
fn read_with<'a, A: Allocator + Copy>(
    alloc: A,
    keyword: Keyword,
    rest: &'a [u8],
) -> Result<Command<'a, A>, Fault>
    ensures { IsRead (asked_with keyword rest.now) result }
{
    match keyword {
        Keyword::Offer => if_command(read_offer(rest)),
        Keyword::OfferHex => read_offer_hex(alloc, rest),
        Keyword::Release => if_command(read_release(rest)),
        Keyword::Ready => if_command(read_ready(rest)),
        Keyword::Poll => if_command(read_poll(rest)),
        Keyword::Follow => if_command(read_follow(rest)),
        _ => Err(Fault::NotACommand),
    }
}

/// Reads `CHANNEL TEXT`.
fn read_offer<'a, A: Allocator>(text: &'a [u8]) -> Option<Command<'a, A>>
    ensures { option_map asked_by result ≡ offer_in text.now }
{
    let Split { channel, rest } = split_channel(text)?;
    let codes = rest.unwrap_or(&[]);
    Some(Command::Offer { channel, codes })
}

/// Reads `CHANNEL HEX`.
fn read_offer_hex<'a, A: Allocator + Copy>(
    alloc: A,
    text: &'a [u8],
) -> Result<Command<'a, A>, Fault>
    ensures { IsRead (offer_hex_in (channel_at text.now)) result }
{
    match split_channel(text) {
        Some(split) => read_octets_of(alloc, split.channel, split.rest.unwrap_or(&[])),
        None => Err(Fault::NotACommand),
    }
}

/// Returns the offer of the codes in hexadecimal text.
fn read_octets_of<'a, A: Allocator + Copy>(
    alloc: A,
    channel: ChannelName,
    digits: &[u8],
) -> Result<Command<'a, A>, Fault>
    ensures { IsRead (offer_octets channel (octets_of digits.now)) result }
{
    match read_octets(alloc, digits) {
        Ok(Some(codes)) => Ok(Command::OfferHex { channel, codes }),
        Ok(None) => Err(Fault::NotHexadecimal),
        Err(_) => Err(Fault::OutOfMemory),
    }
}

/// Reads `CHANNEL COUNT`.
fn read_release<'a, A: Allocator>(text: &[u8]) -> Option<Command<'a, A>>
    ensures { option_map asked_by result ≡ release_in text.now }
{
    let Split { channel, rest } = split_channel(text)?;
    let count = count_of(rest?)?;
    Some(Command::Release { channel, count })
}

/// Reads `on` or `off`.
fn read_ready<'a, A: Allocator>(text: &[u8]) -> Option<Command<'a, A>>
    ensures { option_map asked_by result ≡ ready_in text.now }
{
    if spells(text, "on") {
        Some(Command::Ready { ready: true })
    } else if spells(text, "off") {
        Some(Command::Ready { ready: false })
    } else {
        None
    }
}

/// Reads `on T` or `off T`.
fn read_poll<'a, A: Allocator>(text: &[u8]) -> Option<Command<'a, A>>
    ensures { option_map asked_by result ≡ poll_in text.now }
{
    let (word, rest) = split_word(text);
    let terminal = count_of(rest?)?;
    if spells(word, "on") {
        Some(Command::Poll {
            terminal,
            polled: true,
        })
    } else if spells(word, "off") {
        Some(Command::Poll {
            terminal,
            polled: false,
        })
    } else {
        None
    }
}

/// Reads `CHANNEL` or `CHANNEL FROM`.
fn read_follow<'a, A: Allocator>(text: &[u8]) -> Option<Command<'a, A>>
    ensures { option_map asked_by result ≡ follow_in text.now }
{
    let Split { channel, rest } = split_channel(text)?;
    match rest {
        Some(word) => {
            let from = count_of(word)?;
            Some(Command::Follow {
                channel,
                from: Some(from),
            })
        }
        None => Some(Command::Follow {
            channel,
            from: None,
        }),
    }
}
