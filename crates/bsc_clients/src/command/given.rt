//! What the words of the command ask for.

ghost use Rattle.std.specs.Prelude.{◌≡◌, ◌∷◌, ◌++◌, IfErr, IfOk, OnOk, map, string_bytes};
ghost use Rattle.std.specs.List.{flat_map};
ghost use Rattle.bsc_clients.specs.Errors.{IsGivenError};
ghost use Rattle.bsc_clients.specs.Commands.{IsGiven, is_follow as follows_channel};
ghost use Rattle.bsc_clients.specs.Commands.{has_feed as feed_in, is_offer, is_unsent as unsent};
ghost use Rattle.bsc_clients.specs.Commands.{is_way, joined};
ghost use Rattle.bsc_clients.specs.Commands.{takes_texts as texts_after};

use crate::command::FeedError;
use bsc_text::{is_skipped, spells, split_word, without_return};
use std::alloc::{AllocError, Allocator};

/// What the words of the command ask for.
#[derive(Drop)]
pub(crate) struct Given<A: Allocator> {
    /// The command; or, if lines are taken, what stands before each line of the input.
    pub(crate) text: Vec<u8, A>,

    /// Whether the lines of the input are sent, each after the text.
    pub(crate) takes_lines: bool,
}

/// Returns what these words ask for. Fails with `NotOneLine` if a word has a line feed.
pub(crate) fn read_given<A: Allocator + Copy>(
    alloc: A,
    words: &[String<A>],
) -> Result<Given<A>, FeedError>
    ensures given { IfOk result (λ given.
        IsGiven (map string_bytes words.now) given.text.items given.takes_lines) }
    ensures failed { IfErr result (IsGivenError (map string_bytes words.now)) }
{
    let mut text = join(alloc, words)?;
    if has_feed(&text) {
        return Err(FeedError::NotOneLine);
    }
    if words.is_empty() {
        return Ok(Given {
            text,
            takes_lines: true,
        });
    }
    let takes_lines = takes_texts(&text);
    if takes_lines {
        text.push(b' ')?;
    }
    Ok(Given { text, takes_lines })
}

/// Returns the words, with one space between any two.
fn join<A: Allocator + Copy>(alloc: A, words: &[String<A>]) -> Result<Vec<u8, A>, AllocError>
    ensures { IfOk result (λ text. text.items ≡ joined (map string_bytes words.now)) }
{
    let mut text = Vec::new(alloc);
    let Some((first, rest)) = words.split_first() else {
        return Ok(text);
    };
    text.extend_from_slice(first.as_bytes())?;
    add_words(&mut text, rest)?;
    Ok(text)
}

/// Appends these words, each after a space.
fn add_words<A: Allocator>(text: &mut Vec<u8, A>, words: &[String<A>]) -> Result<(), AllocError>
    ensures { OnOk result (text.new.items
        ≡ text.old.items ++ flat_map (λ word. 32 ∷ word) (map string_bytes words.now)) }
{
    'words: for word in words {
        text.push(b' ')?;
        text.extend_from_slice(word.as_bytes())?;
    }
    Ok(())
}

/// Whether the text has a line feed.
fn has_feed(text: &[u8]) -> bool
    ensures { result ≡ feed_in text.now }
{
    text.iter().any(|&octet| octet == b'\n')
}

/// Whether the command offers a record on a channel and has no text after the channel.
fn takes_texts(command: &[u8]) -> bool
    ensures { result ≡ texts_after command.now }
{
    let (word, rest) = split_word(command);
    let Some(rest) = rest else {
        return false;
    };
    let (way, rest) = split_word(rest);
    let Some(rest) = rest else {
        return false;
    };
    let (_, rest) = split_word(rest);
    if let Some(_) = rest {
        return false;
    }
    is_offer(word) && is_way(way)
}

/// Whether a command with this word offers a record.
fn is_offer(word: &[u8]) -> bool
    ensures { result ≡ is_offer word.now }
{
    spells(word, "offer") || spells(word, "offer-hex")
}

/// Whether a word begins the name of a channel.
fn is_way(word: &[u8]) -> bool
    ensures { result ≡ is_way word.now }
{
    spells(word, "to") || spells(word, "from")
}

/// Whether a line is not sent: a station skips it, and gives no answer.
pub(crate) fn is_unsent(line: &[u8]) -> bool
    ensures { result ≡ unsent line.now }
{
    is_skipped(without_return(line))
}

/// Whether a line asks to be told what happens on a channel.
pub(crate) fn is_follow(line: &[u8]) -> bool
    ensures { result ≡ follows_channel line.now }
{
    spells(split_word(line).0, "follow")
}
