//! Reads one line of a script.
ghost use Rattle.std.specs.Prelude.{◌≡◌, [], IfOk, option_map, unwrap_or, true, false};
ghost use Rattle.bsc_text.specs.Numbers.{terminal_of};
ghost use Rattle.bsc_text.specs.Words.{words_of};
ghost use Rattle.bsc_config.specs.Actions.{event_in};
ghost use Rattle.bsc_config.specs.Events as events;
ghost use Rattle.bsc_config.specs.Events.{event_alone, event_by, event_of, event_with, offer_at_of};
ghost use Rattle.bsc_config.specs.Events.{offer_for_of, offer_select_of, offer_to_of, release_of};
ghost use Rattle.bsc_config.specs.Events.{way_of};
ghost use Rattle.bsc_config.specs.Transmissions.{item_of, items_of, transmission_of};

use crate::script::heard_octets::read_transmission;
use crate::script::keyword::{Keyword, read_keyword};
use crate::script::{Action, HeardOctets};
use bsc_bid::Way;
use bsc_text::{select_number, split_word, terminal_number};
use std::alloc::{AllocError, Allocator};

/// Returns the event of the line, or `None` if the line is not an event.
pub(crate) fn read_action<'a, A: Allocator + Copy>(
    alloc: A,
    line: &'a [u8],
) -> Result<Option<Action<'a, A>>, AllocError>
    ensures { IfOk result (λ action. option_map event_in action ≡ event_of line.now) }
{
    let (word, rest) = split_word(line);
    match read_keyword(word) {
        Some(keyword) => action_by(alloc, keyword, rest),
        None => Ok(None),
    }
}

/// Returns the event of a keyword, with or without the rest of the line.
fn action_by<'a, A: Allocator + Copy>(
    alloc: A,
    keyword: Keyword,
    rest: Option<&'a [u8]>,
) -> Result<Option<Action<'a, A>>, AllocError>
    ensures { IfOk result (λ action.
        option_map event_in action ≡ event_by (option_map (λ r. r.now) rest.entry) keyword) }
{
    match rest {
        Some(rest) => action_with(alloc, keyword, rest),
        None => Ok(action_alone(keyword)),
    }
}

/// Returns the event of a keyword with nothing after it.
fn action_alone<'a, A: Allocator>(keyword: Keyword) -> Option<Action<'a, A>>
    ensures { option_map event_in result ≡ event_alone keyword }
{
    match keyword {
        Keyword::Carry => Some(Action::Carry),
        Keyword::Lose => Some(Action::Lose),
        Keyword::Silence => Some(Action::Silence),
        _ => None,
    }
}

/// Returns the event of a keyword with the rest of the line.
fn action_with<'a, A: Allocator + Copy>(
    alloc: A,
    keyword: Keyword,
    rest: &'a [u8],
) -> Result<Option<Action<'a, A>>, AllocError>
    ensures { IfOk result (λ action. option_map event_in action ≡ event_with keyword rest.now) }
{
    match keyword {
        Keyword::OfferAt => Ok(offer_at(rest)),
        Keyword::OfferFor => Ok(offer_for(rest)),
        Keyword::OfferTo => Ok(offer_to(rest)),
        Keyword::Heard => heard(alloc, rest),
        Keyword::HeardEach => heard_each(alloc, rest),
        Keyword::Ready => Ok(ready(rest, true)),
        Keyword::Unready => Ok(ready(rest, false)),
        Keyword::PollOn => Ok(polled(rest, true)),
        Keyword::PollOff => Ok(polled(rest, false)),
        Keyword::UrgentAt => Ok(urgent_at(rest)),
        Keyword::UrgentFor => Ok(urgent_for(rest)),
        Keyword::Release => Ok(release(rest)),
        Keyword::Carry | Keyword::Lose | Keyword::Silence => Ok(None),
    }
}

/// Returns the codes of a record at the end of the line: those after the space, or none if there is
/// no space.
fn codes_after(rest: Option<&[u8]>) -> &[u8]
    ensures { result.now ≡ unwrap_or (option_map (λ r. r.now) rest.entry) [] }
{
    rest.unwrap_or(&[])
}

/// Reads `T RECORD`, a record offered at a terminal.
fn offer_at<'a, A: Allocator>(rest: &'a [u8]) -> Option<Action<'a, A>>
    ensures { option_map event_in result ≡ offer_at_of rest.now }
{
    let (word, rest) = split_word(rest);
    let terminal = terminal_number(word)?;
    let codes = codes_after(rest);
    Some(Action::OfferAt { terminal, codes })
}

/// Reads `T RECORD`, a record for the first selection address of a terminal.
fn offer_for<'a, A: Allocator>(rest: &'a [u8]) -> Option<Action<'a, A>>
    ensures { option_map event_in result ≡ offer_for_of rest.now }
{
    let (word, rest) = split_word(rest);
    let terminal = terminal_number(word)?;
    let codes = codes_after(rest);
    Some(Action::OfferFor {
        terminal,
        select: 0,
        codes,
    })
}

/// Reads `T S RECORD`, a record for a selection address of a terminal.
fn offer_to<'a, A: Allocator>(rest: &'a [u8]) -> Option<Action<'a, A>>
    ensures { option_map event_in result ≡ offer_to_of rest.now }
{
    let (word, rest) = split_word(rest);
    let terminal = terminal_number(word)?;
    offer_select(terminal, rest?)
}

/// Reads `S RECORD`, a record for a selection address of this terminal.
fn offer_select<'a, A: Allocator>(terminal: usize, rest: &'a [u8]) -> Option<Action<'a, A>>
    ensures { option_map event_in result ≡ offer_select_of terminal rest.now }
{
    let (word, rest) = split_word(rest);
    let select = select_number(word)?;
    let codes = codes_after(rest);
    Some(Action::OfferFor {
        terminal,
        select,
        codes,
    })
}

/// Reads the octets of a transmission in hexadecimal text.
fn heard<'a, A: Allocator + Copy>(
    alloc: A,
    text: &[u8],
) -> Result<Option<Action<'a, A>>, AllocError>
    ensures { IfOk result (λ action.
        option_map event_in action ≡ option_map events.heard (transmission_of text.now)) }
{
    match read_transmission(alloc, text)? {
        Some(octets) => Ok(Some(Action::Heard { octets })),
        None => Ok(None),
    }
}

/// Reads one word for each terminal.
fn heard_each<'a, A: Allocator + Copy>(
    alloc: A,
    text: &[u8],
) -> Result<Option<Action<'a, A>>, AllocError>
    ensures { IfOk result (λ action.
        option_map event_in action ≡ option_map events.heard_each (items_of (words_of text.now))) }
{
    match read_items(alloc, text)? {
        Some(items) => Ok(Some(Action::HeardEach { items })),
        None => Ok(None),
    }
}

/// Returns what each terminal hears, or `None` if a word is not an item.
fn read_items<A: Allocator + Copy>(
    alloc: A,
    text: &[u8],
) -> Result<Option<Vec<Option<HeardOctets<A>>, A>>, AllocError>
    ensures { IfOk result (λ items.
        option_map (λ v. v.items) items ≡ items_of (words_of text.now)) }
{
    let mut items = Vec::new(alloc);
    let mut left = text;
    'words: loop {
        let (word, rest) = split_word(left);
        match read_item(alloc, word)? {
            Some(item) => items.push(item)?,
            None => return Ok(None),
        }
        match rest {
            Some(rest) => left = rest,
            None => return Ok(Some(items)),
        }
    }
}

/// Returns what one terminal hears: octets, or nothing if the word is `-`. Returns `None` if the
/// word is neither.
fn read_item<A: Allocator + Copy>(
    alloc: A,
    word: &[u8],
) -> Result<Option<Option<HeardOctets<A>>>, AllocError>
    ensures { IfOk result (λ item. item ≡ item_of word.now) }
{
    if word == b"-".as_slice() {
        return Ok(Some(None));
    }
    match read_transmission(alloc, word)? {
        Some(octets) => Ok(Some(Some(octets))),
        None => Ok(None),
    }
}

/// Reads `T`, the terminal that starts or stops accepting selections.
fn ready<'a, A: Allocator>(rest: &[u8], ready: bool) -> Option<Action<'a, A>>
    ensures { option_map event_in result ≡
        option_map (λ t. events.ready t ready) (terminal_of rest.now) }
{
    let terminal = terminal_number(rest)?;
    Some(Action::Ready { terminal, ready })
}

/// Reads `T`, the terminal that the control station starts or stops polling.
fn polled<'a, A: Allocator>(rest: &[u8], polled: bool) -> Option<Action<'a, A>>
    ensures { option_map event_in result ≡
        option_map (λ t. events.polled t polled) (terminal_of rest.now) }
{
    let terminal = terminal_number(rest)?;
    Some(Action::Polled { terminal, polled })
}

/// Reads `T`, the terminal that asks the control station for the line.
fn urgent_at<'a, A: Allocator>(rest: &[u8]) -> Option<Action<'a, A>>
    ensures { option_map event_in result ≡ option_map events.urgent_at (terminal_of rest.now) }
{
    let terminal = terminal_number(rest)?;
    Some(Action::UrgentAt { terminal })
}

/// Reads `T`, the terminal that the control station asks for the line.
fn urgent_for<'a, A: Allocator>(rest: &[u8]) -> Option<Action<'a, A>>
    ensures { option_map event_in result ≡ option_map events.urgent_for (terminal_of rest.now) }
{
    let terminal = terminal_number(rest)?;
    Some(Action::UrgentFor { terminal })
}

/// Reads `T` and a direction.
fn release<'a, A: Allocator>(rest: &[u8]) -> Option<Action<'a, A>>
    ensures { option_map event_in result ≡ release_of rest.now }
{
    let (word, rest) = split_word(rest);
    let terminal = terminal_number(word)?;
    let way = way(rest?)?;
    Some(Action::Release { terminal, way })
}

/// Reads a direction: `from`, `to` or `to S`.
fn way(words: &[u8]) -> Option<Way>
    ensures { result ≡ way_of words.now }
{
    if words == b"from".as_slice() {
        return Some(Way::FromTerminal);
    }
    if words == b"to".as_slice() {
        return Some(Way::ToTerminal(0));
    }
    let (word, rest) = split_word(words);
    if word != b"to".as_slice() {
        return None;
    }
    let select = select_number(rest?)?;
    Some(Way::ToTerminal(select))
}
