//! The first words of commands.

ghost use Rattle.std.specs.Prelude.{◌≡◌};
ghost use Rattle.bsc_feed.specs.Commands.{command_keyword};

use bsc_text::spells;

/// The first word of a command.
#[derive(Clone, Copy)]
pub(crate) enum Keyword {
    Offer,
    OfferHex,
    Status,
    Release,
    Ready,
    Urgent,
    Poll,
    Follow,
    Stop,
}

/// Returns the keyword that the word spells, or `None` if it is not a keyword.
pub(crate) fn read_keyword(word: &[u8]) -> Option<Keyword>
    ensures { result ≡ command_keyword word.now }
{
    if spells(word, "offer") {
        Some(Keyword::Offer)
    } else if spells(word, "offer-hex") {
        Some(Keyword::OfferHex)
    } else if spells(word, "status") {
        Some(Keyword::Status)
    } else if spells(word, "release") {
        Some(Keyword::Release)
    } else if spells(word, "ready") {
        Some(Keyword::Ready)
    } else if spells(word, "urgent") {
        Some(Keyword::Urgent)
    } else if spells(word, "poll") {
        Some(Keyword::Poll)
    } else if spells(word, "follow") {
        Some(Keyword::Follow)
    } else if spells(word, "stop") {
        Some(Keyword::Stop)
    } else {
        None
    }
}
