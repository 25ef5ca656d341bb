//! The first words of the lines of a script.
ghost use Rattle.std.specs.Prelude.{◌≡◌};
ghost use Rattle.bsc_config.specs.Events.{event_keyword};

use bsc_text::spells;

/// The first word of a line with an event.
#[derive(Clone, Copy)]
pub(crate) enum Keyword {
    OfferAt,
    OfferFor,
    OfferTo,
    Carry,
    Lose,
    Heard,
    HeardEach,
    Silence,
    Ready,
    Unready,
    PollOn,
    PollOff,
    UrgentAt,
    UrgentFor,
    Release,
}

/// Returns the keyword that the word spells, or `None` if it is not a keyword.
pub(crate) fn read_keyword(word: &[u8]) -> Option<Keyword>
    ensures { result ≡ event_keyword word.now }
{
    if spells(word, "offer-at") {
        Some(Keyword::OfferAt)
    } else if spells(word, "offer-for") {
        Some(Keyword::OfferFor)
    } else if spells(word, "offer-to") {
        Some(Keyword::OfferTo)
    } else if spells(word, "carry") {
        Some(Keyword::Carry)
    } else if spells(word, "lose") {
        Some(Keyword::Lose)
    } else if spells(word, "heard") {
        Some(Keyword::Heard)
    } else if spells(word, "heard-each") {
        Some(Keyword::HeardEach)
    } else if spells(word, "silence") {
        Some(Keyword::Silence)
    } else if spells(word, "ready") {
        Some(Keyword::Ready)
    } else if spells(word, "unready") {
        Some(Keyword::Unready)
    } else if spells(word, "poll-on") {
        Some(Keyword::PollOn)
    } else if spells(word, "poll-off") {
        Some(Keyword::PollOff)
    } else if spells(word, "urgent-at") {
        Some(Keyword::UrgentAt)
    } else if spells(word, "urgent-for") {
        Some(Keyword::UrgentFor)
    } else if spells(word, "release") {
        Some(Keyword::Release)
    } else {
        None
    }
}
