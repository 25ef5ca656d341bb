//! What of an answer matters for trust.

ghost use Rattle.std.specs.Prelude.{◌≡◌};
ghost use Rattle.bsc_trust.specs.Answers.{is_noise, is_timed};

use bsc_frame::{Heard, Message};

/// Returns whether a transmission is one that a station ignores.
pub(crate) fn is_noise(heard: &Heard<'_>) -> bool
    ensures { result ≡ is_noise heard.now }
{
    match heard {
        Heard::Noise => true,
        _ => false,
    }
}

/// Returns whether the time that an answer took counts. That of ENQ does not, since a terminal
/// sends it after its own time-out, and that of EOT only up to the time-out, since a terminal that
/// gives up sends it. (GA27-3004, time-outs.)
pub(crate) fn is_timed(heard: &Heard<'_>, time: u64, time_out: u64) -> bool
    ensures { result ≡ is_timed heard.now time time_out }
{
    match heard {
        Heard::Whole(Message::Enq) => false,
        Heard::Whole(Message::Eot) => time <= time_out,
        _ => true,
    }
}
