//! Which silences take no waiting.

ghost use Rattle.std.specs.Prelude.{◌≡◌};
ghost use Rattle.bsc_connections.specs.declared.awaited.Awaited.TheVariants.{TimeOut};
ghost use Rattle.bsc_sockets.specs.Silences.{is_over, silence_after, silence_answered};

use crate::ConnectionSettings;

/// The last silence that a station was told of.
#[derive(Clone, Copy)]
pub(crate) enum LastSilence {
    /// It was told of none.
    Untold,

    /// It has sent nothing since then, and withheld nothing.
    Unanswered,

    /// It has sent something since then, or withheld it.
    Answered,
}

impl LastSilence {
    /// Returns whether the time-out has passed at once. The first one has if the station begins. A
    /// later one has if the station skips what nobody can break: nobody may answer what it sent
    /// last, as `is_reached` tells. It is not skipped in a wait that begins with a pause, and not
    /// if the station has sent nothing since the last one, so that each round in which nothing gets
    /// through ends with a silence of its whole time.
    pub(crate) fn is_over(
        self,
        settings: &ConnectionSettings,
        is_reached: bool,
        has_paused: bool,
    ) -> bool
        ensures { result ≡ is_over self settings.now is_reached has_paused }
    {
        match self {
            LastSilence::Untold => settings.begins,
            LastSilence::Unanswered => false,
            LastSilence::Answered => settings.skips && !is_reached && !has_paused,
        }
    }

    /// Records that the station is told of a silence.
    pub(crate) fn tell(&mut self)
        ensures { self.new ≡ silence_after TimeOut self.old }
    {
        *self = LastSilence::Unanswered;
    }

    /// Records that the station sends something, or withholds it.
    pub(crate) fn answer(&mut self)
        ensures { self.new ≡ silence_answered self.old }
    {
        *self = match *self {
            LastSilence::Untold => LastSilence::Untold,
            LastSilence::Unanswered | LastSilence::Answered => LastSilence::Answered,
        };
    }
}
