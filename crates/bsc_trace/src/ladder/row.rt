//! The rows of a ladder.

/// The stations between which a transmission goes. A column is the number of a station beside the
/// control station, counted from 0.
#[derive(Clone, Copy, Debug, PartialEq, Eq)]
pub enum Course {
    /// From the control station to the stations of all columns.
    ToAll,

    /// From the control station to the station of this column.
    ToOne { column: u8 },

    /// From the station of this column to the control station.
    From { column: u8 },
}

/// What became of a transmission.
#[derive(Clone, Copy, Debug, PartialEq, Eq)]
pub enum Fate {
    /// It was sent. Whether it was heard is not known.
    Sent,

    /// It was heard as it was sent.
    Heard,

    /// It was heard as a text whose check failed, or as noise.
    Failed,

    /// It was heard as another message than the one that was sent.
    Turned,

    /// It arrived, and was not heard.
    Ignored,

    /// It was lost on the way.
    Lost,

    /// It was not sent, since it would have been late.
    Withheld,
}

/// The station at which a mark stands.
#[derive(Clone, Copy, Debug, PartialEq, Eq)]
pub enum Place {
    /// The control station.
    Control,

    /// The station of this column.
    Station { column: u8 },
}

/// What a mark is.
#[derive(Clone, Copy, Debug, PartialEq, Eq)]
pub enum Sign {
    /// Anything that was told.
    Told,

    /// The addresses of the station, at its column.
    Named,

    /// A record that arrived at the station.
    Arrived,

    /// A doubt of the station about what it sent begins.
    DoubtBegins,

    /// A doubt of the station about what it sent is ended.
    DoubtEnds,

    /// The station began again.
    Restart,

    /// The line is no longer trusted.
    TrustEnds,
}

/// Where a mark stands, and what it is.
#[derive(Clone, Copy, Debug, PartialEq, Eq)]
pub struct Mark {
    /// The station at which it stands.
    pub place: Place,

    /// What it is.
    pub sign: Sign,
}

/// A row of a ladder.
#[derive(Clone, Copy, Debug)]
pub enum Row<'a> {
    /// A transmission.
    Arrow {
        /// When it was sent or heard, in decimal digits.
        time: &'a [u8],

        /// From where to where it went.
        course: Course,

        /// What became of it.
        fate: Fate,

        /// Its name.
        name: &'a [u8],

        /// The characters of its records.
        note: &'a [u8],

        /// Its octets.
        octets: &'a [u8],
    },

    /// A time-out in which nothing was heard.
    Silence {
        /// When it ended, in decimal digits.
        time: &'a [u8],
    },

    /// Anything else.
    Mark {
        /// When it was told, in decimal digits.
        time: &'a [u8],

        /// Where it stands, and what it is.
        mark: Mark,

        /// What was told.
        text: &'a [u8],
    },
}
