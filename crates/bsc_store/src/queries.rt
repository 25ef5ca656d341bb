//! What is asked of the tables.
ghost use Rattle.std.specs.Prelude.{◌≡◌};
ghost use Rattle.bsc_store.specs.Reading.{next_query, query_text, up_to_query};

/// A query.
#[derive(Clone, Copy)]
pub(crate) enum Query {
    /// How many tables there are.
    Tables,

    /// The version.
    Version,

    /// The text of the line.
    Line,

    /// How many channels have more records known or in doubt than were offered.
    WrongKnown,

    /// How many channels have more records printed than arrived.
    WrongPrinted,

    /// What a channel has, in numbers: offered, known, in doubt, arrived, printed.
    Progress,

    /// The next offered record of a channel.
    NextOffered,

    /// The next record that arrived on a channel.
    NextArrived,

    /// The same two, with the check of the record.
    CheckedOffered,
    CheckedArrived,

    /// How many offered records of a channel stand up to a mark.
    OfferedUpTo,

    /// How many records that arrived on a channel stand up to a mark.
    ArrivedUpTo,

    /// The greatest mark of an offered record, and of one that arrived.
    LastOffered,
    LastArrived,
}

/// Which records of a channel are meant: those that were offered, or those that arrived.
#[derive(Clone, Copy)]
pub(crate) enum Side {
    Offered,
    Arrived,
}

impl Side {
    /// Returns the query for the next record, with its check if records have checks.
    pub(crate) fn next(self, is_checked: bool) -> Query
        ensures { result ≡ next_query self is_checked }
    {
        match (self, is_checked) {
            (Side::Offered, false) => Query::NextOffered,
            (Side::Offered, true) => Query::CheckedOffered,
            (Side::Arrived, false) => Query::NextArrived,
            (Side::Arrived, true) => Query::CheckedArrived,
        }
    }

    /// Returns the query for how many records stand up to a mark.
    pub(crate) fn up_to(self) -> Query
        ensures { result ≡ up_to_query self }
    {
        match self {
            Side::Offered => Query::OfferedUpTo,
            Side::Arrived => Query::ArrivedUpTo,
        }
    }
}

impl Query {
    /// Returns its text.
    pub(crate) fn text(self) -> &'static str
        ensures { result.now ≡ query_text self }
    {
        match self {
            Query::Tables => "SELECT count(*) FROM sqlite_schema",
            Query::Version => "SELECT version FROM line",
            Query::Line => "SELECT line FROM line",
            Query::WrongKnown => {
                "SELECT count(*) FROM known AS k \
                    WHERE k.known + k.in_doubt > (SELECT count(*) FROM offered AS o \
                    WHERE o.way = k.way AND o.address = k.address)"
            }
            Query::WrongPrinted => {
                "SELECT count(*) FROM printed AS p \
                    WHERE p.printed > (SELECT count(*) FROM arrived AS a \
                    WHERE a.way = p.way AND a.address = p.address)"
            }
            Query::Progress => {
                "SELECT (SELECT count(*) FROM offered WHERE way = ?1 AND address = ?2), \
                    (SELECT coalesce(sum(known), 0) FROM known \
                    WHERE way = ?1 AND address = ?2), \
                    (SELECT coalesce(sum(in_doubt), 0) FROM known \
                    WHERE way = ?1 AND address = ?2), \
                    (SELECT count(*) FROM arrived WHERE way = ?1 AND address = ?2), \
                    (SELECT coalesce(sum(printed), 0) FROM printed \
                    WHERE way = ?1 AND address = ?2)"
            }
            Query::NextOffered => {
                "SELECT id, record FROM offered WHERE id > ?3 AND way = ?1 AND address = ?2 \
                    ORDER BY id LIMIT 1 OFFSET ?4"
            }
            Query::NextArrived => {
                "SELECT id, record FROM arrived WHERE id > ?3 AND way = ?1 AND address = ?2 \
                    ORDER BY id LIMIT 1 OFFSET ?4"
            }
            Query::CheckedOffered => {
                "SELECT id, record, checked FROM offered \
                    WHERE id > ?3 AND way = ?1 AND address = ?2 ORDER BY id LIMIT 1 OFFSET ?4"
            }
            Query::CheckedArrived => {
                "SELECT id, record, checked FROM arrived \
                    WHERE id > ?3 AND way = ?1 AND address = ?2 ORDER BY id LIMIT 1 OFFSET ?4"
            }
            Query::OfferedUpTo => {
                "SELECT count(*) FROM offered WHERE id <= ?3 AND way = ?1 AND address = ?2"
            }
            Query::ArrivedUpTo => {
                "SELECT count(*) FROM arrived WHERE id <= ?3 AND way = ?1 AND address = ?2"
            }
            Query::LastOffered => "SELECT coalesce(max(id), 0) FROM offered",
            Query::LastArrived => "SELECT coalesce(max(id), 0) FROM arrived",
        }
    }
}
