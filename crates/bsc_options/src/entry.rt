//! The rows of the tables of arguments and options.

/// What an argument or an option takes.
#[derive(Clone, Copy)]
pub enum Takes {
    /// A value without a name, which has to be given.
    Required,

    /// A value without a name, which may be left out.
    Optional,

    /// Values without a name, any number of them: from the first of them on all words are values.
    Rest,

    /// Nothing.
    Flag,

    /// Nothing; how often it is given counts.
    Count,

    /// A value.
    Value,

    /// A value each time that it is given, any number of times.
    Values,

    /// A number from `least` to `most`, which is `absent` unless it is given.
    Number { least: u64, most: u64, absent: u64 },

    /// A number from `least` to `most`. What it is unless it is given follows from other options.
    Derived { least: u64, most: u64 },
}

/// An argument or an option of a command.
#[derive(Clone, Copy)]
pub struct Entry {
    /// Its name, without the two hyphens of an option.
    pub id: &'static str,

    /// What it takes.
    pub takes: Takes,

    /// The name of its value in the help; empty if it has none.
    pub value: &'static str,

    /// Its values in words, for the reason why another one is refused.
    pub kind: &'static str,

    /// Its description in the help.
    pub help: &'static str,

    /// The names of the options without which it cannot be given.
    pub needs: &'static [&'static str],

    /// The names of the options with which it cannot be given.
    pub excludes: &'static [&'static str],
}

/// A command of the program.
#[derive(Clone, Copy)]
pub struct Subcommand {
    /// Its name.
    pub name: &'static str,

    /// Its description in the help.
    pub about: &'static str,

    /// An example of its use, at the end of the help.
    pub example: &'static str,

    /// Its arguments and options.
    pub entries: &'static [Entry],
}

/// A flag that nothing goes with: what a row of a table has unless it says otherwise.
pub(crate) const FLAG: Entry = Entry {
    id: "",
    takes: Takes::Flag,
    value: "",
    kind: "",
    help: "",
    needs: &[],
    excludes: &[],
};
