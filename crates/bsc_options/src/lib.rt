//! The arguments and options of the command `bscline`, as tables; what was given of them, as plain
//! values; what the options of `bscline station` mean, which of them contradict one another, and
//! the channels to which records are offered; and the words of `bscline store`. Nothing here
//! depends on how the arguments are read.
#![tactic(auto)]

mod admission;
mod asked;
mod checks;
mod entry;
mod error;
mod inputs;
mod numbers;
mod offers;
mod serves;
mod settings;
mod splitting;
mod store_works;
mod tables;
mod words;

pub use admission::{Admission, GivenPeers, read_admission};
pub use asked::Asked;
pub use entry::{Entry, Subcommand, Takes};
pub use error::OptionError;
pub use numbers::number_within;
pub use offers::{Offer, offer_of};
pub use serves::{Serves, read_serves};
pub use settings::{Place, StationSettings, Times, read_settings};
pub use store_works::{StoreChannel, StoreWork, read_store_work};
pub use tables::{CHART, FEED, LINE_COMMANDS, NAME, RUN, STATION, STATION_COMMANDS, STORE};
pub use words::{Given, Words};
