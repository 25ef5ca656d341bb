//! One station of a configured line, the control station or one of the terminals, as what runs it
//! needs it: its channels and their ends, the records that it has to send, how it stands at the end
//! of a run, and what of it is to be kept, may be forgotten, and may be asked for while it runs.
//!
//! `bsc_control` and `bsc_tributary` have the stations themselves, whose polling and selection are
//! those of GA27-3004. The trait of both, the reading of records and the forgetting are this
//! project's own.
#![tactic(auto)]

mod channel_end;
mod control_party;
mod control_station;
mod counting;
mod forgetting;
mod line_station;
mod line_terminal;
mod making;
mod offering;
mod offers;
mod party;
mod standing;
mod standings;
mod terminal_station;

pub use channel_end::ChannelEnd;
pub use counting::station_counts;
pub use line_station::LineStation;
pub use line_terminal::LineTerminal;
pub use making::{new_control, new_terminal};
pub use offering::{offer_at_terminal, offer_for_terminal};
pub use offers::{OfferError, read_records};
pub use party::{Party, Received};
pub use standing::Standing;
pub use standings::station_standing;
