//! The rules of a line that a watch can find broken.

use thiserror::Error;

/// The rule that a line broke.
#[derive(Clone, Copy, Debug, PartialEq, Eq, Error)]
pub enum Broken {
    /// An event was refused that has to be accepted, or accepted that has to be refused, or refused
    /// for another reason than it has to be.
    #[error("another answer to the event")]
    Answer,

    /// The line is trusted although something was heard unfairly, or is not trusted although
    /// everything was heard fairly.
    #[error("another trust")]
    Trust,

    /// The line does not have a channel that it has to have.
    #[error("a channel is missing")]
    Channel,

    /// The offered records changed in another way than by an accepted offer.
    #[error("other records are offered")]
    Offered,

    /// A spool lost records, or gained records that were not in a text heard for it.
    #[error("records arrived that were not heard")]
    Spooled,

    /// The number of records known to have arrived fell, or rose although no reply was heard.
    #[error("records are known without a reply")]
    Known,

    /// A doubt began or ended at an event that must not begin or end it.
    #[error("another doubt")]
    Doubt,

    /// Two channels changed at an event that may change only one.
    #[error("two channels moved")]
    TwoMoved,

    /// A channel that was not addressed changed on a trusted line.
    #[error("a channel moved that was not addressed")]
    NotAddressed,

    /// A channel of a trusted line is not sound.
    #[error("a channel is not sound")]
    NotSound,

    /// On a trusted line, a record arrived that differs from the one offered in its place.
    #[error("other records arrived than were offered")]
    OtherRecords,

    /// A station put the sender of records off although no memory was refused.
    #[error("a station puts off without a cause")]
    PutOff,

    /// What is pending after the event is not what the event may leave.
    #[error("something else is pending")]
    Pending,

    /// What is pending is not a message that its sender may send.
    #[error("no message of its sender is pending")]
    Message,

    /// A text does not carry the next records of its sender.
    #[error("a text carries other records")]
    Text,

    /// A call is to an address that the line does not have, or selects an address for which no
    /// record waits.
    #[error("a call that is not due")]
    Call,

    /// A call is to another terminal than the next one in the poll list that is polled, and is not
    /// the last call again.
    #[error("a call out of order")]
    Order,
}
