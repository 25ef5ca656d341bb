//! How much a trace tells.

/// Which transmissions and time-outs have a line of the trace.
#[derive(Clone, Copy, Debug, PartialEq, Eq)]
pub enum Tracing {
    /// None. Only peers that join, leave or are refused have a line, without a time.
    Off,

    /// All but those of an idle poll: a call, and the EOT that answers it. A terminal also prints
    /// no line for a call that is followed by another call.
    Exchanges,

    /// All.
    All,
}
