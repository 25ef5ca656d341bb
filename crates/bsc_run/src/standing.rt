//! What the trace has to know of a line from before an event.

ghost use Rattle.std.specs.Prelude.{◌≡◌, ◌<◌, [], ◌++◌, IfOk, IfErr, IsTrue, OnOk};
ghost use Rattle.std.specs.Prelude.{if◌then◌else◌};
ghost use Rattle.bsc_line_model.specs.Line.{terminal_count, IsChannel};
ghost use Rattle.bsc_run.specs.Changes.{standing_at, standing_on, standings_of};

use bsc_control::Way;
use bsc_line::Line;
use std::alloc::{AllocError, Allocator};

/// A channel before an event.
#[derive(Clone, Copy, Drop)]
pub(crate) struct ChannelStanding {
    /// Its terminal.
    pub(crate) terminal: usize,

    /// Whether it is from the terminal, or to which selection address.
    pub(crate) way: Way,

    /// The number of records that had arrived.
    pub(crate) arrived: usize,

    /// Whether its sending end was in doubt.
    pub(crate) doubt: bool,
}

/// A line before an event.
#[derive(Drop)]
pub(crate) struct LineStanding<A: Allocator> {
    /// Its channels in the order of the report; none if there is no trace.
    pub(crate) channels: Vec<ChannelStanding, A>,

    /// Whether it was trusted.
    pub(crate) trusted: bool,
}

/// Returns what the trace has to know of a line.
pub(crate) fn line_standing<A: Allocator, B: Allocator>(
    alloc: A,
    tracing: bool,
    line: &Line<B>,
) -> Result<LineStanding<A>, AllocError>
    ensures channels { IfOk result (λ standing.
        standing.channels.items ≡ (if tracing then standings_of line.now else [])) }
    ensures trusted { IfOk result (λ standing. standing.trusted ≡ line.now.trusted) }
    ensures cause { IfErr result (λ error. IsTrue tracing) }
{
    let channels = channels_if(alloc, tracing, line)?;
    let trusted = line.trusted();
    Ok(LineStanding { channels, trusted })
}

/// Returns what the trace has to know of the channels of a line, or nothing without a trace.
fn channels_if<A: Allocator, B: Allocator>(
    alloc: A,
    tracing: bool,
    line: &Line<B>,
) -> Result<Vec<ChannelStanding, A>, AllocError>
    ensures channels { IfOk result (λ channels.
        channels.items ≡ (if tracing then standings_of line.now else [])) }
    ensures cause { IfErr result (λ error. IsTrue tracing) }
{
    if tracing {
        channel_standings(alloc, line)
    } else {
        Ok(Vec::new(alloc))
    }
}

/// Returns what the trace has to know of the channels of a line.
fn channel_standings<A: Allocator, B: Allocator>(
    alloc: A,
    line: &Line<B>,
) -> Result<Vec<ChannelStanding, A>, AllocError>
    ensures { IfOk result (λ channels. channels.items ≡ standings_of line.now) }
{
    let mut channels = Vec::new(alloc);
    'terminals: for terminal in 0..line.terminals() {
        push_terminal(line, terminal, &mut channels)?;
    }
    Ok(channels)
}

/// Adds the channels of a terminal: the channel from it, and then those to it.
fn push_terminal<A: Allocator, B: Allocator>(
    line: &Line<B>,
    terminal: usize,
    channels: &mut Vec<ChannelStanding, A>,
) -> Result<(), AllocError>
    requires { terminal < terminal_count line.now }
    ensures { OnOk result
        (channels.new.items ≡ channels.old.items ++ standing_at line.now terminal) }
{
    channels.push(standing(line, terminal, Way::FromTerminal))?;
    'selects: for select in 0..line.addresses(terminal) {
        channels.push(standing(line, terminal, Way::ToTerminal(select)))?;
    }
    Ok(())
}

/// Returns what the trace has to know of a channel.
fn standing<B: Allocator>(line: &Line<B>, terminal: usize, way: Way) -> ChannelStanding
    requires { IsChannel line.now terminal way }
    ensures { result ≡ standing_on line.now terminal way }
{
    ChannelStanding {
        terminal,
        way,
        arrived: line.spooled(terminal, way).len(),
        doubt: line.in_doubt(terminal, way),
    }
}
