//! What is to be known of a station to keep its records.

ghost use Rattle.std.specs.Prelude.{◌≡◌, ◌<◌, ◌∷◌, ◌++◌, [], IfOk, OnOk, length, string_bytes};
ghost use Rattle.bsc_keeping.specs.Own.{channel_to, polled_at, receiving_end, receiving_of};
ghost use Rattle.bsc_keeping.specs.Own.{selection_of, selections_at, selections_of, sending_end};
ghost use Rattle.bsc_keeping.specs.Own.{sending_of, sends_from, spool_of, spools_of, each_of};
ghost use Rattle.bsc_keeping.specs.OwnText.{own_text_of};

use crate::own_text::own_text;
use bsc_bid::{Speaker, Terminal};
use bsc_config::Config;
use bsc_spool::{Channel, Receiving, Sending};
use std::alloc::{AllocError, Global};

/// What is to be known of a station to keep its records: the text by which a store belongs to it,
/// the full length of a record, and its channels, of which nothing is kept yet.
#[derive(Drop)]
pub struct Own {
    text: String,
    pub(crate) full: u8,
    pub(crate) sending: Vec<Sending>,
    pub(crate) receiving: Vec<Receiving>,
}

impl Own {
    /// Returns what is to be known of a station of this line. It has no channels if the line has no
    /// such terminal. Fails only if an allocation fails.
    pub fn of(alloc: Global, config: &Config, owner: Speaker) -> Result<Own, AllocError>
        ensures text { IfOk result (λ own. string_bytes own.text ≡ own_text_of config.now owner) }
        ensures full { IfOk result (λ own. own.full ≡ config.now.setup.format.full) }
        ensures sending { IfOk result (λ own.
            own.sending.items ≡ sending_of config.now.terminals owner) }
        ensures receiving { IfOk result (λ own.
            own.receiving.items ≡ receiving_of config.now.terminals owner) }
    {
        let text = own_text(alloc, config, owner)?;
        let full = config.setup().format().full();
        let (sending, receiving) = channels(alloc, config, owner)?;
        Ok(Own {
            text,
            full,
            sending,
            receiving,
        })
    }

    /// Returns the text by which a store belongs to the station.
    pub fn text(&self) -> &str
        ensures { result.now ≡ string_bytes self.now.text }
    {
        self.text.as_str()
    }
}

/// Returns the channels of a station: those on which it sends, and those on which it receives.
fn channels(
    alloc: Global,
    config: &Config,
    owner: Speaker,
) -> Result<(Vec<Sending>, Vec<Receiving>), AllocError>
    ensures sending { IfOk result (λ ends. ends.0.items ≡ sending_of config.now.terminals owner) }
    ensures receiving { IfOk result (λ ends.
        ends.1.items ≡ receiving_of config.now.terminals owner) }
{
    let terminals = config.terminal_list();
    match owner {
        Speaker::Control => channels_of_control(alloc, terminals),
        Speaker::Terminal { number } => match terminals.get(number) {
            Some(terminal) => channels_of_terminal(alloc, terminal),
            None => Ok((Vec::new(alloc), Vec::new(alloc))),
        },
    }
}

/// Adds a channel on which the station sends.
fn add_sending(
    ends: &mut Vec<Sending>,
    channel: Channel,
    terminal: usize,
    select: usize,
) -> Result<(), AllocError>
    ensures { OnOk result
        (ends.new.items ≡ ends.old.items ++ sending_end channel terminal select ∷ []) }
{
    let end = Sending {
        channel,
        terminal,
        select,
        known: 0,
        in_doubt: 0,
    };
    match ends.push(end) {
        Ok(()) => Ok(()),
        Err(_) => Err(AllocError),
    }
}

/// Adds a channel on which the station receives.
fn add_receiving(
    ends: &mut Vec<Receiving>,
    channel: Channel,
    number: usize,
) -> Result<(), AllocError>
    ensures { OnOk result (ends.new.items ≡ ends.old.items ++ receiving_end channel number ∷ []) }
{
    let end = Receiving {
        channel,
        number,
        arrived: 0,
        printed: 0,
    };
    match ends.push(end) {
        Ok(()) => Ok(()),
        Err(_) => Err(AllocError),
    }
}

/// Returns the channel from a terminal.
fn channel_from(terminal: &Terminal) -> Channel
    ensures { result ≡ Channel.From terminal.now.poll }
{
    let terminal = terminal.poll();
    Channel::From { terminal }
}

/// Returns the channel to a selection address of a terminal.
fn channel_to(terminal: &Terminal, select: usize) -> Channel
    requires { select < length terminal.now.selects }
    ensures { result ≡ channel_to terminal.now select }
{
    let selection = terminal.select(select);
    Channel::To { selection }
}

/// Adds the channel to a selection address of a terminal, at the control station.
fn add_selection(
    ends: &mut Vec<Sending>,
    terminal: &Terminal,
    number: usize,
    select: usize,
) -> Result<(), AllocError>
    requires { select < length terminal.now.selects }
    ensures { OnOk result
        (ends.new.items ≡ ends.old.items ++ selection_of terminal.now number select) }
{
    add_sending(ends, channel_to(terminal, select), number, select)
}

/// Adds the channels to the selection addresses of a terminal, at the control station.
fn add_selections(
    ends: &mut Vec<Sending>,
    terminal: &Terminal,
    number: usize,
) -> Result<(), AllocError>
    ensures { OnOk result
        (ends.new.items ≡ ends.old.items ++ selections_of terminal.now number) }
{
    'selects: for select in 0..terminal.selects() {
        add_selection(ends, terminal, number, select)?;
    }
    Ok(())
}

/// Adds the channel to a selection address of a terminal, at the terminal.
fn add_spool(
    ends: &mut Vec<Receiving>,
    terminal: &Terminal,
    number: usize,
) -> Result<(), AllocError>
    requires { number < length terminal.now.selects }
    ensures { OnOk result (ends.new.items ≡ ends.old.items ++ spool_of terminal.now number) }
{
    add_receiving(ends, channel_to(terminal, number), number)
}

/// Adds the channels to the selection addresses of a terminal, at the terminal.
fn add_spools(ends: &mut Vec<Receiving>, terminal: &Terminal) -> Result<(), AllocError>
    ensures { OnOk result (ends.new.items ≡ ends.old.items ++ spools_of terminal.now) }
{
    'selects: for number in 0..terminal.selects() {
        add_spool(ends, terminal, number)?;
    }
    Ok(())
}

/// Adds the channel from the terminal with this number, at the control station.
fn add_polled(
    ends: &mut Vec<Receiving>,
    terminals: &[Terminal],
    number: usize,
) -> Result<(), AllocError>
    requires { number < length terminals.now }
    ensures { OnOk result (ends.new.items ≡ ends.old.items ++ polled_at terminals.now number) }
{
    add_receiving(ends, channel_from(&terminals[number]), number)
}

/// Adds the channels to the terminal with this number, at the control station.
fn add_selections_at(
    ends: &mut Vec<Sending>,
    terminals: &[Terminal],
    number: usize,
) -> Result<(), AllocError>
    requires { number < length terminals.now }
    ensures { OnOk result (ends.new.items ≡ ends.old.items ++ selections_at terminals.now number) }
{
    add_selections(ends, &terminals[number], number)
}

/// Returns the channels of the control station.
fn channels_of_control(
    alloc: Global,
    terminals: &[Terminal],
) -> Result<(Vec<Sending>, Vec<Receiving>), AllocError>
    ensures sending { IfOk result (λ ends.
        ends.0.items ≡ each_of (selections_at terminals.now) (length terminals.now)) }
    ensures receiving { IfOk result (λ ends.
        ends.1.items ≡ each_of (polled_at terminals.now) (length terminals.now)) }
{
    let (mut sending, mut receiving) = (Vec::new(alloc), Vec::new(alloc));
    'terminals: for number in 0..terminals.len() {
        add_polled(&mut receiving, terminals, number)?;
        add_selections_at(&mut sending, terminals, number)?;
    }
    Ok((sending, receiving))
}

/// Returns the channels of a terminal.
fn channels_of_terminal(
    alloc: Global,
    terminal: &Terminal,
) -> Result<(Vec<Sending>, Vec<Receiving>), AllocError>
    ensures sending { IfOk result (λ ends.
        ends.0.items ≡ sending_end (Channel.From terminal.now.poll) 0 0 ∷ []) }
    ensures receiving { IfOk result (λ ends. ends.1.items ≡ spools_of terminal.now) }
{
    let (mut sending, mut receiving) = (Vec::new(alloc), Vec::new(alloc));
    add_sending(&mut sending, channel_from(terminal), 0, 0)?;
    add_spools(&mut receiving, terminal)?;
    Ok((sending, receiving))
}
