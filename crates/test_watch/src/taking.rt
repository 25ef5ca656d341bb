//! Plays an event by the function of the line that it stands for.

use bsc_line::{Event, Line, LineError};
use std::alloc::Allocator;

/// Calls the function of the line that the event stands for.
pub(crate) fn take<A: Allocator>(line: &mut Line<A>, event: &Event<'_>) -> Result<(), LineError> {
    match event {
        Event::OfferAt { terminal, codes } => line.offer_at(*terminal, codes),
        Event::OfferFor {
            terminal,
            select,
            codes,
        } => line.offer_for(*terminal, *select, codes),
        Event::Carry { heard } => line.carry(*heard),
        Event::CarryEach { heard } => line.carry_each(heard),
        Event::CarrySent => line.carry_sent(),
        Event::Silence => line.silence(),
        Event::Ready { terminal, ready } => line.set_ready(*terminal, *ready),
        Event::Polled { terminal, polled } => line.set_polled(*terminal, *polled),
        Event::UrgentAt { terminal } => line.set_urgent_at(*terminal),
        Event::UrgentFor { terminal } => line.set_urgent_for(*terminal),
        Event::Release { terminal, way } => line.release(*terminal, *way),
        Event::Restart { party } => line.restart(*party),
    }
}
