//! The order in which places are served.

ghost use Rattle.std.specs.Prelude.{◌≡◌, ◌∷◌, ◌++◌, ◌↔◌, ◌==◌, [], List, ℕ, IfOk, IsNone};
ghost use Rattle.std.specs.Prelude.{MatchOption, OnOk, OnErr};
ghost use Rattle.std.specs.List.{list_all};
ghost use Rattle.bsc_sockets.specs.Ready.{with_place, without_place, IsServed};

use std::alloc::{AllocError, Allocator};
use std::collections::VecDeque;
use std::marker::Model;

/// The places at which something has arrived, in the order in which they are served. A place that
/// is served goes to the end, so that none waits while another is served twice.
#[derive(Drop)]
pub(crate) struct Ready<A: Allocator> {
    places: VecDeque<usize, A>,
}

impl<A: Allocator> Model for Ready<A> {
    ghost Value = { List ℕ };

    ghost view = { λ ready. ready.places.items };
}

impl<A: Allocator> Ready<A> {
    /// Creates a list of no places, with room for this many without further allocation.
    pub fn new(alloc: A, room: usize) -> Result<Ready<A>, AllocError>
        ensures { IfOk result (λ ready. ready ≡ []) }
    {
        let places = VecDeque::with_capacity(alloc, room)?;
        Ok(Ready { places })
    }

    /// Records that something has arrived at this place. It is served last, unless it is in the
    /// list already.
    pub fn set(&mut self, place: usize) -> Result<(), AllocError>
        ensures ok { OnOk result (self.new ≡ with_place self.old place) }
        ensures err { OnErr result (self.new ≡ self.old) }
    {
        if !self.places.contains(&place) {
            self.places.push_back(place)?;
        }
        Ok(())
    }

    /// Records that nothing is left at this place. It is not served until it is set again.
    pub fn clear(&mut self, place: usize)
        ensures { self.new ≡ without_place self.old place }
    {
        self.places.retain(|ready| *ready != place);
    }

    /// Returns whether no place is in the list but this one.
    pub fn has_only(&self, place: usize) -> bool
        ensures { result ≡ list_all (λ other. other == place) self.now }
    {
        self.places.iter().all(|ready| *ready == place)
    }

    /// Returns the place to be served now, which then becomes the last; None if no place is ready.
    pub fn next_place(&mut self) -> Option<usize>
        ensures { IsServed self.old result self.new }
    {
        let place = *self.places.front()?;
        self.places.rotate_left(1);
        Some(place)
    }
}
