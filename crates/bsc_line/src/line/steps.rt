//! What each event does to the channels.

ghost use Rattle.bsc_line_model.specs.StepLaws.{StepsFrom};

use crate::line::Line;
use bsc_line_model::laws::event_steps;
use std::alloc::Allocator;

impl<A: Allocator> Line<A> {
    /// States what each event does to the channels of this line, for contracts to rest on. The
    /// field is read for this only.
    pub(in crate::line) fn each_steps(&self)
        ensures { StepsFrom self.now }
    {
        event_steps();
        let _trusted = self.trusted;
    }
}
