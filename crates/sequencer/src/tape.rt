// A tape: one buffer for all groups.
ghost use Rattle.std.specs.Prelude.{IfOk};
ghost use Rattle.sequencer.specs.Lists.{Fresh};
ghost use Rattle.sequencer.specs.Records.{has_space};
ghost use Rattle.sequencer.specs.Tapes.{tape_fits, tape_lists};

use crate::records::Records;
use std::alloc::{AllocError, Global};

/// A sequencer with one buffer for all groups, in which a message takes its length and three bytes more.
pub type Tape = Records<1>;

impl Records<1> {
    /// A tape for `groups` groups, numbered from 0, with a buffer of `size` bytes. All lists are empty.
    pub fn new(heap: Global, groups: u8, size: usize) -> Result<Tape, AllocError>
        ensures { IfOk result (Fresh tape_lists tape_fits groups (has_space 1 0 size)) }
    {
        Records::empty(heap, groups, size)
    }
}
