// Tracks: a buffer for each group.
ghost use Rattle.std.specs.Prelude.{◌≡◌, length, IfOk};
ghost use Rattle.std.specs.List.{All};
ghost use Rattle.sequencer.specs.Lists.{Fresh};
ghost use Rattle.sequencer.specs.Records.{has_space};
ghost use Rattle.sequencer.specs.Tapes.{tape_fits, tape_lists};
ghost use Rattle.sequencer.specs.Tracks.{TracksLeft, track_fits, track_lists};
ghost use Rattle.sequencer.specs.Bounds.{track_bounds};

use crate::records::Records;
use crate::{DoesNotFit, Sequencer};
use envelope::message::LARGEST_MESSAGE;
use std::alloc::{AllocError, Global};

/// A sequencer with a buffer for each group, in which a message takes its length and two bytes more.
#[derive(Drop)]
pub struct Tracks {
    tracks: Vec<Records<0>>,
}

// So many empty tracks, with buffers of `size` bytes. One function for this and for empty indexes would take what makes
// an item, and say of it all that stands here.
fn empty_tracks(heap: Global, groups: u8, size: usize) -> Result<Vec<Records<0>>, AllocError>
    ensures len { IfOk result (λ v. length v.items ≡ groups) }
    ensures empty { IfOk result (λ v. All (Fresh tape_lists tape_fits 1 (has_space 0 0 size)) v.items) }
{
    (0..groups)
        .map(|_| Records::empty(heap, 1, size))
        .try_collect(heap)
}

impl Tracks {
    /// Tracks for `groups` groups, numbered from 0, with a buffer of `size` bytes each. All lists are empty.
    pub fn new(heap: Global, groups: u8, size: usize) -> Result<Tracks, AllocError>
        ensures { IfOk result (Fresh track_lists track_fits groups (has_space 0 0 size)) }
    {
        let tracks = empty_tracks(heap, groups, size)?;
        Ok(Tracks { tracks })
    }
}

impl Sequencer for Tracks {
    ghost lists = { track_lists };

    ghost fits = { track_fits };

    ghost leaves = { TracksLeft };

    ghost bounds = { track_bounds };

    fn post(&mut self, group: u8, message: &[u8]) -> Result<(), DoesNotFit> {
        self.tracks
            .get_mut(group as usize)
            .ok_or(DoesNotFit)?
            .post(0, message)
    }

    fn message(&self, group: u8, index: u64, out: &mut [u8; LARGEST_MESSAGE]) -> Option<usize> {
        self.tracks.get(group as usize)?.message(0, index, out)
    }

    fn is_empty(&self, group: u8) -> bool {
        self.tracks
            .get(group as usize)
            .is_none_or(|track| track.is_empty(0))
    }
}
