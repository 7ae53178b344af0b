//! Sequencers: what keeps a list of messages for each group.
//!
//! A sequencer means the lists, and for each group and length whether a message of that length fits. A post appends a
//! message to its group's list exactly where it fits, and a question copies a message of a list out. Code that uses a
//! sequencer is proved from that meaning alone. There are two: a tape, with one buffer for all groups, and tracks, with
//! a buffer for each. Both allocate when they are made and never again, and both keep an index of where messages lie,
//! so that a question walks over no other message.

#![tactic(auto)]

ghost use Rattle.std.specs.Prelude.{◌≡◌, ℕ, Bool, true, false, ◌&&◌, List, [], ◌∷◌, ◌++◌, length, is_ok, if◌then◌else◌, ◌==◌};
ghost use Rattle.std.specs.Option.{option_map};
ghost use Rattle.std.specs.List.{slice_get};
ghost use Rattle.sequencer.specs.Lists.{Bounds, copied_to, is_nil};

use envelope::message::LARGEST_MESSAGE;

mod records;
pub mod tape;
#[cfg(test)]
mod tests;
pub mod tracks;

/// A message that does not fit its group's list: the list stays as it was.
#[derive(Clone, Copy, PartialEq, Eq, Debug, Drop)]
pub struct DoesNotFit;

/// Keeps a list of messages for each group.
pub trait Sequencer {
    // The messages of each group, in their order.
    ghost lists: { Self → ℕ → List (List ℕ) };

    // Whether a message to a group, of a length, fits.
    ghost fits: { Self → ℕ → ℕ → Bool };

    // What is left of the sequencer by a message to a group: each kind of sequencer's own.
    ghost leaves: { Self → ℕ → List ℕ → Self → Type 0 };

    /// Appends the message to the group's list if it fits. Otherwise it is refused, and nothing changes.
    fn post(&mut self, group: u8, message: &[u8]) -> Result<(), DoesNotFit>
        ensures answer { is_ok result ≡ fits self.old group (length message.now) }
        ensures appends { (g : ℕ) → lists self.new g ≡ lists self.old g ++ (if is_ok result && group == g then message.now ∷ [] else []) }
        ensures same { is_ok result ≡ false → self.new ≡ self.old }
        ensures left { is_ok result ≡ true → leaves self.old group message.now self.new };

    /// Copies message `index` of the group's list, counted from 0, to the front of `out`, and answers its length; or
    /// none where the list has no such message. The bytes beyond the message stay.
    fn message(&self, group: u8, index: u64, out: &mut [u8; LARGEST_MESSAGE]) -> Option<usize>
        ensures answer { result ≡ option_map length (slice_get (lists self.now group) index) }
        ensures copied { out.new ≡ copied_to out.old (slice_get (lists self.now group) index) };

    /// Whether the group's list has no message.
    fn is_empty(&self, group: u8) -> bool
        ensures { result ≡ is_nil (lists self.now group) };

    // What holds of every sequencer: messages of 1 to 2,048 bytes, at most 2^64 - 1 of them in a list.
    ghost bounds: { Bounds lists fits };
}
