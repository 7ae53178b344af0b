// Messages as records in a buffer, and where the records of each group start.
ghost use Rattle.std.specs.Prelude.{◌≡◌, ℕ, ◌+◌, ◌/◌, ◌<◌, ◌≤◌, true, [], ◌++◌, length, slice_index_or, IfOk, vec_items, vec_len, vec_capacity};
ghost use Rattle.std.specs.List.{All};
ghost use Rattle.octets.specs.Buffers.{overlaid};
ghost use Rattle.octets.specs.Numbers.{big_endian};
ghost use Rattle.envelope.specs.Messages.{largest_message};
ghost use Rattle.sequencer.specs.Places.{Starts, message_at, starts_of};
ghost use Rattle.sequencer.specs.Records.{OnlyRecords, has_space, record_size};

use crate::{DoesNotFit, Sequencer};
use envelope::message::LARGEST_MESSAGE;
use octets::put;
use std::alloc::{AllocError, Global};

/// The messages of some groups as records in one buffer, and for each group where its records start. A record begins
/// with LEAD bytes: one, which is its group, or none where there is one group. The memory for all records that the
/// buffer may have is there from the start.
#[derive(Drop)]
pub struct Records<const LEAD: usize> {
    bytes: Vec<u8>,
    // How many bytes the buffer may have; the memory that is reserved for it may be more.
    size: usize,
    indexes: Vec<Vec<usize>>,
    ghost lead: { LEAD ≤ 1 },
    ghost single: { LEAD ≡ 0 → length indexes.items ≡ 1 },
    ghost reserved: { size ≤ vec_capacity bytes },
    ghost whole: { OnlyRecords LEAD bytes.items },
    ghost indexed: { (g : ℕ) (d : _) → g < length indexes.items → vec_items (slice_index_or indexes.items g d) ≡ starts_of LEAD bytes.items g },
    ghost limit: { All (λ i. size / record_size LEAD 1 ≤ vec_capacity i) indexes.items },
}

// So many empty indexes, with space for `limit` starts each.
fn empty_indexes(heap: Global, groups: u8, limit: usize) -> Result<Vec<Vec<usize>>, AllocError>
    ensures len { IfOk result (λ v. length v.items ≡ groups) }
    ensures empty { IfOk result (λ v. All (λ i. (vec_items i ≡ []) × (limit ≤ vec_capacity i)) v.items) }
{
    (0..groups)
        .map(|_| Vec::with_capacity(heap, limit))
        .try_collect(heap)
}

// Adds bytes at the end, for which there is space.
fn extend(bytes: &mut Vec<u8>, more: &[u8])
    requires { vec_len bytes.old + length more.now ≤ vec_capacity bytes.old }
    ensures after { bytes.new.items ≡ bytes.old.items ++ more.now }
    ensures len { vec_len bytes.new ≡ vec_len bytes.old + length more.now }
    ensures capacity { vec_capacity bytes.old ≤ vec_capacity bytes.new }
{
    let _ = bytes.extend_from_slice(more);
}

// Adds a record at the end, for which there is space: the label, the length and the message.
fn append_record(bytes: &mut Vec<u8>, label: &[u8], message: &[u8])
    requires short { length message.now ≤ largest_message }
    requires fits { vec_len bytes.old + (length label.now + 2 + length message.now) ≤ vec_capacity bytes.old }
    ensures after { bytes.new.items ≡ bytes.old.items ++ (label.now ++ (big_endian 2 (length message.now) ++ message.now)) }
    ensures capacity { vec_capacity bytes.old ≤ vec_capacity bytes.new }
{
    extend(bytes, label);
    extend(bytes, &(message.len() as u16).to_be_bytes());
    extend(bytes, message);
}

impl<const LEAD: usize> Records<LEAD> {
    ghost use Rattle.sequencer.specs.Lists.{Fresh};
    ghost use Rattle.sequencer.specs.Tapes.{TapeLeft, tape_fits, tape_lists};

    // No messages, of `groups` groups, with a buffer of `size` bytes.
    pub(crate) fn empty(heap: Global, groups: u8, size: usize) -> Result<Records<LEAD>, AllocError>
        requires lead { LEAD ≤ 1 }
        requires single { LEAD ≡ 0 → groups ≡ 1 }
        ensures { IfOk result (Fresh tape_lists tape_fits groups (has_space LEAD 0 size)) }
    {
        let bytes = Vec::with_capacity(heap, size)?;
        // The smallest record has a message of one byte.
        let indexes = empty_indexes(heap, groups, size / (LEAD + 2 + 1))?;
        Ok(Records {
            bytes,
            size,
            indexes,
        })
    }

    // Whether a message of `len` bytes to the group fits.
    pub(crate) fn has_space(&self, group: u8, len: usize) -> bool
        ensures { result ≡ tape_fits self.now group len }
    {
        (group as usize) < self.indexes.len()
            && 1 <= len
            && len <= LARGEST_MESSAGE
            && LEAD + 2 + len <= self.size.saturating_sub(self.bytes.len())
    }

    // Adds the message, which fits, at the end.
    fn append(&mut self, group: u8, message: &[u8])
        requires { tape_fits self.old group (length message.now) ≡ true }
        ensures { TapeLeft self.old group message.now self.new }
    {
        let start = self.bytes.len();
        append_record(&mut self.bytes, &[group][..LEAD], message);
        self.indexes[group as usize].push_reserved(start);
    }

    // Copies out the message of the record that starts at `start`, and answers its length.
    fn copy_message(&self, start: usize, out: &mut [u8; LARGEST_MESSAGE]) -> usize
        requires { Starts LEAD self.now.bytes.items start }
        ensures answer { result ≡ length (message_at LEAD self.now.bytes.items start) }
        ensures copied { out.new ≡ overlaid out.old 0 (message_at LEAD self.now.bytes.items start) }
    {
        let at = start + LEAD;
        let len = u16::from_be_bytes([self.bytes[at], self.bytes[at + 1]]) as usize;
        put(out, 0, &self.bytes[at + 2..at + 2 + len]);
        len
    }
}

impl<const LEAD: usize> Sequencer for Records<LEAD> {
    ghost use Rattle.sequencer.specs.Tapes.{TapeLeft, tape_fits, tape_lists};
    ghost use Rattle.sequencer.specs.Bounds.{tape_bounds};

    ghost lists = { tape_lists };

    ghost fits = { tape_fits };

    ghost leaves = { TapeLeft };

    ghost bounds = { tape_bounds };

    fn post(&mut self, group: u8, message: &[u8]) -> Result<(), DoesNotFit> {
        if !self.has_space(group, message.len()) {
            return Err(DoesNotFit);
        }
        self.append(group, message);
        Ok(())
    }

    fn message(&self, group: u8, index: u64, out: &mut [u8; LARGEST_MESSAGE]) -> Option<usize> {
        let start = *self.indexes.get(group as usize)?.get(index as usize)?;
        Some(self.copy_message(start, out))
    }

    fn is_empty(&self, group: u8) -> bool {
        self.indexes.get(group as usize).is_none_or(Vec::is_empty)
    }
}
