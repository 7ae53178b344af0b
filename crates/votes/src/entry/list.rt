// Whether the marks of entries are as wide as they should be, and whether the entries rise.
ghost use Rattle.std.specs.Prelude.{◌≡◌, map};
ghost use Rattle.votes.specs.Entries.{all_wide, rank, rises, shown};

use crate::entry::Entry;

/// Whether each mark has `width` bytes.
pub fn all_wide(width: usize, entries: &[Entry]) -> bool
    ensures { result ≡ all_wide width (map shown entries.now) }
{
    entries
        .iter()
        .all(|entry| entry.mark.as_slice().len() == width)
}

// The place of the entry in the order: by group, then by replica; one number, as the definition has it.
fn rank(entry: &Entry) -> u32
    ensures { result ≡ rank (shown entry.now) }
{
    entry.group as u32 * 256 + entry.replica as u32
}

/// Whether the entries rise strictly, by group, then by replica.
pub fn are_rising(entries: &[Entry]) -> bool
    ensures { result ≡ rises 0 (map shown entries.now) }
{
    entries.is_sorted_by(|left, right| rank(left) < rank(right))
}
