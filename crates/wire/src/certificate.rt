// The certificate of a transaction: marks of replicas for one vote on its name.
ghost use Rattle.std.specs.Prelude.{◌≡◌, ◌≤◌, true, length};
ghost use Rattle.votes.specs.EntryLists.{entry_list};
ghost use Rattle.votes.specs.Entries.{all_wide, rises};

use envelope::name::Name;
use votes::entry::Entries;
use votes::vote::Vote;

pub mod parts;
pub mod reader;
pub mod writer;

/// Marks of replicas for one vote on a name. Every value of this type is well formed.
#[derive(Clone, Copy)]
pub struct Certificate {
    // how many bytes each mark has
    width: usize,
    name: Name,
    vote: Vote,
    entries: Entries,
    ghost some: { 1 ≤ length (entry_list entries) },
    ghost wide: { all_wide width (entry_list entries) ≡ true },
    ghost rise: { rises 0 (entry_list entries) ≡ true },
}
