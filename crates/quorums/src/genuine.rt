// Whether the marks of a certificate are genuine.
ghost use Rattle.std.specs.Prelude.{◌≡◌, map};
ghost use Rattle.quorums.specs.Genuine.{all_genuine, stated};
ghost use Rattle.votes.specs.Entries.{shown};
ghost use Rattle.votes.specs.Marks.{mark_bytes};

use envelope::name::Name;
use marks::scheme::MarkScheme;
use votes::entry::Entry;
use votes::statement::Statement;
use votes::vote::Vote;

/// Whether every entry's mark is genuine for this vote on the name.
// Name, vote and entries are what a certificate has; its type is in a crate above this one.
pub fn are_genuine<K: MarkScheme>(scheme: &K, name: &Name, vote: Vote, entries: &[Entry]) -> bool
    ensures { result ≡ all_genuine (K.genuine scheme.now) name.now vote (map shown entries.now) }
{
    entries.iter().all(|entry| {
        let statement = Statement {
            group: entry.group,
            replica: entry.replica,
            vote: vote.into(),
            name: *name,
        };
        scheme.check(&statement, entry.mark.as_slice())
    })
}
