// A certificate by its parts.
ghost use Rattle.std.specs.Prelude.{◌≡◌, ◌≤◌, map, length};
ghost use Rattle.wire.specs.Certificates.{MadeCertificate, certificate_model};
ghost use Rattle.votes.specs.Entries.{most_entries, shown};
ghost use Rattle.votes.specs.EntryLists.{entry_list};

use crate::certificate::Certificate;
use envelope::name::Name;
use votes::entry::list::{all_wide, are_rising};
use votes::entry::{Entries, Entry};
use votes::vote::Vote;

impl Certificate {
    /// The certificate of these parts, unless there are no entries, a mark has not `width` bytes, or they do not rise.
    pub fn new(width: usize, name: Name, vote: Vote, entries: Entries) -> Option<Certificate>
        ensures { MadeCertificate width (record { name = name; vote = vote; entries = entry_list entries }) result }
    {
        let list = entries.as_slice();
        if list.is_empty() || !all_wide(width, list) || !are_rising(list) {
            return None;
        }
        Some(Certificate {
            width,
            name,
            vote,
            entries,
        })
    }

    /// The name of its transaction.
    pub fn name(&self) -> Name
        ensures { result ≡ (certificate_model self.now).name }
    {
        self.name
    }

    /// The vote that its marks are for.
    pub fn vote(&self) -> Vote
        ensures { result ≡ (certificate_model self.now).vote }
    {
        self.vote
    }

    /// Its entries, which rise by group, then by replica.
    pub fn entries(&self) -> &[Entry]
        ensures value { map shown result.now ≡ (certificate_model self.now).entries }
        ensures some { 1 ≤ length result.now }
        ensures few { length result.now ≤ most_entries }
    {
        self.entries.as_slice()
    }
}
