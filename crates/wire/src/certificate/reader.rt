// Reads a certificate.
ghost use Rattle.std.specs.Prelude.{ℕ, ◌≤◌};
ghost use Rattle.envelope.specs.Formats.{OneWriting, Reads, ReadsContents, RoundTrip};
ghost use Rattle.wire.specs.Certificates.{ReadsEntries, certificate_format, certificate_model};
ghost use Rattle.votes.specs.Entries.{most_entries};
ghost use Rattle.wire.specs.EntryFronts.{FirstEntry};

use crate::certificate::Certificate;
use crate::field::split_bytes;
use envelope::fault::ReadFault;
use envelope::many::read_many;
use envelope::message::{Kind, read_message};
use octets::fixed::read_fixed;
use votes::entry::{Entries, Entry, MOST_ENTRIES};
use votes::mark::Mark;
use votes::vote::Vote;

// The entry that `text` begins with, whose mark has `width` bytes, and what follows it.
fn read_entry(width: usize, text: &[u8]) -> Option<(Entry, &[u8])>
    ensures { FirstEntry width text.now result }
{
    let [group, replica, rest @ ..] = text else {
        return None;
    };
    let (mark, after) = split_bytes(width, rest)?;
    let mark = Mark::new(mark)?;
    let entry = Entry {
        group: *group,
        replica: *replica,
        mark,
    };
    Some((entry, after))
}

// The entries that `text` is, `count` of them and nothing after.
fn read_entries(width: usize, count: u8, text: &[u8]) -> Option<Entries>
    requires { count ≤ most_entries }
    ensures { ReadsEntries width count text.now result }
{
    let filler = Entry {
        group: 0,
        replica: 0,
        mark: Mark::new(&[])?,
    };
    let (entries, rest) = read_many(filler, count, text, |front| read_entry(width, front))?;
    if rest.is_empty() { Some(entries) } else { None }
}

// The certificate that `text`, which follows the kind byte, is.
fn read_contents(width: usize, text: &[u8]) -> Option<Certificate>
    ensures { ReadsContents (certificate_format width) certificate_model text.now result }
{
    let (name, rest) = read_fixed(text)?;
    let [vote, count, rest @ ..] = rest else {
        return None;
    };
    let vote = Vote::try_from(*vote).ok()?;
    if *count as usize > MOST_ENTRIES {
        return None;
    }
    let entries = read_entries(width, *count, rest)?;
    Certificate::new(width, name, vote, entries)
}

/// The certificate, with marks of `width` bytes, that `bytes` is the writing of.
pub fn read_certificate(width: usize, bytes: &[u8]) -> Result<Certificate, ReadFault>
    ensures { Reads (certificate_format width) certificate_model bytes.now result }
{
    read_message(Kind::Certificate, bytes, |text| read_contents(width, text))
}

/// Two different well-formed certificates never share a writing, and reading undoes writing.
pub fn certificate_has_one_writing() -> u8
    ensures one { (width : ℕ) → OneWriting (certificate_format width) }
    ensures back { (width : ℕ) → RoundTrip (certificate_format width) certificate_model }
{
    0
}
