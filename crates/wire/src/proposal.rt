// The proposal to abort a transaction: its name.
ghost use Rattle.std.specs.Prelude.{◌≡◌};
ghost use Rattle.envelope.specs.Formats.{OneWriting, Reads, ReadsContents, RoundTrip, write_after, write_answer, written};
ghost use Rattle.wire.specs.Proposals.{proposal_format, proposed};

use envelope::fault::{ReadFault, WriteFault};
use envelope::message::{Kind, read_message, write_message};
use envelope::name::Name;
use octets::fixed::read_fixed;

// The name that `text`, which follows the kind byte, is.
fn read_contents(text: &[u8]) -> Option<Name>
    ensures { ReadsContents proposal_format proposed text.now result }
{
    let (name, rest) = read_fixed(text)?;
    rest.is_empty().then_some(name)
}

/// The name whose proposal `bytes` is the writing of.
pub fn read_proposal(bytes: &[u8]) -> Result<Name, ReadFault>
    ensures { Reads proposal_format proposed bytes.now result }
{
    read_message(Kind::Proposal, bytes, read_contents)
}

/// Writes the proposal's one writing into `out` and answers its length, or refuses and leaves `out` as it was.
#[tactic(auto, unfolding(envelope::specs::Formats::written))]
pub fn write_proposal(name: &Name, out: &mut [u8]) -> Result<usize, WriteFault>
    ensures answer { result ≡ write_answer (written proposal_format name.now) out.old }
    ensures after { out.new ≡ write_after (written proposal_format name.now) out.old }
{
    write_message(Kind::Proposal, name, out)
}

/// Two different names never share a proposal, and reading undoes writing.
pub fn proposal_has_one_writing() -> u8
    ensures one { OneWriting proposal_format }
    ensures back { RoundTrip proposal_format proposed }
{
    0
}
