// Reads an answer.
ghost use Rattle.std.specs.Prelude.{◌≡◌, ℕ};
ghost use Rattle.octets.specs.Fronts.{Front};
ghost use Rattle.envelope.specs.Formats.{OneWriting, Reads, ReadsContents, RoundTrip};
ghost use Rattle.wire.specs.Answers.{FirstValues, HeadFits, answer_format, answer_model, head_bytes};
ghost use Rattle.votes.specs.Grounds.{FoundFits, blocked_by, ground_of};

use crate::answer::Answer;
use crate::field::split_bytes;
use envelope::fault::ReadFault;
use envelope::many::read_many;
use envelope::message::{Kind, read_message};
use envelope::name::Name;
use octets::fixed::read_fixed;
use votes::ground::{Blocker, Ground, GroupSet};
use votes::mark::Mark;
use votes::state::State;
use votes::values::{MOST_VALUES, Values};
use votes::vote::Vote;

// The fields before the mark, with the ground as its byte: at ground 2 the blocker stands at the end of the answer, so that
// the byte alone is no ground.
#[derive(Clone, Copy)]
pub struct Head {
    name: Name,
    group: u8,
    replica: u8,
    vote: Vote,
    state: State,
    ground: u8,
}

// The fields before the mark that `text` begins with, and what follows them.
fn read_head(text: &[u8]) -> Option<(Head, &[u8])>
    ensures { Front HeadFits head_bytes text.now result }
{
    let (name, rest) = read_fixed(text)?;
    let [group, replica, vote, state, ground, rest @ ..] = rest else {
        return None;
    };
    let head = Head {
        name,
        group: *group,
        replica: *replica,
        vote: Vote::try_from(*vote).ok()?,
        state: State::try_from(*state).ok()?,
        ground: *ground,
    };
    Some((head, rest))
}

// The values that `text` begins with, behind their count, and what follows them.
fn read_values(text: &[u8]) -> Option<(Values, &[u8])>
    ensures { FirstValues text.now result }
{
    let [count, rest @ ..] = text else {
        return None;
    };
    if *count as usize > MOST_VALUES {
        return None;
    }
    read_many(0, *count, rest, read_fixed)
}

// The ground with the blocker that `end` is.
fn read_blocker(end: &[u8]) -> Option<Ground>
    ensures value { result ≡ blocked_by end.now }
    ensures fits { FoundFits result }
{
    let (name, rest) = read_fixed(end)?;
    let [bits] = rest else {
        return None;
    };
    let blocker = Blocker {
        name,
        groups: GroupSet { bits: *bits },
    };
    Some(Ground::Blocked(blocker))
}

// The ground of this byte in an answer that ends with `end`.
fn read_ground(byte: u8, end: &[u8]) -> Option<Ground>
    ensures value { result ≡ ground_of byte end.now }
    ensures fits { FoundFits result }
{
    if byte == 2 {
        return read_blocker(end);
    }
    if !end.is_empty() {
        return None;
    }
    match byte {
        0 => Some(Ground::Pending),
        1 => Some(Ground::NoRow),
        3 => Some(Ground::NoPlace),
        4 => Some(Ground::Unequal),
        5 => Some(Ground::Proposed),
        6 => Some(Ground::Known),
        _ => None,
    }
}

// The answer that `text`, which follows the kind byte, is.
fn read_contents(width: usize, text: &[u8]) -> Option<Answer>
    ensures { ReadsContents (answer_format width) answer_model text.now result }
{
    let (head, rest) = read_head(text)?;
    let (mark, rest) = split_bytes(width, rest)?;
    let mark = Mark::new(mark)?;
    let (reads, end) = read_values(rest)?;
    let ground = read_ground(head.ground, end)?;
    Some(Answer {
        name: head.name,
        group: head.group,
        replica: head.replica,
        vote: head.vote,
        state: head.state,
        ground,
        mark,
        reads,
    })
}

/// The answer, with a mark of `width` bytes, that `bytes` is the writing of.
pub fn read_answer(width: usize, bytes: &[u8]) -> Result<Answer, ReadFault>
    ensures { Reads (answer_format width) answer_model bytes.now result }
{
    read_message(Kind::Answer, bytes, |text| read_contents(width, text))
}

/// Two different well-formed answers never share a writing, and reading undoes writing.
pub fn answer_has_one_writing() -> u8
    ensures one { (width : ℕ) → OneWriting (answer_format width) }
    ensures back { (width : ℕ) → RoundTrip (answer_format width) answer_model }
{
    0
}
