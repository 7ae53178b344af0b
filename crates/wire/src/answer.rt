// The answer of a replica to a delivery: its vote with a mark, and what it knows.
use envelope::name::Name;
use votes::ground::Ground;
use votes::mark::Mark;
use votes::state::State;
use votes::values::Values;
use votes::vote::Vote;

pub mod reader;
pub mod writer;

/// What a replica answers on a transaction.
#[derive(Clone, Copy)]
pub struct Answer {
    pub name: Name,
    pub group: u8,
    pub replica: u8,
    pub vote: Vote,
    pub state: State,
    pub ground: Ground,
    pub mark: Mark,
    /// The values of the transaction's reads of the group's keys.
    pub reads: Values,
}
