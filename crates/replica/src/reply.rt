// What a replica says of a name.
use envelope::name::Name;
use votes::ground::Ground;
use votes::state::State;
use votes::values::Values;
use votes::vote::Vote;

/// What a replica says of a name: the answer, before it is signed and written.
#[derive(Clone, Copy)]
pub struct Reply {
    pub name: Name,
    pub vote: Vote,
    pub state: State,
    pub ground: Ground,
    pub reads: Values,
}
