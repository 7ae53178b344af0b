// What a replica says of the names that it knows, and how new names are entered.
ghost use Rattle.std.specs.Prelude.{◌≡◌, ◌<◌, true, length, Some, Ok};
ghost use Rattle.std.specs.List.{find};
ghost use Rattle.std.specs.Option.{option_map};
ghost use Rattle.locks.specs.LocalRows.{read_values};
ghost use Rattle.replica.specs.Models.{is_named, most_pending};
ghost use Rattle.replica.specs.Replies.{reads_again};
ghost use Rattle.replica.specs.Meetings.{is_question};
ghost use Rattle.replica.specs.Steps.{admitted, declined, known_ground, known_reads, recalled, vote_on, with_entry};
ghost use Rattle.replica.specs.Transactions.{transaction};
ghost use Rattle.replica.specs.Views.{Becomes, HasSpace, config, reply_model, view};
ghost use Rattle.table.specs.Orders.{by_bytes};
ghost use Rattle.table.specs.Rows.{lookup};
ghost use Rattle.lists.specs.Lists.{listed};

use crate::book::{Delivered, meet_in_table};
use crate::reply::Reply;
use crate::state::{PendingPlace, Replica};
use envelope::name::Name;
use locks::partition::GroupOperations;
use votes::ground::Ground;
use votes::state::State;
use votes::values::Values;
use votes::vote::Vote;

// The vote that was given on a name of this state.
fn vote_on(state: State) -> Vote
    ensures { result ≡ vote_on state }
{
    match state {
        State::Declined => Vote::Abort,
        _ => Vote::Commit,
    }
}

// Why a known name of this state is answered as it is.
fn known_ground(state: State) -> Ground
    ensures { result ≡ known_ground state }
{
    match state {
        State::Pending => Ground::Pending,
        _ => Ground::Known,
    }
}

impl Replica {
    // The reads of the pending transaction of this name.
    fn reads_again(&self, name: &Name) -> Values
        ensures { listed result ≡ reads_again (config self.now) (view self.now) name.now }
    {
        self.pending.find(name).map_or(Values::new(0), |held| {
            let transaction = GroupOperations {
                partition: self.partition,
                operations: held.body.operations(),
            };
            transaction.read_values(&self.rows)
        })
    }

    // The reads that a known name of this state is answered with.
    fn known_reads(&self, name: &Name, state: State) -> Values
        ensures { listed result ≡ known_reads (config self.now) (view self.now).rows state (find (is_named name.now) (view self.now).pending) }
    {
        match state {
            State::Pending => self.reads_again(name),
            _ => Values::new(0),
        }
    }

    // The reply on a known name of this state.
    fn recall(&self, name: &Name, state: State) -> Reply
        ensures { reply_model result ≡ recalled (config self.now) (view self.now) name.now state }
    {
        Reply {
            name: *name,
            vote: vote_on(state),
            state,
            ground: known_ground(state),
            reads: self.known_reads(name, state),
        }
    }

    // The reply on a name that is in the book.
    pub(crate) fn answer_known(&mut self, name: &Name, delivered: Delivered) -> Option<Reply>
        requires { is_question delivered ≡ true }
        ensures reply { option_map reply_model result ≡ option_map (recalled (config self.old) (view self.old) name.now) (lookup by_bytes (view self.old).book name.now) }
        ensures after { Becomes self.old self.new (view self.old) }
    {
        let state = meet_in_table(&mut self.book, name, delivered)?;
        Some(self.recall(name, state))
    }

    // Enters a new name with this state.
    fn enter_new(&mut self, name: &Name, state: State)
        requires { HasSpace (config self.old) (view self.old) name.now }
        ensures { Becomes self.old self.new (with_entry (view self.old) name.now state) }
    {
        self.book.insert(*name, state).unwrap();
    }

    // Declines a new name on this ground.
    pub(crate) fn decline(&mut self, name: &Name, ground: Ground) -> Reply
        requires { HasSpace (config self.old) (view self.old) name.now }
        ensures after { Becomes self.old self.new (declined (config self.old) (view self.old) name.now ground).0 }
        ensures reply { Ok (Some (reply_model result)) ≡ (declined (config self.old) (view self.old) name.now ground).1 }
    {
        self.enter_new(name, State::Declined);
        Reply {
            name: *name,
            vote: Vote::Abort,
            state: State::Declined,
            ground,
            reads: Values::new(0),
        }
    }

    // Makes a new transaction pending.
    pub(crate) fn admit(&mut self, place: PendingPlace) -> Reply
        requires space { HasSpace (config self.old) (view self.old) place.name }
        requires free { length (view self.old).pending < most_pending }
        ensures after { Becomes self.old self.new (admitted (config self.old) (view self.old) (transaction place)).0 }
        ensures reply { Ok (Some (reply_model result)) ≡ (admitted (config self.old) (view self.old) (transaction place)).1 }
    {
        let transaction = GroupOperations {
            partition: self.partition,
            operations: place.body.operations(),
        };
        let reads = transaction.read_values(&self.rows);
        self.enter_new(&place.name, State::Pending);
        self.pending.admit(place);
        Reply {
            name: place.name,
            vote: Vote::Commit,
            state: State::Pending,
            ground: Ground::Pending,
            reads,
        }
    }
}
