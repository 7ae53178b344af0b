// What a replica does with a body and with a proposal.
ghost use Rattle.std.specs.Prelude.{◌≡◌, Some, Ok};
ghost use Rattle.replica.specs.Steps.{decided, late_objection, objection, on_body, on_proposal};
ghost use Rattle.replica.specs.Transactions.{transaction};
ghost use Rattle.replica.specs.Views.{Becomes, HasSpace, config, outcome, reply_model, view};

use crate::book::Delivered;
use crate::reply::Reply;
use crate::state::{PendingPlace, Replica};
use bodies::operation::Operation;
use envelope::name::Name;
use locks::partition::GroupOperations;
use votes::fault::DeliveryFault;
use votes::ground::{Blocker, Ground};

impl Replica {
    // The grounds that apply where no pending transaction is in the way.
    fn late_objection_to(&self, operations: &[Operation]) -> Option<Ground>
        ensures { result ≡ late_objection (config self.now) (view self.now) operations.now }
    {
        if self.pending.is_full() {
            return Some(Ground::NoPlace);
        }
        let transaction = GroupOperations {
            partition: self.partition,
            operations,
        };
        transaction
            .has_unequal(&self.rows)
            .then_some(Ground::Unequal)
    }

    // Why a new transaction is declined, if it is: the first ground that applies.
    fn objection_to(&self, operations: &[Operation]) -> Option<Ground>
        ensures { result ≡ objection (config self.now) (view self.now) operations.now }
    {
        let transaction = GroupOperations {
            partition: self.partition,
            operations,
        };
        if transaction.lacks_row(&self.rows) {
            return Some(Ground::NoRow);
        }
        if let Some(held) = self.pending.find_conflict(&transaction) {
            let blocking = GroupOperations {
                partition: self.partition,
                operations: held.body.operations(),
            };
            return Some(Ground::Blocked(Blocker {
                name: held.name,
                groups: blocking.group_set(),
            }));
        }
        self.late_objection_to(operations)
    }

    // Declines a new transaction, or makes it pending.
    fn decide(&mut self, place: PendingPlace) -> Reply
        requires { HasSpace (config self.old) (view self.old) place.name }
        ensures after { Becomes self.old self.new (decided (config self.old) (view self.old) (transaction place) (objection (config self.old) (view self.old) (transaction place).operations)).0 }
        ensures reply { Ok (Some (reply_model result)) ≡ (decided (config self.old) (view self.old) (transaction place) (objection (config self.old) (view self.old) (transaction place).operations)).1 }
    {
        // A match, since two closures cannot both borrow the replica to change it.
        match self.objection_to(place.body.operations()) {
            Some(ground) => self.decline(&place.name, ground),
            None => self.admit(place),
        }
    }

    // Takes a proposal to abort.
    pub(crate) fn take_proposal(&mut self, name: &Name) -> Result<Option<Reply>, DeliveryFault>
        ensures after { Becomes self.old self.new (on_proposal (config self.old) (view self.old) name.now).0 }
        ensures outcome { outcome result ≡ (on_proposal (config self.old) (view self.old) name.now).1 }
    {
        if let Some(reply) = self.answer_known(name, Delivered::Proposal) {
            return Ok(Some(reply));
        }
        if self.book.is_full() {
            return Err(DeliveryFault::BookFull);
        }
        Ok(Some(self.decline(name, Ground::Proposed)))
    }

    // Takes a body, with its name.
    pub(crate) fn take_body(&mut self, place: PendingPlace) -> Result<Option<Reply>, DeliveryFault>
        ensures after { Becomes self.old self.new (on_body (config self.old) (view self.old) (transaction place)).0 }
        ensures outcome { outcome result ≡ (on_body (config self.old) (view self.old) (transaction place)).1 }
    {
        let transaction = GroupOperations {
            partition: self.partition,
            operations: place.body.operations(),
        };
        if !transaction.names_group(self.partition.group) {
            return Err(DeliveryFault::NoKeyHere);
        }
        if let Some(reply) = self.answer_known(&place.name, Delivered::Body) {
            return Ok(Some(reply));
        }
        if self.book.is_full() {
            return Err(DeliveryFault::BookFull);
        }
        Ok(Some(self.decide(place)))
    }
}
