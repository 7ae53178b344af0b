// The pending places.
ghost use Rattle.std.specs.Prelude.{◌≡◌, ◌<◌, ◌≤◌, [], ◌∷◌, ◌++◌, length, map, vec_len, vec_capacity, IfOk, nat_le};
ghost use Rattle.std.specs.List.{find};
ghost use Rattle.std.specs.Option.{option_map};
ghost use Rattle.replica.specs.Models.{is_conflicting, is_named, most_pending};
ghost use Rattle.replica.specs.Searches.{without};
ghost use Rattle.replica.specs.Transactions.{transaction};

use crate::state::{MOST_PENDING, PendingPlace};
use bodies::operation::Operation;
use envelope::name::Name;
use locks::partition::{GroupOperations, Partition};
use std::alloc::{AllocError, Global};
use std::marker::Model;

/// The pending transaction of this name.
pub fn find_pending(places: &[PendingPlace], name: &Name) -> Option<PendingPlace>
    ensures { option_map transaction result ≡ find (is_named name.now) (map transaction places.now) }
{
    places.iter().find(|held| *name == held.name).copied()
}

/// Takes the pending transaction of this name out of its place.
pub fn release(places: &mut Vec<PendingPlace>, name: &Name) -> Option<PendingPlace>
    ensures value { option_map transaction result ≡ find (is_named name.now) (map transaction places.old.items) }
    ensures items { map transaction places.new.items ≡ without (is_named name.now) (map transaction places.old.items) }
    ensures len { vec_len places.new ≤ vec_len places.old }
    ensures capacity { vec_capacity places.new ≡ vec_capacity places.old }
{
    let at = places.iter().position(|held| *name == held.name)?;
    Some(places.remove(at))
}

/// The earliest pending transaction that conflicts in the group with one of these operations.
pub fn find_conflict(
    partition: &Partition,
    places: &[PendingPlace],
    operations: &[Operation],
) -> Option<PendingPlace>
    ensures { option_map transaction result ≡ find (is_conflicting partition.now.groups partition.now.group operations.now) (map transaction places.now) }
{
    let incoming = GroupOperations {
        partition: *partition,
        operations,
    };
    places
        .iter()
        .find(|held| incoming.conflicts_with(held.body.operations()))
        .copied()
}

/// The pending transactions, in the order in which they were entered.
#[derive(Drop)]
pub struct Pending {
    places: Vec<PendingPlace>,
}

impl Model for Pending {
    ghost use Rattle.std.specs.Prelude.{◌≤◌, List, map, vec_capacity, vec_len};
    ghost use Rattle.replica.specs.Models.{Transaction};
    ghost use Rattle.replica.specs.Transactions.{transaction};

    ghost Value = { List Transaction };

    ghost view = { λ p. map transaction p.places.items };

    ghost invariant = { λ p. (vec_len p.places ≤ 32) × (32 ≤ vec_capacity p.places) };
}

impl Pending {
    /// No transactions, and the memory for as many as there can be.
    pub fn new(heap: Global) -> Result<Pending, AllocError>
        ensures { IfOk result (λ pending. pending ≡ []) }
    {
        Ok(Pending {
            places: Vec::with_capacity(heap, MOST_PENDING)?,
        })
    }

    /// Whether all places are taken.
    pub fn is_full(&self) -> bool
        ensures { result ≡ nat_le most_pending (length self.now) }
    {
        self.places.len() >= MOST_PENDING
    }

    /// The pending transaction of this name.
    pub fn find(&self, name: &Name) -> Option<PendingPlace>
        ensures { option_map transaction result ≡ find (is_named name.now) self.now }
    {
        find_pending(&self.places, name)
    }

    /// The earliest pending transaction that conflicts in the group with the incoming one.
    pub fn find_conflict(&self, incoming: &GroupOperations) -> Option<PendingPlace>
        ensures { option_map transaction result ≡ find (is_conflicting incoming.now.partition.groups incoming.now.partition.group incoming.now.operations.now) self.now }
    {
        find_conflict(&incoming.partition, &self.places, incoming.operations)
    }

    /// Takes the pending transaction of this name out of its place.
    pub fn release(&mut self, name: &Name) -> Option<PendingPlace>
        ensures value { option_map transaction result ≡ find (is_named name.now) self.old }
        ensures after { self.new ≡ without (is_named name.now) self.old }
    {
        release(&mut self.places, name)
    }

    /// Gives a new transaction a place.
    pub fn admit(&mut self, place: PendingPlace)
        requires { length self.old < most_pending }
        ensures { self.new ≡ self.old ++ transaction place ∷ [] }
    {
        self.places.push_reserved(place);
    }
}
