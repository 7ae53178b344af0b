// Whether a certificate has the entries that it must have.
ghost use Rattle.std.specs.Prelude.{◌≡◌, ◌+◌, ◌&&◌, count_by, map, length, ◌==◌, nat_eq, nat_lt};
ghost use Rattle.std.specs.List.{list_all, list_any};
ghost use Rattle.quorums.specs.Shapes.{shaped, spread};
ghost use Rattle.bodies.specs.Operations.{key_of};
ghost use Rattle.locks.specs.Groups.{group_of, is_local, names_group};
ghost use Rattle.votes.specs.Entries.{shown};

use crate::tolerance::Tolerance;
use bodies::operation::Operation;
use locks::partition::{GroupOperations, Partition};
use votes::entry::Entry;
use votes::vote::Vote;

// How many entries are of the group.
fn count_of(entries: &[Entry], group: u8) -> usize
    ensures { result ≡ count_by (λ e. nat_eq e.group group) entries.now }
{
    entries.iter().filter(|entry| entry.group == group).count()
}

// Whether every entry is of a replica numbered below `replicas`.
fn are_below(entries: &[Entry], replicas: u8) -> bool
    ensures { result ≡ list_all (λ e. nat_lt e.replica replicas) entries.now }
{
    entries.iter().all(|entry| entry.replica < replicas)
}

// Whether every entry is of a group that the transaction names.
fn are_named(transaction: &GroupOperations, entries: &[Entry]) -> bool
    ensures { result ≡ list_all (λ e. names_group transaction.now.partition.groups transaction.now.operations.now e.group) entries.now }
{
    entries
        .iter()
        .all(|entry| transaction.names_group(entry.group))
}

// Whether there are f + 1 entries of each group that the transaction names.
fn are_full(transaction: &GroupOperations, faults: u8, entries: &[Entry]) -> bool
    ensures { result ≡ list_all (λ o. nat_eq (count_by (λ e. nat_eq e.group (group_of transaction.now.partition.groups (key_of o))) entries.now) (faults + 1)) transaction.now.operations.now }
{
    transaction.operations.iter().all(|operation| {
        count_of(entries, transaction.partition.group_of(operation.key())) == faults as usize + 1
    })
}

// Whether all entries are of the group that the operation names.
fn are_of(partition: &Partition, operation: &Operation, entries: &[Entry]) -> bool
    ensures { result ≡ list_all (λ e. is_local partition.now.groups e.group operation.now) entries.now }
{
    entries
        .iter()
        .all(|entry| partition.is_of_group(operation, entry.group))
}

// Whether all entries are of one group that the transaction names.
fn are_of_one(transaction: &GroupOperations, entries: &[Entry]) -> bool
    ensures { result ≡ list_any (λ o. list_all (λ e. is_local transaction.now.partition.groups e.group o) entries.now) transaction.now.operations.now }
{
    transaction.operations.iter().any(|operation| are_of(
        &transaction.partition,
        operation,
        entries,
    ))
}

// Whether the entries are f + 1 of each group that they must be of, and of no other.
fn are_spread(transaction: &GroupOperations, faults: u8, vote: Vote, entries: &[Entry]) -> bool
    ensures { result ≡ spread transaction.now.partition.groups faults transaction.now.operations.now vote (map shown entries.now) }
{
    match vote {
        Vote::Commit => {
            are_named(transaction, entries) && are_full(transaction, faults, entries)
        }
        Vote::Abort => { entries.len() == faults as usize + 1 && are_of_one(transaction, entries) }
    }
}

/// Whether a certificate of this vote with these entries has what the transaction asks for.
pub fn is_shaped(
    transaction: &GroupOperations,
    tolerance: Tolerance,
    vote: Vote,
    entries: &[Entry],
) -> bool
    ensures { result ≡ shaped transaction.now.partition.groups tolerance.replicas tolerance.faults transaction.now.operations.now vote (map shown entries.now) }
{
    are_below(entries, tolerance.replicas)
        && are_spread(transaction, tolerance.faults, vote, entries)
}
