// Conflicts of transactions.
ghost use Rattle.std.specs.Prelude.{◌≡◌};
ghost use Rattle.std.specs.List.{list_any};
ghost use Rattle.locks.specs.Conflicts.{clash, conflicts};

use crate::partition::{GroupOperations, Partition};
use bodies::operation::Operation;

// Whether both operations are at one key of the group, and at least one of them writes it.
fn clashes(partition: &Partition, left: &Operation, right: &Operation) -> bool
    ensures { result ≡ clash partition.now.groups partition.now.group left.now right.now }
{
    partition.is_local(left) && left.key() == right.key() && (left.is_write() || right.is_write())
}

// Whether the operation clashes with one of the others.
fn clashes_with_any(partition: &Partition, one: &Operation, others: &[Operation]) -> bool
    ensures { result ≡ list_any (clash partition.now.groups partition.now.group one.now) others.now }
{
    others.iter().any(|other| clashes(partition, one, other))
}

impl GroupOperations<'_> {
    /// Whether the transactions of these and of the other operations conflict in the group.
    pub fn conflicts_with(&self, others: &[Operation]) -> bool
        ensures { result ≡ conflicts self.now.partition.groups self.now.partition.group self.now.operations.now others.now }
    {
        self.operations.iter().any(|operation| clashes_with_any(&self.partition, operation, others))
    }
}
