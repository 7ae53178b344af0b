// The groups of keys, and the groups that a transaction names.
ghost use Rattle.std.specs.Prelude.{◌≡◌, ◌&&◌, is_some};
ghost use Rattle.bodies.specs.Operations.{key_of};
ghost use Rattle.locks.specs.Groups.{group_of, groups_byte, is_local, names_group};
ghost use Rattle.locks.specs.Partitions.{MadePartition};

use crate::partition::{GroupOperations, MOST_GROUPS, Partition};
use bodies::operation::Operation;
use votes::ground::GroupSet;

impl Partition {
    /// The group of this number, of so many; none where there is no such group, or there are more than eight.
    pub fn new(groups: u8, group: u8) -> Option<Partition>
        ensures { MadePartition groups group result }
    {
        if group < groups && groups <= MOST_GROUPS {
            Some(Partition { groups, group })
        } else {
            None
        }
    }

    /// The group of a key.
    pub fn group_of(&self, key: u32) -> u8
        ensures { result ≡ group_of self.now.groups key }
    {
        (key % self.groups as u32) as u8
    }

    /// Whether the operation is at a key of the group with this number.
    pub fn is_of_group(&self, operation: &Operation, group: u8) -> bool
        ensures { result ≡ is_local self.now.groups group operation.now }
    {
        self.group_of(operation.key()) == group
    }

    /// Whether the operation is at a key of this group.
    pub fn is_local(&self, operation: &Operation) -> bool
        ensures { result ≡ is_local self.now.groups self.now.group operation.now }
    {
        self.is_of_group(operation, self.group)
    }
}

impl GroupOperations<'_> {
    /// Whether one of the operations is at a key of the group: then their transaction names the group.
    pub fn names_group(&self, group: u8) -> bool
        ensures { result ≡ names_group self.now.partition.groups self.now.operations.now group }
    {
        self.operations
            .iter()
            .any(|operation| self.partition.is_of_group(operation, group))
    }

    /// The groups that the transaction of these operations names.
    pub fn group_set(&self) -> GroupSet
        ensures { result.bits ≡ groups_byte self.now.partition.groups self.now.operations.now }
    {
        // A loop: in a chain over the groups, the bounds of the shift and of the sum are left to prove.
        let mut bits = 0;
        for group in 0..MOST_GROUPS {
            if self.names_group(group) {
                bits += 1 << group;
            }
        }
        GroupSet { bits }
    }
}
