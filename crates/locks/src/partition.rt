// How keys are spread over groups.
ghost use Rattle.std.specs.Prelude.{◌<◌, ◌≤◌};

use bodies::operation::Operation;

/// The most groups that there are.
pub const MOST_GROUPS: u8 = 8;

/// One group of several.
#[derive(Clone, Copy)]
pub struct Partition {
    pub groups: u8,
    pub group: u8,
    ghost there: { group < groups },
    ghost few: { groups ≤ 8 },
}

/// The operations of a transaction, with the group that they are seen from.
// Made in place: behind a constructor, whose result only its clause tells, proofs of the replica did not close.
#[derive(Clone, Copy)]
pub struct GroupOperations<'a> {
    pub partition: Partition,
    pub operations: &'a [Operation],
}
