// What a replica holds.
use crate::pending::Pending;
use bodies::body::Body;
use envelope::name::Name;
use locks::partition::Partition;
use quorums::tolerance::Tolerance;
use table::owned::Table;
use votes::state::State;

/// The most transactions that are pending at a replica.
pub const MOST_PENDING: usize = 32;

/// A pending transaction: its name and its body.
#[derive(Clone, Copy)]
pub struct PendingPlace {
    pub name: Name,
    pub body: Body,
}

/// One replica of a group.
#[derive(Drop)]
pub struct Replica {
    // Its group, and the sizes of every group.
    pub(crate) partition: Partition,
    pub(crate) tolerance: Tolerance,
    // How many messages of its group's list it has taken.
    pub(crate) place: u64,
    pub(crate) rows: Table<u32, u64>,
    // The names that it knows, each with its state.
    pub(crate) book: Table<Name, State>,
    pub(crate) pending: Pending,
}
