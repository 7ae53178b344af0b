// How a replica is made, and what it is asked.
ghost use Rattle.std.specs.Prelude.{◌≡◌, true, IfOk};
ghost use Rattle.locks.specs.LocalRows.{value_at};
ghost use Rattle.replica.specs.Models.{fresh};
ghost use Rattle.replica.specs.Views.{config, view};
ghost use Rattle.table.specs.Orders.{by_bytes, by_number};
ghost use Rattle.table.specs.Rows.{lookup, rising};

use crate::pending::Pending;
use crate::state::Replica;
use envelope::name::Name;
use locks::partition::Partition;
use quorums::tolerance::Tolerance;
use std::alloc::{AllocError, Global};
use table::owned::Table;
use table::row::Row;
use votes::state::State;

impl Replica {
    /// A replica that holds these rows, whose keys rise, and has taken nothing yet. Its book has space for so many names.
    /// All that it will ever need is allocated here.
    pub fn new(
        heap: Global,
        partition: Partition,
        tolerance: Tolerance,
        rows: &[Row<u32, u64>],
        names: usize,
    ) -> Result<Replica, AllocError>
        requires { rising by_number rows.now ≡ true }
        ensures { IfOk result (λ replica. (view replica ≡ fresh rows.now) × (config replica ≡ record { groups = partition.groups; group = partition.group; replicas = tolerance.replicas; faults = tolerance.faults; names = names })) }
    {
        let free = Row {
            key: Name { bytes: [0; 32] },
            value: State::Declined,
        };
        Ok(Replica {
            partition,
            tolerance,
            place: 0,
            rows: Table::from_rows(heap, rows)?,
            book: Table::new(heap, free, names)?,
            pending: Pending::new(heap)?,
        })
    }

    /// The value of a key, if it has a row.
    pub fn value(&self, key: u32) -> Option<u64>
        ensures { result ≡ value_at (view self.now).rows key }
    {
        self.rows.get(&key)
    }

    /// The state of a name, if the book has it.
    pub fn state_of(&self, name: &Name) -> Option<State>
        ensures { result ≡ lookup by_bytes (view self.now).book name.now }
    {
        self.book.get(name)
    }

    /// How many messages of its group's list it has taken.
    pub fn place(&self) -> u64
        ensures { result ≡ (view self.now).place }
    {
        self.place
    }
}
