// What a transaction asks of the rows of its group, reads in them and writes into them.
ghost use Rattle.std.specs.Prelude.{◌≡◌, ◌≤◌, true, not, ◌&&◌, length, is_some};
ghost use Rattle.bodies.specs.Operations.{is_read, key_of};
ghost use Rattle.locks.specs.Groups.{is_local};
ghost use Rattle.locks.specs.LocalRows.{differs, is_unequal, lacks_row, read_values, value_at, written_by, written_by_all};
ghost use Rattle.table.specs.Orders.{by_number};
ghost use Rattle.table.specs.Rows.{rising};
ghost use Rattle.table.specs.Tables.{with_rows};
ghost use Rattle.lists.specs.Lists.{listed};
ghost use Rattle.votes.specs.Values.{most_values};

use crate::partition::{GroupOperations, Partition};
use bodies::operation::Operation;
use table::owned::Table;
use table::row::Row;
use table::{change, get};
use votes::values::Values;

/// Whether a key of the group that the operations name has no row.
pub fn lacks_row(partition: &Partition, rows: &[Row<u32, u64>], operations: &[Operation]) -> bool
    requires { rising by_number rows.now ≡ true }
    ensures { result ≡ lacks_row partition.now.groups partition.now.group rows.now operations.now }
{
    operations.iter().any(|operation| {
        partition.is_local(operation) && get(rows, &operation.key()).is_none()
    })
}

// Whether the operation compares with another value than this.
fn is_different(row: Option<u64>, operation: &Operation) -> bool
    ensures { result ≡ differs row operation.now }
{
    match *operation {
        Operation::Compare { value, .. } => row != Some(value),
        Operation::Read { .. } | Operation::Write { .. } => false,
    }
}

/// Whether a compare at a key of the group is not equal.
pub fn has_unequal(partition: &Partition, rows: &[Row<u32, u64>], operations: &[Operation]) -> bool
    requires { rising by_number rows.now ≡ true }
    ensures { result ≡ is_unequal partition.now.groups partition.now.group rows.now operations.now }
{
    operations.iter().any(|operation| {
        partition.is_local(operation) && is_different(get(rows, &operation.key()), operation)
    })
}

// Whether the operation is a read at a key of the group.
fn reads_here(partition: &Partition, operation: &Operation) -> bool
    ensures { result ≡ is_local partition.now.groups partition.now.group operation.now && is_read operation.now }
{
    partition.is_local(operation) && operation.is_read()
}

/// The values of the reads at keys of the group, in the order of the operations.
pub fn read_values(
    partition: &Partition,
    rows: &[Row<u32, u64>],
    operations: &[Operation],
) -> Values
    requires { (rising by_number rows.now ≡ true) × (length operations.now ≤ most_values) }
    ensures { listed result ≡ read_values partition.now.groups partition.now.group rows.now operations.now }
{
    // A loop, since a list with no heap cannot be collected into.
    let mut values = Values::new(0);
    for operation in operations {
        if reads_here(partition, operation) {
            values.push(get(rows, &operation.key()).unwrap_or(0));
        }
    }
    values
}

// Does the operation in these rows, if it is a write at a key of the group.
fn write_row(partition: &Partition, rows: &mut [Row<u32, u64>], operation: &Operation)
    requires { rising by_number rows.old ≡ true }
    ensures after { rows.new ≡ written_by partition.now.groups partition.now.group operation.now rows.old }
    ensures rises { rising by_number rows.new ≡ true }
{
    match *operation {
        Operation::Write { key, value } if partition.is_local(operation) => {
            change(rows, &key, value);
        }
        _ => {}
    }
}

/// Does the writes at keys of the group, in the order of the operations.
pub fn write_values(partition: &Partition, rows: &mut [Row<u32, u64>], operations: &[Operation])
    requires { rising by_number rows.old ≡ true }
    ensures after { rows.new ≡ written_by_all partition.now.groups partition.now.group operations.now rows.old }
    ensures rises { rising by_number rows.new ≡ true }
{
    for operation in operations {
        write_row(partition, rows, operation);
    }
}

impl GroupOperations<'_> {
    /// Whether a key of the group that the operations name has no row.
    pub fn lacks_row(&self, rows: &Table<u32, u64>) -> bool
        ensures { result ≡ lacks_row self.now.partition.groups self.now.partition.group rows.now.rows self.now.operations.now }
    {
        lacks_row(&self.partition, rows.rows(), self.operations)
    }

    /// Whether a compare at a key of the group is not equal.
    pub fn has_unequal(&self, rows: &Table<u32, u64>) -> bool
        ensures { result ≡ is_unequal self.now.partition.groups self.now.partition.group rows.now.rows self.now.operations.now }
    {
        has_unequal(&self.partition, rows.rows(), self.operations)
    }

    /// The values of the reads at keys of the group, in the order of the operations.
    pub fn read_values(&self, rows: &Table<u32, u64>) -> Values
        requires { length self.now.operations.now ≤ most_values }
        ensures { listed result ≡ read_values self.now.partition.groups self.now.partition.group rows.now.rows self.now.operations.now }
    {
        read_values(&self.partition, rows.rows(), self.operations)
    }

    /// Does the writes at keys of the group, in the order of the operations.
    // Through the table's own call: it cannot lend its rows for writing and keep the order of their keys.
    pub fn write_values(&self, rows: &mut Table<u32, u64>)
        ensures { rows.new ≡ with_rows rows.old (written_by_all self.now.partition.groups self.now.partition.group self.now.operations.now rows.old.rows) }
    {
        for operation in self.operations {
            write_one(&self.partition, rows, operation);
        }
    }
}

// Does the operation, if it is a write at a key of the group.
fn write_one(partition: &Partition, rows: &mut Table<u32, u64>, operation: &Operation)
    ensures { rows.new ≡ with_rows rows.old (written_by partition.now.groups partition.now.group operation.now rows.old.rows) }
{
    match *operation {
        Operation::Write { key, value } if partition.is_local(operation) => {
            rows.change(&key, value);
        }
        _ => {}
    }
}
