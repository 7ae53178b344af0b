// The rows and the book of a replica, which are both a table.
ghost use Rattle.std.specs.Prelude.{◌≡◌, true, length, replicate, slice_set, IfOk, refl};
ghost use Rattle.std.specs.Ordering.{nat_cmp};
ghost use Rattle.std.proofs.Common.{ap};
ghost use Rattle.table.specs.KeyOrders.{same_number};
ghost use Rattle.table.specs.Orders.{by_number};
ghost use Rattle.table.specs.Rows.{lookup, rising};
ghost use Rattle.table.specs.contracts.tests.SerialOrd.TheImpl.Laws.{total-law};

use crate::key::Key;
use crate::ordered::OrderedKey;
use crate::owned::Table;
use crate::row::{Refusal, Row};
use crate::{find, get, rises};
use envelope::name::Name;
use std::alloc::{AllocError, Global};
use std::cmp::Ordering;
use std::test::Fail;
use votes::state::State;

// A name that begins with `first` and ends with `last`.
fn named(first: u8, last: u8) -> Name
    ensures { result.bytes ≡ slice_set (slice_set (replicate 32 0) 0 first) 31 last }
{
    let mut bytes = [0; 32];
    bytes[0] = first;
    bytes[31] = last;
    Name { bytes }
}

// Three rows.
fn three() -> [Row<u32, u64>; 3]
    ensures { rising by_number result ≡ true }
{
    [
        Row { key: 3, value: 30 },
        Row { key: 5, value: 50 },
        Row { key: 9, value: 90 },
    ]
}

#[test]
fn names_are_entered_in_order(rt: HostRuntime) -> Result<(), Fail> {
    let free = Row {
        key: named(0, 0),
        value: State::Declined,
    };
    let mut book = Table::new(rt.alloc(), free, 3)?;
    assert_eq!(rt; book.insert(named(2, 1), State::Pending), Ok(0));
    assert_eq!(rt; book.insert(named(1, 9), State::Declined), Ok(0));
    assert_eq!(rt;
        book.insert(named(2, 1), State::Declined),
        Err(Refusal::Present(1))
    );
    assert!(rt; !book.is_full());
    assert_eq!(rt; book.insert(named(2, 0), State::Committed), Ok(1));
    assert!(rt; book.is_full());
    assert_eq!(rt;
        book.insert(named(2, 1), State::Declined),
        Err(Refusal::Present(2)),
        "before it is full"
    );
    assert_eq!(rt;
        book.insert(named(7, 7), State::Declined),
        Err(Refusal::Full)
    );
    assert_eq!(rt; book.get(&named(2, 1)), Some(State::Pending));
    assert_eq!(rt; book.get(&named(7, 7)), None);
    Ok(())
}

#[test]
fn rows_are_changed_in_place(rt: HostRuntime) -> Result<(), Fail> {
    let rows = three();
    assert!(rt; rises(&rows) && !rises(&[rows[1], rows[1]]));
    let mut table = Table::from_rows(rt.alloc(), &rows)?;
    assert!(rt; table.change(&9, 91) && !table.change(&4, 40));
    assert_eq!(rt; table.get(&9), Some(91));
    if let Some(value) = table.get_mut(&3) {
        *value = 31;
    }
    assert_eq!(rt; table.get(&3), Some(31));
    assert!(rt; table.get_mut(&4).is_none());
    Ok(())
}

#[test]
fn a_slice_is_searched(rt: HostRuntime) {
    let rows = three();
    assert_eq!(rt; get(&rows, &9), Some(90));
    assert_eq!(rt; find(&rows, &4), Err(1));
}

// A key with the library's order of its number.
#[derive(Clone, Copy, PartialEq, Eq, PartialOrd, Ord)]
struct Serial {
    number: u16,
}

impl Key for Serial {
    ghost order = { ⟦<Serial as Ord>⟧.cmp };

    ghost total = { record { total = total-law; same = λ x y e. ap (λ n. record { number = n }) (same_number x.number y.number e) } };

    fn compare(&self, other: &Serial) -> Ordering {
        self.cmp(other)
    }
}

impl OrderedKey for Serial {
    ghost same = { λ x y e. ap (λ n. record { number = n }) (same_number x.number y.number e) };

    ghost by_cmp = { refl };
}

// A full table of rows that rise in the library's order.
fn table_of<K: OrderedKey + Copy + Drop, V: Copy + Drop>(
    heap: Global,
    rows: &[Row<K, V>],
) -> Result<Table<K, V>, AllocError>
    requires { rising K.cmp rows.now ≡ true }
    ensures { IfOk result (λ table. table ≡ record { rows = rows.now; size = length rows.now }) }
{
    Table::from_rows(heap, rows)
}

// The value beside the key, in the library's order.
fn value_of<K: OrderedKey, V: Copy>(table: &Table<K, V>, key: &K) -> Option<V>
    ensures { result ≡ lookup K.cmp table.now.rows key.now }
{
    table.get(key)
}

// Two rows.
fn serials() -> [Row<Serial, u64>; 2]
    ensures { rising (λ x y. nat_cmp x.number y.number) result ≡ true }
{
    [
        Row {
            key: Serial { number: 2 },
            value: 20,
        },
        Row {
            key: Serial { number: 300 },
            value: 30,
        },
    ]
}

#[test]
fn keys_in_the_library_order_are_found(rt: HostRuntime) -> Result<(), Fail> {
    let table = table_of(rt.alloc(), &three())?;
    assert_eq!(rt; value_of(&table, &5), Some(50));
    assert_eq!(rt; value_of(&table, &6), None);
    let table = table_of(rt.alloc(), &serials())?;
    assert_eq!(rt; value_of(&table, &Serial { number: 300 }), Some(30));
    assert_eq!(rt; value_of(&table, &Serial { number: 3 }), None);
    Ok(())
}
