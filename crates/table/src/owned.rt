// A table that owns its rows.
ghost use Rattle.std.specs.Prelude.{◌≡◌, ◌<◌, ◌≤◌, true, [], length, is_some, IfOk, IsOk, MatchResult, None, nat_le, nat_lt, slice_get};
ghost use Rattle.table.specs.Insertions.{admitted, table_after};
ghost use Rattle.table.specs.Rows.{changed, lookup, position, rising};
ghost use Rattle.std.specs.Borrow.{sem};
ghost use Rattle.std.specs.Option.{option_map};
ghost use Rattle.table.specs.Lending.{lends_beside, lends_value};
ghost use Rattle.table.specs.Tables.{with_rows};

use crate::key::Key;
use crate::row::{Refusal, Row};
use crate::{change, find, get, insert};
use std::alloc::{AllocError, Global};
use std::marker::Model;

/// An ordered table: its rows, and space for more.
#[derive(Drop)]
pub struct Table<K: Key, V> {
    // The first `filled` rows are the table, and the others are free: an insertion is that of the slice functions, which
    // the methods call.
    rows: Vec<Row<K, V>>,
    filled: usize,
}

impl<K: Key, V> Model for Table<K, V> {
    ghost use Rattle.std.specs.Prelude.{◌≡◌, ◌≤◌, true, take, vec_len};
    ghost use Rattle.table.specs.Rows.{rising};
    ghost use Rattle.table.specs.Tables.{TableModel};

    ghost Value = { TableModel K V };

    ghost view = { λ t. record { rows = take t.filled t.rows.items; size = vec_len t.rows } };

    ghost invariant = { λ t. (t.filled ≤ vec_len t.rows) × (rising K.order (take t.filled t.rows.items) ≡ true) };
}

impl<K: Key + Copy + Drop, V: Copy + Drop> Table<K, V> {
    /// A table without rows that has space for so many. `free` is what a free row holds.
    pub fn new(heap: Global, free: Row<K, V>, size: usize) -> Result<Table<K, V>, AllocError>
        ensures { IfOk result (λ table. table ≡ record { rows = []; size = size }) }
    {
        Ok(Table {
            rows: vec![in heap; free; size]?,
            filled: 0,
        })
    }

    /// A full table of these rows, whose keys rise.
    pub fn from_rows(heap: Global, rows: &[Row<K, V>]) -> Result<Table<K, V>, AllocError>
        requires { rising K.order rows.now ≡ true }
        ensures { IfOk result (λ table. table ≡ record { rows = rows.now; size = length rows.now }) }
    {
        Ok(Table {
            rows: Vec::from_slice(heap, rows)?,
            filled: rows.len(),
        })
    }
}

impl<K: Key, V> Table<K, V> {
    /// The rows, without the free ones.
    pub fn rows(&self) -> &[Row<K, V>]
        ensures rows { result.now ≡ self.now.rows }
        ensures rises { rising K.order self.now.rows ≡ true }
    {
        &self.rows[0..self.filled]
    }

    // Where the key stands, or where it would go.
    fn find(&self, key: &K) -> Result<usize, usize>
        ensures place { result ≡ position K.order self.now.rows key.now }
        ensures bound { MatchResult result (λ i. i < length self.now.rows) (λ i. i ≤ length self.now.rows) }
        ensures rises { rising K.order self.now.rows ≡ true }
    {
        find(self.rows(), key)
    }

    // The value of the row at this place, to be read and written.
    fn value_mut(&mut self, at: usize) -> &mut V
        requires { at < length self.old.rows }
        ensures* writes_back { sem 𝓛 (lends_value K.row V.row K.order self.entry at result) }
        ensures value { option_map (λ row. row.value) (slice_get self.old.rows at) ≡ Some result.now }
    {
        let row = &mut self.rows[at];
        &mut row.value
    }

    /// Whether there is no space for another row.
    pub fn is_full(&self) -> bool
        ensures value { result ≡ nat_le self.now.size (length self.now.rows) }
    {
        self.filled >= self.rows.len()
    }

    /// The value beside the key.
    pub fn get(&self, key: &K) -> Option<V>
    where
        V: Copy,
        ensures { result ≡ lookup K.order self.now.rows key.now }
    {
        get(self.rows(), key)
    }

    /// Puts a row with a new key in its place, and answers where that is. A key that has a row is refused, and then a
    /// table without a free row.
    pub fn insert(&mut self, key: K, value: V) -> Result<usize, Refusal>
    where
        K: Drop,
        V: Drop,
        ensures answer { result ≡ admitted (position K.order self.old.rows key) (nat_lt (length self.old.rows) self.old.size) }
        ensures after { self.new ≡ with_rows self.old (table_after K.order self.old.rows (record { key = key; value = value }) result) }
        ensures goes { lookup K.order self.old.rows key ≡ None → length self.old.rows < self.old.size → IsOk result }
    {
        let at = insert(&mut self.rows, self.filled, key, value)?;
        self.filled += 1;
        Ok(at)
    }

    /// The value beside the key, to be read and written.
    pub fn get_mut(&mut self, key: &K) -> Option<&mut V>
        ensures* writes_back { sem 𝓛 (lends_beside K.row V.row K.order self.entry key.now result) }
        ensures value { option_map (λ value. value.now) result ≡ lookup K.order self.old.rows key.now }
    {
        match self.find(key) {
            Ok(at) => Some(self.value_mut(at)),
            Err(_) => None,
        }
    }

    /// Gives the key's row another value, and answers whether the key has a row.
    pub fn change(&mut self, key: &K, value: V) -> bool
    where
        V: Drop,
        ensures answer { result ≡ is_some (lookup K.order self.old.rows key.now) }
        ensures after { self.new ≡ with_rows self.old (changed K.order self.old.rows key.now value) }
    {
        change(&mut self.rows[0..self.filled], key, value)
    }
}
