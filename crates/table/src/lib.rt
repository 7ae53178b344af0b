//! An ordered table over a caller's slice of rows, and `Table`, which owns its rows.
//!
//! A table is a slice of rows whose keys rise strictly, for any kind of key with a total order. The calls here search
//! it, put a new row in, and give a row another value. They allocate nothing: the caller has the rows, and where a
//! table may grow, the free rows stand behind the filled ones. The calls ask that the keys rise, since to test it they
//! would have to walk all rows; `rises` tests it, and `insert` and `change` keep it. A `Table` has its rows and their
//! order in one value; it allocates when it is made, and its other calls ask nothing.

#![tactic(auto)]

ghost use Rattle.std.specs.Prelude.{◌≡◌, ◌+◌, ◌<◌, ◌≤◌, true, ◌++◌, length, take, drop, is_some, MatchResult};
ghost use Rattle.std.specs.List.{insert};
ghost use Rattle.table.specs.Insertions.{filled_after, insert_after, insert_answer, table_after};
ghost use Rattle.table.specs.Rows.{changed, lookup, position, rising};
ghost use Rattle.table.specs.TableLaws.{TableLaws};

use crate::key::Key;
use crate::row::{Refusal, Row};
use std::cmp::Ordering;

pub mod key;
pub mod ordered;
pub mod owned;
pub mod row;
#[cfg(test)]
mod tests;

// The calls over a caller's slice stay: the project wants the table over rows that the caller owns. `Table` calls them.

/// Where the key stands, or where it would go.
pub fn find<K: Key, V>(rows: &[Row<K, V>], key: &K) -> Result<usize, usize>
    requires { rising K.order rows.now ≡ true }
    ensures place { result ≡ position K.order rows.now key.now }
    ensures bound { MatchResult result (λ i. i < length rows.now) (λ i. i ≤ length rows.now) }
{
    // By hand: the library's binary search compares with as many rows wherever the key stands, and so takes longer for a
    // key near the middle.
    let mut low = 0;
    let mut high = rows.len();
    while low < high {
        let middle = low + (high - low) / 2;
        match key.compare(&rows[middle].key) {
            Ordering::Less => high = middle,
            Ordering::Equal => return Ok(middle),
            Ordering::Greater => low = middle + 1,
        }
    }
    Err(low)
}

/// The value beside the key.
pub fn get<K: Key, V: Copy>(rows: &[Row<K, V>], key: &K) -> Option<V>
    requires { rising K.order rows.now ≡ true }
    ensures { result ≡ lookup K.order rows.now key.now }
{
    match find(rows, key) {
        Ok(at) => Some(rows[at].value),
        Err(_) => None,
    }
}

/// Whether each key is below the next.
pub fn rises<K: Key, V>(rows: &[Row<K, V>]) -> bool
    ensures { result ≡ rising K.order rows.now }
{
    rows.is_sorted_by(|left, right| left.key.compare(&right.key).is_lt())
}

/// Puts a row with a new key in its place, and answers where that is. The first `filled` rows are the table; the rows
/// from the new one on move up by one, so that one free row is used up. A key that has a row is refused, and then a
/// table without a free row.
pub fn insert<K: Key + Drop, V: Drop>(
    rows: &mut [Row<K, V>],
    filled: usize,
    key: K,
    value: V,
) -> Result<usize, Refusal>
    requires { rising K.order (take filled rows.old) ≡ true }
    ensures answer { result ≡ insert_answer K.order rows.old filled key }
    ensures after { rows.new
        ≡ insert_after K.order rows.old filled (record { key = key; value = value }) }
    ensures table { take (filled_after filled result) rows.new
        ≡ table_after K.order (take filled rows.old) (record { key = key; value = value }) result }
    ensures rises { rising K.order (take (filled_after filled result) rows.new) ≡ true }
{
    let at = match find(first(rows, filled), &key) {
        Ok(at) => return Err(Refusal::Present(at)),
        Err(at) => at,
    };
    if filled >= rows.len() {
        return Err(Refusal::Full);
    }
    put_in(rows, filled, at, Row { key, value });
    Ok(at)
}

/// Gives the key's row another value, and answers whether the key has a row.
// A flag, as the library's sets answer an insertion by one: there is nothing to say beside it.
pub fn change<K: Key, V: Drop>(rows: &mut [Row<K, V>], key: &K, value: V) -> bool
    requires { rising K.order rows.old ≡ true }
    ensures answer { result ≡ is_some (lookup K.order rows.old key.now) }
    ensures after { rows.new ≡ changed K.order rows.old key.now value }
    ensures rises { rising K.order rows.new ≡ true }
{
    match find(rows, key) {
        Ok(at) => {
            rows[at].value = value;
            true
        }
        Err(_) => false,
    }
}

/// What an insertion and a change leave, and what is found then.
pub fn table_laws_hold<K: Key, V>() -> u8
    ensures { TableLaws K V K.order }
{
    0
}

// The first `count` items, or all where there are no more.
fn first<T>(items: &[T], count: usize) -> &[T]
    ensures { result.now ≡ take count items.now }
{
    items.get(..count).unwrap_or(items)
}

// Puts `item` in at `at`, among the first `count` items; those from there on move up by one.
fn put_in<T: Drop>(items: &mut [T], count: usize, at: usize, item: T)
    requires { (at ≤ count) × (count < length items.old) }
    ensures { items.new
        ≡ insert (take count items.old) at item ++ drop (count + 1) items.old }
{
    items[count] = item;
    items[at..count + 1].rotate_right(1);
}
