// A row of a table, and why one is not put in.

/// A key, and the value beside it.
#[derive(Clone, Copy, Drop)]
pub struct Row<K, V> {
    pub key: K,
    pub value: V,
}

/// Why a row is not put in.
#[derive(Clone, Copy, Debug, PartialEq, Eq)]
pub enum Refusal {
    /// The key has a row already, here.
    Present(usize),
    /// No row is free.
    Full,
}
