// Entries of a certificate: at most 32, with no allocation.
use crate::mark::Mark;
use lists::BoundedList;

pub mod list;

/// The most entries that a certificate has.
pub const MOST_ENTRIES: usize = 32;

/// One replica's mark.
#[derive(Clone, Copy)]
pub struct Entry {
    pub group: u8,
    pub replica: u8,
    pub mark: Mark,
}

/// At most 32 entries, in order.
pub type Entries = BoundedList<Entry, MOST_ENTRIES>;
