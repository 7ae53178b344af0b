// Values that were read: at most sixteen, with no allocation.
use lists::BoundedList;

/// The most values that an answer has: one for each operation of a body.
pub const MOST_VALUES: usize = 16;

/// At most sixteen values, in order.
pub type Values = BoundedList<u64, MOST_VALUES>;
