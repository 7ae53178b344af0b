// A list of at most sixteen operations, with no allocation.
use crate::operation::Operation;
use lists::BoundedList;

pub mod list;

/// The most operations that a body has.
pub const MOST_OPERATIONS: usize = 16;

/// At most sixteen operations, in order.
pub type Operations = BoundedList<Operation, MOST_OPERATIONS>;

/// What stands in the places that a list of operations does not use.
pub const FILLER: Operation = Operation::Read { key: 0 };
