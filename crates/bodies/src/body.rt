// The body of a transaction: a nonce, and one to sixteen operations of which no two write one key.
ghost use Rattle.std.specs.Prelude.{◌≡◌, ◌≤◌, true, length};
ghost use Rattle.bodies.specs.Operations.{writes_apart};
ghost use Rattle.lists.specs.Lists.{listed};

use crate::operations::Operations;

pub mod parts;
pub mod reader;
pub mod writer;

/// The body of a transaction. Every value of this type is well formed.
#[derive(Clone, Copy)]
pub struct Body {
    nonce: u64,
    operations: Operations,
    ghost some: { 1 ≤ length (listed operations) },
    ghost apart: { writes_apart (listed operations) ≡ true },
}
