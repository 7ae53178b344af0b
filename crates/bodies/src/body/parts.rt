// A body by its parts.
ghost use Rattle.std.specs.Prelude.{◌≡◌, ◌≤◌, true, length};
ghost use Rattle.bodies.specs.Bodies.{Made, body_model, most_operations};
ghost use Rattle.bodies.specs.Operations.{writes_apart};

use crate::body::Body;
use crate::operation::Operation;
use crate::operations::list::writes_apart;
use crate::operations::{FILLER, Operations};
use envelope::fault::ReadFault;

impl Body {
    /// The body of these parts, unless there are no operations or over sixteen, or two of them write one key.
    pub fn new(nonce: u64, operations: &[Operation]) -> Result<Body, ReadFault>
        ensures { Made (record { nonce = nonce; operations = operations.now }) result }
    {
        match Operations::from_slice(FILLER, operations) {
            Some(list) if !operations.is_empty() && writes_apart(operations) => Ok(Body {
                nonce,
                operations: list,
            }),
            _ => Err(ReadFault::Malformed),
        }
    }

    /// The number that tells apart bodies of the same operations.
    pub fn nonce(&self) -> u64
        ensures { result ≡ (body_model self.now).nonce }
    {
        self.nonce
    }

    /// What the transaction does, in order.
    pub fn operations(&self) -> &[Operation]
        ensures value { result.now ≡ (body_model self.now).operations }
        ensures some { 1 ≤ length result.now }
        ensures few { length result.now ≤ most_operations }
        ensures apart { writes_apart result.now ≡ true }
    {
        self.operations.as_slice()
    }
}
