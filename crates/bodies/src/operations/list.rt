// Whether two of the operations of a body write one key.
ghost use Rattle.std.specs.Prelude.{◌≡◌};
ghost use Rattle.bodies.specs.Operations.{is_alone, writes_apart, writes_key};

use crate::operation::Operation;

// Whether one of the operations writes the key.
fn writes_key(operations: &[Operation], sought: u32) -> bool
    ensures { result ≡ writes_key operations.now sought }
{
    operations
        .iter()
        .any(|operation| operation.writes_to(sought))
}

// Whether no later operation writes the key that this one writes.
fn is_alone(operation: &Operation, later: &[Operation]) -> bool
    ensures { result ≡ is_alone operation.now later.now }
{
    match *operation {
        Operation::Read { .. } | Operation::Compare { .. } => true,
        Operation::Write { key, .. } => !writes_key(later, key),
    }
}

/// Whether no key has two writes.
pub fn writes_apart(operations: &[Operation]) -> bool
    ensures { result ≡ writes_apart operations.now }
{
    match operations {
        [] => true,
        [first, later @ ..] => is_alone(first, later) && writes_apart(later),
    }
}
