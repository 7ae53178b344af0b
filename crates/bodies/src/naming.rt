// The name of a transaction.
ghost use Rattle.std.specs.Prelude.{◌≡◌};
ghost use Rattle.bodies.specs.Naming.{name_of};

use digest::sha256;
use envelope::name::Name;

/// The name of the transaction whose body `message` is.
pub fn name_of(message: &[u8]) -> Name
    ensures { result.bytes ≡ name_of message.now }
{
    let bytes = match message {
        [_, _, rest @ ..] => sha256(rest),
        _ => sha256(&[]),
    };
    Name { bytes }
}
