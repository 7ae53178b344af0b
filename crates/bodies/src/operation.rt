// One operation of a transaction, and how it is read and written.
ghost use Rattle.std.specs.Prelude.{◌≡◌, ◌∷◌, ◌++◌};
ghost use Rattle.octets.specs.Fronts.{Front};
ghost use Rattle.octets.specs.Numbers.{bytes64};
ghost use Rattle.octets.specs.Writers.{optional};
ghost use Rattle.bodies.specs.Operations.{OperationFits, is_read, is_write, key_bytes, key_of, operation_bytes, writes_to};

use octets::fixed::read_fixed;
use octets::writer::Writer;
use octets::written::Written;

/// What a transaction does to one key.
#[derive(Clone, Copy, Debug, PartialEq, Eq)]
pub enum Operation {
    /// Answers the value of the key.
    Read { key: u32 },
    /// Gives the key a value when the transaction commits.
    Write { key: u32, value: u64 },
    /// Declines the transaction unless the key has this value.
    Compare { key: u32, value: u64 },
}

impl Operation {
    /// The key that it is at.
    pub fn key(&self) -> u32
        ensures { result ≡ key_of self.now }
    {
        match *self {
            Operation::Read { key }
            | Operation::Write { key, .. }
            | Operation::Compare { key, .. } => key,
        }
    }

    /// Whether it is a read.
    pub fn is_read(&self) -> bool
        ensures { result ≡ is_read self.now }
    {
        matches!(self, Operation::Read { .. })
    }

    /// Whether it is a write.
    pub fn is_write(&self) -> bool
        ensures { result ≡ is_write self.now }
    {
        matches!(self, Operation::Write { .. })
    }

    // Whether it writes the key.
    pub(crate) fn writes_to(&self, sought: u32) -> bool
        ensures { result ≡ writes_to self.now sought }
    {
        matches!(self, Operation::Write { key, .. } if *key == sought)
    }

    // The code, the key and, but for a read, the value. The codes are those of `read_operation`: an enum of them would
    // only name the variants again.
    fn parts(&self) -> (u8, u32, Option<u64>)
        ensures { operation_bytes self.now ≡ result.0 ∷ (key_bytes result.1 ++ optional bytes64 result.2) }
    {
        match *self {
            Operation::Read { key } => (1, key, None),
            Operation::Write { key, value } => (2, key, Some(value)),
            Operation::Compare { key, value } => (3, key, Some(value)),
        }
    }
}

// The operation that `text` begins with, and what follows it.
pub(crate) fn read_operation(text: &[u8]) -> Option<(Operation, &[u8])>
    ensures { Front OperationFits operation_bytes text.now result }
{
    let [code, rest @ ..] = text else {
        return None;
    };
    let (key, rest) = read_fixed(rest)?;
    if *code == 1 {
        return Some((Operation::Read { key }, rest));
    }
    let (value, rest) = read_fixed(rest)?;
    match *code {
        2 => Some((Operation::Write { key, value }, rest)),
        3 => Some((Operation::Compare { key, value }, rest)),
        _ => None,
    }
}

impl Written for Operation {
    ghost text = { operation_bytes };

    ghost most = { 13 };

    ghost fits = { OperationFits };

    fn size(&self) -> usize {
        match self {
            Operation::Read { key } => 1 + key.size(),
            Operation::Write { key, value } | Operation::Compare { key, value } => {
                1 + key.size() + value.size()
            }
        }
    }

    fn write(&self, writer: &mut Writer<'_>) {
        let (code, key, value) = self.parts();
        writer.put(&[code]);
        key.write(writer);
        value.write(writer);
    }
}
