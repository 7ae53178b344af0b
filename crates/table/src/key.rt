// Kinds of keys: what has a total order.
ghost use Rattle.std.specs.Prelude.{◌≡◌};
ghost use Rattle.std.specs.declared.cmp.Ordering.{Ordering as Compared};
ghost use Rattle.table.specs.Orders.{Laws, by_bytes, by_number};
ghost use Rattle.table.specs.KeyOrders.{names, numbers};

use envelope::name::Name;
use std::cmp::Ordering;

/// A kind of key.
pub trait Key {
    // How two keys compare.
    ghost order: { Self → Self → Compared };

    /// How this key compares with the other.
    fn compare(&self, other: &Self) -> Ordering
        ensures { result ≡ order self.now other.now };

    ghost total: { Laws order };
}

/// Numbers, by their size.
impl Key for u32 {
    ghost order = { by_number };

    ghost total = { numbers };

    fn compare(&self, other: &u32) -> Ordering {
        self.cmp(other)
    }
}

/// Names, by their bytes, the first byte first.
impl Key for Name {
    ghost order = { by_bytes };

    ghost total = { names };

    fn compare(&self, other: &Name) -> Ordering {
        self.bytes.cmp(&other.bytes)
    }
}

/// What the library's orders of the two kinds of keys are.
pub fn orders_hold() -> u8
    ensures numbers { ⟦<u32 as Ord>⟧.cmp ≡ by_number }
    ensures names { ⟦<Name as Ord>⟧.cmp ≡ by_bytes }
{
    0
}
