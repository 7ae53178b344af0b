// Keys in the library's order, that of `Ord`.
ghost use Rattle.std.specs.Prelude.{◌≡◌, refl};
ghost use Rattle.std.specs.declared.cmp.Ordering.TheVariants.{Equal};
ghost use Rattle.table.specs.KeyOrders.{same_name, same_number};

use crate::key::Key;
use envelope::name::Name;

/// A kind of key whose order is that of `Ord`: code over every such kind may call `compare` or `cmp`.
pub trait OrderedKey: Key + Ord {
    // Only a key itself compares equal to it.
    ghost same: { (x : Self) → (y : Self) → Self.cmp x y ≡ Equal → x ≡ y };

    ghost by_cmp: { Self.order ≡ Self.cmp };
}

impl OrderedKey for u32 {
    ghost same = { same_number };

    ghost by_cmp = { refl };
}

impl OrderedKey for Name {
    ghost same = { same_name };

    ghost by_cmp = { refl };
}
