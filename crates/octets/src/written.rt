// Things that are written as bytes, one after another into a lent buffer.
ghost use Rattle.std.specs.Prelude.{◌≡◌, ℕ, ◌*◌, ◌^◌, ◌<◌, ◌≤◌, List, length, IfSome};
ghost use Rattle.std.specs.List.{flat_map, AllByRecursion};
ghost use Rattle.octets.specs.Numbers.{Fits32, Fits64, bytes32, bytes64};
ghost use Rattle.octets.specs.Writers.{Room, Wrote, optional};

use crate::writer::Writer;

/// A thing that is written as bytes.
pub trait Written {
    /// The bytes.
    ghost text: { Self → List ℕ };

    /// The most bytes that there are.
    ghost most: { ℕ };

    /// What holds of every value, such as that its numbers are in their ranges.
    ghost fits: { Self → Type 0 };

    /// How many bytes it is written in.
    fn size(&self) -> usize
        ensures size { result ≡ length (text self.now) }
        ensures few { result ≤ most }
        ensures fits { fits self.now };

    /// Writes it. The caller has seen that it fits.
    fn write(&self, writer: &mut Writer<'_>)
        requires { Room writer.old (text self.now) }
        ensures { Wrote writer.old writer.new (text self.now) };
}

// `to_be_bytes` is each number type's own, and no trait of the library has it, so each type has its impl.
impl Written for u32 {
    ghost text = { bytes32 };

    ghost most = { 4 };

    ghost fits = { Fits32 };

    fn size(&self) -> usize {
        u32::to_be_bytes(*self).len()
    }

    fn write(&self, writer: &mut Writer<'_>) {
        writer.put(&u32::to_be_bytes(*self));
    }
}

impl Written for u64 {
    ghost text = { bytes64 };

    ghost most = { 8 };

    ghost fits = { Fits64 };

    fn size(&self) -> usize {
        u64::to_be_bytes(*self).len()
    }

    fn write(&self, writer: &mut Writer<'_>) {
        writer.put(&u64::to_be_bytes(*self));
    }
}

impl<T: Written> Written for Option<T> {
    ghost text = { optional T.text };

    ghost most = { T.most };

    ghost fits = { λ thing. IfSome thing T.fits };

    fn size(&self) -> usize {
        match self {
            Some(inner) => inner.size(),
            None => 0,
        }
    }

    fn write(&self, writer: &mut Writer<'_>) {
        if let Some(inner) = self {
            inner.write(writer);
        }
    }
}

/// How many bytes the things are written in, one after another. The caller has seen that this is surely a number of
/// 64 bits.
pub fn size_of_all<T: Written>(things: &[T]) -> usize
    requires { length things.now * T.most < 2 ^ 64 }
    ensures size { result ≡ length (flat_map T.text things.now) }
    ensures few { result ≤ length things.now * T.most }
    ensures fit { AllByRecursion T.fits things.now }
{
    // A loop: with `map` and `sum`, the bound of the sum and all three clauses were left to prove.
    let mut size = 0;
    for thing in things {
        size += thing.size();
    }
    size
}

/// Writes the things one after another. The caller has seen that they fit.
pub fn write_all<T: Written>(things: &[T], writer: &mut Writer<'_>)
    requires { Room writer.old (flat_map T.text things.now) }
    ensures { Wrote writer.old writer.new (flat_map T.text things.now) }
{
    for thing in things {
        thing.write(writer);
    }
}
