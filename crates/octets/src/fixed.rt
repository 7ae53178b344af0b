// Things that are written in a fixed number of bytes, whatever these are.
ghost use Rattle.std.specs.Prelude.{◌≡◌, ◌^◌, ◌<◌, length, refl};
ghost use Rattle.octets.specs.Fronts.{Front};

use crate::written::Written;

/// A thing that is written in N bytes, and that any N bytes are the writing of.
pub trait Fixed<const N: usize>: Written {
    /// The thing that these bytes are the writing of.
    fn from_bytes(bytes: &[u8; N]) -> Self
        ensures fits { Self.fits result }
        ensures text { Self.text result ≡ bytes.now };

    ghost long: { (x : Self) → Self.fits x → length (Self.text x) ≡ N };
}

// `from_be_bytes` is each number type's own, and no trait of the library has it.
impl Fixed<4> for u32 {
    ghost long = { λ x f. refl };

    fn from_bytes(bytes: &[u8; 4]) -> u32 {
        u32::from_be_bytes(*bytes)
    }
}

impl Fixed<8> for u64 {
    ghost long = { λ x f. refl };

    fn from_bytes(bytes: &[u8; 8]) -> u64 {
        u64::from_be_bytes(*bytes)
    }
}

/// The thing of N bytes that `text` begins with, and what follows it.
pub fn read_fixed<const N: usize, T: Fixed<N>>(text: &[u8]) -> Option<(T, &[u8])>
    requires { N < 2 ^ 63 }
    ensures { Front T.fits T.text text.now result }
{
    let (bytes, rest) = text.split_first_chunk::<N>()?;
    Some((T::from_bytes(bytes), rest))
}
