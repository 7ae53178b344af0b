//! The functions of FIPS 180-4 on 32-bit words, section 4.1.2.

ghost use Rattle.std.specs.Prelude.{◌≡◌};
ghost use Rattle.digest.specs.Words.{IsTurn, big_sigma, ch, maj, small_sigma};

/// Ch: each bit of `x` chooses between the bits of `y` and `z`.
pub fn choose(x: u32, y: u32, z: u32) -> u32
    ensures { result ≡ ch x y z }
{
    (x & y) ^ (!x & z)
}

/// Maj: each bit is that of at least two of the three.
pub fn majority(x: u32, y: u32, z: u32) -> u32
    ensures { result ≡ maj x y z }
{
    (x & y) ^ (x & z) ^ (y & z)
}

/// The function Σ of a round that rotates by `A`, `B` and `C` bits.
pub fn big_sigma<const A: u32, const B: u32, const C: u32>(x: u32) -> u32
    requires { IsTurn A × IsTurn B × IsTurn C }
    ensures { result ≡ big_sigma A B C x }
{
    x.rotate_right(A) ^ x.rotate_right(B) ^ x.rotate_right(C)
}

/// The function σ of the message schedule that rotates by `A` and `B` bits and shifts by `C`.
pub fn small_sigma<const A: u32, const B: u32, const C: u32>(x: u32) -> u32
    requires { IsTurn A × IsTurn B × IsTurn C }
    ensures { result ≡ small_sigma A B C x }
{
    x.rotate_right(A) ^ x.rotate_right(B) ^ (x >> C)
}
