//! A message from its first block to its digest: FIPS 180-4, sections 5.1.1, 5.3.3 and 6.2.

ghost use Rattle.std.specs.Prelude.{◌≡◌, ◌+◌, ◌-◌, ◌%◌, ◌^◌, ◌<◌, ◌++◌, length};
ghost use Rattle.digest.specs.Block.{hashed};
ghost use Rattle.digest.specs.Hash.{bytes_of, padding};

use crate::block::{State, hash_blocks};
use octets::{put, put_u64};

/// The initial hash value.
pub const INITIAL: State = State {
    a: 0x6a09e667,
    b: 0xbb67ae85,
    c: 0x3c6ef372,
    d: 0xa54ff53a,
    e: 0x510e527f,
    f: 0x9b05688c,
    g: 0x1f83d9ab,
    h: 0x5be0cd19,
};

// The digest that a hash value stands for.
fn to_bytes(s: State) -> [u8; 32]
    ensures { result ≡ bytes_of s }
{
    let words = [s.a, s.b, s.c, s.d, s.e, s.f, s.g, s.h];
    let mut out = [0; 32];
    out.copy_from_slice(words.map(u32::to_be_bytes).as_flattened());
    out
}

// How long `rest` bytes are with their padding, which is nine bytes and zeros up to the end of a block.
fn padded_len(rest: usize) -> usize
    requires { rest < 64 }
    ensures { result ≡ rest + 9 + (119 - rest) % 64 }
{
    if rest < 56 { 64 } else { 128 }
}

// The last one or two blocks of a padded message of `total` bytes, written into `room`: `rest`, what the whole blocks
// leave over, and the padding.
fn pad<'a>(rest: &[u8], total: u64, room: &'a mut [u8; 128]) -> &'a [u8]
    requires { length rest.now ≡ total % 64 }
    ensures { result.now ≡ rest.now ++ padding total }
{
    let n = rest.len();
    let len = padded_len(n);
    *room = [0; 128];
    put(room, 0, rest);
    room[n] = 0x80;
    put_u64(room, len - 8, total.wrapping_mul(8));
    &room[..len]
}

/// The digest of a message, from the hash value after its first `before` bytes and the rest of the message.
pub fn finish(s: State, before: u64, rest: &[u8]) -> [u8; 32]
    requires { (before % 64 ≡ 0) × (before < 2 ^ 62) }
    ensures { result ≡ bytes_of (hashed s (rest.now ++ padding (before + length rest.now))) }
{
    let (_, left) = rest.as_chunks::<64>();
    let mut room = [0; 128];
    let last = pad(left, before + rest.len() as u64, &mut room);
    to_bytes(hash_blocks(hash_blocks(s, rest), last))
}
