//! The hash computation over the blocks of a message: FIPS 180-4, sections 4.2.2, 5.2.1 and 6.2.2.

ghost use Rattle.std.specs.Prelude.{◌≡◌, take};
ghost use Rattle.digest.specs.Block.{compress, hashed, round, rounds, schedule, sum, words};

use crate::words::{big_sigma, choose, majority, small_sigma};

/// Eight words: a hash value, or the working variables a to h within a block. The standard names them, and an array would
/// number them.
#[derive(Clone, Copy)]
pub struct State {
    pub a: u32,
    pub b: u32,
    pub c: u32,
    pub d: u32,
    pub e: u32,
    pub f: u32,
    pub g: u32,
    pub h: u32,
}

// The constants of the 64 rounds.
const ROUND_CONSTANTS: [u32; 64] = [
    0x428a2f98, 0x71374491, 0xb5c0fbcf, 0xe9b5dba5, 0x3956c25b, 0x59f111f1, 0x923f82a4, 0xab1c5ed5,
    0xd807aa98, 0x12835b01, 0x243185be, 0x550c7dc3, 0x72be5d74, 0x80deb1fe, 0x9bdc06a7, 0xc19bf174,
    0xe49b69c1, 0xefbe4786, 0x0fc19dc6, 0x240ca1cc, 0x2de92c6f, 0x4a7484aa, 0x5cb0a9dc, 0x76f988da,
    0x983e5152, 0xa831c66d, 0xb00327c8, 0xbf597fc7, 0xc6e00bf3, 0xd5a79147, 0x06ca6351, 0x14292967,
    0x27b70a85, 0x2e1b2138, 0x4d2c6dfc, 0x53380d13, 0x650a7354, 0x766a0abb, 0x81c2c92e, 0x92722c85,
    0xa2bfe8a1, 0xa81a664b, 0xc24b8b70, 0xc76c51a3, 0xd192e819, 0xd6990624, 0xf40e3585, 0x106aa070,
    0x19a4c116, 0x1e376c08, 0x2748774c, 0x34b0bcb5, 0x391c0cb3, 0x4ed8aa4a, 0x5b9cca4f, 0x682e6ff3,
    0x748f82ee, 0x78a5636f, 0x84c87814, 0x8cc70208, 0x90befffa, 0xa4506ceb, 0xbef9a3f7, 0xc67178f2,
];

// One round, with its constant `k` and its word `w` of the schedule.
fn round(s: State, k: u32, w: u32) -> State
    ensures { result ≡ round s k w }
{
    let t1 = s
        .h
        .wrapping_add(big_sigma::<6, 11, 25>(s.e))
        .wrapping_add(choose(s.e, s.f, s.g))
        .wrapping_add(k)
        .wrapping_add(w);
    let t2 = big_sigma::<2, 13, 22>(s.a).wrapping_add(majority(s.a, s.b, s.c));
    State {
        a: t1.wrapping_add(t2),
        b: s.a,
        c: s.b,
        d: s.c,
        e: s.d.wrapping_add(t1),
        f: s.e,
        g: s.f,
        h: s.g,
    }
}

// The sum of two states, word by word.
fn sum(s: State, t: State) -> State
    ensures { result ≡ sum s t }
{
    State {
        a: s.a.wrapping_add(t.a),
        b: s.b.wrapping_add(t.b),
        c: s.c.wrapping_add(t.c),
        d: s.d.wrapping_add(t.d),
        e: s.e.wrapping_add(t.e),
        f: s.f.wrapping_add(t.f),
        g: s.g.wrapping_add(t.g),
        h: s.h.wrapping_add(t.h),
    }
}

// A message schedule of which the first 16 words are made, those of the block. To make the 16 by `array::from_fn` and
// copy them here is slower by a fiftieth.
fn load(block: &[u8; 64]) -> [u32; 64]
    ensures { take 16 result ≡ words block.now }
{
    let mut w = [0; 64];
    for (i, bytes) in block.as_chunks::<4>().0.iter().enumerate() {
        w[i] = u32::from_be_bytes(*bytes);
    }
    w
}

// The message schedule of the block.
fn schedule(block: &[u8; 64]) -> [u32; 64]
    ensures { result ≡ schedule block.now }
{
    let mut w = load(block);
    // Each further word is made of four earlier ones, so the loop goes by an index.
    for t in 16..64 {
        let far = small_sigma::<7, 18, 3>(w[t - 15]);
        let near = small_sigma::<17, 19, 10>(w[t - 2]);
        w[t] = near
            .wrapping_add(w[t - 7])
            .wrapping_add(far)
            .wrapping_add(w[t - 16]);
    }
    w
}

// The working variables after the 64 rounds over the schedule `w`.
fn rounds(start: State, w: &[u32; 64]) -> State
    ensures { result ≡ rounds w.now start }
{
    let pairs = ROUND_CONSTANTS.iter().zip(w);
    pairs.fold(start, |s, (k, w)| round(s, *k, *w))
}

// The hash value after the block, from the hash value `s` before it.
fn compress(s: State, block: &[u8; 64]) -> State
    ensures { result ≡ compress s block.now }
{
    sum(s, rounds(s, &schedule(block)))
}

/// The hash value after the whole blocks of `bytes`; what is left over is not read.
pub fn hash_blocks(start: State, bytes: &[u8]) -> State
    ensures { result ≡ hashed start bytes.now }
{
    let (blocks, _) = bytes.as_chunks();
    blocks.iter().fold(start, |s, block| compress(s, block))
}
