//! Numbers as big-endian bytes, bytes put into a part of a lent buffer, and things that are read and written as bytes.
//!
//! Every reader and writer of a format here is made of these, so the lemmas on one number's writing and on what a
//! write leaves alone are proved once, in this crate.

#![tactic(auto)]

pub mod fixed;
pub mod writer;
pub mod written;

ghost use Rattle.std.specs.Prelude.{◌≡◌, ◌+◌, ◌≤◌, length};
ghost use Rattle.octets.specs.Buffers.{overlaid};
ghost use Rattle.octets.specs.Numbers.{bytes64};

/// Writes `source` into `out` from `at` on, and answers where it ends. The caller has seen that it fits.
// The one write that `Writer` and single writes are made of: what writes more goes through a `Writer`.
pub fn put(out: &mut [u8], at: usize, source: &[u8]) -> usize
    requires { at + length source.now ≤ length out.old }
    ensures after { out.new ≡ overlaid out.old at source.now }
    ensures end { result ≡ at + length source.now }
{
    let end = at + source.len();
    out[at..end].copy_from_slice(source);
    end
}

/// Writes the eight bytes of `number` likewise.
pub fn put_u64(out: &mut [u8], at: usize, number: u64) -> usize
    requires { at + 8 ≤ length out.old }
    ensures after { out.new ≡ overlaid out.old at (bytes64 number) }
    ensures end { result ≡ at + 8 }
{
    put(out, at, &number.to_be_bytes())
}
