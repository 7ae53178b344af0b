// A lent buffer, and the place in it from which on the next bytes are written.
ghost use Rattle.std.specs.Prelude.{◌≡◌};
ghost use Rattle.octets.specs.Writers.{Room, Wrote};

use crate::put;

/// A lent buffer that is written from the front on.
#[derive(Drop)]
pub struct Writer<'a> {
    out: &'a mut [u8],
    at: usize,
}

impl<'a> Writer<'a> {
    /// A writer that begins at the front of `out`.
    pub fn new(out: &'a mut [u8]) -> Writer<'a>
        ensures same { result.out.ghost_name ≡ out.entry.ghost_name }
        ensures text { result.out.now ≡ out.old }
        ensures at { result.at ≡ 0 }
    {
        Writer { out, at: 0 }
    }

    /// Writes `source`. The caller has seen that it fits.
    pub fn put(&mut self, source: &[u8])
        requires { Room self.old source.now }
        ensures { Wrote self.old self.new source.now }
    {
        let Writer { out, at } = self;
        *at = put(out, *at, source);
    }

    /// How many bytes of the buffer are before the next.
    pub fn written(&self) -> usize
        ensures { result ≡ self.now.at }
    {
        self.at
    }
}
