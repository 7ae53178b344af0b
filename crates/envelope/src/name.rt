// The name of a transaction.
ghost use Rattle.std.specs.Prelude.{◌≡◌, length};

use octets::fixed::Fixed;
use octets::writer::Writer;
use octets::written::Written;

/// The name of a transaction: SHA-256 of its body's bytes after the length.
#[derive(Clone, Copy, Debug, PartialEq, Eq, PartialOrd, Ord, Hash)]
pub struct Name {
    pub bytes: [u8; 32],
}

impl Written for Name {
    ghost text = { λ name. name.bytes };

    ghost most = { 32 };

    ghost fits = { λ name. length name.bytes ≡ 32 };

    fn size(&self) -> usize {
        self.bytes.len()
    }

    fn write(&self, writer: &mut Writer<'_>) {
        writer.put(&self.bytes);
    }
}

impl Fixed<32> for Name {
    ghost long = { λ _ fits. fits };

    fn from_bytes(bytes: &[u8; 32]) -> Name {
        Name { bytes: *bytes }
    }
}
