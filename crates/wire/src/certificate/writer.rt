// Writes a certificate.
ghost use Rattle.std.specs.Prelude.{◌≡◌, ⊤};
ghost use Rattle.envelope.specs.Formats.{write_after, write_answer};
ghost use Rattle.wire.specs.Certificates.{certificate_contents, certificate_model, certificate_text};

use crate::certificate::Certificate;
use envelope::fault::WriteFault;
use envelope::message::{Kind, write_message};
use octets::writer::Writer;
use octets::written::{Written, size_of_all, write_all};

// What follows the kind byte.
impl Written for Certificate {
    ghost text = { λ certificate. certificate_contents (certificate_model certificate) };

    ghost most = { 2018 };

    ghost fits = { λ _. ⊤ };

    fn size(&self) -> usize {
        self.name.size() + 2 + size_of_all(self.entries())
    }

    fn write(&self, writer: &mut Writer<'_>) {
        let entries = self.entries();
        self.name.write(writer);
        writer.put(&[u8::from(self.vote), entries.len() as u8]);
        write_all(entries, writer);
    }
}

/// Writes the certificate's one writing into `out` and answers its length, or refuses and leaves `out` as it was.
#[tactic(auto, unfolding(envelope::specs::Formats::written))]
pub fn write_certificate(certificate: &Certificate, out: &mut [u8]) -> Result<usize, WriteFault>
    ensures answer { result ≡ write_answer (certificate_text certificate.now) out.old }
    ensures after { out.new ≡ write_after (certificate_text certificate.now) out.old }
{
    write_message(Kind::Certificate, certificate, out)
}
