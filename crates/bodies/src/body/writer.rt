// Writes a body.
ghost use Rattle.std.specs.Prelude.{◌≡◌};
ghost use Rattle.bodies.specs.Bodies.{BodyFits, body_contents, body_format, body_model};
ghost use Rattle.envelope.specs.Formats.{write_after, write_answer, written};

use crate::body::Body;
use envelope::fault::WriteFault;
use envelope::message::{Kind, write_message};
use octets::writer::Writer;
use octets::written::{Written, size_of_all, write_all};

// What follows the kind byte.
impl Written for Body {
    ghost text = { λ body. body_contents (body_model body) };

    ghost most = { 217 };

    ghost fits = { λ body. BodyFits (body_model body) };

    fn size(&self) -> usize {
        self.nonce.size() + 1 + size_of_all(self.operations())
    }

    fn write(&self, writer: &mut Writer<'_>) {
        let operations = self.operations();
        self.nonce.write(writer);
        writer.put(&[operations.len() as u8]);
        write_all(operations, writer);
    }
}

/// Writes the body's one writing into `out` and answers its length, or refuses and leaves `out` as it was.
#[tactic(auto, unfolding(envelope::specs::Formats::written))]
pub fn write_body(body: &Body, out: &mut [u8]) -> Result<usize, WriteFault>
    ensures answer { result ≡ write_answer (written body_format (body_model body.now)) out.old }
    ensures after { out.new ≡ write_after (written body_format (body_model body.now)) out.old }
    ensures fits { BodyFits (body_model body.now) }
{
    write_message(Kind::Body, body, out)
}
