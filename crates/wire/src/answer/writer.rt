// Writes an answer.
ghost use Rattle.std.specs.Prelude.{◌≡◌, ⊤};
ghost use Rattle.envelope.specs.Formats.{write_after, write_answer};
ghost use Rattle.wire.specs.Answers.{answer_contents, answer_model, answer_text};

use crate::answer::Answer;
use envelope::fault::WriteFault;
use envelope::message::{Kind, write_message};
use octets::writer::Writer;
use octets::written::{Written, size_of_all, write_all};

// What follows the kind byte.
impl Written for Answer {
    ghost text = { λ answer. answer_contents (answer_model answer) };

    ghost most = { 259 };

    ghost fits = { λ _. ⊤ };

    fn size(&self) -> usize {
        let mark = self.mark.as_slice();
        let reads = self.reads.as_slice();
        self.name.size() + 6 + mark.len() + size_of_all(reads) + self.ground.blocker().size()
    }

    fn write(&self, writer: &mut Writer<'_>) {
        let vote = u8::from(self.vote);
        let state = u8::from(self.state);
        let ground = u8::from(self.ground);
        let reads = self.reads.as_slice();
        self.name.write(writer);
        writer.put(&[self.group, self.replica, vote, state, ground]);
        writer.put(self.mark.as_slice());
        writer.put(&[reads.len() as u8]);
        write_all(reads, writer);
        self.ground.blocker().write(writer);
    }
}

/// Writes the answer's one writing into `out` and answers its length, or refuses and leaves `out` as it was.
#[tactic(auto, unfolding(envelope::specs::Formats::written))]
pub fn write_answer(answer: &Answer, out: &mut [u8]) -> Result<usize, WriteFault>
    ensures answer { result ≡ write_answer (answer_text answer.now) out.old }
    ensures after { out.new ≡ write_after (answer_text answer.now) out.old }
{
    write_message(Kind::Answer, answer, out)
}
