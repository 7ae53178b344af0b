// Answers: the edges of each range, the blocker at its ground only, and what is written.
use std::alloc::{AllocError, Global};
use std::test::Fail;
use wire::WriteFault;
use wire::answer::reader::read_answer;
use wire::answer::writer::write_answer;

// An answer: the bytes of its vote, its state and its ground, how many bytes its mark has, how many reads it has and how
// many bytes follow them; and whether it is well formed.
#[derive(Clone, Copy)]
pub struct Case {
    fields: [u8; 3],
    pub width: u8,
    count: u8,
    end: u8,
    pub good: bool,
}

// A well-formed answer with these fields, a mark of 32 bytes, one read and no blocker.
fn answer(vote: u8, state: u8, byte: u8) -> Case {
    Case {
        fields: [vote, state, byte],
        width: 32,
        count: 1,
        end: 0,
        good: true,
    }
}

impl Case {
    fn mark(self, width: u8) -> Case {
        Case { width, ..self }
    }

    fn reads(self, count: u8) -> Case {
        Case { count, ..self }
    }

    fn end(self, end: u8) -> Case {
        Case { end, ..self }
    }

    fn malformed(self) -> Case {
        Case {
            good: false,
            ..self
        }
    }

    // The bytes of the answer.
    pub fn to_bytes(self, heap: Global) -> Result<Vec<u8>, AllocError> {
        let mut bytes = Vec::new(heap);
        let size = 40 + u16::from(self.width) + 8 * u16::from(self.count) + u16::from(self.end);
        bytes.extend_from_slice(&size.to_be_bytes())?;
        bytes.extend_from_slice(&[1, 4])?;
        bytes.extend_from_slice(&[7; 32])?;
        bytes.extend_from_slice(&[255, 254])?;
        bytes.extend_from_slice(&self.fields)?;
        bytes.extend_from_slice(&[9; 255][..usize::from(self.width)])?;
        bytes.push(self.count)?;
        for i in 0..self.count {
            bytes.extend_from_slice(&u64::from(i).to_be_bytes())?;
        }
        bytes.extend_from_slice(&[3; 255][..usize::from(self.end)])?;
        Ok(bytes)
    }
}

pub fn cases() -> [Case; 19] {
    [
        // the edges of the vote
        answer(0, 1, 0).malformed(),
        answer(1, 1, 0),
        answer(2, 1, 0),
        answer(3, 1, 0).malformed(),
        // the edges of the state
        answer(1, 0, 0).malformed(),
        answer(1, 4, 0),
        answer(1, 5, 0).malformed(),
        // the edges of the ground
        answer(1, 2, 6).reads(0),
        answer(1, 2, 7).reads(0).malformed(),
        // the edges of the count
        answer(1, 1, 0).reads(0),
        answer(1, 1, 0).reads(16),
        answer(1, 1, 0).reads(17).malformed(),
        // ground 2 with a blocker, without one, with one byte less and one more; ground 1 with one
        answer(2, 4, 2).mark(36).reads(0).end(33),
        answer(2, 4, 2).mark(36).reads(0).end(0).malformed(),
        answer(2, 4, 2).mark(36).reads(0).end(32).malformed(),
        answer(2, 4, 2).mark(36).reads(0).end(34).malformed(),
        answer(2, 4, 1).mark(36).reads(0).end(33).malformed(),
        // the largest answer, and a mark that is too large
        answer(1, 1, 2).mark(60).reads(16).end(33),
        answer(1, 1, 0).mark(61).reads(0).malformed(),
    ]
}

#[test]
fn answers_at_the_edges(rt: HostRuntime) -> Result<(), Fail> {
    for case in cases() {
        let message = case.to_bytes(rt.alloc())?;
        match read_answer(usize::from(case.width), message.as_slice()) {
            Ok(answer) => {
                assert!(rt; case.good);
                let mut out = [0xee; 300];
                let length = write_answer(&answer, &mut out)?;
                assert!(rt; length == message.len() && length < 300);
                assert!(rt; &out[0..length] == message.as_slice(), "the writing");
                assert!(rt; out[length] == 0xee, "what stands after it");
            }
            Err(fault) => {
                assert!(rt; !case.good);
                assert_eq!(rt; u8::from(fault), 10);
            }
        }
    }
    Ok(())
}

#[test]
fn a_blocker_has_its_groups(rt: HostRuntime) -> Result<(), Fail> {
    let message = answer(2, 4, 2)
        .mark(36)
        .reads(0)
        .end(33)
        .to_bytes(rt.alloc())?;
    let answer = read_answer(36, message.as_slice())?;
    let blocker = answer.ground.blocker().ok_or("no blocker")?;
    assert_eq!(rt; blocker.name.bytes, [3; 32]);
    assert!(rt; blocker.groups.contains(0) && blocker.groups.contains(1));
    assert!(rt; !blocker.groups.contains(2) && !blocker.groups.contains(8));
    let mut short = [0xee; 110];
    assert_eq!(rt;
        write_answer(&answer, &mut short),
        Err(WriteFault::ShortBuffer)
    );
    assert_eq!(rt; short, [0xee; 110]);
    Ok(())
}
