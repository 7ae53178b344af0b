// Certificates and proposals: the edges of each range, the order of the entries, and what is written.
use std::alloc::{AllocError, Global};
use std::test::Fail;
use wire::certificate::reader::read_certificate;
use wire::certificate::writer::write_certificate;
use wire::proposal::{read_proposal, write_proposal};
use wire::{Name, WriteFault};

// A certificate: how many bytes its marks have, its vote byte, how many entries it has, the group of the first and the step
// to the next one's, each of replica 0; and whether it is well formed.
#[derive(Clone, Copy)]
pub struct Case {
    pub width: u8,
    vote: u8,
    count: u8,
    first: u8,
    step: u8,
    pub good: bool,
}

// A well-formed certificate with this vote, whose one entry is of group 0 and has a mark of 32 bytes.
fn certificate(vote: u8) -> Case {
    Case {
        width: 32,
        vote,
        count: 1,
        first: 0,
        step: 1,
        good: true,
    }
}

impl Case {
    fn marks(self, width: u8) -> Case {
        Case { width, ..self }
    }

    fn entries(self, count: u8) -> Case {
        Case { count, ..self }
    }

    fn groups(self, first: u8, step: u8) -> Case {
        Case {
            first,
            step,
            ..self
        }
    }

    fn malformed(self) -> Case {
        Case {
            good: false,
            ..self
        }
    }

    // The bytes of the certificate.
    pub fn to_bytes(self, heap: Global) -> Result<Vec<u8>, AllocError> {
        let mut bytes = Vec::new(heap);
        let entry = 2 + u16::from(self.width);
        let size = entry.wrapping_mul(u16::from(self.count)).wrapping_add(36);
        bytes.extend_from_slice(&size.to_be_bytes())?;
        bytes.extend_from_slice(&[1, 2])?;
        bytes.extend_from_slice(&[7; 32])?;
        bytes.extend_from_slice(&[self.vote, self.count])?;
        for i in 0..self.count {
            let group = self.first.wrapping_add(i.wrapping_mul(self.step));
            bytes.extend_from_slice(&[group, 0])?;
            bytes.extend_from_slice(&[9; 255][..usize::from(self.width)])?;
        }
        Ok(bytes)
    }
}

pub fn cases() -> [Case; 14] {
    [
        // the edges of the vote
        certificate(0).malformed(),
        certificate(1),
        certificate(2),
        certificate(3).malformed(),
        // the edges of the count
        certificate(1).entries(0).malformed(),
        certificate(1).entries(32),
        certificate(1).entries(33).malformed(),
        // entries that rise, are equal, fall
        certificate(2).marks(36).entries(2).groups(3, 1),
        certificate(2).marks(36).entries(2).groups(3, 0).malformed(),
        certificate(2)
            .marks(36)
            .entries(2)
            .groups(3, 255)
            .malformed(),
        // groups that no rig has
        certificate(2).marks(36).groups(255, 1),
        // the edges of a mark's length
        certificate(1).marks(1).entries(4),
        certificate(1).marks(60).entries(32),
        certificate(1).marks(61).malformed(),
    ]
}

#[test]
fn certificates_at_the_edges(rt: HostRuntime) -> Result<(), Fail> {
    for case in cases() {
        let message = case.to_bytes(rt.alloc())?;
        match read_certificate(usize::from(case.width), message.as_slice()) {
            Ok(certificate) => {
                assert!(rt; case.good);
                let mut out = [0xee; 2030];
                let length = write_certificate(&certificate, &mut out)?;
                assert!(rt; length == message.len() && length < 2030);
                assert!(rt; &out[0..length] == message.as_slice(), "the writing");
                assert!(rt; out[length] == 0xee, "what stands after it");
            }
            Err(fault) => {
                assert!(rt; !case.good);
                assert_eq!(rt; u8::from(fault), 10);
            }
        }
    }
    Ok(())
}

#[test]
fn the_largest_certificate(rt: HostRuntime) -> Result<(), Fail> {
    let message = certificate(1).marks(60).entries(32).to_bytes(rt.alloc())?;
    assert_eq!(rt; message.len(), 2022);
    let certificate = read_certificate(60, message.as_slice())?;
    assert_eq!(rt; certificate.entries().len(), 32);
    assert!(rt; read_certificate(59, message.as_slice()).is_err());
    let mut short = [0xee; 2021];
    assert_eq!(rt;
        write_certificate(&certificate, &mut short),
        Err(WriteFault::ShortBuffer)
    );
    assert_eq!(rt; short, [0xee; 2021]);
    Ok(())
}

#[test]
fn proposals(rt: HostRuntime) -> Result<(), Fail> {
    let name = Name { bytes: [5; 32] };
    let mut short = [0xee; 35];
    assert_eq!(rt;
        write_proposal(&name, &mut short),
        Err(WriteFault::ShortBuffer)
    );
    assert_eq!(rt; short, [0xee; 35]);
    let mut out = [0xee; 37];
    assert_eq!(rt; write_proposal(&name, &mut out), Ok(36));
    assert_eq!(rt; out[36], 0xee);
    assert_eq!(rt; read_proposal(&out[0..36])?.bytes, [5; 32]);
    assert!(rt; read_proposal(&out).is_err());
    assert!(rt; read_proposal(&out[0..35]).is_err());
    out[3] = 2;
    assert!(rt; read_proposal(&out[0..36]).is_err());
    Ok(())
}
