// Why bytes are refused, or a buffer is. Each fault has its number in the register's table of refusals.
ghost use Rattle.std.specs.Prelude.{◌≡◌, Some};
ghost use Rattle.envelope.specs.Faults.{read_number, read_words, write_number};

use std::fmt;

/// What a reader refuses.
#[derive(Clone, Copy, Debug, PartialEq, Eq)]
pub enum ReadFault {
    /// The bytes are no message of the kind, or the parts make none.
    Malformed = 10,
}

/// What a writer refuses.
#[derive(Clone, Copy, Debug, PartialEq, Eq)]
pub enum WriteFault {
    /// The output buffer is too short.
    ShortBuffer = 8,
}

impl From<ReadFault> for u8 {
    // The number in the table of refusals.
    ghost from_gives = { λ fault number. number ≡ read_number fault };

    fn from(fault: ReadFault) -> u8 {
        fault as u8
    }
}

impl From<WriteFault> for u8 {
    // The number in the table of refusals.
    ghost from_gives = { λ fault number. number ≡ write_number fault };

    fn from(fault: WriteFault) -> u8 {
        fault as u8
    }
}

impl fmt::Display for ReadFault {
    ghost output = { λ fault. Some (read_words fault) };

    fn fmt<W: fmt::Write>(&self, f: &mut fmt::Formatter<W>) -> fmt::Result {
        f.write_str(match self {
            ReadFault::Malformed => "malformed",
        })
    }
}
