// Votes, as bytes and in words.
ghost use Rattle.std.specs.Prelude.{◌≡◌, Some, ok_or};
ghost use Rattle.envelope.specs.declared.fault.ReadFault.TheVariants.{Malformed};
ghost use Rattle.votes.specs.Votes.{vote_byte, vote_of, vote_words};

use envelope::fault::ReadFault;
use std::fmt;

/// How a replica votes on a transaction.
#[derive(Clone, Copy, Debug, PartialEq, Eq)]
pub enum Vote {
    Commit = 1,
    Abort = 2,
}

impl TryFrom<u8> for Vote {
    type Error = ReadFault;

    ghost try_from_gives = { λ byte result. result ≡ ok_or (vote_of byte) Malformed };

    fn try_from(byte: u8) -> Result<Vote, ReadFault> {
        match byte {
            1 => Ok(Vote::Commit),
            2 => Ok(Vote::Abort),
            _ => Err(ReadFault::Malformed),
        }
    }
}

impl From<Vote> for u8 {
    ghost from_gives = { λ vote byte. byte ≡ vote_byte vote };

    fn from(vote: Vote) -> u8 {
        vote as u8
    }
}

impl fmt::Display for Vote {
    ghost output = { λ vote. Some (vote_words vote) };

    fn fmt<W: fmt::Write>(&self, f: &mut fmt::Formatter<W>) -> fmt::Result {
        f.write_str(match self {
            Vote::Commit => "commit",
            Vote::Abort => "abort",
        })
    }
}
