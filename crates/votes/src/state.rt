// The states of a transaction at a replica, as bytes and in words.
ghost use Rattle.std.specs.Prelude.{◌≡◌, Some, ok_or};
ghost use Rattle.envelope.specs.declared.fault.ReadFault.TheVariants.{Malformed};
ghost use Rattle.votes.specs.States.{state_byte, state_of, state_words};

use envelope::fault::ReadFault;
use std::fmt;

/// What a replica's book says of a transaction.
#[derive(Clone, Copy, Debug, PartialEq, Eq)]
pub enum State {
    /// Voted commit and not ended: it holds its locks.
    Pending = 1,
    Committed = 2,
    /// Voted commit, and ended by an abort.
    RolledBack = 3,
    /// Voted abort.
    Declined = 4,
}

impl TryFrom<u8> for State {
    type Error = ReadFault;

    ghost try_from_gives = { λ byte result. result ≡ ok_or (state_of byte) Malformed };

    fn try_from(byte: u8) -> Result<State, ReadFault> {
        match byte {
            1 => Ok(State::Pending),
            2 => Ok(State::Committed),
            3 => Ok(State::RolledBack),
            4 => Ok(State::Declined),
            _ => Err(ReadFault::Malformed),
        }
    }
}

impl From<State> for u8 {
    ghost from_gives = { λ state byte. byte ≡ state_byte state };

    fn from(state: State) -> u8 {
        state as u8
    }
}

impl fmt::Display for State {
    ghost output = { λ state. Some (state_words state) };

    fn fmt<W: fmt::Write>(&self, f: &mut fmt::Formatter<W>) -> fmt::Result {
        f.write_str(match self {
            State::Pending => "pending",
            State::Committed => "committed",
            State::RolledBack => "rolled back",
            State::Declined => "declined",
        })
    }
}
