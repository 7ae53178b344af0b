// Why no mark is given.
ghost use Rattle.std.specs.Prelude.{◌≡◌};
ghost use Rattle.marks.specs.Faults.{give_number};

/// Why no mark is given.
#[derive(Clone, Copy, Debug, PartialEq, Eq)]
pub enum GiveFault {
    /// The output buffer is too short.
    ShortBuffer = 8,
    /// The replica gets no more marks.
    Spent = 16,
}

impl From<GiveFault> for u8 {
    // The number in the table of refusals.
    ghost from_gives = { λ fault number. number ≡ give_number fault };

    fn from(fault: GiveFault) -> u8 {
        fault as u8
    }
}
