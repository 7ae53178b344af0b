//! What bytes read as, as functions of the bytes, and that these functions say what the readers in code do.
//!
//! The readers' contracts say by a relation what bytes are the writing of. What is built on messages (a step, a tally,
//! whole runs) needs the same as functions: `body_of`, `certificate_of`, `proposal_of` and `answer_of`, and `parsed` for
//! whatever stands on a list. They are definitions in `specs/`; the functions here carry the theorems.

#![tactic(auto)]

ghost use Rattle.std.specs.Prelude.{ℕ};
ghost use Rattle.bodies.specs.Bodies.{body_format, body_model};
ghost use Rattle.wire.specs.Answers.{answer_format, answer_model};
ghost use Rattle.wire.specs.Certificates.{certificate_format, certificate_model};
ghost use Rattle.wire.specs.Proposals.{proposal_format, proposed};
ghost use Rattle.readings.specs.Answers.{answer_of};
ghost use Rattle.readings.specs.Bodies.{body_of};
ghost use Rattle.readings.specs.Certificates.{certificate_of};
ghost use Rattle.readings.specs.Kinds.{KindsApart};
ghost use Rattle.readings.specs.Messages.{ParsedIsSaid};
ghost use Rattle.readings.specs.Proposals.{proposal_of};
ghost use Rattle.readings.specs.Readings.{SameReading};

/// Bytes are read as a body by the function where they are by the relation, and so by every reader that meets it.
pub fn bodies_are_read() -> u8
    ensures { SameReading body_format body_model body_of }
{
    0
}

/// The same of certificates, whatever the length of their marks.
pub fn certificates_are_read() -> u8
    ensures { (width : ℕ) → SameReading (certificate_format width) certificate_model (certificate_of width) }
{
    0
}

/// The same of proposals.
pub fn proposals_are_read() -> u8
    ensures { SameReading proposal_format proposed proposal_of }
{
    0
}

/// The same of answers, whatever the length of their mark.
pub fn answers_are_read() -> u8
    ensures { (width : ℕ) → SameReading (answer_format width) answer_model (answer_of width) }
{
    0
}

/// Each kind is told by its kind byte, and bytes are read as a message of one kind at most.
pub fn kinds_are_apart() -> u8
    ensures { (width other : ℕ) → KindsApart width other }
{
    0
}

/// What stands on a list is parsed as what it is the writing of, and as `other` where that is no message for a replica.
pub fn messages_are_parsed() -> u8
    ensures { (width : ℕ) → ParsedIsSaid width }
{
    0
}
