//! The safety and the progress of a register that is kept by groups of replicas, some of them faulty.

#![tactic(auto)]

ghost use Rattle.protocol.specs.Kinds.{kinds};
ghost use Rattle.protocol.specs.Agreement.{Agreement};
ghost use Rattle.protocol.specs.Order.{Order};
ghost use Rattle.protocol.specs.Ending.{Ending};
ghost use Rattle.protocol.specs.Moves.{PostedIsPassed, MovesCanBeMade};
ghost use Rattle.protocol.specs.Folds.{FoldsAreLawful};
ghost use Rattle.protocol.specs.SmallStep.{SmallStepKeepsLaws};
ghost use Rattle.protocol.specs.SmallTally.{SmallTallyKeepsLaws};
ghost use Rattle.protocol.specs.TallyExample.{TallyExample};
ghost use Rattle.protocol.specs.Example.{ExampleRun, ExampleEnds};

/// What one honest replica has committed, no other has declined or rolled back.
pub fn honest_replicas_agree<Name, Key, Message, Mark>() -> u8
    ensures { Agreement (kinds Name Key Message Mark) }
{
    0
}

/// One order of all that is committed explains what every honest replica has seen and holds.
pub fn commits_have_one_order<Name, Key, Message, Mark>() -> u8
    ensures { Order (kinds Name Key Message Mark) }
{
    0
}

/// What is pending at an honest replica ends at all, by a proposal to abort, a tally and its certificate.
pub fn pending_ends<Name, Key, Message, Mark>() -> u8
    ensures { Ending (kinds Name Key Message Mark) }
{
    0
}

/// These moves can be made from any moment on, under the same assumptions.
pub fn moves_can_be_made<Name, Key, Message, Mark>() -> u8
    ensures { MovesCanBeMade (kinds Name Key Message Mark) }
{
    0
}

/// Whatever else happens, a posted message is passed after so many deliveries as messages wait.
pub fn posted_is_passed<Name, Key, Message, Mark>() -> u8
    ensures { PostedIsPassed (kinds Name Key Message Mark) }
{
    0
}

/// A system whose replicas fold a lawful step over their messages keeps the laws.
pub fn folds_are_lawful<Name, Key, Message, Mark, State>() -> u8
    ensures { FoldsAreLawful (kinds Name Key Message Mark) State }
{
    0
}

/// For example, a small step keeps the laws.
pub fn small_step_keeps_laws() -> u8
    ensures { SmallStepKeepsLaws }
{
    0
}

/// And a small tally keeps those of a tally.
pub fn small_tally_keeps_laws() -> u8
    ensures { SmallTallyKeepsLaws }
{
    0
}

/// What that tally says and writes, on some answers.
pub fn small_tally_counts() -> u8
    ensures { TallyExample }
{
    0
}

/// In a run of that step under the assumptions, one transaction over two groups is committed, another rolled back.
pub fn example_commits_and_rolls_back() -> u8
    ensures { ExampleRun }
{
    0
}

/// From the middle of that run, the moves that end what is pending can be made.
pub fn example_can_be_ended() -> u8
    ensures { ExampleEnds }
{
    0
}
