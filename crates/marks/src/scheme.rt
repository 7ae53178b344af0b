// What a mark scheme is.
ghost use Rattle.std.specs.Prelude.{◌≡◌, ℕ, ◌≤◌, Bool, List};
ghost use Rattle.marks.specs.Meaning.{Gives};
ghost use Rattle.votes.specs.Marks.{largest_mark};
ghost use Rattle.votes.specs.declared.statement.Statement.{Statement as Stated};

use crate::fault::GiveFault;
use votes::statement::Statement;

/// Gives marks for the statements of replicas, and checks marks.
pub trait MarkScheme {
    /// How many bytes a mark has.
    const SIZE: usize;

    // The same number in clauses.
    ghost SIZE: { ℕ };

    // Whether these bytes are a genuine mark of the statement. No call changes this.
    ghost genuine: { Self → Stated → List ℕ → Bool };

    // Whether a replica of a group gets no more marks.
    ghost spent: { Self → ℕ → ℕ → Bool };

    // What is left of the scheme by a mark of a statement: each kind of scheme's own.
    ghost leaves: { Self → Stated → Self → Type 0 };

    /// Writes a mark of the statement, for the replica that it names, at the front of `out`; or refuses and changes
    /// nothing.
    fn give(&mut self, statement: &Statement, out: &mut [u8]) -> Result<(), GiveFault>
        ensures { Gives Self genuine spent leaves SIZE self.old self.new statement.now out.old out.new result };

    /// Whether `mark` is genuine for the statement.
    fn check(&self, statement: &Statement, mark: &[u8]) -> bool
        ensures { result ≡ genuine self.now statement.now mark.now };

    ghost sized: { (1 ≤ SIZE) × (SIZE ≤ largest_mark) };
}
