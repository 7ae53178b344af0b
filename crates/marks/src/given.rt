// A mark as a value, from any scheme.
ghost use Rattle.marks.specs.Meaning.{GivesMark};

use crate::scheme::MarkScheme;
use votes::mark::{LARGEST_MARK, Mark};
use votes::statement::Statement;

/// A mark of the statement, or none where the replica that it names is spent.
pub fn give_mark<K: MarkScheme>(scheme: &mut K, statement: &Statement) -> Option<Mark>
    ensures { GivesMark K K.genuine K.spent K.leaves K.SIZE scheme.old scheme.new statement.now result }
{
    let mut buffer = [0; LARGEST_MARK];
    scheme.give(statement, &mut buffer).ok()?;
    Mark::new(&buffer[0..K::SIZE])
}
