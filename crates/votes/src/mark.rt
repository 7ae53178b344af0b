// A mark: what proves that a replica gave a vote.
ghost use Rattle.std.specs.Prelude.{◌≡◌, ◌≤◌, length};
ghost use Rattle.votes.specs.Marks.{MadeMark, largest_mark, mark_bytes};

use lists::BoundedList;

/// The most bytes that a mark has.
pub const LARGEST_MARK: usize = 60;

/// The bytes by which a replica proves a statement; how many depends on the mark scheme.
#[derive(Clone, Copy)]
pub struct Mark(BoundedList<u8, LARGEST_MARK>);

impl Mark {
    /// The mark of these bytes, unless they are too many.
    pub fn new(source: &[u8]) -> Option<Mark>
        ensures { MadeMark source.now result }
    {
        BoundedList::from_slice(0, source).map(Mark)
    }

    /// The bytes.
    pub fn as_slice(&self) -> &[u8]
        ensures value { result.now ≡ mark_bytes self.now }
        ensures few { length result.now ≤ largest_mark }
    {
        self.0.as_slice()
    }
}
