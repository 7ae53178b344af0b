// As many things as a count says, one after another.
ghost use Rattle.std.specs.Prelude.{◌≤◌};
ghost use Rattle.std.specs.Fn.{FnReturnsAt};
ghost use Rattle.envelope.specs.Many.{ReadsMany};

use lists::BoundedList;

/// The `count` things that `text` begins with, by what reads the first of them, and what follows them. The caller has
/// seen that the list has space for as many.
pub fn read_many<T: Copy, const N: usize, F: Fn(&[u8]) -> Option<(T, &[u8])>>(
    filler: T,
    count: u8,
    text: &[u8],
    read_one: F,
) -> Option<(BoundedList<T, N>, &[u8])>
    requires callable { F.IsAlwaysCallable read_one }
    requires few { count ≤ N }
    ensures { ReadsMany count (FnReturnsAt F.Fn read_one) text.now result }
{
    let mut things = BoundedList::new(filler);
    let mut rest = text;
    for _ in 0..count {
        let (thing, after) = read_one(rest)?;
        things.push(thing);
        rest = after;
    }
    Some((things, rest))
}
