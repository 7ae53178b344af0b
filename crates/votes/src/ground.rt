// The grounds of an answer, and the blocker that one of them brings.
ghost use Rattle.std.specs.Prelude.{◌≡◌, Some};
ghost use Rattle.votes.specs.Grounds.{blocker_of, ground_byte, ground_words, holds_group};

use envelope::name::Name;
use std::fmt;

/// A set of groups: bit g is set for each group g in it.
#[derive(Clone, Copy, Debug, PartialEq, Eq)]
pub struct GroupSet {
    pub bits: u8,
}

impl GroupSet {
    /// Whether the group is in the set. Groups from 8 on are in none.
    pub fn contains(self, group: u8) -> bool
        ensures { result ≡ holds_group self.bits group }
    {
        group < 8 && (self.bits >> group) % 2 == 1
    }
}

/// A pending transaction because of which another one was declined, and the groups that it names.
#[derive(Clone, Copy)]
pub struct Blocker {
    pub name: Name,
    pub groups: GroupSet,
}

/// Why an answer is as it is.
#[derive(Clone, Copy)]
pub enum Ground {
    /// The transaction is pending, and the answer has its reads.
    Pending,
    /// Declined: a key of the group has no row.
    NoRow,
    /// Declined: a pending transaction conflicts with it.
    Blocked(Blocker),
    /// Declined: all places for pending transactions are taken.
    NoPlace,
    /// Declined: a compare is not equal.
    Unequal,
    /// Declined: abort was proposed before the body came.
    Proposed,
    /// The name was known already, and is not pending.
    Known,
}

impl From<Ground> for u8 {
    ghost from_gives = { λ g byte. byte ≡ ground_byte g };

    fn from(ground: Ground) -> u8 {
        match ground {
            Ground::Pending => 0,
            Ground::NoRow => 1,
            Ground::Blocked(_) => 2,
            Ground::NoPlace => 3,
            Ground::Unequal => 4,
            Ground::Proposed => 5,
            Ground::Known => 6,
        }
    }
}

impl fmt::Display for Ground {
    ghost output = { λ g. Some (ground_words g) };

    fn fmt<W: fmt::Write>(&self, f: &mut fmt::Formatter<W>) -> fmt::Result {
        f.write_str(match self {
            Ground::Pending => "pending",
            Ground::NoRow => "a key has no row",
            Ground::Blocked(_) => "a pending transaction conflicts",
            Ground::NoPlace => "no place is free",
            Ground::Unequal => "a compare is not equal",
            Ground::Proposed => "abort was proposed",
            Ground::Known => "known already",
        })
    }
}

impl Ground {
    /// The blocker that the ground brings.
    pub fn blocker(&self) -> Option<Blocker>
        ensures { result ≡ blocker_of self.now }
    {
        match *self {
            Ground::Blocked(blocker) => Some(blocker),
            _ => None,
        }
    }
}
