// The sizes of a group.

/// How many replicas each group has, and how many of them may be faulty.
#[derive(Clone, Copy, Debug, PartialEq, Eq)]
pub struct Tolerance {
    pub replicas: u8,
    pub faults: u8,
}
