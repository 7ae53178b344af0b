//! The operations of a transaction, seen from one group: which groups it names, which keys it locks, and what it does to
//! rows.
//!
//! A group keeps the keys that are its number modulo the number of groups. A transaction locks every key that it names:
//! two conflict in a group where both name one of its keys and at least one of them writes it. Only keys of the group are
//! looked at, but for the groups that a transaction names.

#![tactic(auto)]

pub mod conflict;
pub mod groups;
pub mod partition;
pub mod rows;
