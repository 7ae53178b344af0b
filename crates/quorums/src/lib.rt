//! Certificates, judged: whether one has the entries that its transaction and its vote ask for, and whether its marks are
//! genuine.
//!
//! A commit needs the marks of f + 1 replicas of each group that the transaction names, and of no other group; an abort
//! those of f + 1 replicas of one such group.

#![tactic(auto)]

pub mod genuine;
pub mod shape;
pub mod tolerance;
