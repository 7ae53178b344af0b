//! Mark schemes: what gives a mark for a replica's vote, and what checks one.
//!
//! A scheme means which bytes are genuine for which statement, which never changes, and which replicas are spent and get
//! no more marks. Code that uses a scheme is proved from that meaning alone. There are two schemes: stamps, for benches,
//! and seals, which are HMAC-SHA-256 under a key of the replica.

#![tactic(auto)]

pub mod equal;
pub mod fault;
pub mod given;
pub mod scheme;
pub mod seals;
pub mod stamps;
#[cfg(test)]
mod tests;
