//! Votes and what goes with them: states, grounds, marks, statements, the entries of certificates, and the faults of a
//! delivery. Each is a type, with its bytes where it has any.

#![tactic(auto)]

pub mod entry;
pub mod fault;
pub mod ground;
pub mod mark;
pub mod state;
pub mod statement;
pub mod values;
pub mod vote;
pub mod writing;
