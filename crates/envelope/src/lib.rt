//! What every message of the register has: the length, the version and the kind; names; and the faults of reading and
//! writing.
//!
//! A kind of message is a record of its kind byte, what is well formed and what is written after the kind byte
//! (`specs/Formats.antt`). What follows for each kind from its having one writing is proved here, once.

#![tactic(auto)]

pub mod fault;
pub mod many;
pub mod message;
pub mod name;
