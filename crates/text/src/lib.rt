//! Text that the programs read and write: lines, and bytes in hexadecimal.

#![tactic(auto)]

pub mod digits;
pub mod line;
