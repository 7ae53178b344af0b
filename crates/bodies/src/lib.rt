//! Bodies of transactions: a nonce, and one to sixteen operations that read, write or compare rows.
//!
//! A body has one writing. `read_body` answers the body exactly where the bytes are that writing; `write_body` writes it
//! into a lent buffer, or refuses and leaves the buffer as it was; `name_of` is the transaction's name.

#![tactic(auto)]

pub mod body;
pub mod naming;
pub mod operation;
mod operations;
