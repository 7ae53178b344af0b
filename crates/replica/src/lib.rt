//! One replica: its rows, its book, its pending places, and its step on one message of its group's list.
//!
//! The step is an equation with a definition (`specs/Steps.antt`): for every message it pins the reply or the refusal,
//! and every row, every entry of the book and every pending place after it. Everything is allocated when the replica is
//! made, so a step cannot want memory.

#![tactic(auto)]

pub mod book;
mod certificate;
mod known;
pub mod make;
pub mod pending;
pub mod reply;
pub mod state;
pub mod step;
mod take;
#[cfg(test)]
mod tests;
