//! Tests that are many: the small input of each refusal, the edges of each range, worked examples, and messages that are
//! damaged in each byte.

#![tactic(auto)]

#[cfg(test)]
mod answers;
#[cfg(test)]
mod body_cases;
#[cfg(test)]
mod certificates;
#[cfg(test)]
mod damaged;
