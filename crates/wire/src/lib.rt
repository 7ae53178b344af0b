//! The messages of the register: what they are, how each is written, and which bytes are read as one.
//!
//! A message has one writing. A reader answers the message exactly where the bytes are that writing; a writer writes it
//! into a lent buffer, or refuses and leaves the buffer as it was. Bodies are in the crate `bodies`, votes and marks in
//! `votes`, and what all messages share in `envelope`; what users need of them is found here too.

#![tactic(auto)]

pub mod answer;
pub mod certificate;
pub mod export;
mod field;
pub mod proposal;

pub use bodies::body::Body;
pub use bodies::body::reader::read_body;
pub use bodies::body::writer::write_body;
pub use bodies::naming::name_of;
pub use bodies::operation::Operation;
pub use envelope::fault::{ReadFault, WriteFault};
pub use envelope::name::Name;
pub use votes::entry::{Entries, Entry};
pub use votes::fault::{CertificateFault, DeliveryFault};
pub use votes::ground::{Blocker, Ground, GroupSet};
pub use votes::mark::Mark;
pub use votes::state::State;
pub use votes::statement::Statement;
pub use votes::values::Values;
pub use votes::vote::Vote;
