//! The naming call for the front end, which is written in C.

#![tactic(auto)]

ghost use Rattle.wire.specs.Export.{NamesBody};

/// Writes the name of the body `message` into `name` and answers 0, or writes nothing and answers 10.
#[unsafe(no_mangle)]
pub extern "C" fn club_register_name(message: &[u8], name: &mut [u8; 32]) -> u8
    ensures { NamesBody message.now name.old name.new result }
{
    wire::export::club_register_name(message, name)
}
