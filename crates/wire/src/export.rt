// What the front end, written in C, calls, by the crate `wire_c`.
ghost use Rattle.wire.specs.Export.{NamesBody};

use bodies::body::reader::read_body;
use bodies::naming::name_of;
use envelope::name::Name;

/// Writes the name of the body `message` into `name` and answers 0, or writes nothing and answers 10.
pub fn club_register_name(message: &[u8], name: &mut [u8; 32]) -> u8
    ensures { NamesBody message.now name.old name.new result }
{
    match read_body(message) {
        Ok(_) => {
            let Name { bytes } = name_of(message);
            *name = bytes;
            0
        }
        Err(fault) => fault.into(),
    }
}
