// Reads a body.
ghost use Rattle.std.specs.Prelude.{◌≤◌};
ghost use Rattle.bodies.specs.Bodies.{ReadsOperations, body_format, body_model, most_operations};
ghost use Rattle.envelope.specs.Formats.{OneWriting, Reads, ReadsContents, RoundTrip};

use crate::body::Body;
use crate::operation::read_operation;
use crate::operations::list::writes_apart;
use crate::operations::{FILLER, MOST_OPERATIONS, Operations};
use envelope::fault::ReadFault;
use envelope::many::read_many;
use envelope::message::{Kind, read_message};
use octets::fixed::read_fixed;

// The operations that `text` is, `count` of them and nothing after.
fn read_operations(count: u8, text: &[u8]) -> Option<Operations>
    requires { count ≤ most_operations }
    ensures { ReadsOperations count text.now result }
{
    let (operations, rest) = read_many(FILLER, count, text, read_operation)?;
    if rest.is_empty() {
        Some(operations)
    } else {
        None
    }
}

// The body that `text`, which follows the kind byte, is.
fn read_contents(text: &[u8]) -> Option<Body>
    ensures { ReadsContents body_format body_model text.now result }
{
    let (nonce, rest) = read_fixed(text)?;
    let [count, rest @ ..] = rest else {
        return None;
    };
    if *count < 1 || *count as usize > MOST_OPERATIONS {
        return None;
    }
    let operations = read_operations(*count, rest)?;
    if writes_apart(operations.as_slice()) {
        Some(Body { nonce, operations })
    } else {
        None
    }
}

/// The body that `bytes` is the writing of.
pub fn read_body(bytes: &[u8]) -> Result<Body, ReadFault>
    ensures { Reads body_format body_model bytes.now result }
{
    read_message(Kind::Body, bytes, read_contents)
}

/// Two different well-formed bodies never share a writing, and reading undoes writing.
pub fn body_has_one_writing() -> u8
    ensures one { OneWriting body_format }
    ensures back { RoundTrip body_format body_model }
{
    0
}
