// What every message has: its length, the version, a kind and the rest.
ghost use Rattle.std.specs.Prelude.{◌≡◌, ◌+◌, ◌*◌, ◌≤◌, ◌&&◌, length, ◌==◌, nat_le};
ghost use Rattle.std.specs.Fn.{FnOnceReturnsAt};
ghost use Rattle.octets.specs.Buffers.{overlaid};
ghost use Rattle.octets.specs.Writers.{Room, Wrote};
ghost use Rattle.envelope.specs.Formats.{Opened, write_after, write_answer};
ghost use Rattle.envelope.specs.Kinds.{kind_byte};
ghost use Rattle.envelope.specs.Messages.{header, largest_message, message};

use crate::fault::{ReadFault, WriteFault};
use octets::put;
use octets::writer::Writer;
use octets::written::Written;

/// The most bytes that a message has.
pub const LARGEST_MESSAGE: usize = 2048;

/// The bytes of a message before what its kind brings: two for the length, the version and the kind.
pub const HEADER_SIZE: usize = 4;

/// The one version of the formats.
pub const VERSION: u8 = 1;

/// The four kinds of message, each with its byte.
#[derive(Clone, Copy, Debug, PartialEq, Eq)]
pub enum Kind {
    Body = 1,
    Certificate = 2,
    Proposal = 3,
    Answer = 4,
}

impl From<Kind> for u8 {
    ghost from_gives = { λ kind byte. byte ≡ kind_byte kind };

    fn from(kind: Kind) -> u8 {
        kind as u8
    }
}

/// Whether a message of this length and kind, with this rest, is one of the kind that is sought and not too long.
pub fn is_message(sought: u8, high: u8, low: u8, kind: u8, rest: &[u8]) -> bool
    ensures { result ≡ (kind == sought && (nat_le (length rest.now + 4) largest_message && high * 256 + low == length rest.now + 2)) }
{
    kind == sought
        && rest.len() <= LARGEST_MESSAGE - HEADER_SIZE
        && u16::from_be_bytes([high, low]) as usize == rest.len() + 2
}

/// The message of this kind that `bytes` is the writing of, by what reads its contents.
#[tactic(auto, unfolding(crate::specs::Formats::Opened))]
pub fn read_message<T, F: FnOnce(&[u8]) -> Option<T>>(
    kind: Kind,
    bytes: &[u8],
    contents: F,
) -> Result<T, ReadFault>
    requires { F.IsAlwaysCallable contents }
    ensures { Opened (kind_byte kind) (FnOnceReturnsAt F.FnOnce contents) bytes.now result }
{
    let [high, low, 1, byte, rest @ ..] = bytes else {
        return Err(ReadFault::Malformed);
    };
    if !is_message(kind.into(), *high, *low, *byte, rest) {
        return Err(ReadFault::Malformed);
    }
    // A match: with `ok_or` a message is copied once more.
    match contents(rest) {
        Some(message) => Ok(message),
        None => Err(ReadFault::Malformed),
    }
}

// The first four bytes of a message whose kind brings `size` bytes.
fn header_bytes(kind: u8, size: usize) -> [u8; HEADER_SIZE]
    requires { size + 4 ≤ largest_message }
    ensures { result ≡ header kind size }
{
    let [high, low] = (size as u16 + 2).to_be_bytes();
    [high, low, VERSION, kind]
}

/// Writes the first four bytes of a message whose kind brings `size` bytes, and answers where they end.
pub fn write_header(out: &mut [u8], kind: u8, size: usize) -> usize
    requires { (4 ≤ length out.old) × (size + 4 ≤ largest_message) }
    ensures after { out.new ≡ overlaid out.old 0 (header kind size) }
    ensures end { result ≡ 4 }
{
    put(out, 0, &header_bytes(kind, size))
}

// Writes them at the writer's place.
fn put_header(writer: &mut Writer<'_>, kind: Kind, size: usize)
    requires room { Room writer.old (header (kind_byte kind) size) }
    requires short { size + 4 ≤ largest_message }
    ensures { Wrote writer.old writer.new (header (kind_byte kind) size) }
{
    writer.put(&header_bytes(kind.into(), size));
}

/// Writes the message of this kind and these contents into `out` and answers its length, or refuses and leaves `out` as
/// it was. The caller has seen that no such message is too long.
pub fn write_message<T: Written>(
    kind: Kind,
    contents: &T,
    out: &mut [u8],
) -> Result<usize, WriteFault>
    requires { T.most + 4 ≤ largest_message }
    ensures answer { result ≡ write_answer (message (kind_byte kind) (T.text contents.now)) out.old }
    ensures after { out.new ≡ write_after (message (kind_byte kind) (T.text contents.now)) out.old }
    ensures fits { T.fits contents.now }
{
    let size = contents.size();
    if out.len() < HEADER_SIZE + size {
        return Err(WriteFault::ShortBuffer);
    }
    let mut writer = Writer::new(out);
    put_header(&mut writer, kind, size);
    contents.write(&mut writer);
    Ok(writer.written())
}
