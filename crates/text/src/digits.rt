// Bytes in hexadecimal, two digits for each.
ghost use Rattle.std.specs.Prelude.{◌≡◌, IfOk, Some, vec_items};
ghost use Rattle.std.specs.List.{flat_map};
ghost use Rattle.std.specs.Option.{option_map};
ghost use Rattle.text.specs.Hex.{decoded, digit_value, two_digits};

use std::alloc::{AllocError, Global};
use std::fmt;

// The value of a digit, of either case.
fn digit_value(digit: u8) -> Option<u8>
    ensures { result ≡ digit_value digit }
{
    match digit {
        b'0'..=b'9' => Some(digit - b'0'),
        b'a'..=b'f' => Some(digit - b'a' + 10),
        b'A'..=b'F' => Some(digit - b'A' + 10),
        _ => None,
    }
}

/// The bytes that the digits of `text` say, or none where it has an odd number of them or something else.
pub fn decode(heap: Global, text: &[u8]) -> Result<Option<Vec<u8>>, AllocError>
    ensures { IfOk result (λ o. option_map vec_items o ≡ decoded text.now) }
{
    // By hand: the library's `decode` asks for memory for all bytes before it looks at a digit.
    let mut bytes = Vec::new(heap);
    let mut rest = text;
    while let [high, low, after @ ..] = rest {
        let Some(high) = digit_value(*high) else {
            return Ok(None);
        };
        let Some(low) = digit_value(*low) else {
            return Ok(None);
        };
        bytes.push(high * 16 + low)?;
        rest = after;
    }
    if rest.is_empty() {
        Ok(Some(bytes))
    } else {
        Ok(None)
    }
}

/// Shows bytes as lower-case digits.
#[derive(Clone, Copy)]
pub struct Hex<'a>(pub &'a [u8]);

impl fmt::Display for Hex<'_> {
    ghost output = { λ hex. Some (flat_map two_digits hex.0.now) };

    fn fmt<W: fmt::Write>(&self, f: &mut fmt::Formatter<W>) -> fmt::Result {
        // Byte by byte: the library's `encode` asks for memory.
        for &byte in self.0 {
            write!(f, "{byte:02x}")?;
        }
        Ok(())
    }
}
