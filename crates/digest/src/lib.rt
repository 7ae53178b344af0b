//! SHA-256 (FIPS 180-4), and HMAC with SHA-256 (RFC 2104) under a key of 32 bytes.
//!
//! Both functions take any message, allocate nothing and keep no copy of the message. Their contracts are equations
//! with the definitions of `specs/Hash.antt`, and `specs/Vectors.antt` holds those definitions to published values.

#![tactic(auto)]

mod block;
mod message;
#[cfg(test)]
mod tests;
mod words;

ghost use Rattle.std.specs.Prelude.{◌≡◌, ◌++◌};
ghost use Rattle.digest.specs.Hash.{hmac, keyed, sha256};
ghost use Rattle.digest.specs.Vectors.{PublishedVectors};

use block::hash_blocks;
use message::{INITIAL, finish};
use octets::put;

/// The SHA-256 of the message.
pub fn sha256(message: &[u8]) -> [u8; 32]
    ensures { result ≡ sha256 message.now }
{
    finish(INITIAL, 0, message)
}

// The byte that RFC 2104 repeats to ipad.
const INNER_PAD: u8 = 0x36;

// The byte that it repeats to opad.
const OUTER_PAD: u8 = 0x5c;

// The key, filled up with zeros to a block, each byte xor `mask`.
fn key_block(key: &[u8; 32], mask: u8) -> [u8; 64]
    ensures { result ≡ keyed key.now mask }
{
    let mut block = [0; 64];
    put(&mut block, 0, key);
    block.map(|byte| byte ^ mask)
}

// The SHA-256 of the key's block followed by the message.
fn keyed_hash(key: &[u8; 32], mask: u8, message: &[u8]) -> [u8; 32]
    ensures { result ≡ sha256 (keyed key.now mask ++ message.now) }
{
    finish(hash_blocks(INITIAL, &key_block(key, mask)), 64, message)
}

/// The HMAC with SHA-256 of the message under the key.
pub fn hmac(key: &[u8; 32], message: &[u8]) -> [u8; 32]
    ensures { result ≡ hmac key.now message.now }
{
    keyed_hash(key, OUTER_PAD, &keyed_hash(key, INNER_PAD, message))
}

/// Writes the SHA-256 of the message into `digest`; for callers in C, by the crate `digest_c`.
pub fn club_register_sha256(message: &[u8], digest: &mut [u8; 32])
    ensures { digest.new ≡ sha256 message.now }
{
    *digest = sha256(message);
}

/// The definitions that the contracts cite give the published values.
pub fn published_vectors_hold() -> u8
    ensures { PublishedVectors }
{
    0
}
