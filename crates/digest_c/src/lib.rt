//! SHA-256 for callers in C.

#![tactic(auto)]

ghost use Rattle.std.specs.Prelude.{◌≡◌};
ghost use Rattle.digest.specs.Hash.{sha256};

/// Writes the SHA-256 of the message into `digest`.
#[unsafe(no_mangle)]
pub extern "C" fn club_register_sha256(message: &[u8], digest: &mut [u8; 32])
    ensures { digest.new ≡ sha256 message.now }
{
    digest::club_register_sha256(message, digest)
}
