//! Digests that FIPS 180-4 and RFC 4231 publish, and others that Python's hashlib and hmac give.

ghost use Rattle.std.specs.Prelude.{◌≡◌, ◌-◌, ◌≤◌, ◌++◌, length, replicate};
ghost use Rattle.std.specs.List.{flat_map};
ghost use Rattle.digest.specs.Hex.{digits};

use crate::{club_register_sha256, hmac, sha256};
use octets::put;
use std::test::Fail;

// The two digits of a byte.
fn byte_digits(byte: u8) -> [u8; 2]
    ensures { result ≡ digits byte }
{
    let of = b"0123456789abcdef";
    [of[usize::from(byte / 16)], of[usize::from(byte % 16)]]
}

// The digest in hexadecimal.
fn hex(digest: &[u8; 32]) -> [u8; 64]
    ensures { result ≡ flat_map digits digest.now }
{
    let mut text = [0; 64];
    text.copy_from_slice(digest.map(byte_digits).as_flattened());
    text
}

// A key of at most 32 bytes, filled up with zeros, which do not change what HMAC gives.
fn filled(key: &[u8]) -> [u8; 32]
    requires { length key.now ≤ 32 }
    ensures { result ≡ key.now ++ replicate (32 - length key.now) 0 }
{
    let mut out = [0; 32];
    put(&mut out, 0, key);
    out
}

#[test]
fn sha256_of_published_texts(rt: HostRuntime) {
    let last =
        b"abcdefghbcdefghicdefghijdefghijkefghijklfghijklmghijklmnhijklmnoijklmnopjklmnopqklmnopqrlmnopqrsmnopqrstnopqrstu";
    let of_last = b"cf5b16a778af8380036ce59e7b0492370b249b11e8f07a51afac45037afee9d1";
    let cases = [
        (
            b"".as_slice(),
            b"e3b0c44298fc1c149afbf4c8996fb92427ae41e4649b934ca495991b7852b855",
        ),
        (
            b"abc",
            b"ba7816bf8f01cfea414140de5dae2223b00361a396177a9cb410ff61f20015ad",
        ),
        (
            b"abcdbcdecdefdefgefghfghighijhijkijkljklmklmnlmnomnopnopq",
            b"248d6a61d20638b8e5c026930c3e6039a33ce45964ff2167f6ecedd419db06c1",
        ),
        (last, of_last),
    ];
    for (text, digest) in cases {
        assert_eq!(rt; hex(&sha256(text)), *digest);
    }
    let mut written = [0; 32];
    club_register_sha256(last, &mut written);
    assert_eq!(rt; hex(&written), *of_last);
}

// Lengths about the ends of blocks, and the million of FIPS 180-4, each with the digest of so many letters a.
const REPEATED: [(usize, &[u8; 64]); 8] = [
    (
        55,
        b"9f4390f8d30c2dd92ec9f095b65e2b9ae9b0a925a5258e241c9f1e910f734318",
    ),
    (
        56,
        b"b35439a4ac6f0948b6d6f9e3c6af0f5f590ce20f1bde7090ef7970686ec6738a",
    ),
    (
        63,
        b"7d3e74a05d7db15bce4ad9ec0658ea98e3f06eeecf16b4c6fff2da457ddc2f34",
    ),
    (
        64,
        b"ffe054fe7ae0cb6dc65c3af9b61d5209f439851db43d0ba5997337df154668eb",
    ),
    (
        65,
        b"635361c48bb9eab14198e76ea8ab7f1a41685d6ad62aa9146d301d4f17eb0ae0",
    ),
    (
        119,
        b"31eba51c313a5c08226adf18d4a359cfdfd8d2e816b13f4af952f7ea6584dcfb",
    ),
    (
        120,
        b"2f3d335432c70b580af0e8e1b3674a7c020d683aa5f73aaaedfdc55af904c21c",
    ),
    (
        1000000,
        b"cdc76e5c9914fb9281a1c7e284d73e67f1809a48a497200e046d39ccc7112cd0",
    ),
];

#[test]
fn sha256_of_repeated_letters(rt: HostRuntime) -> Result<(), Fail> {
    let letters = vec![in rt.alloc(); b'a'; 1000000]?;
    for (len, digest) in REPEATED {
        let message = letters.get(..len).ok_or("too few letters")?;
        assert_eq!(rt; hex(&sha256(message)), *digest);
    }
    Ok(())
}

// Test cases 1 to 5 of RFC 4231, which has the first 16 bytes of the fifth, and a key that needs no filling.
#[test]
fn hmac_of_published_keys(rt: HostRuntime) {
    let counted =
        b"\x01\x02\x03\x04\x05\x06\x07\x08\x09\x0a\x0b\x0c\x0d\x0e\x0f\x10\x11\x12\x13\x14\x15\x16\x17\x18\x19";
    let cases = [
        (
            filled(&[0x0b; 20]),
            b"Hi There".as_slice(),
            b"b0344c61d8db38535ca8afceaf0bf12b881dc200c9833da726e9376c2e32cff7",
        ),
        (
            filled(b"Jefe"),
            b"what do ya want for nothing?",
            b"5bdcc146bf60754e6a042426089575c75a003f089d2739839dec58b964ec3843",
        ),
        (
            filled(&[0xaa; 20]),
            &[0xdd; 50],
            b"773ea91e36800e46854db8ebd09181a72959098b3ef8c122d9635514ced565fe",
        ),
        (
            filled(counted),
            &[0xcd; 50],
            b"82558a389a443c0ea4cc819899f2083a85f0faa3e578f8077a2e3ff46729665b",
        ),
        (
            filled(&[0x0c; 20]),
            b"Test With Truncation",
            b"a3b6167473100ee06e0c796c2955552bfa6f7c0a6a8aef8b93f860aab0cd20c5",
        ),
        (
            *b"0123456789abcdefghijklmnopqrstuv",
            b"a key of 32 bytes",
            b"6ef659fab82567a1b41c1a57f066c0ba73929569518bb3ce9d5d41ecf31fe2e7",
        ),
    ];
    for (key, message, digest) in cases {
        assert_eq!(rt; hex(&hmac(&key, message)), *digest);
    }
}
