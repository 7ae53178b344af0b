// Bodies: what is read, what is malformed, what is written, and names.
use std::test::Fail;
use text::digits::{Hex, decode};
use wire::export::club_register_name;
use wire::{Body, Operation, WriteFault, name_of, read_body, write_body};

// The bytes that are written in hexadecimal.
pub fn bytes_of(rt: &HostRuntime, digits: &str) -> Result<Vec<u8>, Fail> {
    let bytes = decode(rt.alloc(), digits.as_bytes())?.ok_or("no digits")?;
    Ok(bytes)
}

// A body's bytes and its name.
pub const GOOD: [(&str, &str); 5] = [
    // the smallest: one read
    (
        "001001010000000000000001010100000004",
        "c76e77244f19021a4c67f38de940c197dff0f3a7c179de7f24bec02dba1411b2",
    ),
    // two writes
    (
        "002501010000000000000002020200000004000000000000000702000000050000000000000007",
        "cb93d9701002c4ae945374e2dded5173402a8d78f37c8793f95ff0e17b281651",
    ),
    // a read and a write
    (
        "001d0101000000000000000302010000000402000000050000000000000009",
        "daf4ed333c30701957260f08430429b30550f7eb5983b548b4c4080c44256c4c",
    ),
    // a compare
    (
        "0018010100000000000000040103000000050000000000000007",
        "b687312ed634518d351916e39d0ea84f7db79cfdab5eec5f97441e485f1c32b8",
    ),
    // the largest: sixteen writes
    (
        "00db0101ffffffffffffffff1002ffffffffffffffffffffffff02fffffffeffffffffffffffff02fffffffdffffffffffffffff02fffffffcffffffffffffffff02fffffffbffffffffffffffff02fffffffaffffffffffffffff02fffffff9ffffffffffffffff02fffffff8ffffffffffffffff02fffffff7ffffffffffffffff02fffffff6ffffffffffffffff02fffffff5ffffffffffffffff02fffffff4ffffffffffffffff02fffffff3ffffffffffffffff02fffffff2ffffffffffffffff02fffffff1ffffffffffffffff02fffffff0ffffffffffffffff",
        "2f529258a4fddb2ee58b37af23fecf5f714328eccc3ea691509700d600cb34ae",
    ),
];

// Bytes that are no body.
const MALFORMED: [&str; 17] = [
    // nothing; a length alone; a header alone
    "",
    "0000",
    "00020101",
    // a length one short and one over; a trailing byte, counted and not
    "000f01010000000000000001010100000004",
    "001101010000000000000001010100000004",
    "00110101000000000000000101010000000400",
    "00100101000000000000000101010000000400",
    // another version, other kinds
    "001002010000000000000001010100000004",
    "001001020000000000000001010100000004",
    "001001000000000000000001010100000004",
    // no operations; one counted and none there; two counted and one there
    "000b0101000000000000000100",
    "000b0101000000000000000101",
    "001001010000000000000001020100000004",
    // unknown codes
    "001001010000000000000001010000000004",
    "001801010000000000000004010400000005000000000000000700",
    // seventeen operations
    "006001010000000000000000110100000000010000000101000000020100000003010000000401000000050100000006010000000701000000080100000009010000000a010000000b010000000c010000000d010000000e010000000f0100000010",
    // key 4 written twice
    "002501010000000000000002020200000004000000000000000702000000040000000000000007",
];

#[test]
fn good_bodies_are_read_named_and_written_back(rt: HostRuntime) -> Result<(), Fail> {
    for (digits, name) in GOOD {
        let message = bytes_of(&rt, digits)?;
        let body = read_body(message.as_slice())?;
        let shown = format!(in rt.alloc(); "{}", Hex(&name_of(message.as_slice()).bytes))?;
        assert!(rt; shown.as_str() == name, "the name");
        let mut out = [0xee; 230];
        let length = write_body(&body, &mut out)?;
        assert!(rt; length == message.len() && length < 230);
        assert!(rt; &out[0..length] == message.as_slice(), "the writing");
        assert!(rt; out[length] == 0xee, "what stands after it");
    }
    Ok(())
}

#[test]
fn other_bytes_are_malformed(rt: HostRuntime) -> Result<(), Fail> {
    for digits in MALFORMED {
        let message = bytes_of(&rt, digits)?;
        match read_body(message.as_slice()) {
            Ok(_) => return Err(Fail::new(digits)),
            Err(fault) => assert_eq!(rt; u8::from(fault), 10),
        }
        let mut name = [0xee; 32];
        assert_eq!(rt; club_register_name(message.as_slice(), &mut name), 10);
        assert_eq!(rt; name, [0xee; 32]);
    }
    Ok(())
}

#[test]
fn a_short_buffer_is_refused_and_left(rt: HostRuntime) -> Result<(), Fail> {
    let body = Body::new(1, &[Operation::Read { key: 4 }])?;
    let mut short = [0xee; 17];
    assert_eq!(rt; write_body(&body, &mut short), Err(WriteFault::ShortBuffer));
    assert_eq!(rt; u8::from(WriteFault::ShortBuffer), 8);
    assert_eq!(rt; short, [0xee; 17]);
    let mut exact = [0xee; 18];
    assert_eq!(rt; write_body(&body, &mut exact), Ok(18));
    Ok(())
}

#[test]
fn parts_that_make_no_body_are_malformed(rt: HostRuntime) {
    let read = Operation::Read { key: 4 };
    let write = Operation::Write { key: 4, value: 7 };
    let compare = Operation::Compare { key: 4, value: 7 };
    assert!(rt; Body::new(0, &[]).is_err());
    assert!(rt; Body::new(0, &[read; 16]).is_ok());
    assert!(rt; Body::new(0, &[read; 17]).is_err());
    assert!(rt; Body::new(0, &[write, write]).is_err());
    assert!(rt; Body::new(0, &[compare, write, read, compare]).is_ok());
}
