// Damaged messages: each well-formed message of the other tests, with each of its bytes changed in turn. What is still
// read, by the reader of any kind, must be written again as just those bytes.
use crate::{answers, body_cases, certificates};
use std::test::Fail;
use wire::answer::reader::read_answer;
use wire::answer::writer::write_answer;
use wire::certificate::reader::read_certificate;
use wire::certificate::writer::write_certificate;
use wire::proposal::{read_proposal, write_proposal};
use wire::{Name, ReadFault, WriteFault, read_body, write_body};

// What a byte is changed by.
const CHANGES: [u8; 6] = [1, 2, 3, 4, 0x80, 0xff];

// Whether the first `length` bytes of `out` are the bytes that were read.
fn are_again(out: &[u8], length: usize, bytes: &[u8]) -> bool {
    length == bytes.len() && length <= out.len() && &out[0..length] == bytes
}

// A test fails where this does not hold.
fn check(holds: bool, what: &str) -> Result<(), Fail> {
    if holds { Ok(()) } else { Err(Fail::new(what)) }
}

// Whether a message was read; what was read is written again.
fn is_read<T: Drop, W: Fn(&T, &mut [u8]) -> Result<usize, WriteFault> + Drop>(
    read: Result<T, ReadFault>,
    write: W,
    bytes: &[u8],
    kind: &str,
) -> Result<bool, Fail>
    requires { W.IsAlwaysCallable write }
{
    let Ok(message) = read else {
        return Ok(false);
    };
    let mut out = [0; 2048];
    let length = write(&message, &mut out)?;
    check(are_again(&out, length, bytes), kind)?;
    Ok(true)
}

// Reads the bytes as each kind of message, writes again what was read, and answers how many kinds were.
fn readings(width: usize, bytes: &[u8]) -> Result<usize, Fail> {
    let kinds = [
        is_read(read_body(bytes), write_body, bytes, "a body")?,
        is_read(
            read_certificate(width, bytes),
            write_certificate,
            bytes,
            "a certificate",
        )?,
        is_read(read_proposal(bytes), write_proposal, bytes, "a proposal")?,
        is_read(read_answer(width, bytes), write_answer, bytes, "an answer")?,
    ];
    Ok(kinds.iter().filter(|read| **read).count())
}

// Changes the byte `at` in each way, and answers whether some of the damaged messages were read.
fn damage_byte(width: usize, message: &mut [u8], at: usize) -> Result<bool, Fail> {
    let mut some = false;
    for change in CHANGES {
        if at < message.len() {
            message[at] ^= change;
            let kinds = readings(width, message)?;
            check(kinds <= 1, "one kind")?;
            some |= kinds == 1;
            message[at] ^= change;
        }
    }
    Ok(some)
}

// Damages each byte of a message that is read as it stands. Some of the damaged ones must be read, and some not.
fn damage(width: usize, message: &mut [u8]) -> Result<(), Fail> {
    check(readings(width, message)? == 1, "read as it stands")?;
    let mut read = 0usize;
    // By the place of the byte, since the whole message is read after each change.
    for at in 0..message.len() {
        if damage_byte(width, message, at)? {
            read = read.wrapping_add(1);
        }
    }
    check(
        0 < read && read < message.len(),
        "some are read, and some not",
    )
}

#[test]
fn damaged_bodies(rt: HostRuntime) -> Result<(), Fail> {
    for (digits, _) in body_cases::GOOD {
        let mut message = body_cases::bytes_of(&rt, digits)?;
        damage(36, message.as_mut_slice())?;
    }
    Ok(())
}

#[test]
fn damaged_certificates(rt: HostRuntime) -> Result<(), Fail> {
    for case in certificates::cases() {
        if case.good {
            let mut message = case.to_bytes(rt.alloc())?;
            damage(usize::from(case.width), message.as_mut_slice())?;
        }
    }
    Ok(())
}

// Damages the proposal of the name that is this byte 32 times.
fn damage_proposal(byte: u8) -> Result<(), Fail> {
    let mut message = [0; 36];
    write_proposal(&Name { bytes: [byte; 32] }, &mut message)?;
    damage(36, &mut message)
}

#[test]
fn damaged_proposals() -> Result<(), Fail> {
    for byte in [0, 5, 0xff] {
        damage_proposal(byte)?;
    }
    Ok(())
}

#[test]
fn damaged_answers(rt: HostRuntime) -> Result<(), Fail> {
    for case in answers::cases() {
        if case.good {
            let mut message = case.to_bytes(rt.alloc())?;
            damage(usize::from(case.width), message.as_mut_slice())?;
        }
    }
    Ok(())
}
