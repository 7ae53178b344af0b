//! Says what messages are: reads lines of hexadecimal from standard input, and prints for each line, in words, the
//! message that its bytes are, or the refusal with its number.
//!
//! Certificates and answers are read with marks of the two lengths in use: 32 bytes (seals) and 36 (stamps).

#![tactic(auto)]

use std::io;
use std::io::Read;
use text::digits::{Hex, decode};
use text::line::split_line;
use wire::answer::Answer;
use wire::answer::reader::read_answer;
use wire::certificate::Certificate;
use wire::certificate::reader::read_certificate;
use wire::proposal::read_proposal;
use wire::{Blocker, Body, Name, Operation, ReadFault, name_of, read_body};

/// How many bytes a seal has, and how many a stamp.
const MARK_SIZES: [usize; 2] = [32, 36];

fn print_operation(rt: &impl Print, operation: &Operation) -> io::Result<()> {
    match *operation {
        Operation::Read { key } => println!(rt; "  read {key}"),
        Operation::Write { key, value } => println!(rt; "  write {key} = {value}"),
        Operation::Compare { key, value } => println!(rt; "  compare {key} = {value}"),
    }
}

fn print_body(rt: &impl Print, message: &[u8], body: &Body) -> io::Result<()> {
    let name = name_of(message);
    let nonce = body.nonce();
    println!(rt; "body, {} bytes", message.len())?;
    println!(rt; "  name {}", Hex(&name.bytes))?;
    println!(rt; "  nonce {nonce}")?;
    for operation in body.operations() {
        print_operation(rt, operation)?;
    }
    Ok(())
}

fn print_proposal(rt: &impl Print, message: &[u8], name: &Name) -> io::Result<()> {
    println!(rt; "proposal to abort, {} bytes", message.len())?;
    println!(rt; "  name {}", Hex(&name.bytes))
}

fn print_certificate(rt: &impl Print, message: &[u8], certificate: &Certificate) -> io::Result<()> {
    let name = certificate.name();
    println!(rt; "certificate, {} bytes", message.len())?;
    println!(rt; "  name {}", Hex(&name.bytes))?;
    println!(rt; "  vote {}", certificate.vote())?;
    for entry in certificate.entries() {
        let group = entry.group;
        let replica = entry.replica;
        println!(rt;
            "  group {group} replica {replica} mark {}",
            Hex(entry.mark.as_slice())
        )?;
    }
    Ok(())
}

fn print_blocker(rt: &impl Print, blocker: &Blocker) -> io::Result<()> {
    print!(rt; "  blocker {} groups", Hex(&blocker.name.bytes))?;
    for group in (0..8u8).filter(|group| blocker.groups.contains(*group)) {
        print!(rt; " {group}")?;
    }
    println!(rt; "")
}

fn print_answer(rt: &impl Print, message: &[u8], answer: &Answer) -> io::Result<()> {
    let group = answer.group;
    let replica = answer.replica;
    let ground = answer.ground;
    println!(rt; "answer, {} bytes", message.len())?;
    println!(rt; "  name {}", Hex(&answer.name.bytes))?;
    println!(rt;
        "  group {group} replica {replica} mark {}",
        Hex(answer.mark.as_slice())
    )?;
    println!(rt; "  vote {}", answer.vote)?;
    println!(rt; "  state {}", answer.state)?;
    println!(rt; "  ground {}: {ground}", u8::from(ground))?;
    for value in answer.reads.as_slice() {
        println!(rt; "  value {value}")?;
    }
    match ground.blocker() {
        Some(blocker) => print_blocker(rt, &blocker),
        None => Ok(()),
    }
}

fn print_fault(rt: &impl Print, fault: ReadFault) -> io::Result<()> {
    println!(rt; "refused {}: {fault}", u8::from(fault))
}

// A message with marks, or a message that is malformed.
fn print_marked(rt: &impl Print, message: &[u8]) -> io::Result<()> {
    for size in MARK_SIZES {
        if let Ok(certificate) = read_certificate(size, message) {
            return print_certificate(rt, message, &certificate);
        }
        if let Ok(answer) = read_answer(size, message) {
            return print_answer(rt, message, &answer);
        }
    }
    print_fault(rt, ReadFault::Malformed)
}

fn print_message(rt: &impl Print, message: &[u8]) -> io::Result<()> {
    if let Ok(body) = read_body(message) {
        return print_body(rt, message, &body);
    }
    if let Ok(name) = read_proposal(message) {
        return print_proposal(rt, message, &name);
    }
    print_marked(rt, message)
}

fn print_line(rt: &HostRuntime, number: u64, line: &[u8]) -> io::Result<()> {
    print!(rt; "line {number}: ")?;
    match decode(rt.alloc(), line)? {
        Some(message) => print_message(rt, message.as_slice()),
        None => println!(rt; "not hexadecimal"),
    }
}

fn main(rt: HostRuntime) -> io::Result<()> {
    let mut input = Vec::new(rt.alloc());
    rt.stdin().read_to_end(&mut input)?;
    let mut rest = input.as_slice();
    let mut number = 0u64;
    // A loop: the library's `split` would find one more line, an empty one, after the last newline.
    while !rest.is_empty() {
        let (line, after) = split_line(rest);
        number = number.saturating_add(1);
        print_line(&rt, number, line)?;
        rest = after;
    }
    Ok(())
}
