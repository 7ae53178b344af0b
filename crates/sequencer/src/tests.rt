// What fits, two groups on one buffer, and code over every sequencer.
ghost use Rattle.std.specs.Prelude.{IsOk, length};
ghost use Rattle.sequencer.specs.Lists.{Sized};

use crate::tape::Tape;
use crate::tracks::Tracks;
use crate::{DoesNotFit, Sequencer};
use envelope::message::LARGEST_MESSAGE;
use std::test::Fail;

// Posts the message to two groups. If both have it then, its length was right.
fn post_to_both<S: Sequencer>(
    sequencer: &mut S,
    first: u8,
    second: u8,
    message: &[u8],
) -> Result<(), DoesNotFit>
    ensures { IsOk result → Sized (length message.now) }
{
    sequencer.post(first, message)?;
    sequencer.post(second, message)
}

// Whether message `index` of the group is these bytes, and the byte after it in the buffer stays.
fn is_kept<S: Sequencer>(sequencer: &S, group: u8, index: u64, message: &[u8]) -> bool {
    let mut out = [0xee; LARGEST_MESSAGE];
    match sequencer.message(group, index, &mut out) {
        Some(len) => len < LARGEST_MESSAGE && &out[0..len] == message && out[len] == 0xee,
        None => false,
    }
}

#[test]
fn a_message_has_1_to_2048_bytes(rt: HostRuntime) -> Result<(), Fail> {
    let mut tape = Tape::new(rt.alloc(), 1, 5000)?;
    let bytes = [7; 2049];
    assert!(rt; tape.post(0, &bytes).is_err() && tape.post(0, &[]).is_err() && tape.is_empty(0));
    tape.post(0, &bytes[0..2048])?;
    assert!(rt; !tape.is_empty(0));
    Ok(())
}

#[test]
fn a_record_fits_whole_or_not_at_all(rt: HostRuntime) -> Result<(), Fail> {
    let proposal = [1; 36];
    assert!(rt; Tracks::new(rt.alloc(), 1, 37)?.post(0, &proposal).is_err());
    Tracks::new(rt.alloc(), 1, 38)?.post(0, &proposal)?;
    assert!(rt; Tape::new(rt.alloc(), 1, 38)?.post(0, &proposal).is_err());
    Tape::new(rt.alloc(), 1, 39)?.post(0, &proposal)?;
    Ok(())
}

#[test]
fn groups_are_kept_apart(rt: HostRuntime) -> Result<(), Fail> {
    let mut tape = Tape::new(rt.alloc(), 2, 100)?;
    tape.post(1, b"one")?;
    tape.post(0, b"zero")?;
    tape.post(1, b"more")?;
    assert!(rt; is_kept(&tape, 1, 1, b"more") && is_kept(&tape, 0, 0, b"zero"));
    assert!(rt; !is_kept(&tape, 0, 1, b"") && tape.post(2, b"none").is_err() && tape.is_empty(2));
    Ok(())
}

#[test]
fn both_sequencers_take_a_message_for_two_groups(rt: HostRuntime) -> Result<(), Fail> {
    post_to_both(&mut Tape::new(rt.alloc(), 2, 20)?, 0, 1, b"message")?;
    let mut tracks = Tracks::new(rt.alloc(), 2, 9)?;
    post_to_both(&mut tracks, 0, 1, b"message")?;
    assert!(rt; post_to_both(&mut tracks, 0, 1, b"message").is_err());
    Ok(())
}
