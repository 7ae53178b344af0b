// Marks of a given length, which stand in several messages.
ghost use Rattle.wire.specs.Fields.{Splits};

// The first `length` bytes of `text`, and what follows them.
pub(crate) fn split_bytes(length: usize, text: &[u8]) -> Option<(&[u8], &[u8])>
    ensures { Splits length text.now result }
{
    text.split_at_checked(length)
}
