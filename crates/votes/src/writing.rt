// How an entry and a blocker are written.
ghost use Rattle.std.specs.Prelude.{◌≡◌, length, Some};
ghost use Rattle.votes.specs.Entries.{EntryFits, entry_text, shown};
ghost use Rattle.votes.specs.Grounds.{blocker_bytes};
ghost use Rattle.votes.specs.Marks.{mark_bytes};

use crate::entry::Entry;
use crate::ground::Blocker;
use octets::writer::Writer;
use octets::written::Written;

impl Written for Entry {
    ghost text = { entry_text };

    ghost most = { 62 };

    ghost fits = { λ entry. EntryFits (length (mark_bytes entry.mark)) (shown entry) };

    fn size(&self) -> usize {
        [self.group, self.replica].len() + self.mark.as_slice().len()
    }

    fn write(&self, writer: &mut Writer<'_>) {
        writer.put(&[self.group, self.replica]);
        writer.put(self.mark.as_slice());
    }
}

impl Written for Blocker {
    ghost text = { λ blocker. blocker_bytes (Some blocker) };

    ghost most = { 33 };

    ghost fits = { λ blocker. length blocker.name.bytes ≡ 32 };

    fn size(&self) -> usize {
        self.name.size() + 1
    }

    fn write(&self, writer: &mut Writer<'_>) {
        self.name.write(writer);
        writer.put(&[self.groups.bits]);
    }
}
