// A blob source over files that stand one behind another in a buffer.
ghost use Rattle.std.specs.Prelude.{◌≡◌, ℕ, List};
ghost use Rattle.tables.specs.Entries.{find};
ghost use Rattle.tables.specs.Views.{contents};
ghost use Rattle.tables.specs.declared.entry.Entry.{Entry};
ghost use Rattle.blobs.specs.Banks.{Files, note_at, banked, Holds, Knows};
ghost use Rattle.blobs.specs.declared.note.Note.{Note};

use crate::{BlobSource, Extent, Note, read_blob};
use tables::SortedTable;

// The bytes of all files, and a sorted table from pointer to its file's place there.
#[derive(Clone, Copy)]
pub struct Bank<'a> {
    files: &'a [u8],
    extents: &'a SortedTable<'a, Extent>,
}

impl<'a> Bank<'a> {
    pub fn new(files: &'a [u8], extents: &'a SortedTable<'a, Extent>) -> Bank<'a>
        ensures files { result.files.now ≡ files.now }
        ensures extents { contents result.extents.now ≡ contents extents.now }
    {
        Bank { files, extents }
    }
}

impl<'a> BlobSource for Bank<'a> {
    ghost notes = { λ b p. banked b.files.now (contents b.extents.now) p };

    // A register that knows the same files answers alike.
    fn blob(&self, pointer: u64) -> Option<Note>
        ensures reply { result ≡ banked self.now.files.now (contents self.now.extents.now) pointer }
        ensures alike { (used : ℕ) (fs : Files) (ns : List (Entry Note)) → Holds used self.now.files.now (contents self.now.extents.now) fs → Knows ns fs → result ≡ find pointer ns }
    {
        let extent = self.extents.find(pointer)?;
        let file = extent.bytes_in(self.files);
        Some(file.map_or(Note::DAMAGED, read_blob))
    }
}
