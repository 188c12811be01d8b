// A blob source that holds its replies: a sorted table from pointer to what is known of the blob, which its owner fills.
ghost use Rattle.std.specs.Prelude.{◌≡◌};
ghost use Rattle.tables.specs.Entries.{find};
ghost use Rattle.tables.specs.Views.{contents};

use crate::{BlobSource, Note};
use tables::SortedTable;

#[derive(Clone, Copy)]
pub struct Register<'a> {
    notes: &'a SortedTable<'a, Note>,
}

impl<'a> Register<'a> {
    pub fn new(notes: &'a SortedTable<'a, Note>) -> Register<'a>
        ensures { contents result.notes.now ≡ contents notes.now }
    {
        Register { notes }
    }
}

impl<'a> BlobSource for Register<'a> {
    ghost notes = { λ r p. find p (contents r.notes.now) };

    fn blob(&self, pointer: u64) -> Option<Note> {
        self.notes.find(pointer)
    }
}
