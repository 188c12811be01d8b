// Where a recovery asks for blobs.
ghost use Rattle.std.specs.Prelude.{◌≡◌, ℕ, Option};
ghost use Rattle.blobs.specs.declared.note.Note.{Note};

use crate::Note;

// A fixed map from blob pointer to what is known of the blob.
pub trait BlobSource {
    ghost notes: { Self → ℕ → Option Note };

    // The pointer's blob; none where it is missing.
    fn blob(&self, pointer: u64) -> Option<Note>
        ensures { result ≡ notes self.now pointer };
}
