// Blob files: a checksum, a kind, a body.
ghost use Rattle.std.specs.Prelude.{◌≡◌};
ghost use Rattle.blobs.specs.Files.{note_of};

use crate::Note;
use checksum::checksum;
use codec::Serialize;

// What a blob file says of its blob.
#[tactic(auto, unfolding(crate::specs::Files::note_of))]
pub fn read_blob(file: &[u8]) -> Note
    ensures { result ≡ note_of file.now }
{
    let Ok((stored, content)) = u32::deserialize(file) else {
        return Note::DAMAGED;
    };
    let Some(&kind) = content.first() else {
        return Note::DAMAGED;
    };
    Note {
        kind,
        sound: stored == checksum(content),
    }
}
