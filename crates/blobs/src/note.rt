// What is known of a blob.
ghost use Rattle.std.specs.Prelude.{◌≡◌, ◌+◌, length, Some, None, nat_le, if◌then◌else◌};
ghost use Rattle.std.specs.Option.{option_map};
ghost use Rattle.blobs.specs.Banks.{cut};

// The kind in its file, and whether the file is whole: a damaged file has a kind too, so no Option of a kind.
#[derive(Clone, Copy, PartialEq, Eq, Debug)]
pub struct Note {
    pub kind: u8,
    pub sound: bool,
}

impl Note {
    // What is said of a file too short to have a kind.
    pub const DAMAGED: Note = Note {
        kind: 0,
        sound: false,
    };
}

// Where a file stands in a bank: its first byte and its length.
#[derive(Clone, Copy, PartialEq, Eq, Debug)]
pub struct Extent {
    pub start: usize,
    pub len: usize,
}

impl Extent {
    // Its bytes, where all of them are there.
    pub(crate) fn bytes_in(self, files: &[u8]) -> Option<&[u8]>
        ensures { option_map (λ s. s.now) result ≡ (if nat_le (self.start + self.len) (length files.now) then Some (cut files.now self) else None) }
    {
        files.get(self.start..)?.get(..self.len)
    }
}
