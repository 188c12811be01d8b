// Laying blob files one behind another into a lent buffer, for a bank to read.
ghost use Rattle.std.specs.Prelude.{◌≡◌, ◌+◌, [], ◌∷◌, length, is_ok, if◌then◌else◌};
ghost use Rattle.std.proofs.lemmas.List.Edits.{sets};
ghost use Rattle.tables.specs.Entries.{put};
ghost use Rattle.tables.specs.Views.{contents, capacity, Same};
ghost use Rattle.blobs.specs.Adding.{add_reply, extent_at};
ghost use Rattle.blobs.specs.Banks.{Files, Holds};

use crate::{BankFault, Extent};
use codec::has_room;
use tables::SortedTable;

// The buffer is lent and not a vector: no call allocates.
#[derive(Drop)]
pub struct BlobFiles<'a> {
    bytes: &'a mut [u8],
    // How many of the bytes are taken.
    used: usize,
}

impl<'a> BlobFiles<'a> {
    // No file yet; the buffer is left as it is.
    #[tactic(auto, using(crate::proofs::Adds::holds_none))]
    pub fn new(bytes: &'a mut [u8]) -> BlobFiles<'a>
        ensures bytes { result.bytes.now ≡ bytes.old }
        ensures used { result.used ≡ 0 }
        ensures holds { Holds 0 result.bytes.now [] [] }
        ensures lender { result.bytes.ghost_name ≡ bytes.entry.ghost_name }
    {
        BlobFiles { bytes, used: 0 }
    }

    pub fn bytes(&self) -> &[u8]
        ensures { result.now ≡ self.now.bytes.now }
    {
        self.bytes
    }

    // Lays the file behind the others and enters its extent, in place of the pointer's older one. Refused, nothing changes.
    pub fn add(
        &mut self,
        extents: &mut SortedTable<'_, Extent>,
        pointer: u64,
        file: &[u8],
    ) -> Result<(), BankFault>
        ensures reply { result ≡ add_reply (length self.old.bytes.now) self.old.used (length file.now) (capacity extents.old) pointer (contents extents.old) }
        ensures bytes { self.new.bytes.now ≡ (if is_ok result then sets self.old.bytes.now self.old.used file.now else self.old.bytes.now) }
        ensures used { self.new.used ≡ (if is_ok result then self.old.used + length file.now else self.old.used) }
        ensures extents { contents extents.new ≡ (if is_ok result then put (extent_at pointer self.old.used (length file.now)) (contents extents.old) else contents extents.old) }
        ensures same { Same extents.old extents.new }
        ensures lender { self.new.bytes.ghost_name ≡ self.old.bytes.ghost_name }
        ensures holds { (fs : Files) → Holds self.old.used self.old.bytes.now (contents extents.old) fs → Holds self.new.used self.new.bytes.now (contents extents.new) (if is_ok result then (pointer, file.now) ∷ fs else fs) }
    {
        let at = self.used;
        let len = file.len();
        if !has_room(self.bytes.len(), at, len) {
            return Err(BankFault::NoRoom);
        }
        extents.insert(pointer, Extent { start: at, len })?;
        self.bytes[at..at + len].copy_from_slice(file);
        self.used = at + len;
        Ok(())
    }
}
