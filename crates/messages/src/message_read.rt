// Reading a message: its bytes, then its kind, then its blob.
ghost use Rattle.std.specs.Prelude.{◌≡◌, ℕ, ◌/◌, ◌≤◌, true, List, length};
ghost use Rattle.codec.specs.Messages.{message};
ghost use Rattle.layout.specs.Kinds.{meant};
ghost use Rattle.layout.specs.Sizes.{is_segment_size};
ghost use Rattle.layout.specs.declared.kind.MessageKind.{MessageKind};
ghost use Rattle.messages.specs.Raw.{cleared};
ghost use Rattle.messages.specs.Told.{record_of, blob_told, manifest_told, told, message_read, body_used, found_of, Stands};

use crate::log_read::{Found, NoMessage};
use crate::spot::Spot;
use crate::{DiskPtr, LogRead, Record};
use blobs::BlobSource;
use codec::Lsn;
use device::ReadAt;
use layout::{LogKind, Meaning, SegmentSize, Storage};
use refusals::Refusal;

impl Found {
    fn record(self, kind: LogKind, lsn: Lsn, ptr: DiskPtr) -> Record
        ensures { result ≡ record_of self kind lsn ptr }
    {
        Record {
            kind,
            pid: self.pid,
            lsn,
            ptr,
            len: self.len,
        }
    }

    // A record of a blob kind, by what is known of its blob.
    fn tell_blob<B: BlobSource>(
        self,
        source: &B,
        place: u64,
        lsn: Lsn,
        kind: LogKind,
    ) -> Result<LogRead, Refusal>
        ensures { result ≡ blob_told (B.BlobSource.notes source.now) place lsn self kind self.word }
    {
        let pointer = self.word.ok_or(Refusal::Body(place))?.bits;
        match source.blob(pointer) {
            None => Ok(LogRead::Dangling(self.len)),
            Some(note) if note.sound && note.kind == u8::from(self.kind) => {
                Ok(LogRead::Record(self.record(kind, lsn, DiskPtr::Blob(place, pointer))))
            }
            Some(_) => Err(Refusal::Blob(place)),
        }
    }

    fn tell_manifest(self, place: u64) -> Result<LogRead, Refusal>
        ensures { result ≡ manifest_told place self self.word }
    {
        let last = self.word.ok_or(Refusal::Body(place))?;
        Ok(LogRead::BatchManifest(last, self.len))
    }

    // What a message is, by its kind.
    fn tell<B: BlobSource>(self, source: &B, place: u64, lsn: Lsn) -> Result<LogRead, Refusal>
        ensures { result ≡ told (B.BlobSource.notes source.now) place lsn self (meant self.kind) }
    {
        match self.kind.meaning() {
            Meaning::Corrupted => Ok(LogRead::Corrupted),
            Meaning::Canceled => Ok(LogRead::Canceled(self.len)),
            Meaning::Cap => Ok(LogRead::Cap),
            Meaning::BatchManifest => self.tell_manifest(place),
            Meaning::Record(kind, Storage::Inline) => {
                Ok(LogRead::Record(self.record(kind, lsn, DiskPtr::Inline(place))))
            }
            Meaning::Record(kind, Storage::Blob) => self.tell_blob(source, place, lsn, kind),
        }
    }
}

// Size and buffer are checked before anything is read. Apart from `read_message`, so that its clause `written` is shown at one return.
fn read_checked<R: ReadAt, B: BlobSource>(
    view: &R,
    source: &B,
    body: &mut [u8],
    size: u64,
    place: u64,
    lsn: Lsn,
) -> Result<LogRead, Refusal>
    ensures reply { result ≡ message_read (B.BlobSource.notes source.now) (length body.old) size lsn (R.ReadAt.first view.now) (R.ReadAt.bytes view.now) place }
    ensures body { body.new ≡ cleared (body_used (length body.old) size (R.ReadAt.first view.now) (R.ReadAt.bytes view.now) place) body.old }
{
    let size = SegmentSize::new(size).ok_or(Refusal::Size)?;
    if size.bytes() > body.len() as u64 {
        return Err(Refusal::Buffer);
    }
    let number = lsn / size.bytes();
    let spot = Spot {
        view,
        size,
        number,
        place,
    };
    match spot.read(body) {
        Ok(found) => found.tell(source, place, lsn),
        Err(NoMessage::Corrupted) => Ok(LogRead::Corrupted),
        Err(NoMessage::Short) => Ok(LogRead::Short),
    }
}

// The message at `place` of a view, which must carry the segment number of `lsn`. The body buffer is lent; what is used of it is
// zeroed again. Refused: a size that no segment has, a buffer shorter than a segment, a body that is not 8 bytes where the kind
// wants that, a blob that is damaged or of another kind. A message that was written is the message that is read.
// A struct of its parameters would be made for one call and taken apart at once.
pub fn read_message<R: ReadAt, B: BlobSource>(
    view: &R,
    source: &B,
    body: &mut [u8],
    size: u64,
    place: u64,
    lsn: Lsn,
) -> Result<LogRead, Refusal>
    ensures reply { result ≡ message_read (B.BlobSource.notes source.now) (length body.old) size lsn (R.ReadAt.first view.now) (R.ReadAt.bytes view.now) place }
    ensures body { body.new ≡ cleared (body_used (length body.old) size (R.ReadAt.first view.now) (R.ReadAt.bytes view.now) place) body.old }
    ensures written { (kind : MessageKind) (page : ℕ) (content : List ℕ) → is_segment_size size ≡ true → size ≤ length body.old
        → Stands size (lsn / size) (R.ReadAt.first view.now) place (R.ReadAt.bytes view.now) kind page content
        → result ≡ told (B.BlobSource.notes source.now) place lsn (found_of kind page (length (message kind (lsn / size) page content)) content) (meant kind) }
{
    read_checked(view, source, body, size, place, lsn)
}
