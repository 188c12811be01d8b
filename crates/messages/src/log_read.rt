// What a message is to a reader of the log.
ghost use Rattle.std.specs.Prelude.{◌≡◌};
ghost use Rattle.messages.specs.declared.log_read.NoMessage.TheVariants.{Corrupted, Short};

use crate::DiskPtr;
use codec::{CodecError, Lsn, PageId, Word};
use device::DeviceError;
use layout::{LogKind, MessageKind};

// A change to a page: at which LSN, where its content stands, and how long its message is.
#[derive(Clone, Copy, PartialEq, Eq, Debug)]
pub struct Record {
    pub kind: LogKind,
    pub pid: PageId,
    pub lsn: Lsn,
    pub ptr: DiskPtr,
    pub len: u64,
}

// Lengths are those of whole messages.
#[derive(Clone, Copy, PartialEq, Eq, Debug)]
pub enum LogRead {
    Record(Record),
    Canceled(u64),
    // A record whose blob is missing.
    Dangling(u64),
    // The LSN that its batch ends with.
    BatchManifest(Word, u64),
    Cap,
    Corrupted,
    // The bytes end too early, or no message begins here.
    Short,
}

// A message whose checksum and segment number are right.
#[derive(Clone, Copy)]
pub struct Found {
    pub kind: MessageKind,
    pub pid: PageId,
    pub len: u64,
    // The body, where it has just eight bytes.
    pub word: Option<Word>,
}

// Why no message is found.
#[derive(Clone, Copy)]
pub enum NoMessage {
    Corrupted,
    Short,
}

impl From<DeviceError> for NoMessage {
    ghost from_gives = { λ _ none. none ≡ Short };

    fn from(_e: DeviceError) -> NoMessage {
        NoMessage::Short
    }
}

impl From<CodecError> for NoMessage {
    ghost from_gives = { λ _ none. none ≡ Corrupted };

    fn from(_e: CodecError) -> NoMessage {
        NoMessage::Corrupted
    }
}
