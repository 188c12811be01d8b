// Kinds of messages: their numbers, and what each means.
ghost use Rattle.std.specs.Prelude.{◌≡◌};
ghost use Rattle.layout.specs.Kinds.{kind_number, kind_of, meant};

#[derive(Clone, Copy, PartialEq, Eq, Debug)]
pub enum MessageKind {
    // No message: its byte is 0 or above 11.
    Corrupted = 0,
    // A message given up by its writer.
    Canceled = 1,
    // The rest of its segment is padding.
    Cap = 2,
    // What follows counts only once the log has reached the LSN in its body.
    BatchManifest = 3,
    // A page given up.
    Free = 4,
    // A page that counts.
    Counter = 5,
    // The page that names the others.
    InlineMeta = 6,
    BlobMeta = 7,
    // A page's whole content.
    InlineNode = 8,
    BlobNode = 9,
    // A change to a page.
    InlineLink = 10,
    BlobLink = 11,
}

// What a record does to its page.
#[derive(Clone, Copy, PartialEq, Eq, Debug)]
pub enum LogKind {
    Replace,
    Link,
    Free,
}

// Where a record's content stands: in the message, or in a file that its body points to.
#[derive(Clone, Copy, PartialEq, Eq, Debug)]
pub enum Storage {
    Inline,
    Blob,
}

// What a kind means to a reader of the log.
#[derive(Clone, Copy, PartialEq, Eq, Debug)]
pub enum Meaning {
    Corrupted,
    Canceled,
    Cap,
    BatchManifest,
    Record(LogKind, Storage),
}

// The kind of a message whose fifth byte is `byte`.
impl From<u8> for MessageKind {
    ghost from_gives = { λ byte kind. kind ≡ kind_of byte };

    fn from(byte: u8) -> MessageKind {
        match byte {
            1 => MessageKind::Canceled,
            2 => MessageKind::Cap,
            3 => MessageKind::BatchManifest,
            4 => MessageKind::Free,
            5 => MessageKind::Counter,
            6 => MessageKind::InlineMeta,
            7 => MessageKind::BlobMeta,
            8 => MessageKind::InlineNode,
            9 => MessageKind::BlobNode,
            10 => MessageKind::InlineLink,
            11 => MessageKind::BlobLink,
            _ => MessageKind::Corrupted,
        }
    }
}

// The byte that a kind is written as.
impl From<MessageKind> for u8 {
    ghost from_gives = { λ kind byte. byte ≡ kind_number kind };

    fn from(kind: MessageKind) -> u8 {
        kind as u8
    }
}

impl MessageKind {
    pub fn meaning(self) -> Meaning
        ensures { result ≡ meant self }
    {
        match self {
            MessageKind::Corrupted => Meaning::Corrupted,
            MessageKind::Canceled => Meaning::Canceled,
            MessageKind::Cap => Meaning::Cap,
            MessageKind::BatchManifest => Meaning::BatchManifest,
            MessageKind::Free => Meaning::Record(LogKind::Free, Storage::Inline),
            MessageKind::Counter | MessageKind::InlineMeta | MessageKind::InlineNode => {
                Meaning::Record(LogKind::Replace, Storage::Inline)
            }
            MessageKind::BlobMeta | MessageKind::BlobNode => {
                Meaning::Record(LogKind::Replace, Storage::Blob)
            }
            MessageKind::InlineLink => Meaning::Record(LogKind::Link, Storage::Inline),
            MessageKind::BlobLink => Meaning::Record(LogKind::Link, Storage::Blob),
        }
    }
}
