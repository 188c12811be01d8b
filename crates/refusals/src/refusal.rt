// The causes, by name.
ghost use Rattle.std.specs.Prelude.{◌≡◌};
ghost use Rattle.refusals.specs.Numbers.{number_of, fault_of};
ghost use Rattle.refusals.specs.declared.refusal.Refusal.TheVariants.{Buffer};

use tables::TableFault;

// Where in a recovery a fault was met.
#[derive(Clone, Copy, PartialEq, Eq, Debug)]
pub enum Layer {
    Scan,
    Message,
    Blob,
    Page,
}

// A place is that of the header or message on the device. A page fault has none where it is met in the snapshot given.
#[derive(Clone, Copy, PartialEq, Eq, Debug)]
pub enum Refusal {
    // The size is none that a segment may have, or not the device's block size.
    Size,
    // The snapshot given is not well formed, or its active segment passes the capacity.
    Snapshot,
    // A used header's LSN is no multiple of the size, or its LSN or stable mark is too large.
    Header(u64),
    // Two used headers have one LSN.
    SameLsn(u64),
    // A manifest's or blob message's body has not 8 bytes.
    Body(u64),
    // A blob is damaged, or of another kind than its message.
    Blob(u64),
    // A page number that the result page table does not reach.
    PageNumber(Option<u64>),
    // What a put was given makes no message for this log.
    Message,
    // A slot that the device has no room for.
    Slot,
    // A read or write outside.
    Outside,
    // A buffer or table too short.
    Buffer,
    // The log was started on a device with bytes.
    HeldBytes,
    NoActiveSegment,
    // The active segment has too few bytes left.
    SegmentFull,
    // The slot's header checks.
    SlotUsed,
    BatchOpen,
    NoBatch,
    // Too many segments, or one that ends above the capacity.
    Segments,
    // More fragments than the result fragment table has entries.
    Fragments(Option<u64>),
    // The stable LSN would fall.
    StableFell,
    // More blocks to be made loose than are spare.
    NoSpare,
    // An attached log has to be recovered first.
    NotRecovered,
}

impl From<TableFault> for Refusal {
    ghost from_gives = { λ _ r. r ≡ Buffer };

    fn from(fault: TableFault) -> Refusal {
        match fault {
            TableFault::Full => Refusal::Buffer,
        }
    }
}

impl Refusal {
    // By `match`: a variant with a place has no `as`.
    pub fn number(self) -> u8
        ensures { result ≡ number_of self }
    {
        match self {
            Refusal::Size => 1,
            Refusal::Snapshot => 2,
            Refusal::Header(_) => 3,
            Refusal::SameLsn(_) => 4,
            Refusal::Body(_) => 5,
            Refusal::Blob(_) => 6,
            Refusal::PageNumber(_) => 7,
            Refusal::Message => 8,
            Refusal::Slot => 9,
            Refusal::Outside => 10,
            Refusal::Buffer => 11,
            Refusal::HeldBytes => 20,
            Refusal::NoActiveSegment => 21,
            Refusal::SegmentFull => 22,
            Refusal::SlotUsed => 23,
            Refusal::BatchOpen => 24,
            Refusal::NoBatch => 25,
            Refusal::Segments => 26,
            Refusal::Fragments(_) => 27,
            Refusal::StableFell => 28,
            Refusal::NoSpare => 29,
            Refusal::NotRecovered => 30,
        }
    }

    // The layer and the device place that a fault names.
    pub fn fault(self) -> Option<(Layer, u64)>
        ensures { result ≡ fault_of self }
    {
        match self {
            Refusal::Header(place) | Refusal::SameLsn(place) => Some((Layer::Scan, place)),
            Refusal::Body(place) => Some((Layer::Message, place)),
            Refusal::Blob(place) => Some((Layer::Blob, place)),
            Refusal::PageNumber(Some(place)) | Refusal::Fragments(Some(place)) => {
                Some((Layer::Page, place))
            }
            _ => None,
        }
    }
}
