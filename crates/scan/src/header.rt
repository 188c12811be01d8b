// One segment header, and what it adds to the order of segments.
ghost use Rattle.std.specs.Prelude.{◌≡◌, ◌<◌, length};
ghost use Rattle.tables.specs.Views.{contents, capacity, Same};
ghost use Rattle.scan.specs.Headers.{odd};
ghost use Rattle.scan.specs.Order.{unless, added};
ghost use Rattle.scan.specs.Offers.{offered};

use codec::{Lsn, SegmentHeader, Serialize};
use layout::{SEG_HEADER_LEN, SegmentSize};
use messages::LogOffset;
use refusals::Refusal;
use tables::SortedTable;

// LSNs and stable marks stay below this.
const MAX_LSN: u64 = 0x4000_0000_0000_0000;

// A header that is used: its LSN, and what its stable mark counts, which is nothing where the mark is below zero.
#[derive(Clone, Copy)]
pub(crate) struct UsedHeader {
    lsn: Lsn,
    pub(crate) mark: Lsn,
}

impl UsedHeader {
    // None where the header does not check, or its LSN is below zero or below `low`.
    pub(crate) fn read(bytes: &[u8; SEG_HEADER_LEN], low: Lsn) -> Option<UsedHeader>
        ensures { result ≡ offered low bytes.now }
    {
        let (header, _) = SegmentHeader::deserialize(bytes).ok()?;
        if !header.ok() {
            return None;
        }
        let lsn = header.lsn.lsn()?;
        if lsn < low {
            return None;
        }
        let mark = header.max_stable_lsn.lsn().unwrap_or(0);
        Some(UsedHeader { lsn, mark })
    }

    // Whether its LSN or mark cannot be.
    #[tactic(auto, unfolding(crate::specs::Headers::odd))]
    fn is_odd(self, size: SegmentSize) -> bool
        ensures { result ≡ odd size self.lsn self.mark }
    {
        self.lsn % size.bytes() != 0 || self.lsn >= MAX_LSN || self.mark >= MAX_LSN
    }

    // Enters the segment at `place`: refused where the header is odd, or its LSN is there already.
    #[tactic(auto, unfolding(crate::specs::Order::unless, crate::specs::Order::added))]
    pub(crate) fn add_to(
        self,
        order: &mut SortedTable<LogOffset>,
        size: SegmentSize,
        place: LogOffset,
    ) -> Result<(), Refusal>
        requires room { length (contents order.old) < capacity order.old }
        ensures reply { result ≡ unless (added size place self.lsn self.mark (contents order.old)).fault tt }
        ensures contents { contents order.new ≡ (added size place self.lsn self.mark (contents order.old)).segments }
        ensures same { Same order.old order.new }
    {
        if self.is_odd(size) {
            return Err(Refusal::Header(place));
        }
        if order.find(self.lsn).is_some() {
            return Err(Refusal::SameLsn(place));
        }
        order.insert(self.lsn, place)?;
        Ok(())
    }
}
