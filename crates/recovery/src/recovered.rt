// A recover: from a device, a blob source and a snapshot to a new snapshot.
ghost use Rattle.std.specs.Prelude.{◌≡◌, length, take, replicate, OnErr};
ghost use Rattle.recovery.specs.Finishing.{meaning_of};
ghost use Rattle.recovery.specs.Flat.{Cleared, SameTables};
ghost use Rattle.recovery.specs.Recovers.{lent, recover_of, Attempted, Recovers};

use crate::checks::{Budget, check_first};
use crate::course::Segment;
use crate::finish::finish;
use crate::ordering::{order_segments, rounded};
use crate::page_table::PageTable;
use crate::two_walks::walk_log;
use blobs::BlobSource;
use codec::Lsn;
use device::Device;
use messages::LogOffset;
use pages::{Fragment, PageState, Snapshot};
use refusals::Refusal;
use tables::{Entry, SortedTable};

// What a recover comes to. So many pages and fragments stand at the front of the result tables.
#[derive(Clone, Copy, PartialEq, Eq, Debug)]
pub struct Recovered {
    pub stable_lsn: Option<Lsn>,
    pub active_segment: Option<LogOffset>,
    pub pages: usize,
    pub fragments: usize,
}

impl Recovered {
    // The snapshot that came out, over the result tables that it stands in.
    pub fn snapshot<'a>(&self, pages: &'a [PageState], fragments: &'a [Fragment]) -> Snapshot<'a>
        ensures stable { result.stable_lsn ≡ self.now.stable_lsn }
        ensures active { result.active_segment ≡ self.now.active_segment }
        ensures pages { result.pages.now ≡ take self.now.pages pages.now }
        ensures fragments { result.fragments.now ≡ take self.now.fragments fragments.now }
    {
        Snapshot {
            stable_lsn: self.stable_lsn,
            active_segment: self.active_segment,
            pages: &pages[..self.pages.min(pages.len())],
            fragments: &fragments[..self.fragments.min(fragments.len())],
        }
    }
}

// The buffers and the tables are left as they come.
fn attempt<D: Device, B: BlobSource>(
    device: &mut D,
    source: &B,
    size: u64,
    given: &Snapshot<'_>,
    segment: &mut [u8],
    body: &mut [u8],
    order: &mut [Segment],
    pages: &mut PageTable<'_>,
) -> Result<Recovered, Refusal>
    requires { Cleared pages.old }
    ensures kept { OnErr result (device.new ≡ device.old) }
    ensures told { let means = meaning_of D.ReadAt.bytes D.Device.capacity D.Device.block_size D.Device.loose D.Device.spare in
        let budget = lent (length segment.old) (length body.old) (length order.old) (length pages.old.states.now) (length pages.old.fragments.now) in
        Attempted size (means device.old) (means device.new) pages.new (recover_of (B.BlobSource.notes source.now) (means device.old) size given.now budget) result }
    ensures tables { SameTables pages.old pages.new }
{
    let budget = pages.budget(segment.len(), body.len(), order.len());
    let size = check_first(device, size, given, budget)?;
    pages.load(given);
    let low = given.stable_lsn.unwrap_or(0);
    let mut order = SortedTable::new(order, 0);
    let start = order_segments(device, size, rounded(size, low), &mut order)?;
    let reached = walk_log(
        device, source, size, &order, start, low, pages, segment, body,
    )?;
    pages.settle();
    segment.fill(0);
    let (stable_lsn, active_segment) = finish(device, size, segment, given, reached)?;
    Ok(Recovered {
        stable_lsn,
        active_segment,
        pages: pages.count(),
        fragments: pages.used(),
    })
}

// Recovers a log: from the stable LSN of the snapshot given on, its records make the pages, and what is left of unfinished writing is zeroed.
// The buffers have room for a segment and for a body, the order an entry for each segment. All three are zeros at the end, and of the
// result tables what is not in use is cleared. A refusal leaves the device as it was, and the result tables clear.
pub fn recover<D: Device, B: BlobSource>(
    device: &mut D,
    source: &B,
    size: u64,
    given: &Snapshot<'_>,
    segment: &mut [u8],
    body: &mut [u8],
    order: &mut [Entry<LogOffset>],
    pages: &mut [PageState],
    fragments: &mut [Fragment],
) -> Result<Recovered, Refusal>
    ensures done { let means = meaning_of D.ReadAt.bytes D.Device.capacity D.Device.block_size D.Device.loose D.Device.spare in
        let budget = lent (length segment.old) (length body.old) (length order.old) (length pages.old) (length fragments.old) in
        Recovers size (means device.old) (means device.new) (recover_of (B.BlobSource.notes source.now) (means device.old) size given.now budget) result pages.new fragments.new }
    ensures kept { OnErr result (device.new ≡ device.old) }
    ensures segment { segment.new ≡ replicate (length segment.old) 0 }
    ensures body { body.new ≡ replicate (length body.old) 0 }
    ensures order { order.new ≡ replicate (length order.old) (record { key = 0; value = 0 }) }
{
    let mut table = PageTable::new(pages, fragments);
    let reply = attempt(
        device, source, size, given, segment, body, order, &mut table,
    );
    if reply.is_err() {
        table.clear();
    }
    segment.fill(0);
    body.fill(0);
    order.fill(Entry { key: 0, value: 0 });
    reply
}
