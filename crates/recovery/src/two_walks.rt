// The two walks of a recover.
ghost use Rattle.std.specs.Prelude.{◌≡◌, ℕ, ◌^◌, ◌≤◌, true, length, Some, None};
ghost use Rattle.std.specs.List.{All};
ghost use Rattle.tables.specs.Views.{contents};
ghost use Rattle.walks.specs.Walk.{walk};
ghost use Rattle.walks.specs.Walks.{tail, first_walk, last_walk};
ghost use Rattle.recovery.specs.Flat.{SameTables};
ghost use Rattle.recovery.specs.Folds.{Foldable, Came};
ghost use Rattle.recovery.specs.Small.{Small};

use crate::finish::Reached;
use crate::first_walk::walk_tail;
use crate::last_walk::walk_order;
use crate::page_table::PageTable;
use blobs::BlobSource;
use codec::Lsn;
use device::Device;
use layout::SegmentSize;
use messages::LogOffset;
use refusals::Refusal;
use tables::SortedTable;

// The first walk goes over the tail that starts at `start`, and says how far the last one goes.
#[tactic(auto, unfolding(walks::specs::Walks::last_walk, walks::specs::Walks::last_limit, crate::specs::Folds::fold_reply, scan::specs::Order::unless, pages::specs::Pages::fold))]
pub(crate) fn walk_log<'s, D: Device, B: BlobSource>(
    device: &D,
    source: &B,
    size: SegmentSize,
    order: &'s SortedTable<'s, LogOffset>,
    start: Lsn,
    low: Lsn,
    pages: &mut PageTable<'_>,
    segment: &mut [u8],
    body: &mut [u8],
) -> Result<Reached<'s>, Refusal>
    requires segments { All (Small size) (contents order.now) }
    requires start { start ≤ 2 ^ 62 }
    requires foldable { (limit : ℕ) → Foldable low pages.old (walk (B.BlobSource.notes source.now) size (D.ReadAt.bytes device.now) (Some limit) true None (contents order.now)).records }
    requires long { size ≤ length segment.old }
    requires room { size ≤ length body.old }
    ensures reply { Came low pages.old pages.new (last_walk (B.BlobSource.notes source.now) size (D.ReadAt.bytes device.now) start (contents order.now)
        (first_walk (B.BlobSource.notes source.now) size (D.ReadAt.bytes device.now) (tail size start (contents order.now)))) result }
    ensures tables { SameTables pages.old pages.new }
{
    let current = walk_tail(device, source, size, order, start, segment, body)?;
    let limit = current.unwrap_or(start);
    walk_order(
        device, source, size, order, limit, low, pages, segment, body,
    )
}
