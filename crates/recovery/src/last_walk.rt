// The last walk: what the records of a log make of the pages.
ghost use Rattle.std.specs.Prelude.{◌≡◌, ◌≤◌, true, length, Some, None, Ok};
ghost use Rattle.std.specs.List.{All};
ghost use Rattle.std.specs.Result.{result_and};
ghost use Rattle.tables.specs.Views.{contents};
ghost use Rattle.walks.specs.Walk.{walk};
ghost use Rattle.recovery.specs.Small.{Small};
ghost use Rattle.recovery.specs.Flat.{Kept, SameTables};
ghost use Rattle.recovery.specs.Folds.{Foldable, Took, Came, reached_by};
ghost use Rattle.recovery.specs.State.{Sane, rest_of};

use crate::course::Course;
use crate::finish::Reached;
use crate::iterator::LogIter;
use crate::page_table::PageTable;
use blobs::BlobSource;
use codec::Lsn;
use device::Device;
use layout::SegmentSize;
use messages::{LogOffset, Record};
use refusals::Refusal;
use tables::SortedTable;

// Records below `low` are passed over.
#[tactic(auto, using(crate::proofs::Folds::passed_over, crate::proofs::Folds::took_one))]
fn take(pages: &mut PageTable<'_>, low: Lsn, r: Record) -> Result<(), Refusal>
    requires { low ≤ r.lsn → Kept r.lsn pages.old }
    ensures took { Took low r pages.old pages.new result }
    ensures tables { SameTables pages.old pages.new }
{
    if r.lsn < low {
        return Ok(());
    }
    pages.apply(r)
}

// Walks to the end.
fn fold<D: Device, B: BlobSource>(
    iter: &mut LogIter<D, B>,
    low: Lsn,
    pages: &mut PageTable<'_>,
    buffer: &mut [u8],
    body: &mut [u8],
) -> Result<(), Refusal>
    requires sane { Sane B.BlobSource.notes D.ReadAt.bytes buffer.old (length body.old) iter.old }
    requires foldable { Foldable low pages.old (rest_of B.BlobSource.notes D.ReadAt.bytes iter.old).records }
    ensures reply { Came low pages.old pages.new (rest_of B.BlobSource.notes D.ReadAt.bytes iter.old) (result_and result (Ok (reached_by iter.new))) }
    ensures tables { SameTables pages.old pages.new }
{
    while let Some(record) = iter.next(buffer, body)? {
        take(pages, low, record)?;
    }
    Ok(())
}

// Walks over the whole order, up to the LSN `limit`.
#[tactic(auto, unfolding(crate::specs::State::rest))]
pub(crate) fn walk_order<'s, D: Device, B: BlobSource>(
    device: &D,
    source: &B,
    size: SegmentSize,
    order: &'s SortedTable<'s, LogOffset>,
    limit: Lsn,
    low: Lsn,
    pages: &mut PageTable<'_>,
    buffer: &mut [u8],
    body: &mut [u8],
) -> Result<Reached<'s>, Refusal>
    requires segments { All (Small size) (contents order.now) }
    requires foldable { Foldable low pages.old (walk (B.BlobSource.notes source.now) size (D.ReadAt.bytes device.now) (Some limit) true None (contents order.now)).records }
    requires long { size ≤ length buffer.old }
    requires room { size ≤ length body.old }
    ensures reply { Came low pages.old pages.new (walk (B.BlobSource.notes source.now) size (D.ReadAt.bytes device.now) (Some limit) true None (contents order.now)) result }
    ensures tables { SameTables pages.old pages.new }
{
    let course = Course {
        device,
        source,
        size,
        limit: Some(limit),
        last: true,
    };
    let mut iter = LogIter {
        course,
        rest: order.entries(),
        held: None,
        current: None,
    };
    fold(&mut iter, low, pages, buffer, body)?;
    Ok(Reached {
        current: iter.current,
        held: iter.held.map(|h| h.segment),
        left: iter.rest,
    })
}
