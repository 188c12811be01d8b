// The first walk: how far the tail of the log reaches.
ghost use Rattle.std.specs.Prelude.{◌≡◌, ◌^◌, ◌≤◌, length, OnOk};
ghost use Rattle.std.specs.List.{All};
ghost use Rattle.scan.specs.Order.{unless};
ghost use Rattle.tables.specs.Views.{contents};
ghost use Rattle.walks.specs.Walks.{tail, first_walk};
ghost use Rattle.recovery.specs.Small.{Small};
ghost use Rattle.recovery.specs.State.{Sane, rest_of};

use crate::course::Course;
use crate::iterator::LogIter;
use crate::tail::find_tail;
use blobs::BlobSource;
use codec::Lsn;
use device::Device;
use layout::SegmentSize;
use messages::LogOffset;
use refusals::Refusal;
use tables::SortedTable;

// Walks to the end, and drops the records.
fn drain<D: Device, B: BlobSource>(
    iter: &mut LogIter<D, B>,
    buffer: &mut [u8],
    body: &mut [u8],
) -> Result<(), Refusal>
    requires { Sane B.BlobSource.notes D.ReadAt.bytes buffer.old (length body.old) iter.old }
    ensures reply { result ≡ unless (rest_of B.BlobSource.notes D.ReadAt.bytes iter.old).fault tt }
    ensures current { OnOk result (iter.new.current ≡ (rest_of B.BlobSource.notes D.ReadAt.bytes iter.old).current) }
{
    while iter.next(buffer, body)?.is_some() {}
    Ok(())
}

// The LSN at which the tail that starts at `start` ends; none where it is empty.
pub(crate) fn walk_tail<D: Device, B: BlobSource>(
    device: &D,
    source: &B,
    size: SegmentSize,
    order: &SortedTable<'_, LogOffset>,
    start: Lsn,
    buffer: &mut [u8],
    body: &mut [u8],
) -> Result<Option<Lsn>, Refusal>
    requires segments { All (Small size) (contents order.now) }
    requires start { start ≤ 2 ^ 62 }
    requires long { size ≤ length buffer.old }
    requires room { size ≤ length body.old }
    ensures { result ≡ unless (first_walk (B.BlobSource.notes source.now) size (D.ReadAt.bytes device.now) (tail size start (contents order.now))).fault
        (first_walk (B.BlobSource.notes source.now) size (D.ReadAt.bytes device.now) (tail size start (contents order.now))).current }
{
    let tail = find_tail(order, size, start);
    let course = Course {
        device,
        source,
        size,
        limit: tail.limit,
        last: false,
    };
    let mut iter = LogIter {
        course,
        rest: tail.segments,
        held: None,
        current: None,
    };
    drain(&mut iter, buffer, body)?;
    Ok(iter.current)
}
