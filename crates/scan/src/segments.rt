// The scan of a device: each header in turn.
ghost use Rattle.std.specs.Prelude.{◌≡◌, ◌<◌, true, length};
ghost use Rattle.device.specs.Reads.{inside, part};
ghost use Rattle.tables.specs.Views.{contents, capacity, Same};
ghost use Rattle.scan.specs.Headers.{head_at};
ghost use Rattle.scan.specs.Order.{unless, entered, top_mark, scanned};
ghost use Rattle.scan.specs.Offers.{mark_of};

use crate::header::UsedHeader;
use codec::Lsn;
use device::{Device, ReadAt};
use layout::{SEG_HEADER_LEN, SegmentSize};
use messages::LogOffset;
use refusals::Refusal;
use tables::SortedTable;

fn header_at<R: ReadAt>(view: &R, place: u64) -> [u8; SEG_HEADER_LEN]
    requires { inside (R.ReadAt.first view.now) (R.ReadAt.bytes view.now) place 20 ≡ true }
    ensures { result ≡ part (R.ReadAt.first view.now) (R.ReadAt.bytes view.now) place 20 }
{
    let mut header = [0u8; SEG_HEADER_LEN];
    let _ = view.pread_exact(&mut header, place);
    header
}

// The header at a place; what its mark counts. What it takes meets in one call alone.
fn visit<D: Device>(
    device: &D,
    order: &mut SortedTable<LogOffset>,
    size: SegmentSize,
    low: Lsn,
    place: LogOffset,
) -> Result<Lsn, Refusal>
    requires there { inside (D.ReadAt.first device.now) (D.ReadAt.bytes device.now) place 20 ≡ true }
    requires room { length (contents order.old) < capacity order.old }
    ensures reply { result ≡ unless (entered size low place (head_at (D.ReadAt.bytes device.now) place) (contents order.old)).fault (mark_of low (head_at (D.ReadAt.bytes device.now) place)) }
    ensures contents { contents order.new ≡ (entered size low place (head_at (D.ReadAt.bytes device.now) place) (contents order.old)).segments }
    ensures same { Same order.old order.new }
{
    let Some(header) = UsedHeader::read(&header_at(device, place), low) else {
        return Ok(0);
    };
    header.add_to(order, size, place)?;
    Ok(header.mark)
}

// Enters every used segment of the device into the order, in place of what it held, and replies the largest of `low` and their
// stable marks. Used is a header that checks and whose LSN is neither below zero nor below `low`.
// Refused: a size that no segment has, an order with fewer entries than counted segments, and, at each header in turn, an LSN or mark
// that cannot be, or an LSN that is there already. The order holds what was entered before.
pub fn scan<D: Device>(
    device: &D,
    size: u64,
    low: Lsn,
    order: &mut SortedTable<LogOffset>,
) -> Result<Lsn, Refusal>
    ensures reply { result ≡ unless (scanned (capacity order.old) size (D.ReadAt.bytes device.now) low).fault
        (top_mark (D.ReadAt.bytes device.now) low (scanned (capacity order.old) size (D.ReadAt.bytes device.now) low).segments) }
    ensures contents { contents order.new ≡ (scanned (capacity order.old) size (D.ReadAt.bytes device.now) low).segments }
    ensures same { Same order.old order.new }
{
    order.clear();
    let size = SegmentSize::new(size).ok_or(Refusal::Size)?;
    let count = size.count_in(device.len());
    if count > order.capacity() as u64 {
        return Err(Refusal::Buffer);
    }
    let mut top = low;
    for i in 0..count {
        let mark = visit(device, order, size, low, i * size.bytes())?;
        top = top.max(mark);
    }
    Ok(top)
}
