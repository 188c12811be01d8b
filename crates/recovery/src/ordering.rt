// The order of a log's segments, and where its tail starts.
ghost use Rattle.std.specs.Prelude.{◌≡◌, ◌*◌, ◌/◌, ◌≤◌, length};
ghost use Rattle.layout.specs.Sizes.{counted};
ghost use Rattle.scan.specs.Order.{unless, gathered, top_mark};
ghost use Rattle.tables.specs.Views.{contents, capacity, Same};
ghost use Rattle.walks.specs.Walks.{start_of};

use codec::Lsn;
use device::Device;
use layout::SegmentSize;
use messages::LogOffset;
use refusals::Refusal;
use scan::scan;
use tables::SortedTable;

// Rounded down to a segment.
pub(crate) fn rounded(size: SegmentSize, lsn: Lsn) -> Lsn
    ensures { result ≡ lsn / size * size }
{
    lsn / size.bytes() * size.bytes()
}

// Puts the used segments in order, and says where the tail starts.
#[tactic(auto, using(crate::proofs::Orders::scanned_whole), unfolding(walks::specs::Walks::start_of, scan::specs::Order::unless))]
pub(crate) fn order_segments<D: Device>(
    device: &D,
    size: SegmentSize,
    low: Lsn,
    order: &mut SortedTable<LogOffset>,
) -> Result<Lsn, Refusal>
    requires { counted (length (D.ReadAt.bytes device.now)) size ≤ capacity order.old }
    ensures reply { result ≡ unless (gathered size (D.ReadAt.bytes device.now) low).fault
        (start_of size (top_mark (D.ReadAt.bytes device.now) low (gathered size (D.ReadAt.bytes device.now) low).segments)) }
    ensures contents { contents order.new ≡ (gathered size (D.ReadAt.bytes device.now) low).segments }
{
    let mark = scan(device, size.bytes(), low, order)?;
    Ok(rounded(size, mark))
}
