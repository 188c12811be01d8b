// What a recover looks at before it reads a segment.
ghost use Rattle.std.specs.Prelude.{◌≡◌, ◌+◌, if◌then◌else◌, length, Some, None, Ok, Err};
ghost use Rattle.pages.specs.Shown.{tidy};
ghost use Rattle.pages.specs.Snapshots.{snap_of};
ghost use Rattle.walks.specs.Recover.{passes};
ghost use Rattle.recovery.specs.Checks.{first_reply};
ghost use Rattle.recovery.specs.Finishing.{meaning_of};

use device::Device;
use layout::SegmentSize;
use messages::LogOffset;
use pages::Snapshot;
use refusals::Refusal;

// The most segments that a log may have.
const MAX_SEGMENTS: u64 = 1024;

// How much memory is lent: bytes for a segment and for a body, entries for the order, pages and fragments.
#[derive(Clone, Copy)]
pub(crate) struct Budget {
    pub(crate) segment: usize,
    pub(crate) body: usize,
    pub(crate) order: usize,
    pub(crate) pages: usize,
    pub(crate) fragments: usize,
}

// Whether an active segment would end above the capacity.
#[tactic(auto, unfolding(walks::specs::Recover::passes))]
fn passes(size: SegmentSize, capacity: u64, active: Option<LogOffset>) -> bool
    ensures { result ≡ passes size capacity active }
{
    active.is_some_and(|place| size.bytes() > capacity || place > capacity - size.bytes())
}

// The size, where it is fit for the device, the memory is enough and the snapshot given fits both.
#[tactic(auto, using(pages::proofs::Layouts::fragments_counted), unfolding(crate::specs::Checks::first_reply, crate::specs::Checks::unless_some, walks::specs::Recover::checked, walks::specs::Recover::at_first, pages::specs::Snapshots::formed, pages::specs::Snapshots::snap_of))]
pub(crate) fn check_first<D: Device>(
    device: &D,
    size: u64,
    given: &Snapshot<'_>,
    budget: Budget,
) -> Result<SegmentSize, Refusal>
    ensures { result ≡ first_reply (meaning_of D.ReadAt.bytes D.Device.capacity D.Device.block_size D.Device.loose D.Device.spare device.now) size given.now budget }
{
    let fit = SegmentSize::new(size).ok_or(Refusal::Size)?;
    if fit != device.block_size() {
        return Err(Refusal::Size);
    }
    let count = fit.count_in(device.len());
    if (budget.segment as u64) < size
        || (budget.body as u64) < size
        || (budget.order as u64) < count
    {
        return Err(Refusal::Buffer);
    }
    if count > MAX_SEGMENTS || count * size > device.capacity() {
        return Err(Refusal::Segments);
    }
    if !given.is_well_formed(size) || passes(fit, device.capacity(), given.active_segment) {
        return Err(Refusal::Snapshot);
    }
    if budget.pages < given.pages.len() {
        return Err(Refusal::PageNumber(None));
    }
    if budget.fragments < given.fragments.len() {
        return Err(Refusal::Fragments(None));
    }
    Ok(fit)
}
