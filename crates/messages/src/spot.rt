// Where a message is looked for.
use device::ReadAt;
use layout::SegmentSize;

// A place on the device, and the segment number that a message there must have.
#[derive(Clone, Copy)]
pub(crate) struct Spot<'a, R: ReadAt> {
    pub(crate) view: &'a R,
    pub(crate) size: SegmentSize,
    pub(crate) number: u64,
    pub(crate) place: u64,
}
