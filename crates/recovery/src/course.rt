// What a walk reads, and how far it goes.
ghost use Rattle.std.specs.Prelude.{◌≡◌, ◌≤◌, true, length, take};
ghost use Rattle.layout.specs.Sizes.{is_segment_size};
ghost use Rattle.walks.specs.Walk.{segment_bytes, read_in};
ghost use Rattle.recovery.specs.Small.{Small};

use blobs::BlobSource;
use codec::Lsn;
use device::{BasedBuf, Device};
use layout::SegmentSize;
use messages::{LogOffset, LogRead, read_message};
use refusals::Refusal;
use tables::Entry;

// A used segment: its LSN and its place.
pub(crate) type Segment = Entry<LogOffset>;

#[derive(Drop)]
pub(crate) struct Course<'a, D, B> {
    pub(crate) device: &'a D,
    pub(crate) source: &'a B,
    pub(crate) size: SegmentSize,
    // LSNs from here on are not walked.
    pub(crate) limit: Option<Lsn>,
    // Whether it is the last walk of a recovery: a flag, since one case of a turn alone asks for it.
    pub(crate) last: bool,
}

// A segment at hand: how many of its bytes stand in the lent buffer, and how far they are read.
#[derive(Clone, Copy)]
pub(crate) struct Held {
    pub(crate) segment: Segment,
    pub(crate) have: usize,
    pub(crate) progress: u64,
}

impl<D: Device, B: BlobSource> Course<'_, D, B> {
    // Copies a segment's bytes to the front of the buffer, as many as there are, and says how many.
    pub(crate) fn load(&self, buffer: &mut [u8], place: LogOffset) -> usize
        requires { self.now.size ≤ length buffer.old }
        ensures bytes { take result buffer.new ≡ segment_bytes self.now.size (D.ReadAt.bytes self.now.device.now) place }
        ensures within { result ≤ length buffer.new }
        ensures sized { is_segment_size self.now.size ≡ true }
    {
        let size = self.size.bytes() as usize;
        self.device
            .pread_exact_or_eof(&mut buffer[..size], place)
            .unwrap_or(0)
    }

    // The message at the progress of a segment at hand.
    pub(crate) fn read(
        &self,
        held: Held,
        buffer: &[u8],
        body: &mut [u8],
    ) -> Result<LogRead, Refusal>
        requires small { Small self.now.size held.segment }
        requires within { held.progress ≤ self.now.size }
        requires have { held.have ≤ length buffer.now }
        requires bytes { take held.have buffer.now ≡ segment_bytes self.now.size (D.ReadAt.bytes self.now.device.now) held.segment.value }
        requires room { self.now.size ≤ length body.old }
        ensures { result ≡ read_in (B.BlobSource.notes self.now.source.now) self.now.size (D.ReadAt.bytes self.now.device.now) held.segment held.progress }
    {
        let s = held.segment;
        let view = BasedBuf {
            buf: &buffer[..held.have],
            offset: s.value,
        };
        read_message(
            &view,
            self.source,
            body,
            self.size.bytes(),
            s.value + held.progress,
            s.key + held.progress,
        )
    }
}
