// The walk over the messages of a log, segment by segment.
ghost use Rattle.std.specs.Prelude.{◌≡◌, ◌+◌, ◌^◌, ◌<◌, length, Some, None, Ok};
ghost use Rattle.recovery.specs.State.{Sane, Turned, Next, passed, ended};

use crate::course::{Course, Held, Segment};
use blobs::BlobSource;
use codec::Lsn;
use device::Device;
use messages::{Record, is_entry};
use refusals::Refusal;
use std::ops::ControlFlow;
use walks::{Turn, past, turn_of};

// A walk, and where it is. Its buffers are lent to each call: that one field is read while another is written, behind one `&mut`,
// the check does not cover, neither by the fields, nor by a reborrow, nor by a pattern.
#[derive(Drop)]
pub(crate) struct LogIter<'a, 's, D, B> {
    pub(crate) course: Course<'a, D, B>,
    // The segments that are still to be taken.
    pub(crate) rest: &'s [Segment],
    pub(crate) held: Option<Held>,
    pub(crate) current: Option<Lsn>,
}

impl<D: Device, B: BlobSource> LogIter<'_, '_, D, B> {
    // Takes the next segment, or ends.
    fn enter(&mut self, buffer: &mut [u8], body: usize) -> ControlFlow<Option<Record>, ()>
        requires sane { Sane B.BlobSource.notes D.ReadAt.bytes buffer.old body self.old }
        requires none { self.old.held ≡ None }
        ensures { Turned B.BlobSource.notes D.ReadAt.bytes buffer.new body self.old self.new (Ok result) }
    {
        let Some((s, others)) = self.rest.split_first() else {
            return ControlFlow::Break(None);
        };
        if past(s.key, self.course.limit) {
            return ControlFlow::Break(None);
        }
        let have = self.course.load(buffer, s.value);
        self.rest = others;
        self.current = Some(s.key + 20);
        self.held = Some(Held {
            segment: *s,
            have,
            progress: 20,
        });
        ControlFlow::Continue(())
    }

    // One message of the held segment.
    fn message(
        &mut self,
        held: Held,
        buffer: &[u8],
        body: &mut [u8],
    ) -> Result<ControlFlow<Option<Record>, ()>, Refusal>
        requires sane { Sane B.BlobSource.notes D.ReadAt.bytes buffer.now (length body.old) self.old }
        requires held { self.old.held ≡ Some held }
        ensures { Turned B.BlobSource.notes D.ReadAt.bytes buffer.now (length body.old) self.old self.new result }
    {
        let s = held.segment;
        if !is_entry(self.course.size.bytes(), held.progress) {
            self.held = None;
            return Ok(ControlFlow::Continue(()));
        }
        if past(s.key + held.progress, self.course.limit) {
            return Ok(ControlFlow::Break(None));
        }
        let read = self.course.read(held, buffer, body);
        match turn_of(self.course.limit, self.course.last, read)? {
            Turn::Yield(record) => {
                self.pass(held, record.len);
                Ok(ControlFlow::Break(Some(record)))
            }
            Turn::Pass(len) => {
                self.pass(held, len);
                Ok(ControlFlow::Continue(()))
            }
            Turn::Release => {
                self.held = None;
                Ok(ControlFlow::Continue(()))
            }
            Turn::Stop => Ok(ControlFlow::Break(None)),
        }
    }

    // Goes on behind a message of this length.
    fn pass(&mut self, held: Held, len: u64)
        requires progress { held.progress + len < 2 ^ 64 }
        requires lsn { held.segment.key + (held.progress + len) < 2 ^ 64 }
        ensures { self.new ≡ passed self.old held len }
    {
        let progress = held.progress + len;
        self.held = Some(Held { progress, ..held });
        self.current = Some(held.segment.key + progress);
    }

    fn step(
        &mut self,
        buffer: &mut [u8],
        body: &mut [u8],
    ) -> Result<ControlFlow<Option<Record>, ()>, Refusal>
        requires { Sane B.BlobSource.notes D.ReadAt.bytes buffer.old (length body.old) self.old }
        ensures { Turned B.BlobSource.notes D.ReadAt.bytes buffer.new (length body.old) self.old self.new result }
    {
        match self.held {
            None => Ok(self.enter(buffer, body.len())),
            Some(held) => self.message(held, buffer, body),
        }
    }

    // The next record, or the end.
    pub(crate) fn next(
        &mut self,
        buffer: &mut [u8],
        body: &mut [u8],
    ) -> Result<Option<Record>, Refusal>
        requires { Sane B.BlobSource.notes D.ReadAt.bytes buffer.old (length body.old) self.old }
        ensures { Next B.BlobSource.notes D.ReadAt.bytes buffer.new (length body.old) self.old self.new (ended result) }
    {
        loop {
            if let ControlFlow::Break(record) = self.step(buffer, body)? {
                return Ok(record);
            }
        }
    }
}
