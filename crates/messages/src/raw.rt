// The bytes of a message, judged before its kind is looked at.
ghost use Rattle.std.specs.Prelude.{◌≡◌, ◌+◌, ◌-◌, ◌%◌, ◌≤◌, true, false, length, replicate, MatchResult, Ok, Err, if◌then◌else◌};
ghost use Rattle.layout.specs.Sizes.{is_segment_size};
ghost use Rattle.device.specs.Reads.{inside, part};
ghost use Rattle.messages.specs.declared.log_read.NoMessage.TheVariants.{Short};
ghost use Rattle.messages.specs.Spots.{Entered};
ghost use Rattle.messages.specs.Raw.{is_entry, starts, ahead, word_in, decided, judged, raw_at, body_read, body_needed, cleared};

use crate::log_read::{Found, NoMessage};
use crate::spot::Spot;
use codec::{MessageHeader, Serialize, Word, calculate_message_crc32, has_room};
use device::ReadAt;
use layout::MessageKind;

// How many bytes are read ahead of a message: its header and perhaps its body.
const AHEAD: usize = 128;

// Whether a message may begin at a progress: behind the segment's header, with room for the longest message header.
pub fn is_entry(size: u64, p: u64) -> bool
    ensures { result ≡ is_entry size p }
{
    p >= 20 && p <= size && size - p >= 32
}

// The body as an eight-byte field, where it has that length.
#[tactic(auto, using(crate::proofs::Words::word_is, crate::proofs::Words::word_none), unfolding(crate::specs::Raw::word_in))]
fn word_of(body: &[u8]) -> Option<Word>
    ensures { result ≡ word_in body.now }
{
    if body.len() != 8 {
        return None;
    }
    let (word, _) = Word::deserialize(body).ok()?;
    Some(word)
}

// By checksum and segment number.
#[tactic(auto, unfolding(crate::specs::Raw::decided))]
fn decide(h: MessageHeader, number: u64, header: &[u8], body: &[u8]) -> Result<Found, NoMessage>
    requires { length header.now + h.len ≤ 1048576 }
    ensures { result ≡ decided h number header.now body.now }
{
    if h.crc32 != calculate_message_crc32(header, body) {
        return Err(NoMessage::Corrupted);
    }
    if h.segment_number != number {
        return Err(NoMessage::Corrupted);
    }
    Ok(Found {
        kind: h.kind,
        pid: h.pid,
        len: header.len() as u64 + h.len,
        word: word_of(body),
    })
}

impl<R: ReadAt> Spot<'_, R> {
    // A body that is not whole among the bytes read ahead, through the lent buffer, which is zeroed again.
    fn judge_long(
        &self,
        body: &mut [u8],
        h: MessageHeader,
        header: &[u8],
        from: u64,
    ) -> Result<Found, NoMessage>
        requires room { h.len ≤ length body.old }
        requires small { length header.now + h.len ≤ 1048576 }
        ensures value { result ≡ (if inside (R.ReadAt.first self.now.view.now) (R.ReadAt.bytes self.now.view.now) from h.len
            then decided h self.now.number header.now (part (R.ReadAt.first self.now.view.now) (R.ReadAt.bytes self.now.view.now) from h.len) else Err Short) }
        ensures body { body.new ≡ cleared (if inside (R.ReadAt.first self.now.view.now) (R.ReadAt.bytes self.now.view.now) from h.len then h.len else 0) body.old }
    {
        let whole = &mut body[0..h.len as usize];
        self.view.pread_exact(whole, from)?;
        let found = decide(h, self.number, header, whole);
        whole.fill(0);
        found
    }

    // By length and kind, then by what there is of the body. The body buffer is lent, and at least a segment long.
    // A struct of the window and where its header ends would be made and taken apart here alone.
    #[tactic(auto, unfolding(crate::specs::Raw::judged, crate::specs::Raw::body_needed))]
    fn judge(
        &self,
        body: &mut [u8],
        w: &[u8],
        h: MessageHeader,
        hl: usize,
    ) -> Result<Found, NoMessage>
        requires entered { Entered self.now.size self.now.place (R.ReadAt.first self.now.view.now) (R.ReadAt.bytes self.now.view.now) w.now }
        requires room { self.now.size ≤ length body.old }
        requires short { hl ≤ 128 }
        ensures value { result ≡ judged self.now.size self.now.number (self.now.place % self.now.size)
            (R.ReadAt.first self.now.view.now + length (R.ReadAt.bytes self.now.view.now) - self.now.place)
            (ahead (R.ReadAt.bytes self.now.view.now) (self.now.place - R.ReadAt.first self.now.view.now)) h hl }
        ensures body { body.new ≡ cleared (body_needed self.now.size (self.now.place % self.now.size)
            (R.ReadAt.first self.now.view.now + length (R.ReadAt.bytes self.now.view.now) - self.now.place) h hl) body.old }
    {
        let size = self.size.bytes();
        let n = h.len as usize;
        if !has_room((size - self.place % size) as usize, hl, n)
            || h.kind == MessageKind::Corrupted
        {
            return Err(NoMessage::Corrupted);
        }
        let header = &w[0..hl];
        if n <= AHEAD - hl {
            return decide(h, self.number, header, &w[hl..hl + n]);
        }
        self.judge_long(body, h, header, self.place + hl as u64)
    }

    // Reads ahead into a window of zeros, which is lent: given out, its bytes would be copied. Short outside of the view.
    fn read_ahead(&self, window: &mut [u8; AHEAD]) -> Result<(), NoMessage>
        requires sized { is_segment_size self.now.size ≡ true }
        requires entry { is_entry self.now.size (self.now.place % self.now.size) ≡ true }
        requires zeros { window.old ≡ replicate 128 0 }
        ensures { MatchResult result
            (λ _. (starts self.now.size (R.ReadAt.first self.now.view.now) (R.ReadAt.bytes self.now.view.now) self.now.place ≡ true)
            × Entered self.now.size self.now.place (R.ReadAt.first self.now.view.now) (R.ReadAt.bytes self.now.view.now) window.new)
            (λ e. (starts self.now.size (R.ReadAt.first self.now.view.now) (R.ReadAt.bytes self.now.view.now) self.now.place ≡ false) × (e ≡ Short)) }
    {
        // Read first, since its range is known from then on.
        let place = self.place;
        self.view.pread_exact_or_eof(window, place)?;
        Ok(())
    }

    // The message there.
    #[tactic(auto, unfolding(crate::specs::Raw::raw_at, crate::specs::Raw::body_read))]
    pub(crate) fn read(&self, body: &mut [u8]) -> Result<Found, NoMessage>
        requires { self.now.size ≤ length body.old }
        ensures value { result ≡ raw_at self.now.size self.now.number (R.ReadAt.first self.now.view.now) (R.ReadAt.bytes self.now.view.now) self.now.place }
        ensures body { body.new ≡ cleared (body_read self.now.size (R.ReadAt.first self.now.view.now) (R.ReadAt.bytes self.now.view.now) self.now.place) body.old }
    {
        let size = self.size.bytes();
        if !is_entry(size, self.place % size) {
            return Err(NoMessage::Short);
        }
        let mut w = [0u8; AHEAD];
        self.read_ahead(&mut w)?;
        let (h, rest) = MessageHeader::deserialize(&w)?;
        self.judge(body, &w, h, AHEAD.saturating_sub(rest.len()))
    }
}
