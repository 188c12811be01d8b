// A whole message: its header, then its body.
ghost use Rattle.std.specs.Prelude.{◌≡◌, ℕ, List, ◌++◌, length, drop, is_ok, if◌then◌else◌, Some};
ghost use Rattle.std.proofs.lemmas.List.Edits.{sets};
ghost use Rattle.codec.specs.Messages.{message_of, message_sum, read_message_header, written};
ghost use Rattle.codec.specs.Serial.{placed};

use crate::little::{check_room, put_bytes};
use crate::{CodecError, MAX_MSG_HEADER_LEN, MessageHeader, PageId};
use checksum::{checksum, update};
use layout::MessageKind;

#[derive(Clone, Copy, PartialEq, Eq, Debug)]
pub struct Message<'a> {
    pub kind: MessageKind,
    // The LSN of its segment, divided by the segment size.
    pub segment_number: u64,
    pub pid: PageId,
    pub body: &'a [u8],
}

// A header past its stored checksum.
fn past_checksum(header: &[u8]) -> &[u8]
    ensures { result.now ≡ drop 4 header.now }
{
    header.get(4..).unwrap_or(&[])
}

// The checksum that a message's header stores: over the body, then over the header past its first four bytes.
pub fn calculate_message_crc32(header: &[u8], body: &[u8]) -> u32
    ensures { result ≡ message_sum header.now body.now }
{
    !update(checksum(body), past_checksum(header))
}

impl Message<'_> {
    // The message's header, with its checksum. A written message, followed by any bytes, is read as this header,
    // then its body and those bytes.
    pub fn header(&self) -> MessageHeader
        ensures value { result ≡ message_of self.now.kind self.now.segment_number self.now.pid self.now.body.now }
        ensures back { (rest : List ℕ) → read_message_header (written self.now ++ rest) ≡ Some (result, self.now.body.now ++ rest) }
    {
        let len = self.body.len() as u64;
        let unsummed = MessageHeader {
            crc32: 0,
            kind: self.kind,
            len,
            segment_number: self.segment_number,
            pid: self.pid,
        };
        let mut buf = [0u8; MAX_MSG_HEADER_LEN];
        let end = unsummed.put(&mut buf, 0);
        let crc32 = calculate_message_crc32(&buf[0..end], self.body);
        MessageHeader { crc32, ..unsummed }
    }

    // Writes the message at `at` and says where it ends; a buffer too short is left as it was.
    pub fn serialize_into(&self, buf: &mut [u8], at: usize) -> Result<usize, CodecError>
        ensures reply { result ≡ placed (length buf.old) at (length (written self.now)) }
        ensures after { buf.new ≡ (if is_ok result then sets buf.old at (written self.now) else buf.old) }
    {
        let header = self.header();
        check_room(buf.len(), at, header.size() + self.body.len())?;
        let end = header.put(buf, at);
        Ok(put_bytes(buf, end, self.body))
    }
}
