// The header of a message.
ghost use Rattle.std.specs.Prelude.{◌≡◌, ◌+◌, ◌≤◌, length};
ghost use Rattle.std.proofs.lemmas.List.Edits.{sets};
ghost use Rattle.codec.specs.Messages.{message_header, MessageFits, read_message_header};
ghost use Rattle.codec.specs.Laws.{header_back};

use crate::little::{check_room, put_bytes};
use crate::number::{form_len, get_byte, get_number, put_number};
use crate::{CodecError, Serialize};
use layout::MessageKind;

// The number of a page.
pub type PageId = u64;

// Checksum (4 bytes), kind (1), then three numbers of one to nine bytes each: 8 bytes at least, and at most
// this many.
pub const MAX_MSG_HEADER_LEN: usize = 32;

#[derive(Clone, Copy, PartialEq, Eq, Debug)]
pub struct MessageHeader {
    // As stored: the complement of the checksum of body and header.
    pub crc32: u32,
    pub kind: MessageKind,
    // The body's length.
    pub len: u64,
    // The LSN of its segment, divided by the segment size.
    pub segment_number: u64,
    pub pid: PageId,
}

impl MessageHeader {
    // How many bytes the header takes.
    #[tactic(auto, using(crate::proofs::Bodies::length_header))]
    pub(crate) fn size(self) -> usize
        ensures size { result ≡ length (message_header self) }
        ensures bounds { (8 ≤ result) × (result ≤ 32) }
        ensures fits { MessageFits self }
    {
        5 + form_len(self.len) + form_len(self.segment_number) + form_len(self.pid)
    }

    // Writes the header at `at`, and says where it ends.
    pub(crate) fn put(self, buf: &mut [u8], at: usize) -> usize
        requires { at + length (message_header self) ≤ length buf.old }
        ensures after { buf.new ≡ sets buf.old at (message_header self) }
        ensures end { result ≡ at + length (message_header self) }
    {
        let at = put_bytes(buf, at, &self.crc32.to_le_bytes());
        let at = put_bytes(buf, at, &[u8::from(self.kind)]);
        let at = put_number(buf, at, self.len);
        let at = put_number(buf, at, self.segment_number);
        put_number(buf, at, self.pid)
    }
}

impl Serialize for MessageHeader {
    ghost bytes = { message_header };

    ghost valid = { MessageFits };

    ghost reads = { read_message_header };

    ghost back = { header_back };

    fn serialized_size(&self) -> usize
        ensures size { result ≡ length (message_header self.now) }
        ensures bounds { (8 ≤ result) × (result ≤ 32) }
    {
        self.size()
    }

    fn serialize_into(&self, buf: &mut [u8], at: usize) -> Result<usize, CodecError> {
        check_room(buf.len(), at, self.size())?;
        Ok(self.put(buf, at))
    }

    fn deserialize(buf: &[u8]) -> Result<(MessageHeader, &[u8]), CodecError> {
        let (crc32, rest) = u32::deserialize(buf)?;
        let (kind, rest) = get_byte(rest)?;
        let (len, rest) = get_number(rest)?;
        let (segment_number, rest) = get_number(rest)?;
        let (pid, rest) = get_number(rest)?;
        Ok((
            MessageHeader {
                crc32,
                kind: MessageKind::from(kind),
                len,
                segment_number,
                pid,
            },
            rest,
        ))
    }
}
