// Numbers, headers and messages of a log as bytes.
#![tactic(auto)]

mod error;
mod little;
mod message;
mod message_header;
mod number;
mod segment;
mod serialization;
mod word;

pub use error::CodecError;
pub use little::has_room;
pub use message::{Message, calculate_message_crc32};
pub use message_header::{MAX_MSG_HEADER_LEN, MessageHeader, PageId};
pub use number::number_len;
pub use segment::SegmentHeader;
pub use serialization::{Serialize, round_trip};
pub use word::{Lsn, Word};
