// Kinds of messages and sizes of segments: what the format fixes besides its bytes.
#![tactic(auto)]

mod kind;
mod segment_size;

pub use kind::{LogKind, Meaning, MessageKind, Storage};
pub use segment_size::{SEG_HEADER_LEN, SegmentSize, is_segment_size, segment_count};
