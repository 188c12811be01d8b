// Reading one message of a log through any view of its bytes.
#![tactic(auto)]

mod disk_pointer;
mod log_read;
mod message_read;
mod raw;
mod spot;

pub use disk_pointer::{BlobPointer, DiskPtr, LogOffset};
pub use log_read::{LogRead, Record};
pub use message_read::read_message;
pub use raw::is_entry;
