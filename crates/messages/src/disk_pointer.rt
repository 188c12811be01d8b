// Where the content of a page stands.

// A place on the device.
pub type LogOffset = u64;

// The name of a blob file.
pub type BlobPointer = u64;

#[derive(Clone, Copy, PartialEq, Eq, Debug)]
pub enum DiskPtr {
    // In the message at this place.
    Inline(LogOffset),
    // In a blob file that the message at this place points to.
    Blob(LogOffset, BlobPointer),
}
