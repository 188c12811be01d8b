// What is known of a page: nothing, that it was given up, or where its content stands.
use codec::{Lsn, PageId};
use messages::DiskPtr;

// As in sled: the LSN of a message, where its content stands, and how long the message is.
pub type Item = (Lsn, DiskPtr, u64);

#[derive(Clone, Copy)]
pub enum PageState {
    Uninitialized,
    Free(Lsn, DiskPtr),
    // The base, and how many fragments join it.
    Present(Item, usize),
}

// A link that joined the base of its page.
#[derive(Clone, Copy)]
pub struct Fragment {
    pub pid: PageId,
    pub item: Item,
}
