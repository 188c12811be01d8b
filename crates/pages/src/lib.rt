// Pages, their tables, and the snapshots that hold them.
#![tactic(auto)]

mod coords;
mod formed;
mod page_state;
mod snapshot;

pub use page_state::{Fragment, Item, PageState};
pub use snapshot::Snapshot;
