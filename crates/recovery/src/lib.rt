// Recovery of a log: from a device, a blob source and a snapshot to a new snapshot.
#![tactic(auto)]

mod checks;
mod course;
mod finish;
mod first_walk;
mod iterator;
mod last_walk;
mod ordering;
mod page_table;
mod recovered;
mod tail;
mod two_walks;

pub use recovered::{Recovered, recover};
