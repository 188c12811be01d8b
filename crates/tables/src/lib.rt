// A finite map by key over a lent slice of entries: no call allocates, and every call says what the slice holds.
#![tactic(auto)]

mod edits;
mod entry;
mod fault;
mod laws;
mod places;
mod reads;
mod table;
#[cfg(test)]
mod tests;

pub use entry::Entry;
pub use fault::TableFault;
pub use laws::laws_stand;
pub use table::SortedTable;
