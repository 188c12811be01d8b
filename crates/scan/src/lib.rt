// Which segments of a log are used, in the order of their LSNs.
#![tactic(auto)]

mod header;
mod segments;

pub use segments::scan;
