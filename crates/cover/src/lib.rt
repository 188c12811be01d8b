// A device that lays writable blocks over bytes that are only read.
#![tactic(auto)]

mod block_table;
mod blocks;
mod cover_device;
#[cfg(test)]
mod tests;

pub use cover_device::Cover;
