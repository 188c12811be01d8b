// The state of a cover.
ghost use Rattle.std.specs.Prelude.{◌≡◌, ℕ, ◌*◌, ◌≤◌, length, vec_len};
ghost use Rattle.cover.specs.Shown.{seen};

use crate::block_table::BlockTable;
use device::Geometry;

mod reads;
mod setup;
mod writes;

// Places from `len` on read as zeros, whatever is covered, so that a write past the end leaves zeros in the gap.
#[derive(Drop)]
pub struct Cover<'a> {
    medium: &'a [u8],
    // Block i of it belongs to entry i of the table.
    buf: Vec<u8>,
    table: BlockTable,
    len: u64,
    geometry: Geometry,
    ghost sized: { (len ≤ geometry.capacity) × (length table * geometry.block_size ≤ vec_len buf) },
    ghost zeros: { (k : ℕ) → len ≤ k → seen geometry.block_size table buf.items medium.now k ≡ 0 },
}
