// How a cover is made, and taken apart.
ghost use Rattle.std.specs.Prelude.{◌≡◌, ℕ, false, length, IfOk, vec_len};
ghost use Rattle.std.specs.Result.{result_err};
ghost use Rattle.cover.specs.Entries.{unmarked};
ghost use Rattle.cover.specs.Made.{cover_refusal, cover_blocks};
ghost use Rattle.cover.specs.Meaning.{entries, contents, covers};

use crate::Cover;
use crate::block_table::BlockTable;
use device::{BasedBuf, DeviceError, Geometry};

impl<'a> Cover<'a> {
    // A cover over `medium`, with as many blocks to write as `buf` has, at most 64. Refused where the medium does not begin
    // at the place 0 or passes the capacity.
    pub fn new(
        block_size: u64,
        capacity: u64,
        medium: BasedBuf<'a>,
        buf: Vec<u8>,
    ) -> Result<Cover<'a>, DeviceError>
        ensures reply { result_err result ≡ cover_refusal block_size capacity medium.entry.offset (length medium.entry.buf.now) }
        ensures numbers { IfOk result (λ c. (c.geometry.capacity ≡ capacity) × (c.geometry.block_size ≡ block_size)) }
        ensures bytes { IfOk result (λ c. contents c ≡ medium.entry.buf.now) }
        ensures loose { IfOk result (λ c. (b : ℕ) → covers c b ≡ false) }
        ensures spare { IfOk result (λ c. unmarked (entries c) ≡ cover_blocks block_size (vec_len buf)) }
    {
        let geometry = Geometry::new(block_size, capacity)?;
        let len = medium.buf.len() as u64;
        if medium.offset != 0 || len > capacity {
            return Err(DeviceError::Outside);
        }
        let table = BlockTable::new(buf.len() / block_size as usize);
        Ok(Cover {
            medium: medium.buf,
            buf,
            table,
            len,
            geometry,
        })
    }

    // The buffer of the cover blocks.
    pub fn into_buffer(self) -> Vec<u8>
        ensures { result ≡ self.entry.buf }
    {
        let Cover {
            medium: _,
            buf,
            table: _,
            len: _,
            geometry: _,
        } = self;
        buf
    }
}
