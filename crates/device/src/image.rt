// A device whose bytes stand in one buffer. All of its blocks are loose.
ghost use Rattle.std.specs.Prelude.{◌≡◌, ◌+◌, ◌-◌, ◌≤◌, max, true, [], ◌++◌, length, replicate, IfOk, IfErr, if◌then◌else◌, vec_len, vec_capacity, nat_le, refl};
ghost use Rattle.layout.specs.Sizes.{is_segment_size};
ghost use Rattle.device.specs.Writes.{laid};
ghost use Rattle.device.specs.declared.error.DeviceError.TheVariants.{BlockSize, Outside};
ghost use Rattle.device.specs.declared.error.SetupError.TheVariants.{Memory, Refused};

use crate::{BasedBuf, Device, DeviceError, Geometry, ReadAt, SetupError};
use layout::SegmentSize;
use std::alloc::Global;

// The buffer has room for the capacity from the start, so that no write wants memory.
#[derive(Drop)]
pub struct Image {
    buf: Vec<u8>,
    geometry: Geometry,
    ghost room: { (vec_len buf ≤ geometry.capacity) × (geometry.capacity ≤ vec_capacity buf) },
}

// Appends zeros up to the length `end`.
fn stretch(buf: &mut Vec<u8>, end: usize)
    requires { end ≤ vec_capacity buf.old }
    ensures items { buf.new.items ≡ buf.old.items ++ replicate (end - vec_len buf.old) 0 }
    ensures len { vec_len buf.new ≡ max (vec_len buf.old) end }
    ensures room { vec_capacity buf.old ≤ vec_capacity buf.new }
{
    if buf.len() < end {
        buf.resize(end, 0).unwrap();
    }
}

// Puts `src` at `at`, with zeros in the gap before it.
fn lay(buf: &mut Vec<u8>, src: &[u8], at: usize)
    requires { at + length src.now ≤ vec_capacity buf.old }
    ensures items { buf.new.items ≡ laid buf.old.items at src.now }
    ensures len { vec_len buf.new ≡ max (vec_len buf.old) (at + length src.now) }
    ensures room { vec_capacity buf.old ≤ vec_capacity buf.new }
{
    let end = at + src.len();
    stretch(buf, end);
    buf.as_mut_slice()[at..end].copy_from_slice(src);
}

impl Image {
    // An image with no bytes.
    pub fn new(heap: Global, block_size: u64, capacity: u64) -> Result<Image, SetupError>
        ensures made { IfOk result (λ d. (d.buf.items ≡ []) × (d.geometry.capacity ≡ capacity) × (d.geometry.block_size ≡ block_size) × (is_segment_size block_size ≡ true)) }
        ensures refused { IfErr result (λ e. e ≡ (if is_segment_size block_size then Memory else Refused BlockSize)) }
    {
        Image::from_bytes(heap, block_size, capacity, &[])
    }

    // An image that holds `bytes`. Refused where they pass the capacity.
    pub fn from_bytes(
        heap: Global,
        block_size: u64,
        capacity: u64,
        bytes: &[u8],
    ) -> Result<Image, SetupError>
        ensures made { IfOk result (λ d. (d.buf.items ≡ bytes.now) × (d.geometry.capacity ≡ capacity) × (d.geometry.block_size ≡ block_size)
            × (is_segment_size block_size ≡ true) × (length bytes.now ≤ capacity)) }
        ensures refused { IfErr result (λ e. e ≡ (if is_segment_size block_size then (if nat_le (length bytes.now) capacity then Memory else Refused Outside) else Refused BlockSize)) }
    {
        let geometry = Geometry::new(block_size, capacity)?;
        if bytes.len() as u64 > capacity {
            return Err(SetupError::Refused(DeviceError::Outside));
        }
        let mut buf = Vec::with_capacity(heap, capacity as usize)?;
        buf.extend_from_slice(bytes).unwrap();
        Ok(Image { buf, geometry })
    }

    pub fn bytes(&self) -> &[u8]
        ensures { result.now ≡ self.now.buf.items }
    {
        self.buf.as_slice()
    }

    fn whole(&self) -> BasedBuf<'_>
        ensures { (result.buf.now ≡ self.now.buf.items) × (result.offset ≡ 0) }
    {
        BasedBuf {
            buf: self.bytes(),
            offset: 0,
        }
    }

    pub fn into_buffer(self) -> Vec<u8>
        ensures { result ≡ self.buf }
    {
        let Image { buf, geometry: _ } = self;
        buf
    }
}

impl ReadAt for Image {
    ghost first = { λ _. 0 };

    ghost bytes = { λ d. d.buf.items };

    fn pread_exact(&self, dst: &mut [u8], at: u64) -> Result<(), DeviceError> {
        self.whole().pread_exact(dst, at)
    }

    fn pread_exact_or_eof(&self, dst: &mut [u8], at: u64) -> Result<usize, DeviceError> {
        self.whole().pread_exact_or_eof(dst, at)
    }
}

impl Device for Image {
    ghost capacity = { λ d. d.geometry.capacity };

    ghost block_size = { λ d. d.geometry.block_size };

    ghost loose = { λ _ _. true };

    ghost spare = { λ _. 0 };

    fn len(&self) -> u64 {
        self.buf.len() as u64
    }

    fn capacity(&self) -> u64 {
        self.geometry.capacity()
    }

    fn block_size(&self) -> SegmentSize {
        self.geometry.block_size()
    }

    fn is_loose(&self, _block: u64) -> bool {
        true
    }

    fn spare(&self) -> u64 {
        0
    }

    fn write(&mut self, src: &[u8], at: u64) -> Result<(), DeviceError> {
        if src.is_empty() {
            return Ok(());
        }
        if !self.geometry.fits(at, src.len() as u64) {
            return Err(DeviceError::Outside);
        }
        lay(&mut self.buf, src, at as usize);
        Ok(())
    }

    ghost base = { λ _. refl };
}
