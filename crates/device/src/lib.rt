// Devices: bytes that are read at a place, and written block by block.
#![tactic(auto)]

mod based_buf;
mod block_device;
mod error;
mod geometry;
mod image;
mod read_at;
#[cfg(test)]
mod tests;

pub use based_buf::BasedBuf;
pub use block_device::Device;
pub use error::{DeviceError, SetupError};
pub use geometry::Geometry;
pub use image::Image;
pub use read_at::ReadAt;
