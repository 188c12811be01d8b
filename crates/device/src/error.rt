// Why a device refuses, with the numbers of docs/REFUSALS.md, and why none was made.
ghost use Rattle.std.specs.Prelude.{◌≡◌};
ghost use Rattle.device.specs.Refusals.{device_number};
ghost use Rattle.device.specs.declared.error.SetupError.TheVariants.{Memory, Refused};

use std::alloc::AllocError;

#[derive(Clone, Copy, PartialEq, Eq, Debug)]
pub enum DeviceError {
    // The block size is no power of two from 256 to 1,048,576.
    BlockSize = 1,
    // A wanted byte lies outside, or a write crosses a block border or passes the capacity.
    Outside = 10,
    // A write to a block that is not loose, with no spare one left.
    NoSpare = 29,
}

impl DeviceError {
    // A method, since its name says more than `u8::from`.
    pub fn number(self) -> u8
        ensures { result ≡ device_number self }
    {
        self as u8
    }
}

#[derive(Clone, Copy, PartialEq, Eq, Debug)]
pub enum SetupError {
    // The heap has no room for the bytes.
    Memory,
    Refused(DeviceError),
}

impl From<AllocError> for SetupError {
    ghost from_gives = { λ _ r. r ≡ Memory };

    fn from(_e: AllocError) -> SetupError {
        SetupError::Memory
    }
}

impl From<DeviceError> for SetupError {
    ghost from_gives = { λ e r. r ≡ Refused e };

    fn from(e: DeviceError) -> SetupError {
        SetupError::Refused(e)
    }
}
