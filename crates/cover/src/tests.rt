// Covers at their limits.
use super::*;
use device::{BasedBuf, Device, DeviceError, ReadAt};
use std::test::Fail;

#[test]
fn makes(rt: HostRuntime) {
    for (size, capacity, offset) in [(255, 8, 0), (300, 8, 0), (256, 3, 0), (256, 8, 1)] {
        let medium = BasedBuf {
            buf: b"abcd",
            offset,
        };
        assert!(rt; Cover::new(size, capacity, medium, Vec::new(rt.alloc())).is_err());
    }
}

// 100 bytes below two blocks of a cover.
#[test]
fn writes(rt: HostRuntime) -> Result<(), Fail> {
    let buf = Vec::from_slice(rt.alloc(), &[9u8; 600])?;
    let mut c = Cover::new(
        256,
        2048,
        BasedBuf {
            buf: &[7; 100],
            offset: 0,
        },
        buf,
    )?;
    let outside = Err(DeviceError::Outside);
    let full = Err(DeviceError::NoSpare);
    for (at, reply, spare, len) in [
        (255, outside, 2, 100),
        (250, Ok(()), 1, 252),
        (999, Ok(()), 0, 1001),
        (600, full, 0, 1001),
        (254, Ok(()), 0, 1001),
        (2046, full, 0, 1001),
        (2047, outside, 0, 1001),
    ] {
        assert_eq!(rt; c.write(b"ab", at), reply);
        assert_eq!(rt; c.spare(), spare);
        assert_eq!(rt; c.len(), len);
    }
    for (at, want) in [
        (98, *b"\x07\x07\x00\x00"),
        (249, *b"\x00ab\x00"),
        (253, *b"\x00ab\x00"),
        (997, *b"\x00\x00ab"),
    ] {
        let mut dst = [9u8; 4];
        assert_eq!(rt; c.pread_exact(&mut dst, at), Ok(()));
        assert_eq!(rt; dst, want);
    }
    Ok(())
}

#[test]
fn fills_the_table(rt: HostRuntime) -> Result<(), Fail> {
    let buf = Vec::from_slice(rt.alloc(), &[9u8; 16_640])?;
    let mut c = Cover::new(
        256,
        100_000,
        BasedBuf {
            buf: &[],
            offset: 0,
        },
        buf,
    )?;
    assert_eq!(rt; c.spare(), 64);
    for block in 0..64 {
        assert_eq!(rt; c.write(b"x", 2 * block * 256), Ok(()));
    }
    assert_eq!(rt; c.spare(), 0);
    assert_eq!(rt; c.write(b"x", 256), Err(DeviceError::NoSpare));
    assert_eq!(rt; c.write(b"y", 126 * 256 + 2), Ok(()));
    let mut dst = [9u8; 3];
    assert_eq!(rt; c.pread_exact_or_eof(&mut dst, 126 * 256), Ok(3));
    assert_eq!(rt; dst, *b"x\x00y");
    Ok(())
}
