// Reads and writes at their limits.
ghost use Rattle.std.specs.Prelude.{◌≡◌, length};

use super::*;
use std::test::Fail;

// Five bytes, at the places 10 to 14.
const FIVE: BasedBuf<'static> = BasedBuf {
    buf: b"abcde",
    offset: 10,
};

#[test]
fn reads(rt: HostRuntime) {
    for (n, at) in [(1, 9), (6, 10), (2, 14), (1, 15), (1, u64::MAX)] {
        let mut dst = [9u8; 6];
        assert_eq!(rt;
            FIVE.pread_exact(&mut dst[0..6.min(n)], at),
            Err(DeviceError::Outside)
        );
        assert_eq!(rt; dst, [9; 6]);
    }
    for (n, at, want) in [
        (0, 0, *b"\x09\x09\x09\x09\x09"),
        (0, 99, *b"\x09\x09\x09\x09\x09"),
        (1, 14, *b"e\x09\x09\x09\x09"),
        (5, 10, *b"abcde"),
    ] {
        let mut dst = [9u8; 5];
        assert_eq!(rt; FIVE.pread_exact(&mut dst[0..5.min(n)], at), Ok(()));
        assert_eq!(rt; dst, want);
    }
}

#[test]
fn reads_to_the_end(rt: HostRuntime) {
    let outside = Err(DeviceError::Outside);
    for (at, reply, want) in [
        (9, outside, *b"\x09\x09"),
        (13, Ok(2), *b"de"),
        (14, Ok(1), *b"e\x09"),
        (15, Ok(0), *b"\x09\x09"),
        (16, outside, *b"\x09\x09"),
    ] {
        let mut dst = [9u8; 2];
        assert_eq!(rt; FIVE.pread_exact_or_eof(&mut dst, at), reply);
        assert_eq!(rt; dst, want);
    }
}

#[test]
fn writes(rt: HostRuntime) -> Result<(), Fail> {
    let mut d = Image::new(rt.alloc(), 256, 700)?;
    for at in [254, 255, 698, 700, u64::MAX] {
        assert_eq!(rt; d.write(b"abc", at), Err(DeviceError::Outside));
        assert_eq!(rt; d.write(b"", at), Ok(()));
    }
    assert_eq!(rt; d.len(), 0);
    for at in [697, 253] {
        assert_eq!(rt; d.write(b"abc", at), Ok(()));
    }
    assert_eq!(rt; d.len(), 700);
    let mut dst = [9u8; 5];
    assert_eq!(rt; d.pread_exact(&mut dst, 252), Ok(()));
    assert_eq!(rt; dst, *b"\x00abc\x00");
    Ok(())
}

#[test]
fn sizes(rt: HostRuntime) -> Result<(), Fail> {
    for size in [0, 128, 255, 257, 300, 2_097_152] {
        assert!(rt; Image::new(rt.alloc(), size, 8).is_err());
    }
    for size in [256, 512, 1_048_576] {
        assert!(rt; Image::from_bytes(rt.alloc(), size, 3, b"abcd").is_err());
        assert!(rt; Image::from_bytes(rt.alloc(), size, 4, b"abcd")?.bytes() == b"abcd".as_slice());
    }
    Ok(())
}

// Behind a `dyn` too it is known that the first place is 0.
fn end_of(device: &dyn Device) -> u64
    ensures base { first device.now ≡ 0 }
    ensures value { result ≡ length (bytes device.now) }
{
    device.len()
}

#[test]
fn behind_dyn(rt: HostRuntime) -> Result<(), Fail> {
    let image = Image::from_bytes(rt.alloc(), 256, 300, b"abcd")?;
    assert_eq!(rt; end_of(&image), 4);
    Ok(())
}
