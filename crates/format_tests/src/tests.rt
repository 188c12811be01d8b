// Numbers as sled writes and reads them; headers and messages worked out by hand from the format.
ghost use Rattle.std.specs.Prelude.{None};

use blobs::{BlobFiles, BlobSource, Extent, Note, read_blob};
use codec::{CodecError, Message, SegmentHeader, Serialize, Word, number_len, round_trip};
use device::BasedBuf;
use layout::{MessageKind, is_segment_size, segment_count};
use messages::{DiskPtr, LogRead, read_message};
use refusals::Refusal;
use std::process::Abort;
use std::test::Fail;
use tables::{Entry, SortedTable};

fn check_number(rt: &impl Abort, n: u64, bytes: &[u8]) -> Result<(), Fail> {
    let mut buf = [0xAAu8; 10];
    let end = n.serialize_into(&mut buf, 0)?;
    assert_eq!(rt; end, bytes.len());
    assert_eq!(rt; end, number_len(n));
    assert!(rt; end <= 9);
    assert!(rt; &buf[0..end] == bytes);
    assert!(rt; buf[end] == 0xAA);
    let (read, rest) = u64::deserialize(bytes)?;
    assert_eq!(rt; read, n);
    assert!(rt; rest.is_empty());
    Ok(())
}

#[test]
fn numbers_as_sled_writes_them(rt: HostRuntime) -> Result<(), Fail> {
    check_number(&rt, 0, &[0x00])?;
    check_number(&rt, 240, &[0xF0])?;
    check_number(&rt, 241, &[0xF1, 0x01])?;
    check_number(&rt, 2_287, &[0xF8, 0xFF])?;
    check_number(&rt, 2_288, &[0xF9, 0x00, 0x00])?;
    check_number(&rt, 67_823, &[0xF9, 0xFF, 0xFF])?;
    check_number(&rt, 67_824, &[0xFA, 0xF0, 0x08, 0x01])?;
    check_number(&rt, 0xFF_FFFF, &[0xFA, 0xFF, 0xFF, 0xFF])?;
    check_number(&rt, 0x100_0000, &[0xFB, 0x00, 0x00, 0x00, 0x01])?;
    check_number(&rt, 0xFFFF_FFFF, &[0xFB, 0xFF, 0xFF, 0xFF, 0xFF])?;
    check_number(
        &rt,
        0xFF_FFFF_FFFF_FFFF,
        &[0xFE, 0xFF, 0xFF, 0xFF, 0xFF, 0xFF, 0xFF, 0xFF],
    )?;
    check_number(&rt, 0x100_0000_0000_0000, &[0xFF, 0, 0, 0, 0, 0, 0, 0, 1])?;
    check_number(&rt, u64::MAX, &[0xFF; 9])
}

#[test]
fn other_forms_and_short_bytes(rt: HostRuntime) -> Result<(), Fail> {
    let (n, rest) = u64::deserialize(&[0xF1, 0x00, 0x07])?;
    assert_eq!(rt; n, 240);
    assert_eq!(rt; rest.len(), 1);
    let (n, _) = u64::deserialize(&[0xFA, 0x05, 0x00, 0x00, 0x77])?;
    assert_eq!(rt; n, 5);
    assert!(rt; u64::deserialize(&[0xF9, 0xFF]).is_err());
    assert!(rt; u64::deserialize(&[]).is_err());
    assert!(rt; Word::deserialize(&[0; 7]).is_err());
    assert_eq!(rt;
        round_trip(2_288u64, &mut [0; 2]).err(),
        Some(CodecError::TooShort)
    );
    assert_eq!(rt; round_trip(2_288u64, &mut [0; 3])?, 2_288);
    Ok(())
}

// LSN 512 and stable mark 256.
const HEADER: [u8; 20] = [
    0xAF, 0x00, 0x50, 0x45, 0xFF, 0xFD, 0xFF, 0xFF, 0xFF, 0xFF, 0xFF, 0x7F, 0xFF, 0xFE, 0xFF, 0xFF,
    0xFF, 0xFF, 0xFF, 0x7F,
];

#[test]
fn segment_headers(rt: HostRuntime) -> Result<(), Fail> {
    let header = SegmentHeader::new(Word { bits: 512 }, Word { bits: 256 });
    let mut buf = [0u8; 20];
    assert_eq!(rt; header.serialize_into(&mut buf, 0)?, 20);
    assert!(rt; buf == HEADER);
    let (read, _) = SegmentHeader::deserialize(&HEADER)?;
    assert!(rt; read.ok());
    assert_eq!(rt; read.lsn.lsn(), Some(512));
    let mut torn = HEADER;
    torn[19] = 0xFF;
    let (read, _) = SegmentHeader::deserialize(&torn)?;
    assert!(rt; !read.ok());
    assert_eq!(rt; read.max_stable_lsn.lsn(), None);
    let (zeros, _) = SegmentHeader::deserialize(&[0; 20])?;
    assert!(rt; !zeros.ok());
    assert!(rt; SegmentHeader::deserialize(&[0; 19]).is_err());
    Ok(())
}

// An inline node of page 3 in segment 0, with ten bytes.
const NODE: [u8; 18] = [
    0xED, 0xB6, 0x0D, 0x28, 0x08, 0x0A, 0x00, 0x03, 0x30, 0x31, 0x32, 0x33, 0x34, 0x35, 0x36, 0x37,
    0x38, 0x39,
];

#[test]
fn messages(rt: HostRuntime) -> Result<(), Fail> {
    let kind = MessageKind::InlineNode;
    let node = Message {
        kind,
        segment_number: 0,
        pid: 3,
        body: b"0123456789",
    };
    let mut buf = [0xAAu8; 19];
    assert_eq!(rt; node.serialize_into(&mut buf, 0)?, 18);
    assert!(rt; &buf[0..18] == &NODE[0..18]);
    assert!(rt; buf[18] == 0xAA);
    assert_eq!(rt;
        node.serialize_into(&mut [0; 17], 0).err(),
        Some(CodecError::TooShort)
    );
    Ok(())
}

#[test]
fn sizes_and_counts(rt: HostRuntime) {
    assert!(rt; is_segment_size(256) && is_segment_size(1_048_576));
    assert!(rt; !is_segment_size(128) && !is_segment_size(384) && !is_segment_size(2_097_152));
    assert_eq!(rt; segment_count(275, 256), Some(1));
    assert_eq!(rt; segment_count(276, 256), Some(2));
    assert_eq!(rt; segment_count(276, 0), None);
}

// Kind 9 with the body hello.
const BLOB: [u8; 10] = [0xF0, 0xA1, 0xFF, 0x66, 0x09, 0x68, 0x65, 0x6C, 0x6C, 0x6F];

#[test]
fn blob_files(rt: HostRuntime) {
    assert_eq!(rt;
        read_blob(&BLOB),
        Note {
            kind: 9,
            sound: true,
        }
    );
    assert_eq!(rt;
        read_blob(&[0x29, 0x57, 0xDE, 0xAB, 0x09]),
        Note {
            kind: 9,
            sound: true,
        }
    );
    assert_eq!(rt; read_blob(&[0x29, 0x57, 0xDE, 0xAB]), Note::DAMAGED);
    assert_eq!(rt;
        read_blob(&BLOB[0..9]),
        Note {
            kind: 9,
            sound: false,
        }
    );
    assert_eq!(rt; read_blob(&[]), Note::DAMAGED);
}

#[test]
fn bank_limits(rt: HostRuntime) {
    let blank = Extent { start: 0, len: 0 };
    let mut entries = [Entry {
        key: 0,
        value: blank,
    }; 1];
    let mut bytes = [0u8; 20];
    let mut extents = SortedTable::new(&mut entries, blank);
    let mut files = BlobFiles::new(&mut bytes);
    assert!(rt; files.add(&mut extents, 5, &BLOB).is_ok());
    assert!(rt; files.add(&mut extents, 6, &BLOB).is_err());
    assert!(rt; files.add(&mut extents, 5, &[0; 11]).is_err());
    assert!(rt; files.add(&mut extents, 5, &BLOB).is_ok());
    assert!(rt; files.add(&mut extents, 5, &[]).is_ok());
}

#[derive(Drop)]
struct NoBlobs;

impl BlobSource for NoBlobs {
    ghost notes = { λ _ _. None };

    fn blob(&self, _pointer: u64) -> Option<Note> {
        None
    }
}

// Reads in a segment that stands at place 256.
fn read_at(
    segment: &[u8],
    body: &mut [u8],
    size: u64,
    place: u64,
    lsn: u64,
) -> Result<LogRead, Refusal> {
    let view = BasedBuf {
        buf: segment,
        offset: 256,
    };
    read_message(&view, &NoBlobs, body, size, place, lsn)
}

// The node above at LSN 20 of a segment with LSN 0.
#[test]
fn message_reading(rt: HostRuntime) -> Result<(), Fail> {
    let mut segment = [0u8; 256];
    segment[20..38].copy_from_slice(&NODE);
    let mut body = [0u8; 256];
    let Ok(LogRead::Record(node)) = read_at(&segment, &mut body, 256, 276, 20) else {
        return Err(Fail::new("no record"));
    };
    assert_eq!(rt; node.pid, 3);
    assert_eq!(rt; node.len, 18);
    assert_eq!(rt; node.ptr, DiskPtr::Inline(276));
    assert!(rt;
        matches!(
            read_at(&segment, &mut body, 256, 276, 276),
            Ok(LogRead::Corrupted)
        )
    );
    assert!(rt;
        matches!(
            read_at(&segment, &mut body, 256, 275, 19),
            Ok(LogRead::Short)
        )
    );
    assert!(rt;
        matches!(
            read_at(&segment, &mut body, 300, 276, 20),
            Err(Refusal::Size)
        )
    );
    assert!(rt;
        matches!(
            read_at(&segment, &mut [0; 255], 256, 276, 20),
            Err(Refusal::Buffer)
        )
    );
    Ok(())
}
