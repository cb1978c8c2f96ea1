//! Values from outside: checksums that other programs give, the first frames of a log byte by byte, and damage to one.

use crate::{Frame, close_frame, crc, frame_at, open_frame, put_frame};
use std::test::Fail;

// The checksum of the header of a log's first file, as zlib gives it.
const HEADER_SUM: u32 = 0x2b64_5976;

// The frames of a transaction that begins and commits as number 1, directly behind that header; their checksums are zlib's.
const FRAMES: [u8; 55] = [
    0, 0, 0, 0, 2, 1, 0, 0, 0, 24, 0, 0, 0, 56, 0, 0, 0, 0, 0, 1, 0x8f, 0x2e, 0x92, 0x75, 0, 0, 0,
    0, 16, 1, 0, 0, 0, 31, 0, 0, 0, 87, 0, 0, 0, 0, 0, 1, 0, 0, 0, 0, 0, 0, 0, 0x5d, 0x19, 0xca,
    0x1b,
];

#[test]
fn checksums_are_those_of_zip_files(rt: HostRuntime) {
    for (text, sum) in [
        ("", 0),
        ("a", 0xe8b7_be43),
        ("abc", 0x3524_41c2),
        ("123456789", 0xcbf4_3926),
        ("The quick brown fox jumps over the lazy dog", 0x414f_a339),
    ] {
        assert_eq!(rt; crc(0, text.as_bytes()), sum, "of {text}");
    }
    assert_eq!(rt; crc(crc(0, b"1234"), b"56789"), 0xcbf4_3926);
}

#[test]
fn frames_are_written_and_read(rt: HostRuntime) -> Result<(), Fail> {
    let mut out = Vec::new(rt.alloc());
    let first = put_frame(HEADER_SUM, 32, 2, &[1], &mut out)?;
    put_frame(first, 56, 16, &1u64.to_le_bytes(), &mut out)?;
    assert_eq!(rt; out.as_slice(), FRAMES.as_slice());
    let read = frame_at(&FRAMES, 32, HEADER_SUM);
    let wanted = Frame {
        kind: 2,
        body_start: 19,
        body_end: 20,
        end: 56,
        crc: first,
    };
    assert_eq!(rt; read, Some(wanted));
    assert_eq!(rt;
        frame_at(&FRAMES[24..], 56, first).map(|frame| frame.end),
        Some(87)
    );
    assert_eq!(rt; frame_at(&FRAMES, 33, HEADER_SUM), None);
    assert_eq!(rt; frame_at(&FRAMES, 32, first), None);
    Ok(())
}

#[test]
fn bodies_are_written_in_place(rt: HostRuntime) -> Result<(), Fail> {
    let mut out = Vec::new(rt.alloc());
    open_frame(32, 2, 1, &mut out)?;
    assert_eq!(rt; out.as_slice(), &FRAMES[..19]);
    out.push(1)?;
    let first = close_frame(HEADER_SUM, 0, &mut out)?;
    assert_eq!(rt; first, 0x7592_2e8f);
    open_frame(56, 16, 8, &mut out)?;
    out.extend_from_slice(&1u64.to_le_bytes())?;
    assert_eq!(rt; close_frame(first, 24, &mut out)?, 0x1bca_195d);
    assert_eq!(rt; out.as_slice(), FRAMES.as_slice());
    Ok(())
}

#[test]
fn damage_is_found(rt: HostRuntime) {
    for len in 0..24 {
        assert_eq!(rt;
            frame_at(&FRAMES[..len], 32, HEADER_SUM),
            None,
            "cut to {len}"
        );
    }
    let mut bytes = FRAMES;
    let bytes = &mut bytes[..24];
    for place in 0..bytes.len() {
        for bit in 0..8u32 {
            bytes[place] ^= 1 << bit;
            assert_eq!(rt;
                frame_at(bytes, 32, HEADER_SUM),
                None,
                "bit {bit} of byte {place}"
            );
            bytes[place] ^= 1 << bit;
        }
    }
    assert!(rt; frame_at(bytes, 32, HEADER_SUM).is_some());
}
