//! Values from outside: bytes that were spelt by hand, and which transaction or list of changes stands there.

use crate::{items_len, items_of, put_items, put_transaction, transaction_at, transaction_len};
use frame_codec::put_frame;
use std::alloc::{AllocError, Global};
use std::process::Abort;
use std::test::Fail;

// The checksum of the header of a log's first file, as zlib gives it.
const HEADER_SUM: u32 = 0x2b64_5976;

// The image of the row (1, 'x') of t.
const ROW: [u8; 11] = [0, 1, 0, 0, 0, 0, 0, 0, 0, 1, b'x'];

// The body of CREATE TABLE t in JOURNAL.
const CREATE: [u8; 22] = [
    2, 1, b't', 7, b'J', b'O', b'U', b'R', b'N', b'A', b'L', 2, 0, 1, b'k', 8, 0, 1, b'v', 15, 10,
    1,
];

// The body of INSTALL of JOURNAL.
const INSTALL: [u8; 9] = [4, 7, b'J', b'O', b'U', b'R', b'N', b'A', b'L'];

// The body of DROP TABLE t.
const DROP: [u8; 3] = [3, 1, b't'];

// The body of UNINSTALL of JOURNAL.
const UNINSTALL: [u8; 9] = [5, 7, b'J', b'O', b'U', b'R', b'N', b'A', b'L'];

// The body of the table map of t.
const MAP: [u8; 13] = [1, b't', 2, 0, 1, b'k', 8, 0, 1, b'v', 15, 10, 1];

// The body of the table map of t without a key.
const MAP_WITHOUT_KEY: [u8; 13] = [1, b't', 2, 255, 1, b'k', 8, 0, 1, b'v', 15, 10, 1];

// The body of an UPDATE of that row to (2, NULL), at place 0.
const UPDATE: [u8; 24] = [
    0, 0, 0, 0, 0, 1, 0, 0, 0, 0, 0, 0, 0, 1, b'x', 2, 2, 0, 0, 0, 0, 0, 0, 0,
];

// The same at place 1.
const UPDATE_AT_1: [u8; 24] = [
    1, 0, 0, 0, 0, 1, 0, 0, 0, 0, 0, 0, 0, 1, b'x', 2, 2, 0, 0, 0, 0, 0, 0, 0,
];

// The body of a DELETE of that row, at place 0.
const DELETE: [u8; 15] = [0, 0, 0, 0, 0, 1, 0, 0, 0, 0, 0, 0, 0, 1, b'x'];

// The same at place 256.
const DELETE_AT_256: [u8; 15] = [0, 1, 0, 0, 0, 1, 0, 0, 0, 0, 0, 0, 0, 1, b'x'];

// The body of the XID of transaction 1.
const XID: [u8; 8] = [1, 0, 0, 0, 0, 0, 0, 0];

// The event that a letter stands for: begin, install, uninstall, create, drop, map, row, update, erase or xid; a capital letter for a
// map without a key, or a place that is not 0.
fn event_of(letter: u8) -> (u8, &'static [u8]) {
    match letter {
        b'b' => (2, &[1]),
        b'i' => (2, &INSTALL),
        b'c' => (2, &CREATE),
        b'm' => (19, &MAP),
        b'M' => (19, &MAP_WITHOUT_KEY),
        b'n' => (2, &UNINSTALL),
        b'd' => (2, &DROP),
        b'r' => (30, &ROW),
        b'u' => (31, &UPDATE),
        b'U' => (31, &UPDATE_AT_1),
        b'e' => (32, &DELETE),
        b'E' => (32, &DELETE_AT_256),
        _ => (16, &XID),
    }
}

// A log with these events behind its header.
fn log_of(rt: &impl Abort, alloc: Global, letters: &[u8]) -> Result<Vec<u8>, AllocError> {
    let mut log = Vec::new(alloc);
    let mut at = 32u32;
    let mut sum = HEADER_SUM;
    for letter in letters {
        let (kind, body) = event_of(*letter);
        assert!(rt; at < 100_000);
        assert!(rt; body.len() < 1_000);
        sum = put_frame(sum, at, kind, body, &mut log)?;
        at += 23 + body.len() as u32;
    }
    Ok(log)
}

// Reads the transaction that stands there, and writes it again: how many bytes it has, or none where none stands there.
fn again(rt: &impl Abort, alloc: Global, log: &[u8]) -> Result<Option<usize>, AllocError> {
    let Some(found) = transaction_at(alloc, log, 32, HEADER_SUM)? else {
        return Ok(None);
    };
    let mut out = Vec::new(alloc);
    let sum = put_transaction(&found.txn, 32, HEADER_SUM, &mut out)?;
    assert_eq!(rt; out.as_slice(), log);
    assert_eq!(rt; sum, found.crc);
    assert_eq!(rt; out.len(), found.len);
    assert!(rt; found.txn.changes.as_slice().len() < 3);
    assert_eq!(rt; transaction_len(&found.txn.changes), found.len as u64);
    Ok(Some(found.len))
}

#[test]
fn transactions_are_read_and_written(rt: HostRuntime) -> Result<(), Fail> {
    let first = log_of(&rt, rt.alloc(), b"b")?;
    let hex = [
        0, 0, 0, 0, 2, 1, 0, 0, 0, 0x18, 0, 0, 0, 0x38, 0, 0, 0, 0, 0, 1,
    ];
    assert!(rt; first.as_slice().starts_with(&hex));
    for (letters, wanted) in [
        ("bix", Some(87usize)),
        ("bcx", Some(100)),
        ("bmrx", Some(125)),
        ("bmrrx", Some(159)),
        ("bnx", Some(87)),
        ("bdx", Some(81)),
        ("bmux", Some(138)),
        ("bmex", Some(129)),
        ("bmrux", Some(172)),
        ("bMUx", Some(138)),
        ("bMEx", Some(129)),
        ("bmUx", None),
        ("bmEx", None),
        ("bux", None),
        ("bmrmux", None),
        ("bmumex", None),
        ("bmrmrx", None),
        ("bmrmx", None),
        ("brx", None),
        ("bi", None),
        ("bx", None),
        ("ix", None),
    ] {
        let log = log_of(&rt, rt.alloc(), letters.as_bytes())?;
        assert_eq!(rt;
            again(&rt, rt.alloc(), log.as_slice())?,
            wanted,
            "{letters}"
        );
    }
    Ok(())
}

#[test]
fn lists_of_changes_are_read_and_written(rt: HostRuntime) -> Result<(), Fail> {
    let mut list = [3u8, 0, 0, 0, 2].to_vec(rt.alloc())?;
    list.extend_from_slice(&CREATE)?;
    list.push(19)?;
    list.extend_from_slice(&MAP)?;
    list.push(30)?;
    list.extend_from_slice(&ROW)?;
    let len = list.len();
    list.push(99)?;
    let Some((changes, used)) = items_of(rt.alloc(), list.as_slice())? else {
        return Err(Fail::from("no list"));
    };
    assert_eq!(rt; used, len);
    let mut out = Vec::new(rt.alloc());
    assert_eq!(rt; put_items(&changes, &mut out)?, 3);
    assert!(rt; list.as_slice().starts_with(out.as_slice()));
    assert_eq!(rt; out.len(), len);
    assert!(rt; changes.as_slice().len() < 3);
    assert_eq!(rt; transaction_len(&changes), 100 + 36 + 34);
    assert_eq!(rt; items_len(&changes), len as u64);
    let mut other = [1u8, 0, 0, 0, 2].to_vec(rt.alloc())?;
    other.extend_from_slice(&INSTALL)?;
    assert!(rt; items_of(rt.alloc(), other.as_slice())?.is_none());
    other.truncate(5);
    other.extend_from_slice(&UNINSTALL)?;
    assert!(rt; items_of(rt.alloc(), other.as_slice())?.is_none());
    Ok(())
}
