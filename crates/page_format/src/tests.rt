//! Rows by hand, and pseudo-random calls beside a plain slow program.

use crate::{NoRoom, Page};
use std::alloc::{AllocError, Global};
use std::test::Fail;

fn is_send<T: Send>(_: &T) {}

// Puts in a record of so many equal bytes, from 1 to 4,096 of them.
fn put(page: &mut Page, len: usize, byte: u8) -> Result<u16, NoRoom> {
    let bytes = [byte; 4096];
    if len == 0 || len > bytes.len() {
        return Err(NoRoom);
    }
    page.insert(&bytes[..len])
}

// Whether a slot has a record of so many equal bytes.
fn has(page: &Page, slot: u16, len: usize, byte: u8) -> bool {
    match page.row(slot) {
        Some(row) => row.len() == len && row.iter().all(|it| *it == byte),
        None => false,
    }
}

#[test]
fn a_record_fits_to_the_byte(rt: HostRuntime) {
    let mut page = Page::new(7);
    is_send(&page);
    assert_eq!(rt; page.number(), 7);
    assert_eq!(rt; page.slots(), 0);
    assert_eq!(rt; page.free(), 4088);
    assert!(rt; page.row(0).is_none());
    assert_eq!(rt; put(&mut page, 4085, 1), Err(NoRoom));
    assert_eq!(rt; page.free(), 4088);
    assert_eq!(rt; put(&mut page, 4084, 2), Ok(0));
    assert_eq!(rt; page.free(), 0);
    assert_eq!(rt; put(&mut page, 1, 3), Err(NoRoom));
    assert!(rt; has(&page, 0, 4084, 2));
    assert!(rt; page.remove(0));
    assert_eq!(rt; page.free(), 4084);
    assert_eq!(rt; put(&mut page, 4085, 4), Err(NoRoom));
    assert_eq!(rt; put(&mut page, 4084, 5), Ok(0));
    assert_eq!(rt; page.slots(), 1);
    assert!(rt; has(&page, 0, 4084, 5));
}

#[test]
fn the_lowest_empty_slot_is_taken(rt: HostRuntime) {
    let mut page = Page::new(1);
    for slot in 0..3u8 {
        assert_eq!(rt; put(&mut page, 1000, slot), Ok(u16::from(slot)));
    }
    assert_eq!(rt; page.free(), 1076);
    assert!(rt; page.remove(1));
    assert!(rt; !page.remove(1));
    assert!(rt; page.row(1).is_none());
    assert_eq!(rt; page.free(), 2076);
    assert_eq!(rt; put(&mut page, 2077, 9), Err(NoRoom));
    assert_eq!(rt; put(&mut page, 2076, 9), Ok(1));
    assert_eq!(rt; page.free(), 0);
    assert!(rt; !page.remove(7));
    assert_eq!(rt; page.slots(), 3);
    assert!(rt; has(&page, 0, 1000, 0) && has(&page, 1, 2076, 9) && has(&page, 2, 1000, 2));
}

#[test]
fn records_are_moved_together(rt: HostRuntime) {
    let mut page = Page::new(1);
    for slot in 0..39u8 {
        assert_eq!(rt; put(&mut page, 100, slot), Ok(u16::from(slot)));
    }
    assert_eq!(rt; page.free(), 32);
    for slot in 0..19u16 {
        assert!(rt; page.remove(2 * slot + 1));
    }
    assert_eq!(rt; page.free(), 1932);
    assert_eq!(rt; put(&mut page, 1932, 200), Ok(1));
    assert_eq!(rt; page.free(), 0);
    assert!(rt; has(&page, 1, 1932, 200));
    for slot in 0..20u8 {
        assert!(rt;
            has(&page, 2 * u16::from(slot), 100, 2 * slot),
            "slot {slot}"
        );
    }
    assert_eq!(rt; page.slots(), 39);
    assert!(rt; page.row(3).is_none());
}

// Page 0x01020304 with the records "ab" and "xyz".
const FRONT: [u8; 16] = [4, 3, 2, 1, 2, 0, 0, 0, 0xfe, 0x0f, 2, 0, 0xfb, 0x0f, 3, 0];

fn by_hand() -> [u8; 4096] {
    let mut bytes = [0; 4096];
    bytes[..16].copy_from_slice(&FRONT);
    bytes[4091..].copy_from_slice(b"xyzab");
    bytes
}

#[test]
fn bytes_are_as_by_hand(rt: HostRuntime) -> Result<(), Fail> {
    let mut page = Page::new(0x0102_0304);
    assert_eq!(rt; page.insert(b"ab"), Ok(0));
    assert_eq!(rt; page.insert(b"xyz"), Ok(1));
    assert!(rt; page.bytes() == by_hand().as_slice());
    let mut read = Page::of(0x0102_0304, &by_hand()).ok_or("no page")?;
    assert!(rt; read.bytes() == by_hand().as_slice());
    assert_eq!(rt; read.slots(), 2);
    assert_eq!(rt; read.free(), 4075);
    assert!(rt; read.row(0) == Some(b"ab".as_slice()));
    assert!(rt; read.row(1) == Some(b"xyz".as_slice()));
    assert!(rt; read.remove(0));
    assert_eq!(rt; read.insert(b"c"), Ok(0));
    // It stands below the lowest record, where there is room: nothing is moved.
    assert!(rt; read.bytes().get(4090..4094) == Some(b"cxyz".as_slice()));
    assert!(rt; read.row(1) == Some(b"xyz".as_slice()));
    Ok(())
}

// Bytes of the page by hand that were changed, and whether they are a page then.
const CHANGED: [([(usize, u8); 2], bool); 16] = [
    // no change; another number; not zero behind the number of slots
    ([(0, 4), (0, 4)], true),
    ([(0, 5), (0, 5)], false),
    ([(3, 0), (3, 0)], false),
    ([(6, 1), (6, 1)], false),
    ([(7, 1), (7, 1)], false),
    // 1,020 slots end before the records; 1,021, 1,023 and 65,535 do not
    ([(4, 0xfc), (5, 3)], true),
    ([(4, 0xfd), (5, 3)], false),
    ([(4, 0xff), (5, 3)], false),
    ([(4, 0xff), (5, 0xff)], false),
    // a record ends past the page; two overlap; directly behind another one
    ([(8, 0xff), (9, 0x0f)], false),
    ([(8, 0xfd), (9, 0x0f)], false),
    ([(12, 0xfc), (13, 0x0f)], false),
    ([(12, 0x00), (13, 0x08)], true),
    // the last byte of the directory, and directly behind it; an empty slot's place
    ([(12, 15), (13, 0)], false),
    ([(12, 16), (13, 0)], true),
    ([(14, 0), (13, 0xff)], true),
];

#[test]
fn what_is_a_page(rt: HostRuntime) {
    for (i, (changes, is_page)) in CHANGED.iter().enumerate() {
        let mut bytes = by_hand();
        for (at, value) in changes.iter() {
            if let Some(byte) = bytes.get_mut(*at) {
                *byte = *value;
            }
        }
        assert_eq!(rt;
            Page::of(0x0102_0304, &bytes).is_some(),
            *is_page,
            "case {i}"
        );
    }
    let bytes = by_hand();
    let short = bytes.get(..4095).unwrap_or(&[]);
    assert!(rt; Page::of(0x0102_0304, short).is_none());
    assert!(rt; Page::of(0x0102_0304, &[]).is_none());
    let mut long = [0; 4097];
    long[..4096].copy_from_slice(&bytes);
    assert!(rt; Page::of(0x0102_0304, &long).is_none());
}

// How many bytes are used beside a plain list of records.
fn plain_used(slots: &Vec<Vec<u8>>) -> usize {
    let mut used: usize = 8;
    for row in slots {
        used = used.saturating_add(row.len()).saturating_add(4);
    }
    used
}

// The plain program: a record goes into the first empty place of a list.
fn plain_insert(
    alloc: Global,
    slots: &mut Vec<Vec<u8>>,
    bytes: &[u8],
) -> Result<Option<usize>, AllocError> {
    let used = plain_used(slots).saturating_add(bytes.len());
    let row = bytes.to_vec(alloc)?;
    match slots.iter().position(|row| row.is_empty()) {
        Some(slot) if used <= 4096 => {
            if let Some(place) = slots.get_mut(slot) {
                *place = row;
            }
            Ok(Some(slot))
        }
        None if used <= 4092 => {
            slots.push(row)?;
            Ok(Some(slots.len() - 1))
        }
        _ => Ok(None),
    }
}

// Empties a place of the list.
fn plain_remove(alloc: Global, slots: &mut Vec<Vec<u8>>, slot: usize) -> bool {
    match slots.get_mut(slot) {
        Some(row) if !row.is_empty() => {
            *row = Vec::new(alloc);
            true
        }
        _ => false,
    }
}

// Whether a page, and the page that its bytes are, hold what the list does.
fn agree(page: &Page, slots: &Vec<Vec<u8>>) -> bool {
    let Some(read) = Page::of(5, page.bytes()) else {
        return false;
    };
    for (slot, row) in slots.iter().enumerate() {
        let Ok(slot) = u16::try_from(slot) else {
            return false;
        };
        let found = page.row(slot).unwrap_or(&[]);
        if found != row.as_slice() || read.row(slot).unwrap_or(&[]) != found {
            return false;
        }
    }
    usize::from(page.slots()) == slots.len()
        && plain_used(slots).saturating_add(page.free()) == 4096
}

#[test]
fn calls_agree_with_a_plain_list(rt: HostRuntime) -> Result<(), Fail> {
    let alloc = rt.alloc();
    let mut page = Page::new(5);
    let mut slots = Vec::new(alloc);
    let mut seed: u32 = 1;
    let mut refused = 0u32;
    for k in 1..=400u32 {
        seed = seed.wrapping_mul(1_664_525).wrapping_add(1_013_904_223);
        let draw = (seed >> 16) as usize;
        if draw % 5 < 3 {
            let bytes = [(seed >> 8 & 0xff) as u8; 512];
            let row = &bytes[..draw % 300 + 1];
            let want = plain_insert(alloc, &mut slots, row)?;
            refused = refused.wrapping_add(u32::from(want.is_none()));
            assert_eq!(rt; page.insert(row).ok().map(usize::from), want, "call {k}");
        } else {
            let slot = draw % 40;
            let want = plain_remove(alloc, &mut slots, slot);
            assert_eq!(rt; page.remove(slot as u16), want, "call {k}");
        }
        assert!(rt; agree(&page, &slots), "call {k}");
    }
    assert!(rt; refused > 10);
    Ok(())
}
