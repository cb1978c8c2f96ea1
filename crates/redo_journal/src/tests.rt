//! Values from outside: the bytes of a journal, which area is read, crash images of each moment, and failing calls.
ghost use Rattle.std.specs.Prelude.{List, IfOk, OnOk};
ghost use Rattle.redo_journal.specs.declared.record.Record.{Record as Entry};
ghost use Rattle.redo_journal.specs.Appending.{FitsBehind, with_one, IsOpen};

use crate::header::{area_checksum, header};
use crate::{Journal, JournalFault, Record};
use disk_model::{Choice, Failed, FileBytes, MemoryStorage, Storage};
use frame_codec::put_frame;
use log_tables::Prepared;
use row_format::Changes;
use std::alloc::{AllocError, Global};
use std::test::Fail;

// The first file of the journal; the second is 4.
const FILE: u32 = 3;

// Adds a record and makes it durable.
fn put(volume: &mut dyn Storage, journal: &mut Journal, entry: &Record) -> Result<(), JournalFault>
    requires { (records : List Entry) × IsOpen journal.old records (disk volume.old)
        × FitsBehind records entry.now }
    ensures { (records : List Entry) → IsOpen journal.old records (disk volume.old)
        → FitsBehind records entry.now
        → OnOk result (IsOpen journal.new (with_one records entry.now) (disk volume.new)) }
{
    journal.append(volume, entry)?;
    match journal.sync(volume) {
        Ok(()) => Ok(()),
        Err(_) => Err(JournalFault::Device),
    }
}

// Opens the journal, and adds three records to an empty one, each made durable: 17 device calls on an empty volume.
fn run(alloc: Global, volume: &mut dyn Storage) -> Result<(), JournalFault> {
    let (mut journal, found) = Journal::open(alloc, volume, FILE, None)?;
    if !found.is_empty() {
        return Ok(());
    }
    put(volume, &mut journal, &Record::SnapLast { number: 7 })?;
    let changes = Changes::new(Vec::new(alloc));
    put(
        volume,
        &mut journal,
        &Record::Prepare(Prepared { xid: 1, changes }),
    )?;
    put(volume, &mut journal, &Record::Commit { xid: 1, number: 8 })
}

fn fresh(alloc: Global, failing: Vec<u64>) -> Result<MemoryStorage, AllocError> {
    MemoryStorage::new(alloc, Vec::new(alloc), failing)
}

fn bytes_of(alloc: Global, volume: &mut dyn Storage, file: u32) -> Result<Vec<u8>, Fail> {
    let len = volume.len(file)?;
    let mut bytes = vec![in alloc; 0u8; len as usize]?;
    volume.read(file, 0, bytes.as_mut_slice())?;
    Ok(bytes)
}

#[test]
fn a_journal_has_these_bytes(rt: HostRuntime) -> Result<(), Fail> {
    let alloc = rt.alloc();
    let mut storage = fresh(alloc, Vec::new(alloc))?;
    assert_eq!(rt; run(alloc, &mut storage), Ok(()));
    assert_eq!(rt; storage.calls(), 17);
    let bytes = bytes_of(alloc, &mut storage, FILE)?;
    let whole = [
        0x50, 0x4c, 0x55, 0x47, 0x44, 0x4a, 0x52, 0x4e, 1, 0, 0, 0, 0, 0, 0, 0, 0, 0, 0, 0, 0, 0,
        0, 0, 0, 0, 0, 1, 0xbf, 0x64, 0xea, 0x0f, 0, 0, 0, 0, 0x82, 1, 0, 0, 0, 0x1f, 0, 0, 0,
        0x3f, 0, 0, 0, 0, 0, 7, 0, 0, 0, 0, 0, 0, 0, 0xb0, 0xf0, 0x3d, 0x30, 0, 0, 0, 0, 0x83, 1,
        0, 0, 0, 0x23, 0, 0, 0, 0x62, 0, 0, 0, 0, 0, 1, 0, 0, 0, 0, 0, 0, 0, 0, 0, 0, 0, 0xf1,
        0x84, 0x22, 0xc3, 0, 0, 0, 0, 0x84, 1, 0, 0, 0, 0x27, 0, 0, 0, 0x89, 0, 0, 0, 0, 0, 1, 0,
        0, 0, 0, 0, 0, 0, 8, 0, 0, 0, 0, 0, 0, 0, 0xb1, 0xab, 0x18, 5,
    ];
    assert!(rt; bytes.as_slice() == whole.as_slice());
    assert_eq!(rt; bytes_of(alloc, &mut storage, FILE + 1)?.len(), 0);
    Ok(())
}

// How many records a crash image has; 100 where it is no journal.
fn image_of(
    alloc: Global,
    storage: &MemoryStorage,
    moment: u64,
    choice: Choice,
) -> Result<usize, Fail> {
    if moment > storage.calls() {
        return Err(Fail::from(Failed));
    }
    let mut image = storage.image(alloc, moment, choice)?;
    match Journal::open(alloc, &mut image, FILE, None) {
        Ok((journal, found)) if journal.records() == found.len() as u64 => Ok(found.len()),
        _ => Ok(100),
    }
}

#[test]
fn crash_images_have_a_first_part(rt: HostRuntime) -> Result<(), Fail> {
    let alloc = rt.alloc();
    let mut storage = fresh(alloc, Vec::new(alloc))?;
    assert_eq!(rt; run(alloc, &mut storage), Ok(()));
    // At each moment: how many records were written, how many synced, and how many bytes the next one has.
    let whole = [0usize, 0, 0, 0, 0, 0, 0, 0, 0, 0, 0, 0, 1, 1, 2, 2, 3, 3];
    let synced = [0usize, 0, 0, 0, 0, 0, 0, 0, 0, 0, 0, 0, 0, 1, 1, 2, 2, 3];
    let sizes = [31u64, 35, 39, 39];
    for (moment, counts) in whole.iter().zip(synced.iter()).enumerate() {
        let moment = moment as u64;
        let all = image_of(alloc, &storage, moment, Choice::Whole)?;
        assert!(rt; all == *counts.0, "whole at {moment}");
        let least = image_of(alloc, &storage, moment, Choice::Synced)?;
        assert!(rt; least == *counts.1, "synced at {moment}");
        let next = sizes.get(*counts.1).copied().unwrap_or(39);
        for n in 0..61 {
            let part = image_of(alloc, &storage, moment, Choice::FirstBytes(n))?;
            let wanted = if n < next { *counts.1 } else { *counts.0 };
            assert!(rt; part == wanted, "{n} bytes at {moment}");
        }
    }
    Ok(())
}

#[test]
fn a_failing_call_is_told(rt: HostRuntime) -> Result<(), Fail> {
    let alloc = rt.alloc();
    for k in 1..19 {
        let mut storage = fresh(alloc, [k].to_vec(alloc)?)?;
        let ended = run(alloc, &mut storage);
        if k < 18 {
            assert_eq!(rt; ended, Err(JournalFault::Device), "call {k}");
            assert_eq!(rt; storage.faults(), 1, "call {k}");
        } else {
            assert_eq!(rt; ended, Ok(()));
            assert_eq!(rt; storage.faults(), 0);
        }
    }
    Ok(())
}

// The bytes of an area with this gate byte, one SnapLast, and two bytes that are no record.
fn area(alloc: Global, sequence: u64, gate: u8) -> Result<Vec<u8>, AllocError> {
    let mut bytes = header(sequence, gate).to_vec(alloc)?;
    put_frame(
        area_checksum(sequence),
        32,
        130,
        &[7, 0, 0, 0, 0, 0, 0, 0],
        &mut bytes,
    )?;
    bytes.extend_from_slice(&[0, 0])?;
    Ok(bytes)
}

// What an opening of two files gives: how many records, the sequence, and the lengths of both files then; None where they are no
// journal.
fn opened(
    alloc: Global,
    first: Vec<u8>,
    second: Vec<u8>,
    wanted: Option<u64>,
) -> Result<Option<(usize, u64, u64, u64)>, Fail> {
    let mut files = vec![in alloc;
        FileBytes {
            file: FILE,
            bytes: first
        },
    ]?;
    files.push(FileBytes {
        file: FILE + 1,
        bytes: second,
    })?;
    let mut storage = MemoryStorage::new(alloc, files, Vec::new(alloc))?;
    match Journal::open(alloc, &mut storage, FILE, wanted) {
        Ok((journal, found)) => {
            let lens = (storage.len(FILE)?, storage.len(FILE + 1)?);
            Ok(Some((found.len(), journal.sequence(), lens.0, lens.1)))
        }
        Err(JournalFault::NotAVolume { file: FILE }) => Ok(None),
        Err(_) => Err(Fail::from(Failed)),
    }
}

#[test]
fn the_area_that_is_wanted_is_read(rt: HostRuntime) -> Result<(), Fail> {
    let alloc = rt.alloc();
    // The two sequences and gates, the sequence that is wanted, and what the opening gives.
    let cases = [
        ((5, 1), (5, 1), None, Some((1, 5, 63, 65))),
        ((5, 1), (6, 1), None, Some((1, 6, 65, 63))),
        ((6, 1), (5, 1), None, Some((1, 6, 63, 65))),
        ((5, 1), (6, 0), None, Some((1, 5, 63, 65))),
        ((5, 0), (6, 1), None, Some((1, 6, 65, 63))),
        ((5, 0), (6, 2), None, None),
        ((5, 1), (6, 1), Some(5), Some((1, 5, 63, 65))),
        ((5, 1), (6, 1), Some(9), None),
        ((5, 1), (6, 1), Some(0), Some((0, 0, 65, 65))),
    ];
    for (number, case) in cases.iter().enumerate() {
        let first = area(alloc, case.0.0, case.0.1)?;
        let second = area(alloc, case.1.0, case.1.1)?;
        let found = opened(alloc, first, second, case.2)?;
        assert!(rt; found == case.3, "case {number}");
    }
    let strange = [b'A'; 33];
    let none = Vec::new(alloc);
    let long = opened(alloc, strange.to_vec(alloc)?, none, None)?;
    assert!(rt; long.is_none());
    let short = opened(
        alloc,
        strange[..32].to_vec(alloc)?,
        strange.to_vec(alloc)?,
        None,
    )?;
    assert!(rt; short == Some((0, 0, 32, 33)));
    Ok(())
}
