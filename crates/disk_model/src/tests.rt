//! Cases that were worked out by hand: what calls make of files, and what crash images have of them.
use crate::{Choice, Failed, FileBytes, MemoryStorage, Storage, Veiled, Volume};
use std::alloc::{AllocError, Global};
use std::test::Fail;

// Two device calls: the length, and a write that does not begin past it.
fn put(storage: &mut MemoryStorage, file: u32, at: u64, bytes: &[u8]) -> Result<(), Failed> {
    if at > storage.len(file)? {
        return Err(Failed);
    }
    storage.write(file, at, bytes)
}

// Two device calls: the length, and a cut to no more.
fn shorten(storage: &mut MemoryStorage, file: u32, len: u64) -> Result<(), Failed> {
    if len > storage.len(file)? {
        return Err(Failed);
    }
    storage.cut(file, len)
}

// Two device calls: the length, and a read of all bytes.
fn all_of(alloc: Global, storage: &mut MemoryStorage, file: u32) -> Result<Vec<u8>, Fail> {
    let len = storage.len(file)?;
    let mut bytes = vec![in alloc; 0u8; len as usize]?;
    storage.read(file, 0, bytes.as_mut_slice())?;
    Ok(bytes)
}

fn begun(alloc: Global, failing: Vec<u64>) -> Result<MemoryStorage, AllocError> {
    let bytes = [10, 11, 12, 13].to_vec(alloc)?;
    let files = vec![in alloc; FileBytes { file: 1, bytes }]?;
    MemoryStorage::new(alloc, files, failing)
}

#[test]
fn calls_do_what_they_say(rt: HostRuntime) -> Result<(), Fail> {
    let failing = [8].to_vec(rt.alloc())?;
    let mut storage = begun(rt.alloc(), failing)?;
    put(&mut storage, 1, 3, &[20, 21])?;
    put(&mut storage, 2, 0, &[1])?;
    shorten(&mut storage, 1, 4)?;
    storage.len(1)?;
    assert_eq!(rt; storage.sync(1), Err(Failed), "the eighth call was to fail");
    storage.sync(1)?;
    let first = all_of(rt.alloc(), &mut storage, 1)?;
    assert_eq!(rt; first.as_slice(), [10, 11, 12, 20].as_slice());
    let second = all_of(rt.alloc(), &mut storage, 2)?;
    assert_eq!(rt; second.as_slice(), [1].as_slice());
    let mut tail = [0u8; 3];
    assert_eq!(rt; storage.read(1, 2, &mut tail)?, 2);
    assert_eq!(rt; tail, [12, 20, 0]);
    assert_eq!(rt; storage.read(1, 9, &mut tail)?, 0);
    assert_eq!(rt;
        (storage.calls(), storage.faults(), storage.starved()),
        (15, 1, 0)
    );
    Ok(())
}

// Files 1 and 2 in a crash image.
fn taken(
    alloc: Global,
    storage: &MemoryStorage,
    moment: u64,
    choice: Choice,
) -> Result<(Vec<u8>, Vec<u8>), Fail> {
    if moment > storage.calls() {
        return Err(Fail::from(Failed));
    }
    let mut image = storage.image(alloc, moment, choice)?;
    let first = all_of(alloc, &mut image, 1)?;
    let second = all_of(alloc, &mut image, 2)?;
    Ok((first, second))
}

#[test]
fn images_have_what_was_kept(rt: HostRuntime) -> Result<(), Fail> {
    let mut storage = begun(rt.alloc(), Vec::new(rt.alloc()))?;
    put(&mut storage, 1, 4, &[20, 21])?;
    storage.sync(1)?;
    put(&mut storage, 2, 0, &[1, 2, 3])?;
    shorten(&mut storage, 1, 2)?;
    put(&mut storage, 1, 2, &[7, 8])?;
    let start: &[u8] = &[10, 11, 12, 13];
    let synced: &[u8] = &[10, 11, 12, 13, 20, 21];
    let cases: [(u64, Choice, &[u8], &[u8]); 11] = [
        (9, Choice::Whole, &[10, 11, 7, 8], &[1, 2, 3]),
        (9, Choice::Synced, synced, &[]),
        (9, Choice::FirstBytes(0), synced, &[]),
        (9, Choice::FirstBytes(2), synced, &[1, 2]),
        (9, Choice::FirstBytes(3), synced, &[1, 2, 3]),
        (9, Choice::FirstBytes(4), &[10, 11, 7], &[1, 2, 3]),
        (9, Choice::FirstBytes(5), &[10, 11, 7, 8], &[1, 2, 3]),
        (5, Choice::Whole, synced, &[1, 2, 3]),
        (3, Choice::Synced, synced, &[]),
        (2, Choice::Whole, synced, &[]),
        (2, Choice::Synced, start, &[]),
    ];
    for (moment, choice, first, second) in cases {
        let image = taken(rt.alloc(), &storage, moment, choice)?;
        assert_eq!(rt;
            image.0.as_slice(),
            first,
            "file 1 at {moment} by {choice:?}"
        );
        assert_eq!(rt;
            image.1.as_slice(),
            second,
            "file 2 at {moment} by {choice:?}"
        );
    }
    Ok(())
}

#[test]
fn a_volume_lends_its_storage(rt: HostRuntime) -> Result<(), Fail> {
    let storage = begun(rt.alloc(), Vec::new(rt.alloc()))?;
    let boxed: Box<dyn Storage + Send> = Box::new(rt.alloc(), storage)?;
    let mut volume = Volume::new(boxed);
    volume.write(1, 0, &[9])?;
    volume.sync(1)?;
    volume.cut(1, 0)?;
    let mut byte = [5u8; 1];
    assert_eq!(rt; volume.read(1, 0, &mut byte)?, 0);
    assert_eq!(rt; volume.len(1)?, 0);
    assert_eq!(rt; (volume.calls(), volume.faults()), (5, 0));
    assert!(rt; volume.memory().is_some());
    Ok(())
}

#[test]
fn a_veil_hides_the_storage_alone(rt: HostRuntime) -> Result<(), Fail> {
    let veiled = Veiled::new(begun(rt.alloc(), Vec::new(rt.alloc()))?);
    let boxed: Box<dyn Storage + Send> = Box::new(rt.alloc(), veiled)?;
    let mut volume = Volume::new(boxed);
    assert_eq!(rt; volume.len(1)?, 4);
    assert!(rt; volume.memory().is_none());
    Ok(())
}
