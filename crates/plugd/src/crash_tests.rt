//! A schedule with each device call failing in turn, and the crash images of each of its moments, opened again.
use crate::ack::Ack;
use crate::code_of;
use crate::fixture::{ONE, TABLE, bytes_of, fresh, joined, played};
use disk_model::{Choice, Failed, MemoryStorage, Storage, Volume};
use std::alloc::Global;
use std::test::Fail;

// The greatest number that was acknowledged up to this moment; 0 where there is none.
fn acknowledged(acks: &[Ack], moment: u64) -> u64 {
    let mut greatest = 0u64;
    for ack in acks {
        if ack.call <= moment {
            greatest = greatest.max(ack.number);
        }
    }
    greatest
}

// A crash image.
fn image_of(
    alloc: Global,
    storage: &MemoryStorage,
    moment: u64,
    choice: Choice,
) -> Result<MemoryStorage, Fail> {
    if moment > storage.calls() {
        return Err(Fail::from(Failed));
    }
    Ok(storage.image(alloc, moment, choice)?)
}

// The replies of the schedule behind so many transactions of it, which then end it.
fn replies_behind(logged: u64) -> &'static [u8] {
    match logged {
        0 => b"1 ok 0 #1\n1 ok 0 #2\n1 ok 1 #3\n",
        1 => b"1 error 9001 plugin is installed\n1 ok 0 #2\n1 ok 1 #3\n",
        2 => b"1 error 9001 plugin is installed\n1 error 1050 table exists\n1 ok 1 #3\n",
        _ =>
            b"1 error 9001 plugin is installed\n1 error 1050 table exists\n1 error 1062 duplicate entry\n",
    }
}

// The files of a volume: the log and the two areas of the journal.
fn files_of(alloc: Global, volume: &mut Volume) -> Result<[Vec<u8>; 3], Fail> {
    let log = bytes_of(alloc, volume, 0)?;
    let first = bytes_of(alloc, volume, 16)?;
    let second = bytes_of(alloc, volume, 17)?;
    Ok([log, first, second])
}

// Opens what a crash left, finds nothing left to do at the next opening, and plays the schedule once more: how many transactions were
// there.
fn recovered(alloc: Global, left: MemoryStorage) -> Result<u64, Fail> {
    let volume = Volume::new(Box::new(alloc, left)?);
    let (opened, _, mut volume) = played(alloc, volume, b"", 4_096)?;
    let there = files_of(alloc, &mut volume)?;
    let (again, _, mut volume) = played(alloc, volume, b"", 4_096)?;
    let still = files_of(alloc, &mut volume)?;
    if code_of(&opened.status) != 0 || code_of(&again.status) != 0 || there != still {
        return Err(Fail::from(Failed));
    }
    let input = joined(alloc, &[TABLE, ONE])?;
    let (outcome, replies, _) = played(alloc, volume, &input, 4_096)?;
    let logged = 3 - (outcome.acks.len() as u64).min(3);
    if code_of(&outcome.status) != 0 || replies.as_slice() != replies_behind(logged) {
        return Err(Fail::from(Failed));
    }
    Ok(logged)
}

#[test]
fn crash_images_have_what_was_acknowledged(rt: HostRuntime) -> Result<(), Fail> {
    let alloc = rt.alloc();
    let volume = Volume::new(Box::new(alloc, fresh(alloc, Vec::new(alloc))?)?);
    let input = joined(alloc, &[TABLE, ONE])?;
    let (outcome, _, volume) = played(alloc, volume, &input, 4_096)?;
    assert_eq!(rt; outcome.acks.len(), 3);
    let Some(storage) = volume.memory() else {
        return Err(Fail::from(Failed));
    };
    for moment in 0..=storage.calls() {
        let known = acknowledged(&outcome.acks, moment);
        let whole = recovered(alloc, image_of(alloc, storage, moment, Choice::Whole)?)?;
        assert!(rt; whole >= known, "whole at {moment}");
        let synced = recovered(alloc, image_of(alloc, storage, moment, Choice::Synced)?)?;
        assert!(rt; synced >= known && synced <= whole, "synced at {moment}");
        for n in [1, 20, 33, 60, 90, 124] {
            let part = image_of(alloc, storage, moment, Choice::FirstBytes(n))?;
            let part = recovered(alloc, part)?;
            assert!(rt; part >= known && part <= whole, "{n} bytes at {moment}");
        }
    }
    Ok(())
}

#[test]
fn a_logged_insert_is_committed_by_its_xid(rt: HostRuntime) -> Result<(), Fail> {
    let alloc = rt.alloc();
    let volume = Volume::new(Box::new(alloc, fresh(alloc, Vec::new(alloc))?)?);
    let input = joined(alloc, &[TABLE, ONE])?;
    let (outcome, _, volume) = played(alloc, volume, &input, 4_096)?;
    let Some(storage) = volume.memory() else {
        return Err(Fail::from(Failed));
    };
    let Some(ack) = outcome.acks.last() else {
        return Err(Fail::from(Failed));
    };
    // The log's sync, then the two calls of the engine's commit.
    let synced = ack.call.saturating_sub(2);
    let image = image_of(alloc, storage, synced, Choice::Synced)?;
    let volume = Volume::new(Box::new(alloc, image)?);
    let (_, replies, _) = played(alloc, volume, ONE, 4_096)?;
    assert!(rt; replies.as_slice() == b"1 error 1062 duplicate entry\n".as_slice());
    let image = image_of(alloc, storage, synced.saturating_sub(1), Choice::Synced)?;
    let volume = Volume::new(Box::new(alloc, image)?);
    let (_, replies, _) = played(alloc, volume, ONE, 4_096)?;
    assert!(rt; replies.as_slice() == b"1 ok 1 #3\n".as_slice());
    Ok(())
}

#[test]
fn a_failing_device_call_halts(rt: HostRuntime) -> Result<(), Fail> {
    let alloc = rt.alloc();
    let input = joined(alloc, &[TABLE, ONE])?;
    let volume = Volume::new(Box::new(alloc, fresh(alloc, Vec::new(alloc))?)?);
    let (_, whole, volume) = played(alloc, volume, &input, 4_096)?;
    let halted = b"1 halted device\n1 halted device\n1 halted device\n".as_slice();
    for k in 1..=volume.calls() {
        let storage = fresh(alloc, [k].to_vec(alloc)?)?;
        let volume = Volume::new(Box::new(alloc, storage)?);
        let (outcome, replies, volume) = played(alloc, volume, &input, 4_096)?;
        assert_eq!(rt; code_of(&outcome.status), 3, "call {k}");
        let said = outcome.acks.len() * 10;
        let rest = replies.as_slice().get(said..).unwrap_or(b"none");
        assert!(rt;
            replies.as_slice().get(..said) == whole.as_slice().get(..said),
            "call {k}"
        );
        assert!(rt;
            replies.is_empty() || halted.get(..rest.len()) == Some(rest),
            "call {k}"
        );
        let Some(storage) = volume.memory() else {
            return Err(Fail::from(Failed));
        };
        let end = image_of(alloc, storage, storage.calls(), Choice::Whole)?;
        let logged = recovered(alloc, end)?;
        assert!(rt; logged >= outcome.acks.len() as u64, "call {k}");
    }
    Ok(())
}
