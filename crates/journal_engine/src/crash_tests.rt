//! A table and its row, prepared and committed: what a crash at each moment leaves, and what a failing device call leaves.
ghost use Rattle.std.specs.Prelude.{OnOk};
ghost use Rattle.journal_engine.specs.Ready.{IsIdle};

use crate::fixture::{
    XID, begin, commit, count, is_fresh, is_left, journal, make_pair, name, note, storage, text_at,
    xids,
};
use disk_model::{Choice, MemoryStorage, Storage};
use engine_api::{Engine, EngineFault};
use std::alloc::{AllocError, Global};
use std::process::Abort;
use std::test::Fail;

/// How far the transaction is.
#[derive(Clone, Copy, Debug, PartialEq, Eq)]
enum Stage {
    /// Nothing of it is there.
    Nothing,
    Prepared,
    /// Its table and row are there, and its number is the last one.
    Committed,
    Other,
}

// How far the transaction is in an engine that has begun.
fn stage_in(
    rt: &impl Abort,
    alloc: Global,
    engine: &mut Box<dyn Engine + Send>,
    volume: &mut dyn Storage,
) -> Result<Stage, EngineFault>
    requires { IsIdle (kind engine.old) (state engine.old) (holds engine.old) (disk volume.old) }
{
    let t = name(rt, alloc, b"t")?;
    let prepared = xids(engine, volume)?;
    match (
        count(engine, &t),
        engine.last_number(),
        prepared.as_slice().first().copied(),
    ) {
        (None, 0, None) => Ok(Stage::Nothing),
        (None, 0, Some(XID)) if prepared.len() == 1 => Ok(Stage::Prepared),
        (Some(1), 1, None) => {
            let text = text_at(rt, engine, volume, &t, 1)?;
            assert!(rt; text.as_bytes() == b"x".as_slice());
            Ok(Stage::Committed)
        }
        _ => Ok(Stage::Other),
    }
}

// How far it is, once the engine has begun from these files.
fn begun_stage(
    rt: &impl Abort,
    alloc: Global,
    engine: &mut Box<dyn Engine + Send>,
    volume: &mut dyn Storage,
) -> Result<Stage, EngineFault> {
    begin(rt, engine, volume)?;
    stage_in(rt, alloc, engine, volume)
}

// How far the transaction is in files, as a new engine reads them.
fn stage_of(rt: &impl Abort, alloc: Global, volume: &mut dyn Storage) -> Result<Stage, Fail> {
    let mut engine: Box<dyn Engine + Send> = Box::new(alloc, journal(alloc)?)?;
    Ok(begun_stage(rt, alloc, &mut engine, volume)?)
}

// Begins, makes a table and a row, prepares and commits. Behind each call with a device call, it notes how many there were.
fn run(
    rt: &impl Abort,
    alloc: Global,
    engine: &mut Box<dyn Engine + Send>,
    volume: &mut dyn Storage,
    marks: &mut Vec<u64>,
) -> Result<(), EngineFault> {
    begin(rt, engine, volume)?;
    note(marks, volume.calls())?;
    is_fresh(rt, engine, volume)?;
    make_pair(rt, alloc, engine, volume)?;
    commit(rt, engine, volume, marks, 1)
}

// The files after a run without a fault. The opening of an empty journal makes 5 device calls; the Prepare makes the area before it, by 6,
// and each record is a write and a sync.
fn ran(rt: &impl Abort, alloc: Global) -> Result<MemoryStorage, AllocError> {
    let mut volume = storage(alloc, Vec::new(alloc))?;
    let mut engine: Box<dyn Engine + Send> = Box::new(alloc, journal(alloc)?)?;
    let mut marks = Vec::new(alloc);
    let ended = run(rt, alloc, &mut engine, &mut volume, &mut marks);
    assert_eq!(rt; ended, Ok(()));
    assert!(rt; marks.as_slice() == [5, 13, 15].as_slice());
    Ok(volume)
}

// A crash image after a device call.
fn image(
    rt: &impl Abort,
    alloc: Global,
    volume: &MemoryStorage,
    moment: u64,
    choice: Choice,
) -> Result<MemoryStorage, AllocError> {
    if moment > volume.calls() {
        rt.abort();
    }
    volume.image(alloc, moment, choice)
}

// How far the transaction is in a crash image.
fn stage_at(
    rt: &impl Abort,
    alloc: Global,
    volume: &MemoryStorage,
    moment: u64,
    choice: Choice,
) -> Result<Stage, Fail> {
    let mut files = image(rt, alloc, volume, moment, choice)?;
    stage_of(rt, alloc, &mut files)
}

// At each moment: the stage with all that was written, the stage with what was synced, and how many bytes the last write has. The Prepare
// has 84 (31, and 53 of the list form of its changes), the Commit 39.
const MOMENTS: [(Stage, Stage, u64); 16] = [
    (Stage::Nothing, Stage::Nothing, 84),
    (Stage::Nothing, Stage::Nothing, 84),
    (Stage::Nothing, Stage::Nothing, 84),
    (Stage::Nothing, Stage::Nothing, 84),
    (Stage::Nothing, Stage::Nothing, 84),
    (Stage::Nothing, Stage::Nothing, 84),
    (Stage::Nothing, Stage::Nothing, 84),
    (Stage::Nothing, Stage::Nothing, 84),
    (Stage::Nothing, Stage::Nothing, 84),
    (Stage::Nothing, Stage::Nothing, 84),
    (Stage::Nothing, Stage::Nothing, 84),
    (Stage::Nothing, Stage::Nothing, 84),
    (Stage::Prepared, Stage::Nothing, 84),
    (Stage::Prepared, Stage::Prepared, 39),
    (Stage::Committed, Stage::Prepared, 39),
    (Stage::Committed, Stage::Committed, 39),
];

#[test]
fn a_crash_leaves_the_state_before_or_after(rt: HostRuntime) -> Result<(), Fail> {
    let alloc = rt.alloc();
    let volume = ran(&rt, alloc)?;
    assert_eq!(rt; volume.calls(), 15);
    for (moment, case) in MOMENTS.iter().enumerate() {
        let moment = moment as u64;
        let (whole, synced, size) = *case;
        let stage = stage_at(&rt, alloc, &volume, moment, Choice::Whole)?;
        assert_eq!(rt; stage, whole, "whole at {moment}");
        let stage = stage_at(&rt, alloc, &volume, moment, Choice::Synced)?;
        assert_eq!(rt; stage, synced, "synced at {moment}");
        for n in 0..86 {
            let stage = stage_at(&rt, alloc, &volume, moment, Choice::FirstBytes(n))?;
            let wanted = if n < size { synced } else { whole };
            assert_eq!(rt; stage, wanted, "{n} bytes at {moment}");
        }
    }
    Ok(())
}

// Begins on files with a prepared transaction, and commits it as this number, or rolls it back.
fn resolve(
    rt: &impl Abort,
    engine: &mut Box<dyn Engine + Send>,
    volume: &mut dyn Storage,
    number: Option<u64>,
) -> Result<(), EngineFault>
    ensures { OnOk result (IsIdle (kind engine.new) (state engine.new)
        (holds engine.new) (disk volume.new)) }
{
    begin(rt, engine, volume)?;
    is_left(rt, engine, volume)?;
    match number {
        Some(number) => engine.commit_by_xid(volume, XID, number),
        None => engine.rollback_by_xid(volume, XID),
    }
}

// How far the transaction is then.
fn resolved_stage(
    rt: &impl Abort,
    alloc: Global,
    engine: &mut Box<dyn Engine + Send>,
    volume: &mut dyn Storage,
    number: Option<u64>,
) -> Result<Stage, EngineFault> {
    resolve(rt, engine, volume, number)?;
    stage_in(rt, alloc, engine, volume)
}

#[test]
fn a_prepared_transaction_is_found_again(rt: HostRuntime) -> Result<(), Fail> {
    let alloc = rt.alloc();
    let volume = ran(&rt, alloc)?;
    // A commit as a number that is not above the last one rolls back.
    let cases = [
        (Some(1), Stage::Committed),
        (Some(0), Stage::Nothing),
        (None, Stage::Nothing),
    ];
    for (number, wanted) in cases {
        let mut files = image(&rt, alloc, &volume, 13, Choice::Synced)?;
        let stage = stage_of(&rt, alloc, &mut files)?;
        assert_eq!(rt; stage, Stage::Prepared);
        let mut engine: Box<dyn Engine + Send> = Box::new(alloc, journal(alloc)?)?;
        let stage = resolved_stage(&rt, alloc, &mut engine, &mut files, number)?;
        assert_eq!(rt; stage, wanted, "as {number:?}");
        let stage = stage_of(&rt, alloc, &mut files)?;
        assert_eq!(rt; stage, wanted, "read again, as {number:?}");
    }
    Ok(())
}

// How far the transaction may be where so many of the calls are done: before and after the next one.
fn stages_behind(done: usize) -> (Stage, Stage) {
    match done {
        0 => (Stage::Nothing, Stage::Nothing),
        1 => (Stage::Nothing, Stage::Prepared),
        2 => (Stage::Prepared, Stage::Committed),
        _ => (Stage::Committed, Stage::Committed),
    }
}

// What stands after a run whose device call of this number fails: a crash image of all or of what was synced, and the same engine, begun
// anew.
fn fails_at(rt: &impl Abort, alloc: Global, failing: u64) -> Result<(), Fail> {
    let mut volume = storage(alloc, [failing].to_vec(alloc)?)?;
    let mut engine: Box<dyn Engine + Send> = Box::new(alloc, journal(alloc)?)?;
    let mut marks = Vec::new(alloc);
    let ended = run(rt, alloc, &mut engine, &mut volume, &mut marks);
    assert_eq!(rt; ended, Err(EngineFault::Device), "call {failing}");
    assert_eq!(rt; volume.faults(), 1, "call {failing}");
    let (before, after) = stages_behind(marks.len());
    for choice in [Choice::Whole, Choice::Synced] {
        let stage = stage_at(rt, alloc, &volume, volume.calls(), choice)?;
        assert!(rt;
            stage == before || stage == after,
            "{choice:?}, call {failing}"
        );
    }
    let stage = begun_stage(rt, alloc, &mut engine, &mut volume)?;
    assert!(rt; stage == before || stage == after, "call {failing}");
    Ok(())
}

#[test]
fn a_failing_device_call_leaves_the_state_before_or_after(rt: HostRuntime) -> Result<(), Fail> {
    for failing in 1..16 {
        fails_at(&rt, rt.alloc(), failing)?;
    }
    Ok(())
}
