//! The calls of an engine in a box, each once where it succeeds, and the codes that it answers.
ghost use Rattle.std.specs.Prelude.{OnOk};
ghost use Rattle.journal_engine.specs.Ready.{IsIdle, IsReady};

use crate::fixture::{
    begin, commit, count, insert, is_fresh, journal, make, make_pair, name, pair, rollback,
    storage, text_at, wide, wide_row,
};
use disk_model::Storage;
use engine_api::{Code, Engine, EngineFault, Flags, KeyRule, Use};
use row_format::{Name, Row};
use std::alloc::Global;
use std::process::Abort;
use std::test::Fail;

const DUPLICATE: Result<(), EngineFault> = Err(EngineFault::Code(Code::Duplicate));

const FULL: Result<(), EngineFault> = Err(EngineFault::Code(Code::Full));

#[test]
fn an_engine_tells_what_it_is(rt: HostRuntime) -> Result<(), Fail> {
    let alloc = rt.alloc();
    let mut engine: Box<dyn Engine + Send> = Box::new(alloc, journal(alloc)?)?;
    assert!(rt; engine.name().as_bytes() == b"JOURNAL".as_slice());
    assert!(rt; engine.soname().as_bytes() == b"ha_journal.so".as_slice());
    let flags = Flags {
        transactional: true,
        crash_safe: true,
        key: KeyRule::Allowed,
        nulls: true,
    };
    assert_eq!(rt; engine.flags(), flags);
    assert_eq!(rt; engine.last_number(), 0);
    let t = name(&rt, alloc, b"t")?;
    for wanted in [Use::Read, Use::Write, Use::Release] {
        assert_eq!(rt; engine.external_lock(1, &t, wanted), Ok(()));
    }
    assert_eq!(rt; count(&engine, &t), None);
    Ok(())
}

/// Begins on empty files, and makes the table t with a row by a transaction that is committed as number 1.
pub(crate) fn with_a_row(
    rt: &impl Abort,
    alloc: Global,
    engine: &mut Box<dyn Engine + Send>,
    volume: &mut dyn Storage,
) -> Result<(), EngineFault>
    ensures idle { OnOk result (IsIdle (kind engine.new) (state engine.new)
        (holds engine.new) (disk volume.new)) }
    ensures ready { OnOk result (IsReady (kind engine.new) (state engine.new)
        (holds engine.new) (disk volume.new)) }
{
    begin(rt, engine, volume)?;
    is_fresh(rt, engine, volume)?;
    make_pair(rt, alloc, engine, volume)?;
    let mut marks = Vec::new(alloc);
    commit(rt, engine, volume, &mut marks, 1)
}

// Syncs the files, and ends the use.
fn end(engine: &mut Box<dyn Engine + Send>, volume: &mut dyn Storage) -> Result<(), EngineFault>
    requires { IsIdle (kind engine.old) (state engine.old) (holds engine.old) (disk volume.old) }
{
    engine.flush_logs(volume)?;
    engine.deinit(volume)
}

// The table t has the row (1, 'x'), of the transaction with the number 1.
fn has_the_row(
    rt: &impl Abort,
    alloc: Global,
    engine: &mut Box<dyn Engine + Send>,
    volume: &mut dyn Storage,
) -> Result<(), EngineFault>
    requires { IsIdle (kind engine.old) (state engine.old) (holds engine.old) (disk volume.old) }
    ensures { IsIdle (kind engine.new) (state engine.new) (holds engine.new) (disk volume.new) }
{
    let t = name(rt, alloc, b"t")?;
    assert_eq!(rt; count(engine, &t), Some(1));
    assert_eq!(rt; engine.last_number(), 1);
    let text = text_at(rt, engine, volume, &t, 1)?;
    assert!(rt; text.as_bytes() == b"x".as_slice());
    Ok(())
}

// One engine commits a row and ends, by a sync each; another reads it.
fn reads_again(
    rt: &impl Abort,
    alloc: Global,
    engine: &mut Box<dyn Engine + Send>,
    again: &mut Box<dyn Engine + Send>,
    volume: &mut dyn Storage,
) -> Result<(), EngineFault> {
    with_a_row(rt, alloc, engine, volume)?;
    has_the_row(rt, alloc, engine, volume)?;
    let calls = volume.calls();
    end(engine, volume)?;
    assert_eq!(rt; Some(volume.calls()), calls.checked_add(2));
    begin(rt, again, volume)?;
    has_the_row(rt, alloc, again, volume)
}

#[test]
fn what_is_committed_is_read_again(rt: HostRuntime) -> Result<(), Fail> {
    let alloc = rt.alloc();
    let mut engine: Box<dyn Engine + Send> = Box::new(alloc, journal(alloc)?)?;
    let mut again: Box<dyn Engine + Send> = Box::new(alloc, journal(alloc)?)?;
    let mut volume = storage(alloc, Vec::new(alloc))?;
    reads_again(&rt, alloc, &mut engine, &mut again, &mut volume)?;
    Ok(())
}

// Adds a row with this key, which is then there, and rolls it back.
fn insert_and_rollback(
    rt: &impl Abort,
    alloc: Global,
    engine: &mut Box<dyn Engine + Send>,
    volume: &mut dyn Storage,
    prepares: bool,
) -> Result<(), EngineFault>
    requires { IsReady (kind engine.old) (state engine.old) (holds engine.old) (disk volume.old) }
    ensures { OnOk result (IsIdle (kind engine.new) (state engine.new)
        (holds engine.new) (disk volume.new)) }
{
    let t = name(rt, alloc, b"t")?;
    let row = pair(alloc, 2, b"y")?;
    insert(rt, engine, volume, &t, &row)?;
    assert_eq!(rt; count(engine, &t), Some(2));
    rollback(engine, volume, prepares)
}

// A row that is rolled back is gone. So many device calls are made for it.
fn rolls_back(
    rt: &impl Abort,
    alloc: Global,
    engine: &mut Box<dyn Engine + Send>,
    volume: &mut dyn Storage,
    prepares: bool,
    device_calls: u64,
) -> Result<(), EngineFault> {
    with_a_row(rt, alloc, engine, volume)?;
    let calls = volume.calls();
    insert_and_rollback(rt, alloc, engine, volume, prepares)?;
    assert_eq!(rt; Some(volume.calls()), calls.checked_add(device_calls));
    let t = name(rt, alloc, b"t")?;
    assert_eq!(rt; count(engine, &t), Some(1));
    let none = text_at(rt, engine, volume, &t, 2).err();
    assert_eq!(rt; none, Some(EngineFault::Code(Code::KeyNotFound)));
    Ok(())
}

#[test]
fn what_is_rolled_back_is_gone(rt: HostRuntime) -> Result<(), Fail> {
    let alloc = rt.alloc();
    // A prepared one makes a write and a sync twice.
    for (prepares, device_calls) in [(false, 0), (true, 4)] {
        let mut engine: Box<dyn Engine + Send> = Box::new(alloc, journal(alloc)?)?;
        let mut volume = storage(alloc, Vec::new(alloc))?;
        rolls_back(&rt, alloc, &mut engine, &mut volume, prepares, device_calls)?;
    }
    Ok(())
}

// A key that is committed is refused, and one that is pending of the same transaction.
fn refuses_keys(
    rt: &impl Abort,
    alloc: Global,
    engine: &mut Box<dyn Engine + Send>,
    volume: &mut dyn Storage,
) -> Result<(), EngineFault> {
    with_a_row(rt, alloc, engine, volume)?;
    let t = name(rt, alloc, b"t")?;
    let first = pair(alloc, 1, b"z")?;
    let second = pair(alloc, 2, b"y")?;
    let committed = insert(rt, engine, volume, &t, &first);
    assert_eq!(rt; committed, DUPLICATE);
    let once = insert(rt, engine, volume, &t, &second);
    assert_eq!(rt; once, Ok(()));
    let pending = insert(rt, engine, volume, &t, &second);
    assert_eq!(rt; pending, DUPLICATE);
    assert_eq!(rt; count(engine, &t), Some(2));
    Ok(())
}

#[test]
fn a_key_that_is_there_is_refused(rt: HostRuntime) -> Result<(), Fail> {
    let alloc = rt.alloc();
    let mut engine: Box<dyn Engine + Send> = Box::new(alloc, journal(alloc)?)?;
    let mut volume = storage(alloc, Vec::new(alloc))?;
    refuses_keys(&rt, alloc, &mut engine, &mut volume)?;
    Ok(())
}

// Adds a row so many times.
fn fill(
    rt: &impl Abort,
    engine: &mut Box<dyn Engine + Send>,
    volume: &mut dyn Storage,
    table: &Name,
    row: &Row,
    times: u64,
)
    requires { IsReady (kind engine.old) (state engine.old) (holds engine.old) (disk volume.old) }
    ensures { IsReady (kind engine.new) (state engine.new) (holds engine.new) (disk volume.new) }
{
    for _ in 0..times {
        let answer = insert(rt, engine, volume, table, row);
        assert_eq!(rt; answer, Ok(()));
    }
}

// A table has 2 bytes for its name and 2 + 7 * 5 for its schema, a row 1 + 7 * 256. With 9,357 rows that is 16,777,140, of 16,777,216; a
// second table leaves 37.
fn fills_up(
    rt: &impl Abort,
    alloc: Global,
    engine: &mut Box<dyn Engine + Send>,
    volume: &mut dyn Storage,
) -> Result<(), EngineFault> {
    let t = name(rt, alloc, b"t")?;
    let u = name(rt, alloc, b"u")?;
    let v = name(rt, alloc, b"v")?;
    let schema = wide(rt, alloc)?;
    let row = wide_row(alloc)?;
    begin(rt, engine, volume)?;
    is_fresh(rt, engine, volume)?;
    make(rt, engine, volume, &t, &schema)?;
    fill(rt, engine, volume, &t, &row, 9357);
    let more = insert(rt, engine, volume, &t, &row);
    assert_eq!(rt; more, FULL);
    assert_eq!(rt; count(engine, &t), Some(9357));
    make(rt, engine, volume, &u, &schema)?;
    let made = make(rt, engine, volume, &v, &schema);
    assert_eq!(rt; made, FULL);
    assert_eq!(rt; count(engine, &v), None);
    Ok(())
}

#[test]
fn tables_are_full_at_16_mib(rt: HostRuntime) -> Result<(), Fail> {
    let alloc = rt.alloc();
    let mut engine: Box<dyn Engine + Send> = Box::new(alloc, journal(alloc)?)?;
    let mut volume = storage(alloc, Vec::new(alloc))?;
    fills_up(&rt, alloc, &mut engine, &mut volume)?;
    Ok(())
}
