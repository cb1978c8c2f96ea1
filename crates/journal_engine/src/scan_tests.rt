//! Scans, walks by key, and a table that is dropped, of an engine in a box.
ghost use Rattle.std.specs.Prelude.{OnOk};
ghost use Rattle.engine_api.specs.Live.{IsLive};
ghost use Rattle.engine_api.specs.Scans.{IsOnLive};
ghost use Rattle.journal_engine.specs.Ready.{IsIdle, IsReady};

use crate::fixture::{
    begin, can_be_key, commit, count, insert, is_fresh, journal, make, name, pair, pairs, rollback,
    storage,
};
use crate::tests::with_a_row;
use disk_model::Storage;
use engine_api::{Code, Cursor, Engine, EngineFault};
use row_format::{Name, Row, Value, is_same_row};
use std::alloc::{AllocError, Global};
use std::process::Abort;
use std::test::Fail;

const END: EngineFault = EngineFault::Code(Code::EndOfFile);

// The table must be live.
fn is_live(rt: &impl Abort, engine: &Box<dyn Engine + Send>, table: &Name)
    ensures { IsLive table.now (state engine.now) }
{
    if engine.live(table).is_none() {
        rt.abort();
    }
}

// Begins a scan. The volume is there for what is said of it alone.
fn start(
    rt: &impl Abort,
    engine: &mut Box<dyn Engine + Send>,
    volume: &mut dyn Storage,
    table: &Name,
    cursor: &mut Cursor,
) -> Result<(), EngineFault>
    requires { IsReady (kind engine.old) (state engine.old) (holds engine.old) (disk volume.old) }
    ensures ready { IsReady (kind engine.new) (state engine.new)
        (holds engine.new) (disk volume.new) }
    ensures begun { OnOk result (IsOnLive cursor.new.table (state engine.new)) }
{
    is_live(rt, engine, table);
    match engine.rnd_init(table, cursor) {
        Ok(()) => Ok(()),
        Err(EngineFault::Device) => rt.abort(),
        Err(fault) => Err(fault),
    }
}

// The next row of a scan. The device must not fail: no call of it is made.
fn next(
    rt: &impl Abort,
    engine: &mut Box<dyn Engine + Send>,
    volume: &mut dyn Storage,
    cursor: &mut Cursor,
) -> Result<Row, EngineFault>
    requires ready { IsReady (kind engine.old) (state engine.old)
        (holds engine.old) (disk volume.old) }
    requires begun { IsOnLive cursor.old.table (state engine.old) }
    ensures ready { IsReady (kind engine.new) (state engine.new)
        (holds engine.new) (disk volume.new) }
    ensures begun { IsOnLive cursor.new.table (state engine.new) }
{
    match engine.rnd_next(volume, cursor) {
        Ok(row) => Ok(row),
        Err(EngineFault::Device) => rt.abort(),
        Err(fault) => Err(fault),
    }
}

// The row behind a key. The device must not fail: no call of it is made.
fn above(
    rt: &impl Abort,
    engine: &mut Box<dyn Engine + Send>,
    volume: &mut dyn Storage,
    table: &Name,
    key: &Value,
) -> Result<Row, EngineFault>
    requires { IsReady (kind engine.old) (state engine.old) (holds engine.old) (disk volume.old) }
    ensures { IsReady (kind engine.new) (state engine.new) (holds engine.new) (disk volume.new) }
{
    can_be_key(rt, engine, table, key);
    match engine.index_next(volume, table, key) {
        Ok(row) => Ok(row),
        Err(EngineFault::Device) => rt.abort(),
        Err(fault) => Err(fault),
    }
}

// Drops a table, by transaction 1. The volume is there for what is said of it alone.
fn drop_table(
    rt: &impl Abort,
    engine: &mut Box<dyn Engine + Send>,
    volume: &mut dyn Storage,
    table: &Name,
) -> Result<(), EngineFault>
    requires { IsReady (kind engine.old) (state engine.old) (holds engine.old) (disk volume.old) }
    ensures { IsReady (kind engine.new) (state engine.new) (holds engine.new) (disk volume.new) }
{
    is_live(rt, engine, table);
    match engine.delete_table(1, table) {
        Ok(()) => Ok(()),
        Err(EngineFault::Device) => rt.abort(),
        Err(fault) => Err(fault),
    }
}

// The first value of a row.
fn number_of(rt: &impl Abort, row: &Row) -> i64 {
    match row.values() {
        [Value::Int(n), _] => *n,
        _ => rt.abort(),
    }
}

// The table t with the rows 1, 3 and 2, of which the last two are pending.
fn three_rows(
    rt: &impl Abort,
    alloc: Global,
    engine: &mut Box<dyn Engine + Send>,
    volume: &mut dyn Storage,
    table: &Name,
) -> Result<(), EngineFault>
    ensures { OnOk result (IsReady (kind engine.new) (state engine.new)
        (holds engine.new) (disk volume.new)) }
{
    with_a_row(rt, alloc, engine, volume)?;
    let three = pair(alloc, 3, b"z")?;
    let two = pair(alloc, 2, b"y")?;
    insert(rt, engine, volume, table, &three)?;
    insert(rt, engine, volume, table, &two)
}

// A scan gives the rows in key order, once each, and then the end, again and again.
fn scans(
    rt: &impl Abort,
    alloc: Global,
    engine: &mut Box<dyn Engine + Send>,
    volume: &mut dyn Storage,
) -> Result<(), EngineFault> {
    let t = name(rt, alloc, b"t")?;
    three_rows(rt, alloc, engine, volume, &t)?;
    let mut cursor = Cursor::new();
    start(rt, engine, volume, &t, &mut cursor)?;
    let first = next(rt, engine, volume, &mut cursor)?;
    assert_eq!(rt; number_of(rt, &first), 1);
    let second = next(rt, engine, volume, &mut cursor)?;
    assert_eq!(rt; number_of(rt, &second), 2);
    let third = next(rt, engine, volume, &mut cursor)?;
    assert_eq!(rt; number_of(rt, &third), 3);
    let end = next(rt, engine, volume, &mut cursor).err();
    assert_eq!(rt; end, Some(END));
    let again = next(rt, engine, volume, &mut cursor).err();
    assert_eq!(rt; again, Some(END));
    assert_eq!(rt; cursor.position, 3);
    start(rt, engine, volume, &t, &mut cursor)?;
    let anew = next(rt, engine, volume, &mut cursor)?;
    assert_eq!(rt; number_of(rt, &anew), 1);
    Ok(())
}

#[test]
fn a_scan_gives_each_row_once(rt: HostRuntime) -> Result<(), Fail> {
    let alloc = rt.alloc();
    let mut engine: Box<dyn Engine + Send> = Box::new(alloc, journal(alloc)?)?;
    let mut volume = storage(alloc, Vec::new(alloc))?;
    scans(&rt, alloc, &mut engine, &mut volume)?;
    Ok(())
}

// Behind each key stands the next, whether the key is there or not.
fn walks(
    rt: &impl Abort,
    alloc: Global,
    engine: &mut Box<dyn Engine + Send>,
    volume: &mut dyn Storage,
) -> Result<(), EngineFault> {
    let t = name(rt, alloc, b"t")?;
    three_rows(rt, alloc, engine, volume, &t)?;
    let lowest = above(rt, engine, volume, &t, &Value::Int(i64::MIN))?;
    assert_eq!(rt; number_of(rt, &lowest), 1);
    let middle = above(rt, engine, volume, &t, &Value::Int(1))?;
    assert_eq!(rt; number_of(rt, &middle), 2);
    let last = above(rt, engine, volume, &t, &Value::Int(2))?;
    assert_eq!(rt; number_of(rt, &last), 3);
    let end = above(rt, engine, volume, &t, &Value::Int(3)).err();
    assert_eq!(rt; end, Some(END));
    Ok(())
}

#[test]
fn a_walk_by_key_ends_behind_the_last(rt: HostRuntime) -> Result<(), Fail> {
    let alloc = rt.alloc();
    let mut engine: Box<dyn Engine + Send> = Box::new(alloc, journal(alloc)?)?;
    let mut volume = storage(alloc, Vec::new(alloc))?;
    walks(&rt, alloc, &mut engine, &mut volume)?;
    Ok(())
}

// A DROP that is rolled back leaves the table, with its row.
fn drops_in_vain(
    rt: &impl Abort,
    alloc: Global,
    engine: &mut Box<dyn Engine + Send>,
    volume: &mut dyn Storage,
    prepares: bool,
) -> Result<(), EngineFault> {
    let t = name(rt, alloc, b"t")?;
    with_a_row(rt, alloc, engine, volume)?;
    drop_table(rt, engine, volume, &t)?;
    assert_eq!(rt; count(engine, &t), None);
    rollback(engine, volume, prepares)?;
    assert_eq!(rt; count(engine, &t), Some(1));
    Ok(())
}

#[test]
fn a_table_that_is_not_dropped_after_all_has_its_rows(rt: HostRuntime) -> Result<(), Fail> {
    let alloc = rt.alloc();
    for prepares in [false, true] {
        let mut engine: Box<dyn Engine + Send> = Box::new(alloc, journal(alloc)?)?;
        let mut volume = storage(alloc, Vec::new(alloc))?;
        drops_in_vain(&rt, alloc, &mut engine, &mut volume, prepares)?;
    }
    Ok(())
}

// A DROP that is committed is so for the next engine too.
fn drops(
    rt: &impl Abort,
    alloc: Global,
    engine: &mut Box<dyn Engine + Send>,
    again: &mut Box<dyn Engine + Send>,
    volume: &mut dyn Storage,
) -> Result<(), EngineFault> {
    let t = name(rt, alloc, b"t")?;
    with_a_row(rt, alloc, engine, volume)?;
    drop_table(rt, engine, volume, &t)?;
    let mut marks = Vec::new(alloc);
    commit(rt, engine, volume, &mut marks, 2)?;
    assert_eq!(rt; count(engine, &t), None);
    begin(rt, again, volume)?;
    assert_eq!(rt; count(again, &t), None);
    assert_eq!(rt; again.last_number(), 2);
    Ok(())
}

#[test]
fn a_dropped_table_stays_dropped(rt: HostRuntime) -> Result<(), Fail> {
    let alloc = rt.alloc();
    let mut engine: Box<dyn Engine + Send> = Box::new(alloc, journal(alloc)?)?;
    let mut again: Box<dyn Engine + Send> = Box::new(alloc, journal(alloc)?)?;
    let mut volume = storage(alloc, Vec::new(alloc))?;
    drops(&rt, alloc, &mut engine, &mut again, &mut volume)?;
    Ok(())
}

// A row of which the second value is NULL.
fn blank(alloc: Global, key: i64) -> Result<Row, AllocError> {
    let mut values = Vec::new(alloc);
    values.push(Value::Int(key))?;
    values.push(Value::Null)?;
    Ok(Row::new(values))
}

// The table t with the rows (2, 'b') and (1, NULL), inserted in this order and committed.
fn two_rows(
    rt: &impl Abort,
    alloc: Global,
    engine: &mut Box<dyn Engine + Send>,
    volume: &mut dyn Storage,
    table: &Name,
) -> Result<(), EngineFault>
    ensures { OnOk result (IsReady (kind engine.new) (state engine.new)
        (holds engine.new) (disk volume.new)) }
{
    begin(rt, engine, volume)?;
    is_fresh(rt, engine, volume)?;
    let schema = pairs(rt, alloc)?;
    let two = pair(alloc, 2, b"b")?;
    let one = blank(alloc, 1)?;
    make(rt, engine, volume, table, &schema)?;
    insert(rt, engine, volume, table, &two)?;
    insert(rt, engine, volume, table, &one)?;
    let mut marks = Vec::new(alloc);
    commit(rt, engine, volume, &mut marks, 1)
}

// Both rows are read, NULL among them, and then the table is dropped.
fn reads_and_drops(
    rt: &impl Abort,
    alloc: Global,
    engine: &mut Box<dyn Engine + Send>,
    volume: &mut dyn Storage,
) -> Result<(), EngineFault> {
    let t = name(rt, alloc, b"t")?;
    two_rows(rt, alloc, engine, volume, &t)?;
    let mut cursor = Cursor::new();
    start(rt, engine, volume, &t, &mut cursor)?;
    let first = next(rt, engine, volume, &mut cursor)?;
    assert!(rt; is_same_row(&first, &blank(alloc, 1)?));
    let second = next(rt, engine, volume, &mut cursor)?;
    assert!(rt; is_same_row(&second, &pair(alloc, 2, b"b")?));
    let end = next(rt, engine, volume, &mut cursor).err();
    assert_eq!(rt; end, Some(END));
    drop_table(rt, engine, volume, &t)?;
    let mut marks = Vec::new(alloc);
    commit(rt, engine, volume, &mut marks, 2)?;
    assert_eq!(rt; count(engine, &t), None);
    Ok(())
}

#[test]
fn a_table_is_read_in_key_order_and_dropped(rt: HostRuntime) -> Result<(), Fail> {
    let alloc = rt.alloc();
    let mut engine: Box<dyn Engine + Send> = Box::new(alloc, journal(alloc)?)?;
    let mut volume = storage(alloc, Vec::new(alloc))?;
    reads_and_drops(&rt, alloc, &mut engine, &mut volume)?;
    Ok(())
}
