//! An engine in a box, as the tests call it: each call with what it asks for.
ghost use Rattle.std.specs.Prelude.{◌≡◌, ◌∷◌, [], None, OnOk, IfOk, map, IsTrue};
ghost use Rattle.disk_model.specs.Disk.{Disk};
ghost use Rattle.row_format.specs.Schemas.{IsSchema};
ghost use Rattle.engine_api.specs.Live.{live_schema, IsRowFor, IsKeyFor, IsLeft, is_key_of};
ghost use Rattle.journal_engine.specs.Engine.{journal_flags};
ghost use Rattle.journal_engine.specs.Ready.{IsIdle, IsReady};

use crate::JournalEngine;
use disk_model::{MemoryStorage, Storage};
use engine_api::{Engine, EngineFault, Flags, KeyRule};
use row_format::{Column, Kind, Name, Row, Schema, Text, Value, check_row};
use std::alloc::{AllocError, Global};
use std::process::Abort;

/// The xid of transaction 1.
pub(crate) const XID: u64 = 7;

pub(crate) fn name(rt: &impl Abort, alloc: Global, bytes: &[u8]) -> Result<Name, AllocError> {
    match Name::new(bytes.to_vec(alloc)?) {
        Ok(name) => Ok(name),
        Err(_) => rt.abort(),
    }
}

// Columns that have no key, or the first for one.
fn schema_of(rt: &impl Abort, columns: Vec<Column>, key: Option<u8>) -> Schema
    ensures { IsSchema result }
{
    match Schema::new(columns, key) {
        Ok(schema) => schema,
        Err(_) => rt.abort(),
    }
}

/// k BIGINT, the key, and v VARCHAR(10).
pub(crate) fn pairs(rt: &impl Abort, alloc: Global) -> Result<Schema, AllocError>
    ensures { IfOk result IsSchema }
{
    let mut columns = Vec::new(alloc);
    columns.push(Column {
        name: name(rt, alloc, b"k")?,
        kind: Kind::BigInt,
        nullable: false,
    })?;
    columns.push(Column {
        name: name(rt, alloc, b"v")?,
        kind: Kind::VarChar(10),
        nullable: true,
    })?;
    Ok(schema_of(rt, columns, Some(0)))
}

/// A row of `pairs`.
pub(crate) fn pair(alloc: Global, key: i64, text: &[u8]) -> Result<Row, AllocError> {
    let mut values = Vec::new(alloc);
    values.push(Value::Int(key))?;
    values.push(Value::Text(Text::new(text.to_vec(alloc)?)))?;
    Ok(Row::new(values))
}

/// Seven columns VARCHAR(255), and no key.
pub(crate) fn wide(rt: &impl Abort, alloc: Global) -> Result<Schema, AllocError>
    ensures { IfOk result IsSchema }
{
    let mut columns = Vec::new(alloc);
    for letter in *b"abcdefg" {
        columns.push(Column {
            name: name(rt, alloc, [letter].as_slice())?,
            kind: Kind::VarChar(255),
            nullable: false,
        })?;
    }
    Ok(schema_of(rt, columns, None))
}

/// A row of `wide`, as long as it can be.
pub(crate) fn wide_row(alloc: Global) -> Result<Row, AllocError> {
    let mut values = Vec::new(alloc);
    for _ in 0..7 {
        values.push(Value::Text(Text::new(vec![in alloc; b'x'; 255]?)))?;
    }
    Ok(Row::new(values))
}

/// JOURNAL in the files 16 and 17.
pub(crate) fn journal(alloc: Global) -> Result<JournalEngine, AllocError> {
    JournalEngine::new(16, alloc)
}

/// Empty files. The calls with these numbers fail.
pub(crate) fn storage(alloc: Global, failing: Vec<u64>) -> Result<MemoryStorage, AllocError> {
    MemoryStorage::new(alloc, Vec::new(alloc), failing)
}

// The engine must be able to do what JOURNAL can.
fn can(rt: &impl Abort, engine: &Box<dyn Engine + Send>)
    ensures { (kind engine.now).flags ≡ journal_flags }
{
    match engine.flags() {
        Flags {
            transactional: true,
            crash_safe: true,
            key: KeyRule::Allowed,
            nulls: true,
        } => {}
        _ => rt.abort(),
    }
}

/// Begins from the files.
pub(crate) fn begin(
    rt: &impl Abort,
    engine: &mut Box<dyn Engine + Send>,
    volume: &mut dyn Storage,
) -> Result<(), EngineFault>
    ensures { OnOk result (IsIdle (kind engine.new) (state engine.new)
        (holds engine.new) (disk volume.new)) }
{
    can(rt, engine);
    engine.init(volume, &[])
}

/// The prepared xids.
pub(crate) fn xids(
    engine: &mut Box<dyn Engine + Send>,
    volume: &mut dyn Storage,
) -> Result<Vec<u64>, EngineFault>
    requires { IsIdle (kind engine.old) (state engine.old) (holds engine.old) (disk volume.old) }
    ensures idle { OnOk result (IsIdle (kind engine.new) (state engine.new)
        (holds engine.new) (disk volume.new)) }
    ensures xids { IfOk result
        (λ found. found.items ≡ map (λ it. it.xid) (state engine.new).gist.prepared) }
{
    engine.recover(volume)
}

/// Nothing may be prepared.
pub(crate) fn is_fresh(
    rt: &impl Abort,
    engine: &mut Box<dyn Engine + Send>,
    volume: &mut dyn Storage,
) -> Result<(), EngineFault>
    requires { IsIdle (kind engine.old) (state engine.old) (holds engine.old) (disk volume.old) }
    ensures { OnOk result (IsReady (kind engine.new) (state engine.new)
        (holds engine.new) (disk volume.new)) }
{
    if !xids(engine, volume)?.is_empty() {
        rt.abort();
    }
    Ok(())
}

// No table of this name may be live.
fn is_free(rt: &impl Abort, engine: &Box<dyn Engine + Send>, table: &Name)
    ensures { live_schema table.now (state engine.now) ≡ None }
{
    if engine.live(table).is_some() {
        rt.abort();
    }
}

// The row must be one for the live table.
fn has_place_for(rt: &impl Abort, engine: &Box<dyn Engine + Send>, table: &Name, row: &Row)
    ensures { IsRowFor (live_schema table.now (state engine.now)) row.now }
{
    let Some(schema) = engine.live(table) else {
        rt.abort()
    };
    match check_row(schema, row) {
        Ok(()) => {}
        Err(_) => rt.abort(),
    }
}

// The schema must have a key, which is a BIGINT, and the value must be a number.
#[tactic(auto, using(crate::proofs::ReadyLemmas::number_key))]
fn has_number_key(rt: &impl Abort, schema: &Schema, key: &Value)
    ensures { IsTrue (is_key_of schema.now key.now) }
{
    let Some(place) = schema.key else { rt.abort() };
    let Value::Int(_) = key else { rt.abort() };
    let Some(column) = schema.columns.as_slice().get(place as usize) else {
        rt.abort()
    };
    match column.kind {
        Kind::BigInt => {}
        Kind::VarChar(_) => rt.abort(),
    }
}

/// The value must be one for the key of the live table.
pub(crate) fn can_be_key(
    rt: &impl Abort,
    engine: &Box<dyn Engine + Send>,
    table: &Name,
    key: &Value,
)
    ensures { IsKeyFor (live_schema table.now (state engine.now)) key.now }
{
    let Some(schema) = engine.live(table) else {
        rt.abort()
    };
    has_number_key(rt, schema, key);
}

/// Adds a row, by transaction 1. The device must not fail: no call of it is made.
pub(crate) fn insert(
    rt: &impl Abort,
    engine: &mut Box<dyn Engine + Send>,
    volume: &mut dyn Storage,
    table: &Name,
    row: &Row,
) -> Result<(), EngineFault>
    requires { IsReady (kind engine.old) (state engine.old) (holds engine.old) (disk volume.old) }
    ensures { IsReady (kind engine.new) (state engine.new) (holds engine.new) (disk volume.new) }
{
    has_place_for(rt, engine, table, row);
    match engine.write_row(volume, 1, table, row) {
        Ok(()) => Ok(()),
        Err(EngineFault::Device) => rt.abort(),
        Err(fault) => Err(fault),
    }
}

/// Makes a table, by transaction 1. The volume is there for what is said of it alone.
pub(crate) fn make(
    rt: &impl Abort,
    engine: &mut Box<dyn Engine + Send>,
    volume: &mut dyn Storage,
    table: &Name,
    schema: &Schema,
) -> Result<(), EngineFault>
    requires schema { IsSchema schema.now }
    requires ready { IsReady (kind engine.old) (state engine.old) (holds engine.old)
        (disk volume.old) }
    ensures ready { IsReady (kind engine.new) (state engine.new) (holds engine.new)
        (disk volume.new) }
{
    is_free(rt, engine, table);
    match engine.create(1, table, schema) {
        Ok(()) => Ok(()),
        Err(EngineFault::Device) => rt.abort(),
        Err(fault) => Err(fault),
    }
}

/// Makes the table t with the row (1, 'x'), by transaction 1.
pub(crate) fn make_pair(
    rt: &impl Abort,
    alloc: Global,
    engine: &mut Box<dyn Engine + Send>,
    volume: &mut dyn Storage,
) -> Result<(), EngineFault>
    requires { IsReady (kind engine.old) (state engine.old) (holds engine.old) (disk volume.old) }
    ensures { IsReady (kind engine.new) (state engine.new) (holds engine.new) (disk volume.new) }
{
    let t = name(rt, alloc, b"t")?;
    let schema = pairs(rt, alloc)?;
    let row = pair(alloc, 1, b"x")?;
    make(rt, engine, volume, &t, &schema)?;
    insert(rt, engine, volume, &t, &row)
}

/// Notes how many device calls there were.
pub(crate) fn note(marks: &mut Vec<u64>, calls: u64) -> Result<(), AllocError> {
    marks.push(calls)?;
    Ok(())
}

/// Prepares and commits transaction 1, and notes how many device calls there were after each of the two. Between them the xid must be told.
pub(crate) fn commit(
    rt: &impl Abort,
    engine: &mut Box<dyn Engine + Send>,
    volume: &mut dyn Storage,
    marks: &mut Vec<u64>,
    number: u64,
) -> Result<(), EngineFault>
    requires { IsReady (kind engine.old) (state engine.old) (holds engine.old) (disk volume.old) }
    ensures idle { OnOk result (IsIdle (kind engine.new) (state engine.new)
        (holds engine.new) (disk volume.new)) }
    ensures ready { OnOk result (IsReady (kind engine.new) (state engine.new)
        (holds engine.new) (disk volume.new)) }
{
    engine.prepare(volume, 1, XID)?;
    note(marks, volume.calls())?;
    let prepared = engine.recover(volume)?;
    assert!(rt; prepared.as_slice() == [XID].as_slice());
    if engine.last_number() >= number {
        rt.abort();
    }
    engine.commit(volume, 1, XID, number)?;
    note(marks, volume.calls())?;
    Ok(())
}

/// Rolls transaction 1 back; before that, it is prepared where that is asked.
pub(crate) fn rollback(
    engine: &mut Box<dyn Engine + Send>,
    volume: &mut dyn Storage,
    prepares: bool,
) -> Result<(), EngineFault>
    requires { IsReady (kind engine.old) (state engine.old) (holds engine.old) (disk volume.old) }
    ensures { OnOk result (IsIdle (kind engine.new) (state engine.new)
        (holds engine.new) (disk volume.new)) }
{
    if prepares {
        engine.prepare(volume, 1, XID)?;
    }
    engine.rollback(volume, 1)
}

// 7 must be the only one of these.
fn is_only(rt: &impl Abort, xids: &[u64])
    ensures { xids.now ≡ 7 ∷ [] }
{
    match xids {
        [7] => {}
        _ => rt.abort(),
    }
}

/// The only prepared xid must be 7, by an earlier run.
#[tactic(auto, using(crate::proofs::ReadyLemmas::only_left))]
pub(crate) fn is_left(
    rt: &impl Abort,
    engine: &mut Box<dyn Engine + Send>,
    volume: &mut dyn Storage,
) -> Result<(), EngineFault>
    requires { IsIdle (kind engine.old) (state engine.old) (holds engine.old) (disk volume.old) }
    ensures idle { OnOk result (IsIdle (kind engine.new) (state engine.new)
        (holds engine.new) (disk volume.new)) }
    ensures left { OnOk result (IsLeft 7 (state engine.new)) }
{
    let prepared = xids(engine, volume)?;
    is_only(rt, prepared.as_slice());
    Ok(())
}

// The row with this key. The device must not fail: no call of it is made.
fn read(
    rt: &impl Abort,
    engine: &mut Box<dyn Engine + Send>,
    volume: &mut dyn Storage,
    table: &Name,
    key: &Value,
) -> Result<Row, EngineFault>
    requires { IsIdle (kind engine.old) (state engine.old) (holds engine.old) (disk volume.old) }
    ensures { IsIdle (kind engine.new) (state engine.new) (holds engine.new) (disk volume.new) }
{
    can_be_key(rt, engine, table, key);
    match engine.index_read(volume, table, key) {
        Ok(row) => Ok(row),
        Err(EngineFault::Device) => rt.abort(),
        Err(fault) => Err(fault),
    }
}

/// The text of the row with this key.
pub(crate) fn text_at(
    rt: &impl Abort,
    engine: &mut Box<dyn Engine + Send>,
    volume: &mut dyn Storage,
    table: &Name,
    key: i64,
) -> Result<Text, EngineFault>
    requires { IsIdle (kind engine.old) (state engine.old) (holds engine.old) (disk volume.old) }
    ensures { IsIdle (kind engine.new) (state engine.new) (holds engine.new) (disk volume.new) }
{
    let row = read(rt, engine, volume, table, &Value::Int(key))?;
    match row.values() {
        [_, Value::Text(text)] => Ok(text.copy()?),
        _ => rt.abort(),
    }
}

/// How many rows a table has; None where it is not live.
pub(crate) fn count(engine: &Box<dyn Engine + Send>, table: &Name) -> Option<u64> {
    match engine.live(table) {
        None => None,
        Some(_) => Some(engine.records(table)),
    }
}
