//! An engine whose tables are given and which has no memory for a change: it meets the trait, its rows are read in a scan and by key,
//! and it stands in a list beside another.
ghost use Rattle.std.specs.Prelude.{◌≡◌, true, false, [], IfOk, OnOk, IsTrue, slice_get};
ghost use Rattle.std.specs.Option.{option_copied};
ghost use Rattle.std.specs.Ordering.{is_lt};
ghost use Rattle.disk_model.specs.Disk.{Disk};
ghost use Rattle.sql_value.specs.Values.{value_cmp};
ghost use Rattle.row_format.specs.Schemas.{IsSchema};
ghost use Rattle.engine_api.specs.declared.flags.KeyRule.TheVariants.{Allowed};
ghost use Rattle.log_tables.specs.Keys.{key_in, row_with};
ghost use Rattle.log_tables.specs.Tables.{table_named};
ghost use Rattle.engine_api.specs.States.{Kind, begun_state};
ghost use Rattle.engine_api.specs.Live.{live_schema, rows_found, row_found, is_of_type, is_key_of, IsLive, IsKeyFor};
ghost use Rattle.engine_api.specs.Scans.{above_found, row_above, IsOnLive};
ghost use Rattle.engine_api.specs.Reads.{Reading, files_in};
ghost use Rattle.engine_api.specs.Calls.{GoesOn};

use crate::{
    Code, Cursor, Definition, Engine, EngineFault, Flags, Gist, KeyRule, Table, Use, flush_all,
};
use disk_model::{MemoryStorage, Storage};
use log_tables::{PreparedList, Rows, Tables, has_key, value_at};
use row_format::{Column, Kind, Name, Row, Schema, Text, Value, copy_row};
use sql_value::value_order;
use std::alloc::{AllocError, Global};
use std::cmp::Ordering;
use std::process::Abort;
use std::test::Fail;

// The first table of this name, if there is one.
fn find<'a>(tables: &'a [Table], name: &Name) -> Option<&'a Table>
    ensures { option_copied result ≡ table_named name.now tables.now }
{
    tables.iter().find(|it| it.definition.table.is_same(name))
}

// The row at a position of the first table of this name, if it has one there.
fn at<'a>(tables: &'a [Table], table: &Name, position: u32) -> Option<&'a Row>
    ensures { option_copied result
        ≡ slice_get (rows_found (table_named table.now tables.now)) position }
{
    match find(tables, table) {
        None => None,
        Some(it) => it.rows.as_slice().get(position as usize),
    }
}

// Whether a row has a greater key.
fn is_above(row: &Row, column: usize, key: &Value) -> bool
    ensures { result ≡ is_lt (value_cmp key.now (key_in column row.now)) }
{
    let null = Value::Null;
    value_order(key, value_at(row, column, &null)) == Ordering::Less
}

// The first row with this key.
fn with_key<'a>(rows: &'a [Row], column: usize, key: &Value) -> Option<&'a Row>
    ensures { option_copied result ≡ row_with column key.now rows.now }
{
    rows.iter().find(|row| has_key(row, key, column))
}

// The first row with a greater key.
fn with_key_above<'a>(rows: &'a [Row], column: usize, key: &Value) -> Option<&'a Row>
    ensures { option_copied result ≡ row_above (Some column) rows.now key.now }
{
    rows.iter().find(|row| is_above(row, column, key))
}

// The row with this key of the first table of this name.
fn read<'a>(tables: &'a [Table], table: &Name, key: &Value) -> Option<&'a Row>
    ensures { option_copied result ≡ row_found (table_named table.now tables.now) key.now }
{
    let it = match find(tables, table) {
        None => return None,
        Some(it) => it,
    };
    match it.definition.schema.key {
        None => None,
        Some(column) => with_key(it.rows.as_slice(), column as usize, key),
    }
}

// The first row with a greater key of the first table of this name.
fn read_above<'a>(tables: &'a [Table], table: &Name, key: &Value) -> Option<&'a Row>
    ensures { option_copied result ≡ above_found (table_named table.now tables.now) key.now }
{
    let it = match find(tables, table) {
        None => return None,
        Some(it) => it,
    };
    match it.definition.schema.key {
        None => None,
        Some(column) => with_key_above(it.rows.as_slice(), column as usize, key),
    }
}

// What an engine can do that is crash safe.
fn flags_of(transactional: bool) -> Flags
    ensures { result ≡ record {
      transactional = transactional;
      crash_safe = true;
      key = Allowed;
      nulls = true;
    } }
{
    Flags {
        transactional,
        crash_safe: true,
        key: KeyRule::Allowed,
        nulls: true,
    }
}

// An engine with the tables of its gist, and with no files. Its rows are read. It has no memory for a change: each one is refused.
#[derive(Drop)]
struct NoMemory {
    alloc: Global,
    name: Name,
    soname: Text,
    transactional: bool,
    gist: Gist,
}

impl Engine for NoMemory {
    ghost kind = { λ e. record {
      name = e.name;
      soname = e.soname;
      flags = record {
        transactional = e.transactional;
        crash_safe = true;
        key = Allowed;
        nulls = true;
      };
      files = [];
    } };

    ghost reading = { λ e. record {
      faithful = λ place file image. Unit {0};
      stands = λ images gist. gist ≡ e.gist;
    } };

    ghost state = { λ e. begun_state e.gist };

    ghost holds = { λ e files. Unit {0} };

    ghost is_spent = { λ e txn xid. false };

    fn name(&self) -> &Name {
        &self.name
    }

    fn soname(&self) -> &Text {
        &self.soname
    }

    fn flags(&self) -> Flags {
        flags_of(self.transactional)
    }

    fn init(&mut self, volume: &mut dyn Storage, tables: &[Definition]) -> Result<(), EngineFault> {
        Ok(())
    }

    fn deinit(&mut self, volume: &mut dyn Storage) -> Result<(), EngineFault> {
        Ok(())
    }

    fn create(&mut self, txn: u32, table: &Name, schema: &Schema) -> Result<(), EngineFault> {
        Err(EngineFault::Memory)
    }

    fn delete_table(&mut self, txn: u32, table: &Name) -> Result<(), EngineFault> {
        Err(EngineFault::Memory)
    }

    fn external_lock(&mut self, txn: u32, table: &Name, wanted: Use) -> Result<(), EngineFault> {
        Ok(())
    }

    fn rnd_init(&mut self, table: &Name, cursor: &mut Cursor) -> Result<(), EngineFault> {
        cursor.table = Some(table.copy()?);
        cursor.position = 0;
        Ok(())
    }

    fn rnd_next(
        &mut self,
        volume: &mut dyn Storage,
        cursor: &mut Cursor,
    ) -> Result<Row, EngineFault> {
        let position = cursor.position;
        let Some(table) = &cursor.table else {
            return Err(EngineFault::Memory);
        };
        let Some(row) = at(self.gist.tables.as_slice(), table, position) else {
            return Err(EngineFault::Code(Code::EndOfFile));
        };
        let Some(next) = position.checked_add(1) else {
            return Err(EngineFault::Memory);
        };
        let row = copy_row(self.alloc, row)?;
        cursor.position = next;
        Ok(row)
    }

    fn index_read(
        &mut self,
        volume: &mut dyn Storage,
        table: &Name,
        key: &Value,
    ) -> Result<Row, EngineFault> {
        let Some(row) = read(self.gist.tables.as_slice(), table, key) else {
            return Err(EngineFault::Code(Code::KeyNotFound));
        };
        Ok(copy_row(self.alloc, row)?)
    }

    fn index_next(
        &mut self,
        volume: &mut dyn Storage,
        table: &Name,
        after: &Value,
    ) -> Result<Row, EngineFault> {
        let Some(row) = read_above(self.gist.tables.as_slice(), table, after) else {
            return Err(EngineFault::Code(Code::EndOfFile));
        };
        Ok(copy_row(self.alloc, row)?)
    }

    fn write_row(
        &mut self,
        volume: &mut dyn Storage,
        txn: u32,
        table: &Name,
        row: &Row,
    ) -> Result<(), EngineFault> {
        Err(EngineFault::Memory)
    }

    fn records(&self, table: &Name) -> u64 {
        match find(self.gist.tables.as_slice(), table) {
            None => 0,
            Some(it) => it.rows.as_slice().len() as u64,
        }
    }

    fn live(&self, table: &Name) -> Option<&Schema> {
        match find(self.gist.tables.as_slice(), table) {
            None => None,
            Some(it) => Some(&it.definition.schema),
        }
    }

    fn prepare(&mut self, volume: &mut dyn Storage, txn: u32, xid: u64) -> Result<(), EngineFault> {
        Err(EngineFault::Memory)
    }

    fn commit(
        &mut self,
        volume: &mut dyn Storage,
        txn: u32,
        xid: u64,
        number: u64,
    ) -> Result<(), EngineFault> {
        Err(EngineFault::Memory)
    }

    fn rollback(&mut self, volume: &mut dyn Storage, txn: u32) -> Result<(), EngineFault> {
        Ok(())
    }

    fn recover(&mut self, volume: &mut dyn Storage) -> Result<Vec<u64>, EngineFault> {
        Err(EngineFault::Memory)
    }

    fn commit_by_xid(
        &mut self,
        volume: &mut dyn Storage,
        xid: u64,
        number: u64,
    ) -> Result<(), EngineFault> {
        Err(EngineFault::Memory)
    }

    fn rollback_by_xid(&mut self, volume: &mut dyn Storage, xid: u64) -> Result<(), EngineFault> {
        Err(EngineFault::Memory)
    }

    fn flush_logs(&mut self, volume: &mut dyn Storage) -> Result<(), EngineFault> {
        Ok(())
    }

    fn last_number(&self) -> u64 {
        self.gist.last
    }
}

fn name(rt: &impl Abort, alloc: Global, bytes: &[u8]) -> Result<Name, AllocError> {
    match Name::new(bytes.to_vec(alloc)?) {
        Ok(name) => Ok(name),
        Err(_) => rt.abort(),
    }
}

// The columns k BIGINT, the key, and v VARCHAR(10).
fn schema(rt: &impl Abort, alloc: Global) -> Result<Schema, AllocError>
    ensures { IfOk result IsSchema }
{
    let mut columns = Vec::new(alloc);
    columns.push(Column {
        name: name(rt, alloc, b"k")?,
        kind: Kind::BigInt,
        nullable: false,
    })?;
    columns.push(Column {
        name: name(rt, alloc, b"v")?,
        kind: Kind::VarChar(10),
        nullable: true,
    })?;
    match Schema::new(columns, Some(0)) {
        Ok(schema) => Ok(schema),
        Err(_) => rt.abort(),
    }
}

fn row(alloc: Global, key: i64, text: &[u8]) -> Result<Row, AllocError> {
    let mut values = Vec::new(alloc);
    values.push(Value::Int(key))?;
    values.push(Value::Text(Text::new(text.to_vec(alloc)?)))?;
    Ok(Row::new(values))
}

// A table of the engine N, with these rows.
fn table(
    rt: &impl Abort,
    alloc: Global,
    table: &[u8],
    rows: Vec<Row>,
) -> Result<Table, AllocError> {
    let definition = Definition {
        table: name(rt, alloc, table)?,
        engine: name(rt, alloc, b"N")?,
        schema: schema(rt, alloc)?,
    };
    let rows = Rows::new(rows);
    Ok(Table { definition, rows })
}

// The engine N of n.so, with the table e, which is empty, and the table t of two rows. Its last number is 7.
fn engine(rt: &impl Abort, alloc: Global) -> Result<NoMemory, AllocError>
    ensures nothing_prepared { IfOk result (λ e. e.gist.prepared ≡ []) }
    ensures transactional { IfOk result (λ e. e.transactional ≡ true) }
{
    let mut rows = Vec::new(alloc);
    rows.push(row(alloc, 1, b"a")?)?;
    rows.push(row(alloc, 3, b"c")?)?;
    let mut tables = Vec::new(alloc);
    tables.push(table(rt, alloc, b"e", Vec::new(alloc))?)?;
    tables.push(table(rt, alloc, b"t", rows)?)?;
    Ok(NoMemory {
        alloc,
        name: name(rt, alloc, b"N")?,
        soname: Text::new(b"n.so".to_vec(alloc)?),
        transactional: true,
        gist: Gist {
            tables: Tables::new(tables),
            prepared: PreparedList::new(Vec::new(alloc)),
            last: 7,
        },
    })
}

// How many rows a table has, where it is live.
fn count(engine: &Box<dyn Engine + Send>, table: &Name) -> Option<u64> {
    match engine.live(table) {
        None => None,
        Some(_) => Some(engine.records(table)),
    }
}

const END: Result<i64, EngineFault> = Err(EngineFault::Code(Code::EndOfFile));

const NO_KEY: Result<i64, EngineFault> = Err(EngineFault::Code(Code::KeyNotFound));

// The table must be live.
fn is_live(rt: &impl Abort, engine: &Box<dyn Engine + Send>, table: &Name)
    ensures { IsLive table.now (state engine.now) }
{
    match engine.live(table) {
        Some(_) => {}
        None => rt.abort(),
    }
}

// Whether a value is one of this type.
fn is_of_type(kind: Kind, value: &Value) -> bool
    ensures { result ≡ is_of_type kind value.now }
{
    match (kind, value) {
        (Kind::BigInt, Value::Int(_)) => true,
        (Kind::VarChar(_), Value::Text(_)) => true,
        _ => false,
    }
}

// Whether a value can be a key of a table with this schema.
fn is_key_of(schema: &Schema, key: &Value) -> bool
    ensures { result ≡ is_key_of schema.now key.now }
{
    let Some(place) = schema.key else {
        return false;
    };
    match schema.columns.as_slice().get(place as usize) {
        Some(column) => is_of_type(column.kind, key),
        None => false,
    }
}

// The value must be one for the key of the live table.
fn can_be_key(rt: &impl Abort, engine: &Box<dyn Engine + Send>, table: &Name, key: &Value)
    ensures { IsKeyFor (live_schema table.now (state engine.now)) key.now }
{
    let Some(schema) = engine.live(table) else {
        rt.abort()
    };
    if !is_key_of(schema, key) {
        rt.abort();
    }
}

// Begins the engine, which must not fail.
fn begin(rt: &impl Abort, engine: &mut Box<dyn Engine + Send>, volume: &mut dyn Storage)
    ensures { IsTrue (disk volume.new).told
        → holds engine.new (files_in (kind engine.new).files (disk volume.new)) }
{
    match engine.init(volume, &[]) {
        Ok(()) => {}
        Err(_) => rt.abort(),
    }
}

// The key of the row that was read, or why none was. The device must not fail: no call of it is made.
fn key_read(rt: &impl Abort, read: Result<Row, EngineFault>) -> Result<i64, EngineFault>
    ensures { GoesOn read }
{
    match read {
        Ok(row) => match row.values() {
            [Value::Int(key), _] => Ok(*key),
            _ => rt.abort(),
        },
        Err(EngineFault::Device) => rt.abort(),
        Err(fault) => Err(fault),
    }
}

// The key of the row that a scan reads next.
fn next(
    rt: &impl Abort,
    engine: &mut Box<dyn Engine + Send>,
    volume: &mut dyn Storage,
    cursor: &mut Cursor,
) -> Result<i64, EngineFault>
    requires begun { IsOnLive cursor.old.table (state engine.old) }
    requires holds { IsTrue (disk volume.old).told
        → holds engine.old (files_in (kind engine.old).files (disk volume.old)) }
    ensures begun { IsOnLive cursor.new.table (state engine.new) }
    ensures holds { IsTrue (disk volume.new).told
        → holds engine.new (files_in (kind engine.new).files (disk volume.new)) }
{
    let read = engine.rnd_next(volume, cursor);
    key_read(rt, read)
}

// A scan of the table must read these keys, in order, and then come to its end, where it stays.
fn scan(
    rt: &impl Abort,
    engine: &mut Box<dyn Engine + Send>,
    volume: &mut dyn Storage,
    table: &Name,
    keys: &[i64],
) -> Result<(), EngineFault>
    requires { IsTrue (disk volume.old).told
        → holds engine.old (files_in (kind engine.old).files (disk volume.old)) }
    ensures { OnOk result (IsTrue (disk volume.new).told
        → holds engine.new (files_in (kind engine.new).files (disk volume.new))) }
{
    is_live(rt, engine, table);
    let mut cursor = Cursor::new();
    engine.rnd_init(table, &mut cursor)?;
    for key in keys {
        assert_eq!(rt; next(rt, engine, volume, &mut cursor), Ok(*key));
    }
    assert_eq!(rt; next(rt, engine, volume, &mut cursor), END);
    assert_eq!(rt; next(rt, engine, volume, &mut cursor), END);
    assert_eq!(rt; cursor.position as usize, keys.len());
    Ok(())
}

// The key of the row of the least key above this one.
fn above(
    rt: &impl Abort,
    engine: &mut Box<dyn Engine + Send>,
    volume: &mut dyn Storage,
    table: &Name,
    key: i64,
) -> Result<i64, EngineFault>
    requires { IsTrue (disk volume.old).told
        → holds engine.old (files_in (kind engine.old).files (disk volume.old)) }
    ensures { IsTrue (disk volume.new).told
        → holds engine.new (files_in (kind engine.new).files (disk volume.new)) }
{
    let after = Value::Int(key);
    can_be_key(rt, engine, table, &after);
    let read = engine.index_next(volume, table, &after);
    key_read(rt, read)
}

// The key of the row with this key.
fn with(
    rt: &impl Abort,
    engine: &mut Box<dyn Engine + Send>,
    volume: &mut dyn Storage,
    table: &Name,
    key: i64,
) -> Result<i64, EngineFault>
    requires { IsTrue (disk volume.old).told
        → holds engine.old (files_in (kind engine.old).files (disk volume.old)) }
    ensures { IsTrue (disk volume.new).told
        → holds engine.new (files_in (kind engine.new).files (disk volume.new)) }
{
    let key = Value::Int(key);
    can_be_key(rt, engine, table, &key);
    let read = engine.index_read(volume, table, &key);
    key_read(rt, read)
}

// Scans the table of two rows and the empty one.
fn scan_both(
    rt: &impl Abort,
    alloc: Global,
    engine: &mut Box<dyn Engine + Send>,
    volume: &mut dyn Storage,
) -> Result<(), EngineFault> {
    begin(rt, engine, volume);
    scan(rt, engine, volume, &name(rt, alloc, b"t")?, &[1, 3])?;
    scan(rt, engine, volume, &name(rt, alloc, b"e")?, &[])
}

// Reads by keys below, at, between and above those of the table of two rows, and of the empty one.
fn read_by_key(
    rt: &impl Abort,
    alloc: Global,
    engine: &mut Box<dyn Engine + Send>,
    volume: &mut dyn Storage,
) -> Result<(), EngineFault> {
    begin(rt, engine, volume);
    let t = name(rt, alloc, b"t")?;
    assert_eq!(rt; above(rt, engine, volume, &t, 0), Ok(1));
    assert_eq!(rt; above(rt, engine, volume, &t, 1), Ok(3));
    assert_eq!(rt; above(rt, engine, volume, &t, 2), Ok(3));
    assert_eq!(rt; above(rt, engine, volume, &t, 3), END);
    assert_eq!(rt; above(rt, engine, volume, &t, 4), END);
    assert_eq!(rt; with(rt, engine, volume, &t, 3), Ok(3));
    assert_eq!(rt; with(rt, engine, volume, &t, 2), NO_KEY);
    let e = name(rt, alloc, b"e")?;
    assert_eq!(rt; above(rt, engine, volume, &e, 0), END);
    Ok(())
}

#[test]
fn a_scan_reads_each_row_and_then_its_end(rt: HostRuntime) -> Result<(), Fail> {
    let alloc = rt.alloc();
    let mut engine: Box<dyn Engine + Send> = Box::new(alloc, engine(&rt, alloc)?)?;
    let mut storage = MemoryStorage::new(alloc, Vec::new(alloc), Vec::new(alloc))?;
    scan_both(&rt, alloc, &mut engine, &mut storage)?;
    assert_eq!(rt; storage.calls(), 0);
    Ok(())
}

#[test]
fn a_walk_by_key_goes_to_the_next_greater_key(rt: HostRuntime) -> Result<(), Fail> {
    let alloc = rt.alloc();
    let mut engine: Box<dyn Engine + Send> = Box::new(alloc, engine(&rt, alloc)?)?;
    let mut storage = MemoryStorage::new(alloc, Vec::new(alloc), Vec::new(alloc))?;
    read_by_key(&rt, alloc, &mut engine, &mut storage)?;
    assert_eq!(rt; storage.calls(), 0);
    Ok(())
}

#[test]
fn an_engine_tells_its_tables(rt: HostRuntime) -> Result<(), Fail> {
    let alloc = rt.alloc();
    let mut engine: Box<dyn Engine + Send> = Box::new(alloc, engine(&rt, alloc)?)?;
    assert!(rt; engine.name().as_bytes() == b"N".as_slice());
    assert!(rt; engine.soname().as_bytes() == b"n.so".as_slice());
    assert_eq!(rt; engine.flags(), flags_of(true));
    assert_eq!(rt; engine.last_number(), 7);
    let table = name(&rt, alloc, b"t")?;
    assert_eq!(rt; engine.external_lock(1, &table, Use::Read), Ok(()));
    assert_eq!(rt; count(&engine, &table), Some(2));
    assert_eq!(rt; count(&engine, &name(&rt, alloc, b"e")?), Some(0));
    assert_eq!(rt; count(&engine, &name(&rt, alloc, b"u")?), None);
    Ok(())
}

#[test]
fn an_engine_without_memory_makes_no_table(rt: HostRuntime) -> Result<(), Fail> {
    let alloc = rt.alloc();
    let mut engine = engine(&rt, alloc)?;
    let table = name(&rt, alloc, b"u")?;
    let schema = schema(&rt, alloc)?;
    if engine.live(&table).is_some() {
        rt.abort();
    }
    assert_eq!(rt; engine.create(1, &table, &schema), Err(EngineFault::Memory));
    Ok(())
}

#[test]
fn an_engine_without_memory_drops_no_table(rt: HostRuntime) -> Result<(), Fail> {
    let alloc = rt.alloc();
    let mut engine = engine(&rt, alloc)?;
    let table = name(&rt, alloc, b"t")?;
    match engine.live(&table) {
        Some(_) => {}
        None => rt.abort(),
    }
    assert_eq!(rt; engine.delete_table(1, &table), Err(EngineFault::Memory));
    assert!(rt; engine.live(&table).is_some());
    Ok(())
}

#[test]
fn an_engine_without_files_makes_no_device_call(rt: HostRuntime) -> Result<(), Fail> {
    let alloc = rt.alloc();
    let mut engine = engine(&rt, alloc)?;
    let mut storage = MemoryStorage::new(alloc, Vec::new(alloc), Vec::new(alloc))?;
    assert_eq!(rt;
        engine.prepare(&mut storage, 1, 1),
        Err(EngineFault::Memory)
    );
    assert_eq!(rt; engine.rollback(&mut storage, 1), Ok(()));
    assert_eq!(rt;
        engine.recover(&mut storage).err(),
        Some(EngineFault::Memory)
    );
    assert_eq!(rt; engine.flush_logs(&mut storage), Ok(()));
    assert_eq!(rt; engine.deinit(&mut storage), Ok(()));
    assert_eq!(rt; engine.init(&mut storage, &[]), Ok(()));
    assert_eq!(rt; storage.calls(), 0);
    Ok(())
}

#[test]
fn engines_flush_one_after_the_other(rt: HostRuntime) -> Result<(), Fail> {
    let alloc = rt.alloc();
    let mut engines: Vec<Box<dyn Engine + Send>> = Vec::new(alloc);
    engines.push(Box::new(alloc, engine(&rt, alloc)?)?)?;
    engines.push(Box::new(alloc, engine(&rt, alloc)?)?)?;
    let mut storage = MemoryStorage::new(alloc, Vec::new(alloc), Vec::new(alloc))?;
    assert_eq!(rt; flush_all(&mut storage, engines.as_mut_slice()), Ok(()));
    assert_eq!(rt; storage.calls(), 0);
    Ok(())
}

#[test]
fn codes_have_the_numbers_of_the_handler(rt: HostRuntime) {
    for (code, number) in [
        (Code::KeyNotFound, 120),
        (Code::Duplicate, 121),
        (Code::Full, 135),
        (Code::EndOfFile, 137),
    ] {
        assert_eq!(rt; code.number(), number);
    }
}
