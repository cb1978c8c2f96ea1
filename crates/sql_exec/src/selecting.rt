//! SELECT on an engine: by a scan, or by a key.
ghost use Rattle.std.specs.Prelude.{◌≡◌, map, None, Some, Option, OnOk, IfOk, IfErr, IsTrue};
ghost use Rattle.disk_model.specs.Disk.{Disk, now};
ghost use Rattle.engine_api.specs.Calls.{IsSame};
ghost use Rattle.engine_api.specs.Live.{live_schema, live_rows, live_row, IsLive, IsKeyFor};
ghost use Rattle.engine_api.specs.Many.{IsAtWork, working};
ghost use Rattle.sql_effect.specs.Select.{search_refusal, picked, selected};
ghost use Rattle.sql_exec.specs.CarriesOut.{CarriesOut, MayFail};
ghost use Rattle.sql_exec.specs.Found.{listed};
ghost use Rattle.sql_exec.specs.Selects.{CanSelect, Searches, Selects};

use crate::calls::{begin_scan, next_row, row_with_key};
use crate::conditions::Chooser;
use crate::fault::ExecFault;
use crate::search::{add_chosen, add_picked};
use disk_model::Storage;
use engine_api::{Cursor, Engine};
use row_format::Column;
use sql_plan::{Path, Plan};
use sql_text::{Cond, ListOf, Statement};
use sql_value::{Name, Row, Value};
use std::alloc::{AllocError, Global};

// What a SELECT asks of its table.
#[derive(Clone, Copy)]
struct Asked<'a> {
    table: &'a Name,
    columns: &'a [Column],
    names: &'a Option<ListOf<Name>>,
    cond: &'a Option<Cond>,
}

// What is picked of the row, where there is one.
fn picked_of(alloc: Global, asked: &Asked, found: Option<Row>) -> Result<Vec<Row>, AllocError>
    ensures { IfOk result (λ it. it.items
        ≡ map (picked asked.now.columns.now asked.now.names.now) (listed found)) }
{
    let mut rows = Vec::new(alloc);
    if let Some(row) = found {
        add_picked(alloc, asked.columns, asked.names, row, &mut rows)?;
    }
    Ok(rows)
}

// The row with this key, where there is one, with the columns that are named.
fn select_by_key(
    alloc: Global,
    engine: &mut Box<dyn Engine + Send>,
    volume: &mut dyn Storage,
    asked: &Asked,
    key: &Value,
) -> Result<Vec<Row>, ExecFault>
    requires key { IsKeyFor (live_schema asked.now.table.now (state engine.old)) key.now }
    requires at_work { IsTrue (disk volume.old).told → IsAtWork
        (working (kind engine.old) (reading engine.old) (state engine.old) (holds engine.old))
        (now (disk volume.old)) }
    ensures same { IsSame (kind engine.old) (kind engine.new)
        (reading engine.old) (reading engine.new) }
    ensures carries { CarriesOut (kind engine.old) (reading engine.old) result (state engine.old)
        (state engine.old) (state engine.new) (holds engine.new)
        (disk volume.old) (disk volume.new) }
    ensures rows { IfOk result (λ it. it.items
        ≡ map (picked asked.now.columns.now asked.now.names.now)
        (listed (live_row asked.now.table.now key.now (state engine.old)))) }
    ensures answers { IfErr result
        (MayFail None (kind engine.old).files (disk volume.old).told) }
{
    let found = row_with_key(engine, volume, asked.table, key)?;
    Ok(picked_of(alloc, asked, found)?)
}

// Reads on from the first row to the end of the table, and adds what is picked of each row that the condition chooses.
fn walk(
    alloc: Global,
    engine: &mut Box<dyn Engine + Send>,
    volume: &mut dyn Storage,
    asked: &Asked,
    cursor: &mut Cursor,
) -> Result<Vec<Row>, ExecFault>
    requires table { cursor.old.table ≡ Some asked.now.table.now }
    requires first { cursor.old.position ≡ 0 }
    requires live { IsLive asked.now.table.now (state engine.old) }
    requires at_work { IsTrue (disk volume.old).told → IsAtWork
        (working (kind engine.old) (reading engine.old) (state engine.old) (holds engine.old))
        (now (disk volume.old)) }
    ensures same { IsSame (kind engine.old) (kind engine.new)
        (reading engine.old) (reading engine.new) }
    ensures carries { CarriesOut (kind engine.old) (reading engine.old) result (state engine.old)
        (state engine.old) (state engine.new) (holds engine.new)
        (disk volume.old) (disk volume.new) }
    ensures searches { Searches asked.now.columns.now asked.now.names.now asked.now.cond.now
        (live_rows asked.now.table.now (state engine.old))
        (kind engine.old).files (disk volume.old).told result }
{
    let mut chooser = Chooser::new(alloc);
    let mut found = Vec::new(alloc);
    'rows: loop {
        let Some(row) = next_row(engine, volume, cursor)? else {
            return Ok(found);
        };
        add_chosen(
            alloc,
            &mut chooser,
            asked.columns,
            asked.names,
            asked.cond,
            row,
            &mut found,
        )?;
    }
}

// Scans the table.
fn scan(
    alloc: Global,
    engine: &mut Box<dyn Engine + Send>,
    volume: &mut dyn Storage,
    asked: &Asked,
    cursor: &mut Cursor,
) -> Result<Vec<Row>, ExecFault>
    requires live { IsLive asked.now.table.now (state engine.old) }
    requires at_work { IsTrue (disk volume.old).told → IsAtWork
        (working (kind engine.old) (reading engine.old) (state engine.old) (holds engine.old))
        (now (disk volume.old)) }
    ensures same { IsSame (kind engine.old) (kind engine.new)
        (reading engine.old) (reading engine.new) }
    ensures carries { CarriesOut (kind engine.old) (reading engine.old) result (state engine.old)
        (state engine.old) (state engine.new) (holds engine.new)
        (disk volume.old) (disk volume.new) }
    ensures searches { Searches asked.now.columns.now asked.now.names.now asked.now.cond.now
        (live_rows asked.now.table.now (state engine.old))
        (kind engine.old).files (disk volume.old).told result }
{
    match begin_scan(engine, asked.table, cursor) {
        Ok(()) => walk(alloc, engine, volume, asked, cursor),
        Err(_) => Err(ExecFault::Memory),
    }
}

/// The rows that a SELECT answers, by its plan. A plan by key reads one row, a scan each row of the table.
///
/// `Refused` with `OutOfRange` exactly where a sum of the condition goes outside BIGINT on a row of the table, unless another fault comes
/// first. `Device`; `NotAVolume`, where contents are not told; `Memory`.
pub(crate) fn select(
    alloc: Global,
    engine: &mut Box<dyn Engine + Send>,
    volume: &mut dyn Storage,
    plan: &Plan,
    cursor: &mut Cursor,
) -> Result<Vec<Row>, ExecFault>
    requires select { CanSelect plan.now (state engine.old) }
    requires at_work { IsTrue (disk volume.old).told → IsAtWork
        (working (kind engine.old) (reading engine.old) (state engine.old) (holds engine.old))
        (now (disk volume.old)) }
    ensures same { IsSame (kind engine.old) (kind engine.new)
        (reading engine.old) (reading engine.new) }
    ensures carries { CarriesOut (kind engine.old) (reading engine.old) result (state engine.old)
        (state engine.old) (state engine.new) (holds engine.new)
        (disk volume.old) (disk volume.new) }
    ensures selects { Selects plan.now (state engine.old)
        (kind engine.old).files (disk volume.old).told result }
{
    let Statement::Select {
        table,
        columns: names,
        cond,
    } = &plan.work
    else {
        unreachable!()
    };
    let columns = plan.schema.columns.as_slice();
    let asked = Asked {
        table,
        columns,
        names,
        cond,
    };
    match &plan.path {
        Path::Key(key) => select_by_key(alloc, engine, volume, &asked, key),
        _ => scan(alloc, engine, volume, &asked, cursor),
    }
}
