//! INSERT on an engine: its rows are written one after the other, and taken back where one of them is refused.
ghost use Rattle.std.specs.Prelude.{◌≡◌, ◌⊎◌, ◌∷◌, [], ℕ, true, false, Ok, Err, All, OnOk, IfOk, IfErr, IsTrue, take};
ghost use Rattle.std.specs.Result.{result_err};
ghost use Rattle.disk_model.specs.Disk.{Disk, now};
ghost use Rattle.sql_value.specs.Names.{IsName};
ghost use Rattle.row_format.specs.Rows.{IsRow};
ghost use Rattle.row_format.specs.Schemas.{IsSchema};
ghost use Rattle.engine_api.specs.declared.fault.Code.TheVariants.{Duplicate, Full};
ghost use Rattle.engine_api.specs.declared.fault.EngineFault.TheVariants.{Code as code};
ghost use Rattle.engine_api.specs.Calls.{IsSame, IsDoneOrDevice, Turns, AnswersOnly};
ghost use Rattle.engine_api.specs.Live.{live_schema, is_under, is_taken, wrote_state, insert_into, HasRoom, IsRowFor, IsInsertApart};
ghost use Rattle.engine_api.specs.Many.{IsAtWork, working};
ghost use Rattle.engine_api.specs.Reads.{files_in};
ghost use Rattle.engine_api.specs.States.{with_change, pending_of, synced_state, rolled_back_state};
ghost use Rattle.sql_effect.specs.Insert.{written};
ghost use Rattle.sql_exec.specs.declared.fault.ExecFault.TheVariants.{Device as device_fault};
ghost use Rattle.sql_exec.specs.Faults.{FailsFor};
ghost use Rattle.sql_exec.specs.CarriesOut.{CarriesOut};
ghost use Rattle.sql_exec.specs.Changes.{with_changes};
ghost use Rattle.sql_exec.specs.Inserts.{insert_of, inserts_of, insert_outcome, rows_outcome, put_refusal, puts_refusal, CanInsert, CanPut, CanPutAll, Gives, Puts, WritesRow};
ghost use Rattle.sql_exec.specs.Spelt.{CanBeSpelt};

use crate::fault::ExecFault;
use disk_model::Storage;
use engine_api::{Code, Engine, EngineFault};
use row_format::{Schema, check_row};
use sql_effect::{Effect, Sizes, inserts, sized, write_rows};
use sql_text::Literals;
use sql_value::{Name, Refusal, Row};
use std::alloc::Global;

/// Where the rows of an INSERT go.
#[derive(Clone, Copy)]
pub(crate) struct Target<'a> {
    /// The transaction that inserts them.
    pub(crate) txn: u32,
    /// The bytes that the transaction had in the log before.
    pub(crate) open_bytes: u64,
    /// The table.
    pub(crate) table: &'a Name,
    /// The table's schema.
    pub(crate) schema: &'a Schema,
}

// The row goes into the table, as the engine says it.
fn put(
    engine: &mut Box<dyn Engine + Send>,
    volume: &mut dyn Storage,
    txn: u32,
    table: &Name,
    row: &Row,
) -> Result<(), EngineFault>
    requires row { IsRowFor (live_schema table.now (state engine.old)) row.now }
    requires unprepared { is_under txn (state engine.old) ≡ false }
    requires apart { IsInsertApart txn
        (insert_into table.now (live_schema table.now (state engine.old)) row.now)
        (state engine.old) }
    requires holds { IsTrue (disk volume.old).told
        → holds engine.old (files_in (kind engine.old).files (disk volume.old)) }
    ensures same { IsSame (kind engine.old) (kind engine.new)
        (reading engine.old) (reading engine.new) }
    ensures turns { Turns (kind engine.old) (reading engine.old) result
        (wrote_state txn table.now row.now (state engine.old))
        (state engine.old) (state engine.new) (holds engine.new)
        (disk volume.old) (disk volume.new) }
    ensures writes { WritesRow txn table.now row.now (state engine.old) (state engine.new)
        (kind engine.old).files (disk volume.old).told result }
{
    engine.write_row(volume, txn, table, row)
}

// The row goes into the table, or is refused.
fn add_row(
    engine: &mut Box<dyn Engine + Send>,
    volume: &mut dyn Storage,
    txn: u32,
    table: &Name,
    schema: &Schema,
    row: &Row,
) -> Result<(), ExecFault>
    requires can { CanPut txn table.now schema.now row.now (state engine.old) }
    requires at_work { IsTrue (disk volume.old).told → IsAtWork
        (working (kind engine.old) (reading engine.old) (state engine.old) (holds engine.old))
        (now (disk volume.old)) }
    ensures same { IsSame (kind engine.old) (kind engine.new)
        (reading engine.old) (reading engine.new) }
    ensures carries { CarriesOut (kind engine.old) (reading engine.old) result
        (with_change txn (insert_of table.now schema.now row.now) (state engine.old))
        (state engine.old) (state engine.new) (holds engine.new)
        (disk volume.old) (disk volume.new) }
    ensures puts { Puts (put_refusal table.now schema.now row.now (state engine.old))
        (kind engine.old).files (disk volume.old).told result }
    ensures fits { OnOk result (IsRow schema.now row.now) }
{
    if let Err(refusal) = check_row(schema, row) {
        return Err(ExecFault::Refused(refusal));
    }
    match put(engine, volume, txn, table, row) {
        Ok(()) => Ok(()),
        Err(EngineFault::Code(code)) => match code {
            Code::Duplicate => Err(ExecFault::Refused(Refusal::DuplicateEntry)),
            Code::Full => Err(ExecFault::Refused(Refusal::TableFull)),
            _ => unreachable!(),
        },
        Err(EngineFault::Device) => Err(ExecFault::Device),
        Err(EngineFault::NotAVolume { file }) => Err(ExecFault::NotAVolume { file }),
        Err(EngineFault::Memory) => Err(ExecFault::Memory),
    }
}

// The rows go into the table one after the other, up to the first that is refused.
fn add_rows(
    engine: &mut Box<dyn Engine + Send>,
    volume: &mut dyn Storage,
    txn: u32,
    table: &Name,
    schema: &Schema,
    rows: &[Row],
) -> Result<(), ExecFault>
    requires can { CanPutAll txn table.now schema.now rows.now (state engine.old) }
    requires at_work { IsTrue (disk volume.old).told → IsAtWork
        (working (kind engine.old) (reading engine.old) (state engine.old) (holds engine.old))
        (now (disk volume.old)) }
    ensures same { IsSame (kind engine.old) (kind engine.new)
        (reading engine.old) (reading engine.new) }
    ensures carries { (n : ℕ) × CarriesOut (kind engine.old) (reading engine.old) result
        (with_changes txn (inserts_of table.now schema.now rows.now) (state engine.old))
        (with_changes txn (inserts_of table.now schema.now (take n rows.now)) (state engine.old))
        (state engine.new) (holds engine.new) (disk volume.old) (disk volume.new) }
    ensures puts { Puts (puts_refusal table.now schema.now rows.now (state engine.old))
        (kind engine.old).files (disk volume.old).told result }
    ensures fit { OnOk result (All (IsRow schema.now) rows.now) }
{
    let mut i = 0;
    while i < rows.len() {
        add_row(engine, volume, txn, table, schema, &rows[i])?;
        i += 1;
    }
    Ok(())
}

// All that the transaction has changed is taken back, as the engine says it.
fn roll_back(
    engine: &mut Box<dyn Engine + Send>,
    volume: &mut dyn Storage,
    txn: u32,
) -> Result<(), EngineFault>
    requires holds { IsTrue (disk volume.old).told
        → holds engine.old (files_in (kind engine.old).files (disk volume.old)) }
    ensures same { IsSame (kind engine.old) (kind engine.new)
        (reading engine.old) (reading engine.new) }
    ensures turns { Turns (kind engine.old) (reading engine.old) result
        (rolled_back_state txn (state engine.old))
        (state engine.old) (state engine.new) (holds engine.new)
        (disk volume.old) (disk volume.new) }
    ensures answers { IsDoneOrDevice result }
{
    engine.rollback(volume, txn)
}

// Whether the device failed.
fn is_device(fault: &ExecFault) -> bool
    ensures yes { result ≡ true → fault.now ≡ device_fault }
    ensures no { result ≡ false → fault.now ≡ device_fault → ⊥ }
{
    match fault {
        ExecFault::Device => true,
        _ => false,
    }
}

// What the transaction has changed is taken back; then this fault is told, or that the device failed.
fn take_back(
    engine: &mut Box<dyn Engine + Send>,
    volume: &mut dyn Storage,
    txn: u32,
    fault: ExecFault,
) -> ExecFault
    requires holds { IsTrue (disk volume.old).told
        → holds engine.old (files_in (kind engine.old).files (disk volume.old)) }
    requires refused { fault ≡ device_fault → ⊥ }
    ensures same { IsSame (kind engine.old) (kind engine.new)
        (reading engine.old) (reading engine.new) }
    ensures carries { CarriesOut {T = Unit {0}} (kind engine.old) (reading engine.old) (Err result)
        (state engine.old) (rolled_back_state txn (state engine.old))
        (state engine.new) (holds engine.new) (disk volume.old) (disk volume.new) }
    ensures tells { (result ≡ fault) ⊎ (result ≡ device_fault) }
{
    match roll_back(engine, volume, txn) {
        Ok(()) => fault,
        Err(_) => ExecFault::Device,
    }
}

// What the rows of an INSERT come to, unless they make the transaction too large.
fn effect_of_rows(
    alloc: Global,
    open_bytes: u64,
    table: &Name,
    schema: &Schema,
    rows: Vec<Row>,
) -> Result<Effect, ExecFault>
    requires named { IsName table.now }
    requires schema { IsSchema schema.now }
    requires rows { All (IsRow schema.now) rows.items }
    ensures ok { IfOk result (λ it.
        rows_outcome open_bytes table.now schema.now rows.items ≡ Ok it) }
    ensures spelt { IfOk result CanBeSpelt }
    ensures err { IfErr result
        (FailsFor (result_err (rows_outcome open_bytes table.now schema.now rows.items))) }
{
    let changes = inserts(alloc, table, schema, rows)?;
    match sized(
        alloc,
        Sizes {
            live: 0,
            open: open_bytes,
        },
        changes,
    ) {
        Ok(effect) => Ok(effect),
        Err(refusal) => Err(ExecFault::Refused(refusal)),
    }
}

// The rows go into the table, all of them, or none where one of them is refused or the transaction becomes too large.
fn insert_rows(
    alloc: Global,
    engine: &mut Box<dyn Engine + Send>,
    volume: &mut dyn Storage,
    target: &Target,
    rows: Vec<Row>,
) -> Result<Effect, ExecFault>
    requires can { CanInsert target.now.txn target.now.table.now target.now.schema.now rows.items
        (state engine.old) }
    requires at_work { IsTrue (disk volume.old).told → IsAtWork
        (working (kind engine.old) (reading engine.old) (state engine.old) (holds engine.old))
        (now (disk volume.old)) }
    ensures same { IsSame (kind engine.old) (kind engine.new)
        (reading engine.old) (reading engine.new) }
    ensures carries { CarriesOut (kind engine.old) (reading engine.old) result
        (with_changes target.now.txn (inserts_of target.now.table.now target.now.schema.now rows.items)
        (state engine.old)) (synced_state (state engine.old))
        (state engine.new) (holds engine.new) (disk volume.old) (disk volume.new) }
    ensures effect { Gives (kind engine.old).files (disk volume.old).told
        (insert_outcome target.now.open_bytes target.now.table.now target.now.schema.now rows.items
        (state engine.old)) result }
    ensures spelt { IfOk result CanBeSpelt }
{
    match add_rows(
        engine,
        volume,
        target.txn,
        target.table,
        target.schema,
        &rows,
    ) {
        Ok(()) => {}
        Err(fault) => {
            if is_device(&fault) {
                return Err(fault);
            }
            return Err(take_back(engine, volume, target.txn, fault));
        }
    }
    match effect_of_rows(alloc, target.open_bytes, target.table, target.schema, rows) {
        Ok(effect) => Ok(effect),
        Err(fault) => Err(take_back(engine, volume, target.txn, fault)),
    }
}

/// The rows of an INSERT go into a table, all of them or none.
///
/// `Refused` exactly by the definition of an INSERT, for the first row that is refused, or with `TransactionTooLarge`; `Device`;
/// `NotAVolume`, where contents are not told; `Memory`. After any fault but `Device` the transaction has changed nothing.
pub(crate) fn insert(
    alloc: Global,
    engine: &mut Box<dyn Engine + Send>,
    volume: &mut dyn Storage,
    target: &Target,
    rows: &[Literals],
) -> Result<Effect, ExecFault>
    requires can { CanInsert target.now.txn target.now.table.now target.now.schema.now (written rows.now)
        (state engine.old) }
    requires at_work { IsTrue (disk volume.old).told → IsAtWork
        (working (kind engine.old) (reading engine.old) (state engine.old) (holds engine.old))
        (now (disk volume.old)) }
    ensures same { IsSame (kind engine.old) (kind engine.new)
        (reading engine.old) (reading engine.new) }
    ensures carries { CarriesOut (kind engine.old) (reading engine.old) result
        (with_changes target.now.txn
        (inserts_of target.now.table.now target.now.schema.now (written rows.now)) (state engine.old))
        (synced_state (state engine.old))
        (state engine.new) (holds engine.new) (disk volume.old) (disk volume.new) }
    ensures effect { Gives (kind engine.old).files (disk volume.old).told
        (insert_outcome target.now.open_bytes target.now.table.now target.now.schema.now
        (written rows.now) (state engine.old)) result }
    ensures spelt { IfOk result CanBeSpelt }
{
    match write_rows(alloc, rows) {
        Ok(rows) => insert_rows(alloc, engine, volume, target, rows),
        Err(_) => Err(take_back(engine, volume, target.txn, ExecFault::Memory)),
    }
}
