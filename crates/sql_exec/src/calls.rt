//! The calls of an engine that read a row, each as a statement answers it.
ghost use Rattle.std.specs.Prelude.{◌≡◌, ◌∷◌, [], OnOk, IfOk, IfErr, IsTrue, None, Some, Err, Option};
ghost use Rattle.std.specs.Result.{result_ok};
ghost use Rattle.disk_model.specs.Disk.{Disk};
ghost use Rattle.engine_api.specs.Calls.{IsSame, Notes, Turns, AnswersOnly, AnswersAlone};
ghost use Rattle.engine_api.specs.declared.fault.Code.TheVariants.{EndOfFile, KeyNotFound};
ghost use Rattle.engine_api.specs.declared.fault.EngineFault.TheVariants.{Code as code};
ghost use Rattle.engine_api.specs.Live.{live_schema, live_row, IsKeyFor, IsLive};
ghost use Rattle.engine_api.specs.Reads.{files_in};
ghost use Rattle.engine_api.specs.Scans.{IsOnLive, scan_row};
ghost use Rattle.sql_exec.specs.CarriesOut.{CarriesOut, MayFail};
ghost use Rattle.sql_exec.specs.Selects.{behind};

use crate::fault::ExecFault;
use disk_model::Storage;
use engine_api::{Code, Cursor, Engine, EngineFault};
use sql_value::{Name, Row, Value};

/// A scan begins: the cursor stands before the first live row.
///
/// `Memory`.
pub(crate) fn begin_scan(
    engine: &mut Box<dyn Engine + Send>,
    table: &Name,
    cursor: &mut Cursor,
) -> Result<(), EngineFault>
    requires live { IsLive table.now (state engine.old) }
    ensures same { IsSame (kind engine.old) (kind engine.new)
        (reading engine.old) (reading engine.new) }
    ensures notes { Notes result (state engine.old) (state engine.old) (state engine.new)
        (holds engine.old) (holds engine.new) }
    ensures table { OnOk result (cursor.new.table ≡ Some table.now) }
    ensures first { OnOk result (cursor.new.position ≡ 0) }
    ensures answers { AnswersAlone [] result }
{
    engine.rnd_init(table, cursor)
}

// The row at the cursor's position, as the engine says it.
fn read_next(
    engine: &mut Box<dyn Engine + Send>,
    volume: &mut dyn Storage,
    cursor: &mut Cursor,
) -> Result<Row, EngineFault>
    requires begun { IsOnLive cursor.old.table (state engine.old) }
    requires holds { IsTrue (disk volume.old).told
        → holds engine.old (files_in (kind engine.old).files (disk volume.old)) }
    ensures same { IsSame (kind engine.old) (kind engine.new)
        (reading engine.old) (reading engine.new) }
    ensures turns { Turns (kind engine.old) (reading engine.old) result (state engine.old)
        (state engine.old) (state engine.new) (holds engine.new)
        (disk volume.old) (disk volume.new) }
    ensures row { IfOk result (λ row.
        scan_row cursor.old.table cursor.old.position (state engine.old) ≡ Some row) }
    ensures table { cursor.new.table ≡ cursor.old.table }
    ensures moves { cursor.new.position ≡ behind (result_ok result) cursor.old.position }
    ensures end { result ≡ Err (code EndOfFile)
        → scan_row cursor.old.table cursor.old.position (state engine.old) ≡ None }
    ensures answers { AnswersOnly (EndOfFile ∷ []) (kind engine.old).files
        (disk volume.old).told result }
{
    engine.rnd_next(volume, cursor)
}

// The row with this key, as the engine says it.
fn read_key(
    engine: &mut Box<dyn Engine + Send>,
    volume: &mut dyn Storage,
    table: &Name,
    key: &Value,
) -> Result<Row, EngineFault>
    requires key { IsKeyFor (live_schema table.now (state engine.old)) key.now }
    requires holds { IsTrue (disk volume.old).told
        → holds engine.old (files_in (kind engine.old).files (disk volume.old)) }
    ensures same { IsSame (kind engine.old) (kind engine.new)
        (reading engine.old) (reading engine.new) }
    ensures turns { Turns (kind engine.old) (reading engine.old) result (state engine.old)
        (state engine.old) (state engine.new) (holds engine.new)
        (disk volume.old) (disk volume.new) }
    ensures found { IfOk result (λ row. live_row table.now key.now (state engine.old) ≡ Some row) }
    ensures absent { result ≡ Err (code KeyNotFound)
        → live_row table.now key.now (state engine.old) ≡ None }
    ensures answers { AnswersOnly (KeyNotFound ∷ []) (kind engine.old).files
        (disk volume.old).told result }
{
    engine.index_read(volume, table, key)
}

/// The live row at the cursor's position; None at the end. The cursor moves behind a row.
///
/// `Device`; `NotAVolume`; `Memory`. An engine answers no code here but that of the end.
pub(crate) fn next_row(
    engine: &mut Box<dyn Engine + Send>,
    volume: &mut dyn Storage,
    cursor: &mut Cursor,
) -> Result<Option<Row>, ExecFault>
    requires begun { IsOnLive cursor.old.table (state engine.old) }
    requires holds { IsTrue (disk volume.old).told
        → holds engine.old (files_in (kind engine.old).files (disk volume.old)) }
    ensures same { IsSame (kind engine.old) (kind engine.new)
        (reading engine.old) (reading engine.new) }
    ensures carries { CarriesOut (kind engine.old) (reading engine.old) result (state engine.old)
        (state engine.old) (state engine.new) (holds engine.new)
        (disk volume.old) (disk volume.new) }
    ensures row { IfOk result (λ it.
        it ≡ scan_row cursor.old.table cursor.old.position (state engine.old)) }
    ensures table { cursor.new.table ≡ cursor.old.table }
    ensures moved { IfOk result (λ it.
        cursor.new.position ≡ behind it cursor.old.position) }
    ensures answers { IfErr result
        (MayFail None (kind engine.old).files (disk volume.old).told) }
{
    match read_next(engine, volume, cursor) {
        Ok(row) => Ok(Some(row)),
        Err(EngineFault::Code(code)) => match code {
            Code::EndOfFile => Ok(None),
            _ => unreachable!(),
        },
        Err(EngineFault::Device) => Err(ExecFault::Device),
        Err(EngineFault::NotAVolume { file }) => Err(ExecFault::NotAVolume { file }),
        Err(EngineFault::Memory) => Err(ExecFault::Memory),
    }
}

/// The live row with this key; None where there is none.
///
/// `Device`; `NotAVolume`; `Memory`. An engine answers no code here but that there is none.
pub(crate) fn row_with_key(
    engine: &mut Box<dyn Engine + Send>,
    volume: &mut dyn Storage,
    table: &Name,
    key: &Value,
) -> Result<Option<Row>, ExecFault>
    requires key { IsKeyFor (live_schema table.now (state engine.old)) key.now }
    requires holds { IsTrue (disk volume.old).told
        → holds engine.old (files_in (kind engine.old).files (disk volume.old)) }
    ensures same { IsSame (kind engine.old) (kind engine.new)
        (reading engine.old) (reading engine.new) }
    ensures carries { CarriesOut (kind engine.old) (reading engine.old) result (state engine.old)
        (state engine.old) (state engine.new) (holds engine.new)
        (disk volume.old) (disk volume.new) }
    ensures row { IfOk result (λ it. it ≡ live_row table.now key.now (state engine.old)) }
    ensures answers { IfErr result
        (MayFail None (kind engine.old).files (disk volume.old).told) }
{
    match read_key(engine, volume, table, key) {
        Ok(row) => Ok(Some(row)),
        Err(EngineFault::Code(code)) => match code {
            Code::KeyNotFound => Ok(None),
            _ => unreachable!(),
        },
        Err(EngineFault::Device) => Err(ExecFault::Device),
        Err(EngineFault::NotAVolume { file }) => Err(ExecFault::NotAVolume { file }),
        Err(EngineFault::Memory) => Err(ExecFault::Memory),
    }
}
