//! A statement that was planned, on the engine of its table.
ghost use Rattle.std.specs.Prelude.{◌≡◌, Ok, IfOk, IfErr, IsTrue};
ghost use Rattle.std.specs.Result.{result_err};
ghost use Rattle.disk_model.specs.Disk.{Disk, now};
ghost use Rattle.engine_api.specs.Calls.{IsSame};
ghost use Rattle.engine_api.specs.Many.{IsAtWork, working};
ghost use Rattle.sql_exec.specs.CarriesOut.{CarriesOut, MayFail};
ghost use Rattle.sql_exec.specs.Executes.{plan_effect, planned_state, refused_state, CanExecute};
ghost use Rattle.sql_exec.specs.Selects.{select_outcome, CanSelect, IsInOrder};
ghost use Rattle.sql_exec.specs.Spelt.{CanBeSpelt};

use crate::fault::ExecFault;
use crate::inserting::{Target, insert};
use crate::making::{create, drop_table};
use crate::selecting::select;
use disk_model::Storage;
use engine_api::{Cursor, Engine};
use sql_effect::{Effect, answers};
use sql_plan::Plan;
use sql_text::Statement;
use std::alloc::Global;

// The rows of a SELECT are answered.
fn answer_rows(
    alloc: Global,
    engine: &mut Box<dyn Engine + Send>,
    volume: &mut dyn Storage,
    plan: &Plan,
    cursor: &mut Cursor,
) -> Result<Effect, ExecFault>
    requires select { CanSelect plan.now (state engine.old) }
    requires at_work { IsTrue (disk volume.old).told → IsAtWork
        (working (kind engine.old) (reading engine.old) (state engine.old) (holds engine.old))
        (now (disk volume.old)) }
    ensures same { IsSame (kind engine.old) (kind engine.new)
        (reading engine.old) (reading engine.new) }
    ensures carries { CarriesOut (kind engine.old) (reading engine.old) result (state engine.old)
        (state engine.old) (state engine.new) (holds engine.new)
        (disk volume.old) (disk volume.new) }
    ensures ok { IsInOrder plan.now.work plan.now.schema (state engine.old)
        → IfOk result (λ it. select_outcome plan.now (state engine.old) ≡ Ok it) }
    ensures spelt { IfOk result CanBeSpelt }
    ensures err { IfErr result (MayFail (result_err (select_outcome plan.now (state engine.old)))
        (kind engine.old).files (disk volume.old).told) }
{
    let rows = select(alloc, engine, volume, plan, cursor)?;
    Ok(answers(alloc, rows))
}

/// A statement is carried out on an engine as it was planned: what it answers is its effect on the live tables.
///
/// A SELECT by key answers so where the rows of its table are in the order of the key, as those of a log are.
///
/// `txn` is its transaction, and `open_bytes` the bytes that this had in the log before. `cursor` is set where rows are scanned. After any
/// fault but `Device` the live tables are as before. What it changes can be spelt in the log.
///
/// `Refused` exactly by the definition of the statement's effect, unless another fault comes first; `Device`; `NotAVolume`, where contents
/// are not told; `Memory`.
pub fn execute(
    alloc: Global,
    engine: &mut Box<dyn Engine + Send>,
    volume: &mut dyn Storage,
    plan: &Plan,
    txn: u32,
    open_bytes: u64,
    cursor: &mut Cursor,
) -> Result<Effect, ExecFault>
    requires can { CanExecute txn plan.now (kind engine.old) (state engine.old) }
    requires at_work { IsTrue (disk volume.old).told → IsAtWork
        (working (kind engine.old) (reading engine.old) (state engine.old) (holds engine.old))
        (now (disk volume.old)) }
    ensures same { IsSame (kind engine.old) (kind engine.new)
        (reading engine.old) (reading engine.new) }
    ensures carries { CarriesOut (kind engine.old) (reading engine.old) result
        (planned_state txn open_bytes plan.now (kind engine.old) (state engine.old))
        (refused_state plan.now.work (state engine.old))
        (state engine.new) (holds engine.new) (disk volume.old) (disk volume.new) }
    ensures ok { IsInOrder plan.now.work plan.now.schema (state engine.old) → IfOk result
        (λ it. plan_effect open_bytes plan.now (kind engine.old) (state engine.old) ≡ Ok it) }
    ensures spelt { IfOk result CanBeSpelt }
    ensures err { IfErr result (MayFail
        (result_err (plan_effect open_bytes plan.now (kind engine.old) (state engine.old)))
        (kind engine.old).files (disk volume.old).told) }
{
    match &plan.work {
        Statement::Create { table, .. } => create(alloc, engine, txn, table, &plan.schema),
        Statement::Drop { table } => drop_table(alloc, engine, txn, table),
        Statement::Insert { table, rows } => {
            let target = Target {
                txn,
                open_bytes,
                table,
                schema: &plan.schema,
            };
            insert(alloc, engine, volume, &target, rows.as_slice())
        }
        Statement::Select { .. } => answer_rows(alloc, engine, volume, plan, cursor),
        _ => unreachable!(),
    }
}
