//! CREATE and DROP on an engine.
ghost use Rattle.std.specs.Prelude.{◌≡◌, ◌∷◌, [], false, None, Ok, Err, OnOk, IfOk, IfErr, IsTrue};
ghost use Rattle.std.specs.Result.{result_err};
ghost use Rattle.sql_value.specs.Names.{IsName};
ghost use Rattle.row_format.specs.Changes.{IsFitChange};
ghost use Rattle.row_format.specs.Schemas.{IsSchema};
ghost use Rattle.row_format.specs.declared.change.Change.TheVariants.{Create, Drop};
ghost use Rattle.engine_api.specs.declared.fault.Code.TheVariants.{Full};
ghost use Rattle.engine_api.specs.declared.fault.EngineFault.TheVariants.{Code as code};
ghost use Rattle.engine_api.specs.Calls.{IsSame, Notes, AnswersAlone};
ghost use Rattle.engine_api.specs.Live.{live_schema, allows, is_under, HasRoom, IsApart, IsLive};
ghost use Rattle.engine_api.specs.States.{with_change};
ghost use Rattle.sql_exec.specs.CarriesOut.{CarriesAlone};
ghost use Rattle.sql_effect.specs.Effects.{makes};
ghost use Rattle.sql_exec.specs.Faults.{FailsFor};
ghost use Rattle.sql_exec.specs.Makes.{create_outcome, not_made, CanCreate, CanDrop};
ghost use Rattle.sql_exec.specs.Spelt.{CanBeSpelt};

use crate::fault::ExecFault;
use engine_api::{Engine, EngineFault};
use row_format::{Change, Schema};
use sql_effect::{Effect, makes};
use sql_value::{Name, Refusal};
use std::alloc::{AllocError, Global};

// The table is made, as the engine says it.
fn make(
    engine: &mut Box<dyn Engine + Send>,
    txn: u32,
    table: &Name,
    schema: &Schema,
) -> Result<(), EngineFault>
    requires free { live_schema table.now (state engine.old) ≡ None }
    requires schema { IsSchema schema.now }
    requires allowed { IsTrue (allows (kind engine.old).flags schema.now) }
    requires unprepared { is_under txn (state engine.old) ≡ false }
    requires apart { IsApart txn (Create table.now (kind engine.old).name schema.now)
        (state engine.old) }
    ensures same { IsSame (kind engine.old) (kind engine.new)
        (reading engine.old) (reading engine.new) }
    ensures notes { Notes result
        (with_change txn (Create table.now (kind engine.old).name schema.now) (state engine.old))
        (state engine.old) (state engine.new) (holds engine.old) (holds engine.new) }
    ensures full { result ≡ Err (code Full) → HasRoom (with_change txn
        (Create table.now (kind engine.old).name schema.now) (state engine.old)) → ⊥ }
    ensures not_full { OnOk result (HasRoom (state engine.new)) }
    ensures answers { AnswersAlone (Full ∷ []) result }
{
    engine.create(txn, table, schema)
}

// The table is dropped, as the engine says it.
fn remove(engine: &mut Box<dyn Engine + Send>, txn: u32, table: &Name) -> Result<(), EngineFault>
    requires live { IsLive table.now (state engine.old) }
    requires unprepared { is_under txn (state engine.old) ≡ false }
    requires apart { IsApart txn (Drop table.now) (state engine.old) }
    ensures same { IsSame (kind engine.old) (kind engine.new)
        (reading engine.old) (reading engine.new) }
    ensures notes { Notes result (with_change txn (Drop table.now) (state engine.old))
        (state engine.old) (state engine.new) (holds engine.old) (holds engine.new) }
    ensures answers { AnswersAlone [] result }
{
    engine.delete_table(txn, table)
}

// What a name is: a function that does nothing, with a law for its contract.
fn named(name: &Name)
    ensures { IsName name.now }
{
    let _bytes = name.as_bytes();
}

// The change that makes a table in this engine.
fn create_change(
    alloc: Global,
    engine: &Box<dyn Engine + Send>,
    table: &Name,
    schema: &Schema,
) -> Result<Change, AllocError>
    ensures value { IfOk result (λ it. it ≡ Create table.now (kind engine.now).name schema.now) }
    ensures fit { IsSchema schema.now → IfOk result IsFitChange }
{
    named(table);
    named(engine.name());
    Ok(Change::Create {
        table: table.copy()?,
        engine: engine.name().copy()?,
        schema: schema.copy(alloc)?,
    })
}

// Why a table is not made: there is no room for it, or no memory.
fn not_made(fault: EngineFault) -> ExecFault
    ensures { result ≡ not_made fault }
{
    match fault {
        EngineFault::Code(_) => ExecFault::Refused(Refusal::TableFull),
        _ => ExecFault::Memory,
    }
}

/// A table is made.
///
/// `Refused` with `TableFull` exactly where the engine's live bytes would pass their limit, unless memory runs out. `Memory`.
pub(crate) fn create(
    alloc: Global,
    engine: &mut Box<dyn Engine + Send>,
    txn: u32,
    table: &Name,
    schema: &Schema,
) -> Result<Effect, ExecFault>
    requires can { CanCreate txn table.now schema.now (kind engine.old) (state engine.old) }
    ensures same { IsSame (kind engine.old) (kind engine.new)
        (reading engine.old) (reading engine.new) }
    ensures carries { CarriesAlone result
        (with_change txn (Create table.now (kind engine.old).name schema.now) (state engine.old))
        (state engine.old) (state engine.new) (holds engine.old) (holds engine.new) }
    ensures ok { IfOk result (λ it.
        create_outcome table.now schema.now (kind engine.old) (state engine.old) ≡ Ok it) }
    ensures spelt { IfOk result CanBeSpelt }
    ensures err { IfErr result (FailsFor
        (result_err (create_outcome table.now schema.now (kind engine.old) (state engine.old)))) }
{
    let change = create_change(alloc, engine, table, schema)?;
    let effect = makes(alloc, change)?;
    match make(engine, txn, table, schema) {
        Ok(()) => Ok(effect),
        Err(fault) => Err(not_made(fault)),
    }
}

/// A table is dropped.
///
/// `Memory`.
pub(crate) fn drop_table(
    alloc: Global,
    engine: &mut Box<dyn Engine + Send>,
    txn: u32,
    table: &Name,
) -> Result<Effect, ExecFault>
    requires can { CanDrop txn table.now (state engine.old) }
    ensures same { IsSame (kind engine.old) (kind engine.new)
        (reading engine.old) (reading engine.new) }
    ensures carries { CarriesAlone result (with_change txn (Drop table.now) (state engine.old))
        (state engine.old) (state engine.new) (holds engine.old) (holds engine.new) }
    ensures ok { IfOk result (λ it. it ≡ makes (Drop table.now)) }
    ensures spelt { IfOk result CanBeSpelt }
    ensures err { IfErr result (FailsFor None) }
{
    named(table);
    let table_copy = table.copy()?;
    let effect = makes(alloc, Change::Drop { table: table_copy })?;
    match remove(engine, txn, table) {
        Ok(()) => Ok(effect),
        Err(_) => Err(ExecFault::Memory),
    }
}
