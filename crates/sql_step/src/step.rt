//! A text, read, planned and carried out.
ghost use Rattle.std.specs.Prelude.{◌≡◌, ◌∷◌, [], ℕ, List, All, Bool, Some, None, IfOk, IfErr, IsTrue};
ghost use Rattle.std.specs.Option.{option_copied};
ghost use Rattle.std.specs.Result.{result_err};
ghost use Rattle.disk_model.specs.Disk.{Disk, now};
ghost use Rattle.sql_value.specs.Names.{IsName};
ghost use Rattle.row_format.specs.declared.change.Change.TheVariants as change;
ghost use Rattle.engine_api.specs.Calls.{IsSame};
ghost use Rattle.engine_api.specs.Many.{IsAtWork, working};
ghost use Rattle.sql_text.specs.declared.statement.Statement.TheVariants.{Install};
ghost use Rattle.sql_plan.specs.Plans.{plan_refusal, IsOnTable, HasDefinition, IsPlan};
ghost use Rattle.sql_exec.specs.CarriesOut.{CarriesOut, MayFail};
ghost use Rattle.sql_exec.specs.Executes.{plan_effect, CanExecute};
ghost use Rattle.sql_exec.specs.Faults.{FailsFor};
ghost use Rattle.sql_exec.specs.Plannings.{IsIdle};
ghost use Rattle.sql_step.specs.Catalogs.{catalog_of, facts_here};
ghost use Rattle.sql_step.specs.Outcomes.{outcome_of, state_behind, IsLoggable};
ghost use Rattle.sql_step.specs.Steps.{CanStep, IsUse, IsMake, HasRows, HasShown, IsNoted, IsAnswer, IsTextAnswer};

use crate::looking::{check_free, flags_of, is_from, is_there, table_to_use};
use crate::outcome::Outcome;
use dictionary::Dictionary;
use disk_model::Storage;
use engine_api::{Cursor, Engine, Flags};
use log_tables::Definition;
use row_format::{Change, Changes, Column};
use sql_effect::Effect;
use sql_exec::{ExecFault, execute};
use sql_plan::{Plan, PlanFault, plan};
use sql_text::{ParseFault, Statement, parse};
use sql_value::{Name, Refusal, Text};
use std::alloc::{AllocError, Global};

// The plan of a statement about a table, as an executor is given it.
fn planned(
    alloc: Global,
    asks: &Statement,
    definition: Option<&Definition>,
    flags: Flags,
) -> Result<Plan, ExecFault>
    requires on_table { IsOnTable asks.now }
    requires definition { HasDefinition asks.now (option_copied definition) }
    ensures ok { IfOk result (λ plan.
        IsPlan asks.now (option_copied definition.entry) flags plan) }
    ensures err { IfErr result (FailsFor
        (plan_refusal asks.now (option_copied definition.entry) flags)) }
{
    match plan(alloc, asks, definition, flags) {
        Ok(plan) => Ok(plan),
        Err(PlanFault::Refused(refusal)) => Err(ExecFault::Refused(refusal)),
        Err(PlanFault::Memory) => Err(ExecFault::Memory),
    }
}

// Each column of a schema has a name.
fn know_names(columns: &[Column])
    ensures { All (λ it. IsName it.name) columns.now }
{
    for column in columns {
        let _bytes = column.name.as_bytes();
    }
}

// What a statement comes to that has this effect.
fn outcome_of(asks: &Statement, effect: Effect) -> Outcome
    ensures { result ≡ outcome_of asks.now effect }
{
    match asks {
        Statement::Select { .. } => Outcome::Rows { rows: effect.rows },
        Statement::Install { .. } => Outcome::Noted {
            changes: effect.changes,
        },
        _ => Outcome::Changed {
            count: effect.count,
            changes: effect.changes,
        },
    }
}

// A plan is carried out, as a transaction by itself.
fn carry_plan(
    alloc: Global,
    engine: &mut Box<dyn Engine + Send>,
    volume: &mut dyn Storage,
    plan: &Plan,
    txn: u32,
) -> Result<Outcome, ExecFault>
    requires can { CanExecute txn plan.now (kind engine.old) (state engine.old) }
    requires rows { HasRows plan.now.work }
    requires synced { (state engine.old).kept ≡ (state engine.old).gist ∷ [] }
    requires at_work { IsTrue (disk volume.old).told → IsAtWork
        (working (kind engine.old) (reading engine.old) (state engine.old) (holds engine.old))
        (now (disk volume.old)) }
    ensures same { IsSame (kind engine.old) (kind engine.new)
        (reading engine.old) (reading engine.new) }
    ensures carries { CarriesOut (kind engine.old) (reading engine.old) result
        (state_behind txn result (state engine.old)) (state engine.old)
        (state engine.new) (holds engine.new) (disk volume.old) (disk volume.new) }
    ensures ok { IfOk result (HasShown plan.now (kind engine.old) (state engine.old)) }
    ensures loggable { IfOk result IsLoggable }
    ensures err { IfErr result (MayFail
        (result_err (plan_effect 0 plan.now (kind engine.old) (state engine.old)))
        (kind engine.old).files (disk volume.old).told) }
{
    let mut cursor = Cursor::new();
    let effect = execute(alloc, engine, volume, plan, txn, 0, &mut cursor)?;
    Ok(outcome_of(&plan.work, effect))
}

// A statement that uses this table.
fn use_table(
    alloc: Global,
    engine: &mut Box<dyn Engine + Send>,
    volume: &mut dyn Storage,
    dictionary: &Dictionary,
    txn: u32,
    asks: &Statement,
    table: &Name,
) -> Result<Outcome, ExecFault>
    requires step { CanStep dictionary.now (kind engine.old) (reading engine.old)
        (state engine.old) (holds engine.old) (disk volume.old) }
    requires on { IsUse table.now asks.now }
    requires rows { HasRows asks.now }
    ensures same { IsSame (kind engine.old) (kind engine.new)
        (reading engine.old) (reading engine.new) }
    ensures carries { CarriesOut (kind engine.old) (reading engine.old) result
        (state_behind txn result (state engine.old)) (state engine.old)
        (state engine.new) (holds engine.new) (disk volume.old) (disk volume.new) }
    ensures answers { IsAnswer (catalog_of dictionary.now (state engine.old))
        (facts_here (kind engine.old)) (kind engine.old).files (disk volume.old).told asks.now result }
    ensures loggable { IfOk result IsLoggable }
{
    let _bytes = table.as_bytes();
    let definition = match table_to_use(dictionary, engine, table) {
        Ok(definition) => definition,
        Err(refusal) => return Err(ExecFault::Refused(refusal)),
    };
    let plan = planned(alloc, asks, Some(definition), flags_of(engine))?;
    carry_plan(alloc, engine, volume, &plan, txn)
}

// A CREATE.
fn make_table(
    alloc: Global,
    engine: &mut Box<dyn Engine + Send>,
    volume: &mut dyn Storage,
    dictionary: &Dictionary,
    txn: u32,
    asks: &Statement,
) -> Result<Outcome, ExecFault>
    requires step { CanStep dictionary.now (kind engine.old) (reading engine.old)
        (state engine.old) (holds engine.old) (disk volume.old) }
    requires make { IsMake asks.now }
    ensures same { IsSame (kind engine.old) (kind engine.new)
        (reading engine.old) (reading engine.new) }
    ensures carries { CarriesOut (kind engine.old) (reading engine.old) result
        (state_behind txn result (state engine.old)) (state engine.old)
        (state engine.new) (holds engine.new) (disk volume.old) (disk volume.new) }
    ensures answers { IsAnswer (catalog_of dictionary.now (state engine.old))
        (facts_here (kind engine.old)) (kind engine.old).files (disk volume.old).told asks.now result }
    ensures loggable { IfOk result IsLoggable }
{
    let Statement::Create {
        table,
        engine: name,
        ..
    } = asks
    else {
        unreachable!()
    };
    if let Err(refusal) = check_free(dictionary, engine, table, name) {
        return Err(ExecFault::Refused(refusal));
    }
    let plan = planned(alloc, asks, None, flags_of(engine))?;
    know_names(plan.schema.columns.as_slice());
    carry_plan(alloc, engine, volume, &plan, txn)
}

// The changes of an INSTALL of this engine.
fn install_changes(alloc: Global, name: &Name) -> Result<Changes, AllocError>
    ensures value { IfOk result (λ it. it ≡ change.Install name.now ∷ []) }
    ensures named { IfOk result (λ it. IsName name.now) }
{
    let _bytes = name.as_bytes();
    let mut changes = Vec::new(alloc);
    let name = name.copy()?;
    changes.push(Change::Install { name })?;
    Ok(Changes::new(changes))
}

// An INSTALL. No engine has anything to do with it.
fn install(
    alloc: Global,
    engine: &Box<dyn Engine + Send>,
    dictionary: &Dictionary,
    name: &Name,
    soname: &Text,
) -> Result<Outcome, ExecFault>
    ensures answers { (files : List ℕ) (told : Bool) → IsAnswer
        (catalog_of dictionary.now (state engine.now)) (facts_here (kind engine.now))
        files told (Install name.now soname.now) result }
    ensures noted { IsNoted result }
    ensures loggable { IfOk result IsLoggable }
{
    if is_there(dictionary, name) {
        return Err(ExecFault::Refused(Refusal::PluginInstalled));
    }
    if !is_from(engine, name, soname) {
        return Err(ExecFault::Refused(Refusal::NoSuchLibrary));
    }
    let changes = install_changes(alloc, name)?;
    Ok(Outcome::Noted { changes })
}

// A statement is planned and carried out.
fn carry_statement(
    alloc: Global,
    engine: &mut Box<dyn Engine + Send>,
    volume: &mut dyn Storage,
    dictionary: &Dictionary,
    txn: u32,
    asks: &Statement,
) -> Result<Outcome, ExecFault>
    requires step { CanStep dictionary.now (kind engine.old) (reading engine.old)
        (state engine.old) (holds engine.old) (disk volume.old) }
    requires rows { HasRows asks.now }
    ensures same { IsSame (kind engine.old) (kind engine.new)
        (reading engine.old) (reading engine.new) }
    ensures carries { CarriesOut (kind engine.old) (reading engine.old) result
        (state_behind txn result (state engine.old)) (state engine.old)
        (state engine.new) (holds engine.new) (disk volume.old) (disk volume.new) }
    ensures answers { IsAnswer (catalog_of dictionary.now (state engine.old))
        (facts_here (kind engine.old)) (kind engine.old).files (disk volume.old).told asks.now result }
    ensures loggable { IfOk result IsLoggable }
{
    match asks {
        Statement::Create { .. } => make_table(alloc, engine, volume, dictionary, txn, asks),
        Statement::Drop { table }
        | Statement::Insert { table, .. }
        | Statement::Select { table, .. } => {
            use_table(alloc, engine, volume, dictionary, txn, asks, table)
        }
        Statement::Install { name, soname } => install(alloc, engine, dictionary, name, soname),
        _ => Err(ExecFault::Refused(Refusal::NotBuilt)),
    }
}

/// A text is read, planned and carried out on an engine, as a transaction by itself.
///
/// What is answered is the effect of the text on what the dictionary and the engine show: the tables of the dictionary, with the rows
/// that the engine has of them. `txn` is the transaction, which has changed nothing before; what it changes is then open in the engine,
/// and in the outcome, and a log can have it. INSTALL changes nothing in the engine. After any fault but `Device` all is as it was.
///
/// `Refused` exactly by the definition of the text's effect, unless another fault comes first, but: with `NotBuilt` for a statement that
/// is not carried out, as UPDATE; and where the dictionary and the engine do not agree on a table, with `TableExists` (CREATE) or
/// `NoSuchTable`. `Device`; `NotAVolume`, where contents are not told; `Memory`. (The statements are those of the MySQL 5.7 Reference Manual,
/// "SQL Statements"; the order of the refusals is this project's.)
pub fn carry_out(
    alloc: Global,
    engine: &mut Box<dyn Engine + Send>,
    volume: &mut dyn Storage,
    dictionary: &Dictionary,
    txn: u32,
    text: &[u8],
) -> Result<Outcome, ExecFault>
    requires step { CanStep dictionary.now (kind engine.old) (reading engine.old)
        (state engine.old) (holds engine.old) (disk volume.old) }
    ensures same { IsSame (kind engine.old) (kind engine.new)
        (reading engine.old) (reading engine.new) }
    ensures carries { CarriesOut (kind engine.old) (reading engine.old) result
        (state_behind txn result (state engine.old)) (state engine.old)
        (state engine.new) (holds engine.new) (disk volume.old) (disk volume.new) }
    ensures answers { IsTextAnswer (catalog_of dictionary.now (state engine.old))
        (facts_here (kind engine.old)) (kind engine.old).files (disk volume.old).told text.now result }
    ensures loggable { IfOk result IsLoggable }
{
    match parse(alloc, text) {
        Ok(asks) => carry_statement(alloc, engine, volume, dictionary, txn, &asks),
        Err(ParseFault::Refused(refusal)) => Err(ExecFault::Refused(refusal)),
        Err(ParseFault::Memory) => Err(ExecFault::Memory),
    }
}
