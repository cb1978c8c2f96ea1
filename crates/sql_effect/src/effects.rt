//! What a statement does.
ghost use Rattle.std.specs.Prelude.{◌≡◌, ◌+◌, IfOk, IfErr, OnOk, Ok, Some, None, find, true};
ghost use Rattle.std.specs.Str.{bytes_eq};
ghost use Rattle.std.specs.List.{list_any};
ghost use Rattle.std.specs.Option.{option_copied};
ghost use Rattle.std.specs.Result.{result_err};
ghost use Rattle.row_format.specs.Changes.{AreFitChanges};
ghost use Rattle.row_format.specs.Schemas.{is_allowed, IsSchema};
ghost use Rattle.sql_plan.specs.Plans.{plan_refusal, schema_of, IsOnTable, HasDefinition};
ghost use Rattle.log_tables.specs.Tables.{table_named, new_table};
ghost use Rattle.engine_api.specs.Live.{table_bytes};
ghost use Rattle.sql_effect.specs.Effects.{answers, makes, is_engine, is_library, engine_named, sized, insert_effect, select_effect, rewrite_effect, table_effect, planned_effect, use_effect, made_effect, create_in, create_effect, install_effect, effect_of, IsTable, AreTables};
ghost use Rattle.sql_effect.specs.Insert.{written};
ghost use Rattle.sql_effect.specs.Outcomes.{Gives, Fails, FailsFor};
ghost use Rattle.sql_effect.specs.Rewrite.{refused_or};
ghost use Rattle.sql_effect.specs.Sizes.{room_refusal};

use crate::insert::{check_inserts, inserts, write_rows};
use crate::rewrite::rewrite;
use crate::select::select_rows;
use crate::shape::{Effect, EffectFault, EngineFacts, Sizes, View};
use crate::sizes::{check_room, check_size};
use engine_api::Flags;
use log_tables::{Definition, Rows, Table};
use row_format::{Change, Changes, Row, Schema, schema_len};
use sql_plan::{PlanFault, plan};
use sql_text::{Cond, ListOf, Literals, Statement};
use sql_value::{Name, Refusal, Text};
use std::alloc::{AllocError, Global};

// The first table of this name.
fn find_table<'a>(tables: &'a [Table], name: &Name) -> Option<&'a Table>
    ensures { option_copied result ≡ table_named name.now tables.now }
{
    tables
        .iter()
        .find(|table| table.definition.table.is_same(name))
}

// Whether the plugin of this name is installed.
fn is_installed(name: &Name, installed: &[Name]) -> bool
    ensures { result ≡ list_any (bytes_eq name.now) installed.now }
{
    installed.iter().any(|it| name.is_same(it))
}

// The first engine of this name at hand.
fn find_engine<'a>(name: &Name, shelf: &'a [EngineFacts]) -> Option<&'a EngineFacts>
    ensures { option_copied result ≡ find (is_engine name.now) shelf.now }
{
    shelf.iter().find(|engine| engine.name.is_same(name))
}

// The engine of this name that a statement may use.
fn engine_named<'a>(name: &Name, shelf: &'a [EngineFacts], view: &View) -> Option<&'a EngineFacts>
    ensures { option_copied result ≡ engine_named name.now shelf.now view.now }
{
    if !is_installed(name, view.installed.as_slice()) {
        return None;
    }
    find_engine(name, shelf)
}

// Whether an engine at hand has this name and is in this library.
fn is_at_hand(name: &Name, soname: &Text, shelf: &[EngineFacts]) -> bool
    ensures { result ≡ list_any (is_library name.now soname.now) shelf.now }
{
    shelf.iter().any(|engine| engine.name.is_same(name) && engine.soname.is_same(soname))
}

/// Rows are answered, and nothing changes. No memory is taken.
pub fn answers(alloc: Global, rows: Vec<Row>) -> Effect
    ensures { result ≡ answers rows.items }
{
    Effect {
        rows: Rows::new(rows),
        count: 0,
        changes: Changes::new(Vec::new(alloc)),
    }
}

/// One change of tables or of engines.
///
/// `AllocError` for want of memory.
pub fn makes(alloc: Global, change: Change) -> Result<Effect, AllocError>
    ensures { IfOk result (λ it. it ≡ makes change) }
{
    let mut changes = Vec::new(alloc);
    changes.push(change)?;
    Ok(Effect {
        rows: Rows::new(Vec::new(alloc)),
        count: 0,
        changes: Changes::new(changes),
    })
}

/// Rows change, and are counted. No memory is taken.
///
/// `TransactionTooLarge` exactly where these changes, and the bytes that the transaction had before, pass 1,048,576 bytes in the log.
pub fn sized(alloc: Global, sizes: Sizes, changes: Vec<Change>) -> Result<Effect, Refusal>
    requires { AreFitChanges changes.items }
    ensures { result ≡ sized sizes changes.items }
{
    let count = changes.len() as u64;
    let changes = Changes::new(changes);
    check_size(sizes.open, &changes)?;
    Ok(Effect {
        rows: Rows::new(Vec::new(alloc)),
        count,
        changes,
    })
}

// An INSERT of these rows.
fn insert_effect(
    alloc: Global,
    engine: &EngineFacts,
    sizes: Sizes,
    table: &Table,
    rows: &[Literals],
) -> Result<Effect, EffectFault>
    requires { IsTable table.now }
    ensures { Gives result (insert_effect engine.now sizes table.now (written rows.now)) }
{
    let rows = write_rows(alloc, rows)?;
    let definition = &table.definition;
    check_inserts(
        engine.keeps_rows,
        &definition.schema,
        sizes.live,
        table.rows.as_slice(),
        &rows,
    )?;
    let changes = inserts(alloc, &definition.table, &definition.schema, rows)?;
    Ok(sized(alloc, sizes, changes)?)
}

// A SELECT of these columns where the condition chooses.
fn select_effect(
    alloc: Global,
    table: &Table,
    names: &Option<ListOf<Name>>,
    cond: &Option<Cond>,
) -> Result<Effect, EffectFault>
    ensures { Gives result (select_effect table.now names.now cond.now) }
{
    let columns = table.definition.schema.columns.as_slice();
    let rows = select_rows(alloc, columns, names, cond, table.rows.as_slice())?;
    Ok(answers(alloc, rows))
}

// Refuses a statement that planning refuses.
fn check_plan(
    alloc: Global,
    definition: &Definition,
    flags: Flags,
    statement: &Statement,
) -> Result<(), EffectFault>
    requires { IsOnTable statement.now }
    ensures { Gives result
        (refused_or (plan_refusal statement.now (Some definition.now) flags) (Ok tt)) }
{
    match plan(alloc, statement, Some(definition), flags) {
        Ok(_) => Ok(()),
        Err(PlanFault::Refused(refusal)) => Err(EffectFault::Refused(refusal)),
        Err(PlanFault::Memory) => Err(EffectFault::Memory),
    }
}

// An UPDATE or a DELETE.
fn rewrite_effect(
    alloc: Global,
    sizes: Sizes,
    table: &Table,
    asks: &Statement,
) -> Result<Effect, EffectFault>
    requires { IsTable table.now }
    ensures { Gives result (rewrite_effect sizes table.now asks.now) }
{
    let changes = rewrite(alloc, sizes.live, table, asks)?;
    Ok(sized(alloc, sizes, changes)?)
}

// A statement on its table, where planning did not refuse it.
fn table_effect(
    alloc: Global,
    engine: &EngineFacts,
    sizes: Sizes,
    table: &Table,
    statement: &Statement,
) -> Result<Effect, EffectFault>
    requires { IsTable table.now }
    ensures { Gives result (table_effect engine.now sizes table.now statement.now) }
{
    match statement {
        Statement::Drop { table } => {
            let table = table.copy()?;
            Ok(makes(alloc, Change::Drop { table })?)
        }
        Statement::Insert { rows, .. } => {
            insert_effect(alloc, engine, sizes, table, rows.as_slice())
        }
        Statement::Select { columns, cond, .. } => select_effect(alloc, table, columns, cond),
        Statement::Update { .. } => rewrite_effect(alloc, sizes, table, statement),
        Statement::Delete { .. } => rewrite_effect(alloc, sizes, table, statement),
        _ => Err(EffectFault::Refused(Refusal::NotBuilt)),
    }
}

// A statement on a table whose engine was found.
fn planned_effect(
    alloc: Global,
    engine: &EngineFacts,
    sizes: Sizes,
    table: &Table,
    asks: &Statement,
) -> Result<Effect, EffectFault>
    requires table { IsTable table.now }
    requires asks { IsOnTable asks.now }
    ensures gives { Gives result (planned_effect (Some engine.now) sizes table.now asks.now) }
{
    check_plan(alloc, &table.definition, engine.flags, asks)?;
    table_effect(alloc, engine, sizes, table, asks)
}

// A statement on a table that was found.
fn found_effect(
    alloc: Global,
    shelf: &[EngineFacts],
    view: &View,
    sizes: Sizes,
    table: &Table,
    asks: &Statement,
) -> Result<Effect, EffectFault>
    requires table { IsTable table.now }
    requires asks { IsOnTable asks.now }
    ensures gives { Gives result (use_effect shelf.now view.now sizes (Some table.now) asks.now) }
{
    match engine_named(&table.definition.engine, shelf, view) {
        None => Err(EffectFault::Refused(Refusal::UnknownEngine)),
        Some(engine) => planned_effect(alloc, engine, sizes, table, asks),
    }
}

// A statement on the table of this name.
fn use_effect(
    alloc: Global,
    shelf: &[EngineFacts],
    view: &View,
    sizes: Sizes,
    name: &Name,
    asks: &Statement,
) -> Result<Effect, EffectFault>
    requires tables { AreTables view.now.tables }
    requires asks { IsOnTable asks.now }
    ensures gives { Gives result (use_effect shelf.now view.now sizes
        (table_named name.now view.now.tables) asks.now) }
{
    match find_table(view.tables.as_slice(), name) {
        None => Err(EffectFault::Refused(Refusal::NoSuchTable)),
        Some(table) => found_effect(alloc, shelf, view, sizes, table, asks),
    }
}

// Refuses a table that makes too many live bytes of its engine.
fn check_created(live: u64, table: &Name, engine: &Name, schema: &Schema) -> Result<(), Refusal>
    requires { IsSchema schema.now }
    ensures { result_err result ≡ room_refusal
        (live + table_bytes (new_table table.now engine.now schema.now)) }
{
    let bytes = 1 + table.as_bytes().len() as u64 + schema_len(schema);
    check_room(u128::from(live) + u128::from(bytes))
}

// A CREATE of a table with this schema.
fn made_effect(
    alloc: Global,
    sizes: Sizes,
    table: &Name,
    engine: &Name,
    schema: Schema,
) -> Result<Effect, EffectFault>
    requires { IsSchema schema }
    ensures { Gives result (made_effect sizes table.now engine.now (Some schema)) }
{
    check_created(sizes.live, table, engine, &schema)?;
    let table = table.copy()?;
    let engine = engine.copy()?;
    Ok(makes(
        alloc,
        Change::Create {
            table,
            engine,
            schema,
        },
    )?)
}

// The same schema, known to be one.
fn known_schema(schema: Schema) -> Schema
    requires { is_allowed schema.columns schema.key ≡ true }
    ensures same { result ≡ schema }
    ensures schema { IsSchema result }
{
    match Schema::new(schema.columns.into_columns(), schema.key) {
        Ok(schema) => schema,
        Err(_) => unreachable!(),
    }
}

// The schema that a CREATE asks for.
fn planned_schema(alloc: Global, flags: Flags, asks: &Statement) -> Result<Schema, EffectFault>
    requires asks { IsOnTable asks.now }
    requires makes { HasDefinition asks.now None }
    ensures granted { OnOk result (plan_refusal asks.now None flags ≡ None) }
    ensures ok { IfOk result (λ it. schema_of asks.now None flags ≡ Some it) }
    ensures schema { IfOk result IsSchema }
    ensures err { IfErr result (λ fault.
        FailsFor (plan_refusal asks.now None flags) fault) }
{
    match plan(alloc, asks, None, flags) {
        Ok(plan) => Ok(known_schema(plan.schema)),
        Err(PlanFault::Refused(refusal)) => Err(EffectFault::Refused(refusal)),
        Err(PlanFault::Memory) => Err(EffectFault::Memory),
    }
}

// A CREATE in an engine that was found.
fn create_in(
    alloc: Global,
    engine: &EngineFacts,
    sizes: Sizes,
    table: &Name,
    name: &Name,
    asks: &Statement,
) -> Result<Effect, EffectFault>
    requires asks { IsOnTable asks.now }
    requires makes { HasDefinition asks.now None }
    ensures gives { Gives result (create_in (Some engine.now) sizes table.now name.now asks.now) }
{
    let schema = planned_schema(alloc, engine.flags, asks)?;
    made_effect(alloc, sizes, table, name, schema)
}

// A CREATE, unless there is a table of its name.
fn create_effect(
    alloc: Global,
    shelf: &[EngineFacts],
    view: &View,
    sizes: Sizes,
    table: &Name,
    engine: &Name,
    asks: &Statement,
) -> Result<Effect, EffectFault>
    requires asks { IsOnTable asks.now }
    requires makes { HasDefinition asks.now None }
    ensures gives { Gives result
        (create_effect shelf.now view.now sizes table.now engine.now asks.now) }
{
    if find_table(view.tables.as_slice(), table).is_some() {
        return Err(EffectFault::Refused(Refusal::TableExists));
    }
    match engine_named(engine, shelf, view) {
        None => Err(EffectFault::Refused(Refusal::UnknownEngine)),
        Some(facts) => create_in(alloc, facts, sizes, table, engine, asks),
    }
}

// An INSTALL of a plugin that is not installed, and whose engine is at hand.
fn install_effect(
    alloc: Global,
    shelf: &[EngineFacts],
    view: &View,
    name: &Name,
    soname: &Text,
) -> Result<Effect, EffectFault>
    ensures { Gives result (install_effect shelf.now view.now name.now soname.now) }
{
    if is_installed(name, view.installed.as_slice()) {
        return Err(EffectFault::Refused(Refusal::PluginInstalled));
    }
    if !is_at_hand(name, soname, shelf) {
        return Err(EffectFault::Refused(Refusal::NoSuchLibrary));
    }
    let name = name.copy()?;
    Ok(makes(alloc, Change::Install { name })?)
}

/// What a statement does to a view, or why it is refused. It looks at each row of the table, and copies what it answers, so it serves
/// tests alone.
///
/// `Refused` comes exactly where the definition has that refusal, unless memory runs out. `Memory` comes for want of memory.
pub fn effect_of(
    alloc: Global,
    shelf: &[EngineFacts],
    view: &View,
    sizes: Sizes,
    asks: &Statement,
) -> Result<Effect, EffectFault>
    requires { AreTables view.now.tables }
    ensures ok { IfOk result (λ it. effect_of shelf.now view.now sizes asks.now ≡ Ok it) }
    ensures err { IfErr result (λ fault. Fails fault
        (effect_of shelf.now view.now sizes asks.now)) }
{
    match asks {
        Statement::Create { table, engine, .. } => {
            create_effect(alloc, shelf, view, sizes, table, engine, asks)
        }
        Statement::Drop { table } => use_effect(alloc, shelf, view, sizes, table, asks),
        Statement::Insert { table, .. } => use_effect(alloc, shelf, view, sizes, table, asks),
        Statement::Select { table, .. } => use_effect(alloc, shelf, view, sizes, table, asks),
        Statement::Update { table, .. } => use_effect(alloc, shelf, view, sizes, table, asks),
        Statement::Delete { table, .. } => use_effect(alloc, shelf, view, sizes, table, asks),
        Statement::Install { name, soname } => install_effect(alloc, shelf, view, name, soname),
        _ => Err(EffectFault::Refused(Refusal::NotBuilt)),
    }
}
