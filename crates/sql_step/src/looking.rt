//! The table and the engine that a statement names, looked for in the dictionary and in the engine at hand.
ghost use Rattle.std.specs.Prelude.{◌≡◌, ◌≢◌, Some, false, IfOk, IfErr, OnOk, IsTrue};
ghost use Rattle.std.specs.Option.{option_copied};
ghost use Rattle.std.specs.Str.{bytes_eq};
ghost use Rattle.engine_api.specs.Live.{live_schema};
ghost use Rattle.sql_step.specs.Catalogs.{catalog_of, facts_here, is_there, is_from, serves};
ghost use Rattle.sql_step.specs.Looks.{IsUsable, IsNotUsable, IsMakeable, IsNotMakeable};

use dictionary::Dictionary;
use engine_api::{Engine, Flags};
use log_tables::Definition;
use row_format::Schema;
use sql_value::{Name, Refusal, Text};

// The schema of the live table of this name, as the engine says it.
fn schema_of<'a>(engine: &'a Box<dyn Engine + Send>, table: &Name) -> Option<&'a Schema>
    ensures { option_copied result ≡ live_schema table.now (state engine.now) }
{
    engine.live(table)
}

// What the engine can do, as it says it.
pub(crate) fn flags_of(engine: &Box<dyn Engine + Send>) -> Flags
    ensures { result ≡ (kind engine.now).flags }
{
    engine.flags()
}

// Whether the engine has this name.
fn is_named(engine: &Box<dyn Engine + Send>, name: &Name) -> bool
    ensures { result ≡ bytes_eq (kind engine.now).name name.now }
{
    engine.name().is_same(name)
}

// Whether the engine comes from this library.
fn is_of_library(engine: &Box<dyn Engine + Send>, soname: &Text) -> bool
    ensures { result ≡ bytes_eq (kind engine.now).soname soname.now }
{
    engine.soname().is_same(soname)
}

// Whether the engine has this name, and comes from this library.
pub(crate) fn is_from(engine: &Box<dyn Engine + Send>, name: &Name, soname: &Text) -> bool
    ensures { result ≡ is_from name.now soname.now (facts_here (kind engine.now)) }
{
    is_named(engine, name) && is_of_library(engine, soname)
}

// Whether the engine of this name is installed.
pub(crate) fn is_there(dictionary: &Dictionary, name: &Name) -> bool
    ensures { result ≡ is_there name.now dictionary.now.installed }
{
    dictionary.installed().iter().any(|it| name.is_same(it))
}

// Whether the engine has this name, and is installed.
fn serves(dictionary: &Dictionary, engine: &Box<dyn Engine + Send>, name: &Name) -> bool
    ensures { result ≡ serves name.now dictionary.now.installed
        (facts_here (kind engine.now)) }
{
    is_there(dictionary, name) && is_named(engine, name)
}

// Whether the engine has the table of this name with this schema.
fn has_schema(engine: &Box<dyn Engine + Send>, table: &Name, schema: &Schema) -> bool
    ensures has { IsTrue result → live_schema table.now (state engine.now) ≡ Some schema.now }
    ensures other { result ≡ false
        → live_schema table.now (state engine.now) ≢ Some schema.now }
{
    match schema_of(engine, table) {
        Some(live) => live.is_same(schema),
        None => false,
    }
}

/// The definition of a table that a statement can use.
///
/// `NoSuchTable` where no table of this name is defined; else `UnknownEngine` where its engine is not this one, or not installed; else
/// `NoSuchTable` where the engine has it not, or with another schema.
pub(crate) fn table_to_use<'a>(
    dictionary: &'a Dictionary,
    engine: &Box<dyn Engine + Send>,
    table: &Name,
) -> Result<&'a Definition, Refusal>
    ensures ok { IfOk result (λ it. IsUsable table.now
        (catalog_of dictionary.now (state engine.now)) (facts_here (kind engine.now)) it.now) }
    ensures err { IfErr result (IsNotUsable table.now
        (catalog_of dictionary.now (state engine.now)) (facts_here (kind engine.now))) }
{
    let Some(definition) = dictionary.find(table) else {
        return Err(Refusal::NoSuchTable);
    };
    if !serves(dictionary, engine, &definition.engine) {
        return Err(Refusal::UnknownEngine);
    }
    if !has_schema(engine, table, &definition.schema) {
        return Err(Refusal::NoSuchTable);
    }
    Ok(definition)
}

/// Refuses to make a table of this name in the engine of this name.
///
/// `TableExists` where a table of this name is defined; else `UnknownEngine` where the engine is not this one, or not installed; else
/// `TableExists` where the engine has a table of this name all the same.
pub(crate) fn check_free(
    dictionary: &Dictionary,
    engine: &Box<dyn Engine + Send>,
    table: &Name,
    name: &Name,
) -> Result<(), Refusal>
    ensures ok { OnOk result (IsMakeable table.now name.now
        (catalog_of dictionary.now (state engine.now)) (facts_here (kind engine.now))) }
    ensures err { IfErr result (IsNotMakeable table.now name.now
        (catalog_of dictionary.now (state engine.now)) (facts_here (kind engine.now))) }
{
    if dictionary.find(table).is_some() {
        return Err(Refusal::TableExists);
    }
    if !serves(dictionary, engine, name) {
        return Err(Refusal::UnknownEngine);
    }
    if schema_of(engine, table).is_some() {
        return Err(Refusal::TableExists);
    }
    Ok(())
}
