//! The events of a change: the table map before it where it needs one, and its own.
ghost use Rattle.std.specs.Prelude.{◌≡◌, IfSome};
ghost use Rattle.std.specs.Option.{option_copied};
ghost use Rattle.row_format.specs.Spelling.{Adds};
ghost use Rattle.frame_codec.specs.Bytes.{le32};
ghost use Rattle.row_format.specs.declared.change.Change.TheVariants.{Install, Uninstall, Create, Drop, Update, Delete};
ghost use Rattle.row_format.specs.Changes.{IsMap, IsFitChange};
ghost use Rattle.binlog_events.specs.Changes.{change_event, map_of, map_events, map_told};

use row_format::{Change, Name, Row, Schema, TableMap, add_counted, add_row, add_schema};
use std::alloc::AllocError;

/// The type of a table map's event.
pub(crate) const MAP_KIND: u8 = 19;

/// The type of a change's event.
pub(crate) fn kind_of(change: &Change) -> u8
    ensures { result ≡ (change_event change.now).kind }
{
    match change {
        Change::Insert { .. } => 30,
        Change::Update { .. } => 31,
        Change::Delete { .. } => 32,
        _ => 2,
    }
}

/// The table map of a row change.
pub(crate) fn own_map(change: &Change) -> Option<&TableMap>
    ensures value { option_copied result ≡ map_of change.now }
    ensures map { IsFitChange change.now → IfSome result (λ m. IsMap m.now) }
{
    match change {
        Change::Insert { map, .. } => Some(map),
        Change::Update { map, .. } => Some(map),
        Change::Delete { map, .. } => Some(map),
        _ => None,
    }
}

/// The table map that stands before a change, behind a change with this table map or with none.
pub(crate) fn map_needed<'a>(before: Option<&TableMap>, change: &'a Change) -> Option<&'a TableMap>
    requires { IsFitChange change.now }
    ensures value { map_told (option_copied result)
        ≡ map_events (option_copied before.entry) change.now }
    ensures map { IfSome result (λ m. IsMap m.now) }
{
    let map = own_map(change)?;
    match before {
        None => Some(map),
        Some(it) => { if it.is_same(map) { None } else { Some(map) } }
    }
}

// Adds the body of an Install.
fn add_install(name: &Name, out: &mut Vec<u8>) -> Result<(), AllocError>
    requires { IsFitChange (Install name.now) }
    ensures { Adds result out.old.items out.new.items (change_event (Install name.now)).body }
{
    out.push(4)?;
    add_counted(name.as_bytes(), out)
}

// Adds the body of an Uninstall.
fn add_uninstall(name: &Name, out: &mut Vec<u8>) -> Result<(), AllocError>
    requires { IsFitChange (Uninstall name.now) }
    ensures { Adds result out.old.items out.new.items (change_event (Uninstall name.now)).body }
{
    out.push(5)?;
    add_counted(name.as_bytes(), out)
}

// Adds the body of a Drop.
fn add_drop(table: &Name, out: &mut Vec<u8>) -> Result<(), AllocError>
    requires { IsFitChange (Drop table.now) }
    ensures { Adds result out.old.items out.new.items (change_event (Drop table.now)).body }
{
    out.push(3)?;
    add_counted(table.as_bytes(), out)
}

// Adds the body of a Create.
fn add_create(
    table: &Name,
    engine: &Name,
    schema: &Schema,
    out: &mut Vec<u8>,
) -> Result<(), AllocError>
    requires { IsFitChange (Create table.now engine.now schema.now) }
    ensures { Adds result out.old.items out.new.items
        (change_event (Create table.now engine.now schema.now)).body }
{
    out.push(2)?;
    add_counted(table.as_bytes(), out)?;
    add_counted(engine.as_bytes(), out)?;
    add_schema(schema, out)
}

// Adds the place of a row.
#[tactic(auto, unfolding(frame_codec::specs::Bytes::le32))]
fn add_place(place: u32, out: &mut Vec<u8>) -> Result<(), AllocError>
    ensures { Adds result out.old.items out.new.items (le32 place) }
{
    out.extend_from_slice(&place.to_le_bytes())
}

// Adds the body of an Update.
fn add_update(
    map: &TableMap,
    place: u32,
    before: &Row,
    after: &Row,
    out: &mut Vec<u8>,
) -> Result<(), AllocError>
    requires { IsFitChange (Update map.now place before.now after.now) }
    ensures { Adds result out.old.items out.new.items
        (change_event (Update map.now place before.now after.now)).body }
{
    add_place(place, out)?;
    add_row(&map.schema, before, out)?;
    add_row(&map.schema, after, out)
}

// Adds the body of a Delete.
fn add_delete(map: &TableMap, place: u32, before: &Row, out: &mut Vec<u8>) -> Result<(), AllocError>
    requires { IsFitChange (Delete map.now place before.now) }
    ensures { Adds result out.old.items out.new.items
        (change_event (Delete map.now place before.now)).body }
{
    add_place(place, out)?;
    add_row(&map.schema, before, out)
}

/// Adds the body of a change's event.
pub(crate) fn add_body(change: &Change, out: &mut Vec<u8>) -> Result<(), AllocError>
    requires { IsFitChange change.now }
    ensures { Adds result out.old.items out.new.items (change_event change.now).body }
{
    match change {
        Change::Install { name } => add_install(name, out),
        Change::Uninstall { name } => add_uninstall(name, out),
        Change::Create {
            table,
            engine,
            schema,
        } => add_create(table, engine, schema, out),
        Change::Drop { table } => add_drop(table, out),
        Change::Insert { map, row } => add_row(&map.schema, row, out),
        Change::Update {
            map,
            place,
            before,
            after,
        } => add_update(map, *place, before, after, out),
        Change::Delete { map, place, before } => add_delete(map, *place, before, out),
    }
}
