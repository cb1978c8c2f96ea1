//! The schema that a CREATE asks for.
ghost use Rattle.std.specs.Prelude.{◌≡◌, ◌<◌, ◌++◌, length, cond, Some, None, [], is_some, IfOk, IfErr, OnOk, true, false};
ghost use Rattle.std.specs.Option.{option_copied};
ghost use Rattle.std.specs.List.{list_any, filter_map, cons_option, position};
ghost use Rattle.engine_api.specs.Live.{allows_key, allows_nulls, allows};
ghost use Rattle.row_format.specs.Schemas.{is_called, is_allowed};
ghost use Rattle.sql_plan.specs.Tables.{kind_of, key_named, keys_named, is_key_of, column_of, is_torn, key_place, schema_if, schema_of_columns, schema_with, created_schema};
ghost use Rattle.sql_value.specs.declared.refusal.Refusal.TheVariants.{SchemaUnsuitable};
ghost use Rattle.sql_plan.specs.Plans.{create_refusal, IsFault};

use crate::shape::PlanFault;
use engine_api::{Flags, KeyRule};
use row_format::{Column, Kind, Schema};
use sql_text::{Item, TypeName};
use sql_value::{Name, Refusal};
use std::alloc::{AllocError, Global};

// The type of a column.
fn kind_of_name(name: TypeName) -> Kind
    ensures { result ≡ kind_of name }
{
    match name {
        TypeName::BigInt => Kind::BigInt,
        TypeName::VarChar(n) => Kind::VarChar(n),
    }
}

// The key that an item names.
fn key_of_item(item: &Item) -> Option<&Name>
    ensures { option_copied result ≡ key_named item.now }
{
    match item {
        Item::Column { name, key, .. } => { if *key { Some(name) } else { None } }
        Item::Key { column } => Some(column),
    }
}

// Whether this is the key's name.
fn names_key(key: Option<&Name>, column: &Name) -> bool
    ensures { result ≡ is_key_of (option_copied key.entry) column.now }
{
    match key {
        None => false,
        Some(key) => key.is_same(column),
    }
}

// Whether an item says NULL, and NOT NULL or that it is the key.
fn tears(key: Option<&Name>, item: &Item) -> bool
    ensures { result ≡ is_torn (option_copied key.entry) item.now }
{
    match item {
        Item::Column {
            name,
            null,
            not_null,
            ..
        } => { *null && (*not_null || names_key(key, name)) }
        Item::Key { .. } => false,
    }
}

// Whether one of the items does.
fn is_any_torn(key: Option<&Name>, items: &[Item]) -> bool
    ensures { result ≡ list_any (is_torn (option_copied key.entry)) items.now }
{
    items.iter().any(|item| tears(key, item))
}

// The column of an item, where it is one.
fn column_of_item(key: Option<&Name>, item: &Item) -> Result<Option<Column>, AllocError>
    ensures { IfOk result (λ it. it ≡ column_of (option_copied key.entry) item.now) }
{
    match item {
        Item::Column {
            name,
            kind,
            not_null,
            ..
        } => Ok(Some(Column {
            name: name.copy()?,
            kind: kind_of_name(*kind),
            nullable: !(*not_null || names_key(key, name)),
        })),
        Item::Key { .. } => Ok(None),
    }
}

// Adds the column of an item, where it is one.
fn add_column(key: Option<&Name>, item: &Item, columns: &mut Vec<Column>) -> Result<(), AllocError>
    ensures { OnOk result (columns.new.items
        ≡ columns.old.items ++ cons_option (column_of (option_copied key.entry) item.now) []) }
{
    if let Some(column) = column_of_item(key, item)? {
        columns.push(column)?;
    }
    Ok(())
}

// The columns of items, in order.
fn columns_of_items(
    alloc: Global,
    key: Option<&Name>,
    items: &[Item],
) -> Result<Vec<Column>, AllocError>
    ensures { IfOk result (λ it.
        it.items ≡ filter_map (column_of (option_copied key.entry)) items.now) }
{
    let mut columns = Vec::new(alloc);
    for item in items {
        add_column(key, item, &mut columns)?;
    }
    Ok(columns)
}

// Whether the flags allow this key, or none.
fn allows_this_key(rule: KeyRule, key: Option<u8>) -> bool
    ensures { result ≡ allows_key rule key }
{
    match rule {
        KeyRule::Needed => key.is_some(),
        KeyRule::Allowed => true,
        KeyRule::Refused => key.is_none(),
    }
}

// Whether no column is nullable.
fn have_no_nulls(columns: &[Column]) -> bool
    ensures { result ≡ allows_nulls false columns.now }
{
    columns.iter().all(|column| !column.nullable)
}

// Whether no column is nullable, or that is allowed.
fn allows_these(nulls: bool, columns: &[Column]) -> bool
    ensures { result ≡ allows_nulls nulls columns.now }
{
    if nulls {
        return true;
    }
    have_no_nulls(columns)
}

// Whether what an engine can do allows the schema.
fn does_allow(flags: Flags, schema: &Schema) -> bool
    ensures { result ≡ allows flags schema.now }
{
    allows_this_key(flags.key, schema.key) && allows_these(flags.nulls, schema.columns.as_slice())
}

// The key of two of which one is named at most.
fn either<'a>(key: Option<&'a Name>, other: Option<&'a Name>) -> Result<Option<&'a Name>, Refusal>
    ensures ok { IfOk result (λ it. cons_option (option_copied it) []
        ≡ cons_option (option_copied key.entry) (cons_option (option_copied other.entry) [])) }
    ensures err { IfErr result (λ it. (it ≡ SchemaUnsuitable)
        × (is_some key.entry ≡ true) × (is_some other.entry ≡ true)) }
{
    match key {
        None => Ok(other),
        Some(_) => {
            if other.is_some() {
                return Err(Refusal::SchemaUnsuitable);
            }
            Ok(key)
        }
    }
}

// The key that the items name, if they name one; more than one is refused.
fn key_of_items(items: &[Item]) -> Result<Option<&Name>, Refusal>
    ensures ok { IfOk result (λ it. keys_named items.now ≡ cons_option (option_copied it) []) }
    ensures err { IfErr result (λ it. (it ≡ SchemaUnsuitable)
        × (1 < length (keys_named items.now))) }
{
    let mut key = None;
    let mut i = 0;
    while i < items.len() {
        key = either(key, key_of_item(&items[i]))?;
        i += 1;
    }
    Ok(key)
}

// The place of the column of this name.
fn place_named(name: &Name, columns: &[Column]) -> Option<usize>
    ensures { result ≡ position (is_called name.now) columns.now }
{
    columns.iter().position(|column| name.is_same(&column.name))
}

// The place of the key among the columns; None where no column has its name.
fn place_of(key: Option<&Name>, columns: &[Column]) -> Option<Option<usize>>
    ensures { result ≡ key_place (option_copied key.entry) columns.now }
{
    match key {
        None => Some(None),
        Some(name) => {
            let place = place_named(name, columns)?;
            Some(Some(place))
        }
    }
}

// The schema of these columns with the key there, if it is one, and what an engine can do allows it.
fn schema_at(flags: Flags, columns: Vec<Column>, key: Option<u8>) -> Option<Schema>
    ensures { result ≡ schema_if flags columns.items (Some key) }
{
    match Schema::new(columns, key) {
        Err(_) => None,
        Ok(schema) => {
            if does_allow(flags, &schema) {
                Some(schema)
            } else {
                None
            }
        }
    }
}

// The schema of these columns with the key of this name, or with none.
fn schema_by_name(flags: Flags, columns: Vec<Column>, key: Option<&Name>) -> Option<Schema>
    ensures { result ≡ schema_of_columns flags columns.items (option_copied key.entry) }
{
    if columns.len() > 16 {
        return None;
    }
    match place_of(key, &columns)? {
        None => schema_at(flags, columns, None),
        Some(place) => schema_at(flags, columns, Some(place as u8)),
    }
}

// The schema of items with this key.
fn schema_of_items(
    alloc: Global,
    flags: Flags,
    items: &[Item],
    key: Option<&Name>,
) -> Result<Schema, PlanFault>
    ensures ok { IfOk result (λ it.
        schema_with flags items.now (option_copied key.entry) ≡ Some it) }
    ensures err { IfErr result (λ fault.
        IsFault (create_refusal (schema_with flags items.now (option_copied key.entry))) fault) }
{
    if is_any_torn(key, items) {
        return Err(PlanFault::Refused(Refusal::SchemaUnsuitable));
    }
    let columns = columns_of_items(alloc, key, items)?;
    match schema_by_name(flags, columns, key) {
        None => Err(PlanFault::Refused(Refusal::SchemaUnsuitable)),
        Some(schema) => Ok(schema),
    }
}

/// The schema that a CREATE with these items asks for, of an engine that can do this. It is refused where there is none.
pub(crate) fn create_schema(
    alloc: Global,
    flags: Flags,
    items: &[Item],
) -> Result<Schema, PlanFault>
    ensures ok { IfOk result (λ it. created_schema flags items.now ≡ Some it) }
    ensures err { IfErr result (λ fault.
        IsFault (create_refusal (created_schema flags items.now)) fault) }
{
    match key_of_items(items) {
        Err(refusal) => Err(PlanFault::Refused(refusal)),
        Ok(key) => schema_of_items(alloc, flags, items, key),
    }
}
