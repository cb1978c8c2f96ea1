//! What an UPDATE or a DELETE makes of the rows of a table.
ghost use Rattle.std.specs.Prelude.{◌≡◌, ◌≤◌, ◌<◌, ◌+◌, ◌^◌, ◌++◌, ◌∷◌, [], length, Ok, IfOk, OnOk, IfErr, option_map};
ghost use Rattle.std.specs.List.{position};
ghost use Rattle.std.specs.Result.{result_err};
ghost use Rattle.row_format.specs.Changes.{IsMap, AreFitChanges};
ghost use Rattle.row_format.specs.Rows.{IsRow, row_refusal};
ghost use Rattle.row_format.specs.Schemas.{IsSchema, is_called};
ghost use Rattle.sql_effect.specs.Effects.{map_of, IsTable};
ghost use Rattle.sql_effect.specs.Outcomes.{Gives, Fails, where_so};
ghost use Rattle.sql_effect.specs.Rewrite.{with_value, assigned, made_between, set_made, chosen_made, made_of, live_after, made_refusal, rows_behind, place_told, made_changes, changes_from, comes_to, refused_or, in_range, IsMadeFit};
ghost use Rattle.sql_effect.specs.Conditions.{cond_truth};
ghost use Rattle.sql_effect.specs.Values.{sum_value};
ghost use Rattle.sql_effect.specs.declared.rewrite.Made.TheVariants.{Goes};

use crate::conditions::cond_truth;
use crate::insert::map_of;
use crate::keys::check_place;
use crate::shape::EffectFault;
use crate::values::{place_named, sum_value};
use log_tables::{Definition, Table};
use row_format::{
    Change, Column, Schema, check_row, copy_row, copy_values, image_len, is_same_row,
};
use sql_text::{Assign, Cond, Statement};
use sql_value::{Refusal, Row, Truth, Value};
use std::alloc::{AllocError, Global};

/// What a statement makes of a row.
#[derive(Drop)]
pub enum Made {
    Stays,
    Becomes(Row),
    Goes,
}

// Puts a value at a place of a row.
fn put_value(row: &mut Vec<Value>, place: Option<usize>, value: Value)
    ensures { row.new.items ≡ with_value place value row.old.items }
{
    if let Some(place) = place {
        if place < row.len() {
            row[place] = value;
        }
    }
}

// Makes one assignment. False where its sum goes outside BIGINT.
fn assign(columns: &[Column], set: &Assign, row: &mut Vec<Value>) -> Result<bool, AllocError>
    ensures { IfOk result (λ so. where_so so row.new.items
        ≡ option_map (λ value. with_value (position (is_called set.now.column) columns.now) value row.old.items)
        (sum_value columns.now row.old.items set.now.sum)) }
{
    match sum_value(columns, row, &set.sum)? {
        None => Ok(false),
        Some(value) => {
            put_value(row, place_named(columns, &set.column), value);
            Ok(true)
        }
    }
}

// The row with its assignments made from the left; None where a sum goes outside BIGINT.
fn assigned(
    alloc: Global,
    columns: &[Column],
    sets: &[Assign],
    row: &Row,
) -> Result<Option<Row>, AllocError>
    ensures { IfOk result (λ it. it ≡ assigned columns.now sets.now row.now) }
{
    let mut values = copy_values(alloc, row.values())?;
    let mut i = 0;
    while i < sets.len() {
        if !assign(columns, &sets[i], &mut values)? {
            return Ok(None);
        }
        i += 1;
    }
    Ok(Some(Row::new(values)))
}

// A row that stays equal is no change.
fn made_between(before: &Row, after: Row) -> Made
    ensures { result ≡ made_between before.now after }
{
    if is_same_row(before, &after) {
        Made::Stays
    } else {
        Made::Becomes(after)
    }
}

// What a row becomes, where its schema takes that.
fn checked_made(schema: &Schema, before: &Row, after: Row) -> Result<Made, Refusal>
    ensures gives { result ≡ refused_or (row_refusal schema.now after)
        (Ok (made_between before.now after)) }
    ensures fit { IfOk result (IsMadeFit schema.now) }
{
    check_row(schema, &after)?;
    Ok(made_between(before, after))
}

// What the assignments make of a row.
fn set_made(alloc: Global, schema: &Schema, sets: &[Assign], row: &Row) -> Result<Made, EffectFault>
    ensures gives { Gives result (set_made schema.now sets.now row.now) }
    ensures fit { IfOk result (IsMadeFit schema.now) }
{
    match assigned(alloc, schema.columns.as_slice(), sets, row)? {
        None => Err(EffectFault::Refused(Refusal::OutOfRange)),
        Some(after) => Ok(checked_made(schema, row, after)?),
    }
}

// What a condition says of a row. It is refused where a sum goes outside BIGINT.
fn truth_of(
    alloc: Global,
    schema: &Schema,
    cond: &Option<Cond>,
    row: &Row,
) -> Result<Truth, EffectFault>
    ensures { Gives result (in_range (cond_truth schema.now.columns cond.now row.now)) }
{
    match cond_truth(alloc, schema.columns.as_slice(), cond, row.values())? {
        None => Err(EffectFault::Refused(Refusal::OutOfRange)),
        Some(truth) => Ok(truth),
    }
}

// What an UPDATE makes of a row.
fn update_made(
    alloc: Global,
    schema: &Schema,
    sets: &[Assign],
    cond: &Option<Cond>,
    row: &Row,
) -> Result<Made, EffectFault>
    ensures gives { Gives result (chosen_made schema.now cond.now row.now
        (set_made schema.now sets.now row.now)) }
    ensures fit { IfOk result (IsMadeFit schema.now) }
{
    match truth_of(alloc, schema, cond, row)? {
        Truth::Yes => set_made(alloc, schema, sets, row),
        Truth::No | Truth::Unknown => Ok(Made::Stays),
    }
}

// What a DELETE makes of a row.
fn delete_made(
    alloc: Global,
    schema: &Schema,
    cond: &Option<Cond>,
    row: &Row,
) -> Result<Made, EffectFault>
    ensures gives { Gives result (chosen_made schema.now cond.now row.now (Ok Goes)) }
    ensures fit { IfOk result (IsMadeFit schema.now) }
{
    match truth_of(alloc, schema, cond, row)? {
        Truth::Yes => Ok(Made::Goes),
        Truth::No | Truth::Unknown => Ok(Made::Stays),
    }
}

// What a statement makes of a row.
fn made_of(alloc: Global, schema: &Schema, asks: &Statement, row: &Row) -> Result<Made, EffectFault>
    ensures gives { Gives result (made_of schema.now asks.now row.now) }
    ensures fit { IfOk result (IsMadeFit schema.now) }
{
    match asks {
        Statement::Update { sets, cond, .. } => {
            update_made(alloc, schema, sets.as_slice(), cond, row)
        }
        Statement::Delete { cond, .. } => delete_made(alloc, schema, cond, row),
        _ => Ok(Made::Stays),
    }
}

// The live bytes of an engine where a row becomes another.
fn live_after(live: u128, schema: &Schema, row: &Row, made: &Made) -> u128
    requires schema { IsSchema schema.now }
    requires row { IsRow schema.now row.now }
    requires made { IsMadeFit schema.now made.now }
    requires live { live < 2 ^ 127 }
    ensures value { result ≡ live_after live row.now made.now }
    ensures within { result ≤ live + 2000 }
{
    match made {
        Made::Stays => live,
        Made::Becomes(after) => {
            let more = live + image_len(schema, after) as u128;
            more.saturating_sub(image_len(schema, row) as u128)
        }
        Made::Goes => live.saturating_sub(image_len(schema, row) as u128),
    }
}

// Refuses a row that may not become another.
fn check_made(
    key: Option<u8>,
    done: &[Row],
    rest: &[Row],
    live: u128,
    made: &Made,
) -> Result<(), Refusal>
    ensures { result_err result ≡ made_refusal key (done.now ++ rest.now) live made.now }
{
    match made {
        Made::Becomes(after) => check_place(key, done, rest, after, live),
        Made::Stays | Made::Goes => Ok(()),
    }
}

// Adds the row to those that are done, as it is then.
fn pass_row(alloc: Global, done: &mut Vec<Row>, row: &Row, made: &Made) -> Result<(), AllocError>
    ensures { OnOk result (done.new.items ≡ rows_behind done.old.items row.now made.now) }
{
    match made {
        Made::Stays => done.push(copy_row(alloc, row)?)?,
        Made::Becomes(after) => done.push(copy_row(alloc, after)?)?,
        Made::Goes => {}
    }
    Ok(())
}

// The place that a change tells, behind so many rows.
fn place_told(key: Option<u8>, done: &[Row]) -> u32
    requires { length done.now < 2 ^ 32 }
    ensures { result ≡ place_told key done.now }
{
    match key {
        None => done.len() as u32,
        Some(_) => 0,
    }
}

// Adds the change of a row, where it is one.
fn add_change(
    alloc: Global,
    changes: &mut Vec<Change>,
    definition: &Definition,
    place: u32,
    row: &Row,
    made: Made,
) -> Result<(), AllocError>
    ensures { OnOk result (changes.new.items ≡ changes.old.items
        ++ made_changes (map_of definition.now) place row.now made) }
{
    match made {
        Made::Stays => {}
        Made::Becomes(after) => {
            let map = map_of(alloc, &definition.table, &definition.schema)?;
            let before = copy_row(alloc, row)?;
            changes.push(Change::Update {
                map,
                place,
                before,
                after,
            })?;
        }
        Made::Goes => {
            let map = map_of(alloc, &definition.table, &definition.schema)?;
            let before = copy_row(alloc, row)?;
            changes.push(Change::Delete { map, place, before })?;
        }
    }
    Ok(())
}

// How far a statement has come: the live bytes of the engine, the rows that are done, and the changes.
#[derive(Drop)]
struct Progress {
    live: u128,
    done: Vec<Row>,
    changes: Vec<Change>,
}

// Goes over one row.
fn go_over(
    alloc: Global,
    definition: &Definition,
    asks: &Statement,
    row: &Row,
    rest: &[Row],
    progress: &mut Progress,
) -> Result<(), EffectFault>
    requires table { IsMap (map_of definition.now) }
    requires row { IsRow definition.now.schema row.now }
    requires live { progress.now.live < 2 ^ 127 }
    requires done { length progress.now.done.items < 2 ^ 32 }
    ensures ok { OnOk result (comes_to (map_of definition.now) asks.now progress.new rest.now
        ≡ comes_to (map_of definition.now) asks.now progress.old (row.now ∷ rest.now)) }
    ensures err { IfErr result (λ fault. Fails fault
        (comes_to (map_of definition.now) asks.now progress.old (row.now ∷ rest.now))) }
    ensures live { OnOk result (progress.new.live ≤ progress.old.live + 2000) }
    ensures done { OnOk result
        (length progress.new.done.items ≤ length progress.old.done.items + 1) }
    ensures fit { AreFitChanges progress.old.changes.items
        → OnOk result (AreFitChanges progress.new.changes.items) }
{
    let made = made_of(alloc, &definition.schema, asks, row)?;
    let live = live_after(progress.live, &definition.schema, row, &made);
    check_made(definition.schema.key, &progress.done, rest, live, &made)?;
    let place = place_told(definition.schema.key, &progress.done);
    pass_row(alloc, &mut progress.done, row, &made)?;
    add_change(alloc, &mut progress.changes, definition, place, row, made)?;
    progress.live = live;
    Ok(())
}

/// The changes that an UPDATE or a DELETE makes, one row after the other.
pub(crate) fn rewrite(
    alloc: Global,
    live: u64,
    table: &Table,
    asks: &Statement,
) -> Result<Vec<Change>, EffectFault>
    requires { IsTable table.now }
    ensures ok { IfOk result (λ it.
        changes_from (map_of table.now.definition) asks.now live [] table.now.rows ≡ Ok it.items) }
    ensures fit { IfOk result (λ it. AreFitChanges it.items) }
    ensures err { IfErr result (λ fault. Fails fault
        (changes_from (map_of table.now.definition) asks.now live [] table.now.rows)) }
{
    let rows = table.rows.as_slice();
    let mut progress = Progress {
        live: u128::from(live),
        done: Vec::new(alloc),
        changes: Vec::new(alloc),
    };
    let mut i = 0;
    while i < rows.len() {
        let rest = &rows[i + 1..];
        go_over(
            alloc,
            &table.definition,
            asks,
            &rows[i],
            rest,
            &mut progress,
        )?;
        i += 1;
    }
    Ok(progress.changes)
}
