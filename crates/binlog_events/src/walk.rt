//! Reading changes item by item, in a log or in a journal.
//!
//! Invariant: an item is read by what stands before it (`before_of`): the table map that was read last, which waits for its row change,
//! or the last change. So each list of changes is read from one list of items only.
ghost use Rattle.std.specs.Prelude.{◌≡◌, ◌++◌, Option, Some, None, IfOk, OnOk};
ghost use Rattle.std.specs.Option.{option_copied};
ghost use Rattle.row_format.specs.declared.change.TableMap.{TableMap};
ghost use Rattle.row_format.specs.Reading.{Gives};
ghost use Rattle.binlog_events.specs.Changes.{map_of};
ghost use Rattle.binlog_events.specs.Walking.{item_of, last_map, before_of, create_at, named_at, query_at, may_follow, query_item, map_item};
ghost use Rattle.binlog_events.specs.Walking.{is_place, place_at, insert_at, update_at, delete_at, row_change_at, map_before, row_item};
ghost use Rattle.binlog_events.specs.Walking.{item_at, may_end};
ghost use Rattle.row_format.specs.declared.change.Change.TheVariants.{Install, Uninstall, Drop};

use crate::spell::own_map;
use row_format::{Change, TableMap, Unread, take_byte, take_map, take_name, take_row, take_schema};
use std::alloc::{AllocError, Global};

/// What an item told.
#[derive(Drop)]
pub(crate) enum Told {
    /// A change.
    Made(Change),
    /// A table map, whose row change is still to come.
    Map(TableMap),
}

/// The table map of the last change, where that is a row change.
pub(crate) fn last_map(changes: &[Change]) -> Option<&TableMap>
    ensures { option_copied result ≡ last_map changes.now }
{
    own_map(changes.last()?)
}

// A Create behind its first byte.
#[tactic(auto, unfolding(crate::specs::Walking::create_at))]
fn take_create(alloc: Global, bytes: &[u8]) -> Result<(Change, &[u8]), Unread>
    ensures value { Gives (λ x. (x.0, x.1.now)) result (create_at bytes.now) }
    ensures map { IfOk result (λ x. map_of x.0 ≡ None) }
{
    let (table, rest) = take_name(alloc, bytes)?;
    let (engine, rest) = take_name(alloc, rest)?;
    let (schema, rest) = take_schema(alloc, rest)?;
    Ok((
        Change::Create {
            table,
            engine,
            schema,
        },
        rest,
    ))
}

// A Drop behind its first byte.
#[tactic(auto, unfolding(crate::specs::Walking::named_at))]
fn take_drop(alloc: Global, bytes: &[u8]) -> Result<(Change, &[u8]), Unread>
    ensures value { Gives (λ x. (x.0, x.1.now)) result (named_at Drop bytes.now) }
    ensures map { IfOk result (λ x. map_of x.0 ≡ None) }
{
    let (table, rest) = take_name(alloc, bytes)?;
    Ok((Change::Drop { table }, rest))
}

// An Install behind its first byte.
#[tactic(auto, unfolding(crate::specs::Walking::named_at))]
fn take_install(alloc: Global, bytes: &[u8]) -> Result<(Change, &[u8]), Unread>
    ensures value { Gives (λ x. (x.0, x.1.now)) result (named_at Install bytes.now) }
    ensures map { IfOk result (λ x. map_of x.0 ≡ None) }
{
    let (name, rest) = take_name(alloc, bytes)?;
    Ok((Change::Install { name }, rest))
}

// An Uninstall behind its first byte.
#[tactic(auto, unfolding(crate::specs::Walking::named_at))]
fn take_uninstall(alloc: Global, bytes: &[u8]) -> Result<(Change, &[u8]), Unread>
    ensures value { Gives (λ x. (x.0, x.1.now)) result (named_at Uninstall bytes.now) }
    ensures map { IfOk result (λ x. map_of x.0 ≡ None) }
{
    let (name, rest) = take_name(alloc, bytes)?;
    Ok((Change::Uninstall { name }, rest))
}

// The change of a QUERY.
#[tactic(auto, unfolding(crate::specs::Walking::query_at))]
fn take_query(alloc: Global, bytes: &[u8]) -> Result<(Change, &[u8]), Unread>
    ensures value { Gives (λ x. (x.0, x.1.now)) result (query_at bytes.now) }
    ensures map { IfOk result (λ x. map_of x.0 ≡ None) }
{
    let (byte, rest) = take_byte(bytes)?;
    match byte {
        2 => take_create(alloc, rest),
        3 => take_drop(alloc, rest),
        4 => take_install(alloc, rest),
        5 => take_uninstall(alloc, rest),
        _ => Err(Unread::Absent),
    }
}

// A QUERY, behind no table map.
fn take_query_item(
    alloc: Global,
    waiting: Option<TableMap>,
    bytes: &[u8],
) -> Result<(Told, &[u8]), Unread>
    ensures { (last : Option TableMap) → Gives (λ x. (item_of x.0, x.1.now)) result
        (query_item (before_of waiting last) bytes.now) }
{
    if waiting.is_some() {
        return Err(Unread::Absent);
    }
    let (change, rest) = take_query(alloc, bytes)?;
    Ok((Told::Made(change), rest))
}

// Whether a table map may stand here.
fn may_stand(waiting: &Option<TableMap>, last: Option<&TableMap>, map: &TableMap) -> bool
    ensures { result ≡ may_follow (before_of waiting.now (option_copied last.entry)) map.now }
{
    match (waiting, last) {
        (Some(_), _) => false,
        (None, Some(it)) => !it.is_same(map),
        (None, None) => true,
    }
}

// A table map.
fn take_map_item<'a>(
    alloc: Global,
    waiting: Option<TableMap>,
    last: Option<&TableMap>,
    bytes: &'a [u8],
) -> Result<(Told, &'a [u8]), Unread>
    ensures { Gives (λ x. (item_of x.0, x.1.now)) result
        (map_item (before_of waiting (option_copied last.entry)) bytes.now) }
{
    let (map, rest) = take_map(alloc, bytes)?;
    if may_stand(&waiting, last, &map) {
        Ok((Told::Map(map), rest))
    } else {
        Err(Unread::Absent)
    }
}

// Whether a place may be told in a table with this key column, or with none.
fn is_place(key: Option<u8>, place: u32) -> bool
    ensures { result ≡ is_place key place }
{
    match key {
        None => true,
        Some(_) => place == 0,
    }
}

// The place of a row in a table with this key column, or with none.
#[tactic(auto, unfolding(crate::specs::Walking::place_at, row_format::specs::Reading::piece_at))]
fn take_place(key: Option<u8>, bytes: &[u8]) -> Result<(u32, &[u8]), Unread>
    ensures { Gives (λ x. (x.0, x.1.now)) result (place_at key bytes.now) }
{
    let Some((place, rest)) = bytes.split_first_chunk::<4>() else {
        return Err(Unread::Absent);
    };
    let place = u32::from_le_bytes(*place);
    if is_place(key, place) {
        Ok((place, rest))
    } else {
        Err(Unread::Absent)
    }
}

// An Insert into the table of this map.
#[tactic(auto, unfolding(crate::specs::Walking::insert_at))]
fn take_insert(alloc: Global, map: TableMap, bytes: &[u8]) -> Result<(Change, &[u8]), Unread>
    ensures value { Gives (λ x. (x.0, x.1.now)) result (insert_at map bytes.now) }
    ensures map { IfOk result (λ x. map_of x.0 ≡ Some map) }
{
    let (row, rest) = take_row(alloc, &map.schema, bytes)?;
    Ok((Change::Insert { map, row }, rest))
}

// An Update of the table of this map.
#[tactic(auto, unfolding(crate::specs::Walking::update_at))]
fn take_update(alloc: Global, map: TableMap, bytes: &[u8]) -> Result<(Change, &[u8]), Unread>
    ensures value { Gives (λ x. (x.0, x.1.now)) result (update_at map bytes.now) }
    ensures map { IfOk result (λ x. map_of x.0 ≡ Some map) }
{
    let (place, rest) = take_place(map.schema.key, bytes)?;
    let (before, rest) = take_row(alloc, &map.schema, rest)?;
    let (after, rest) = take_row(alloc, &map.schema, rest)?;
    Ok((
        Change::Update {
            map,
            place,
            before,
            after,
        },
        rest,
    ))
}

// A Delete from the table of this map.
#[tactic(auto, unfolding(crate::specs::Walking::delete_at))]
fn take_delete(alloc: Global, map: TableMap, bytes: &[u8]) -> Result<(Change, &[u8]), Unread>
    ensures value { Gives (λ x. (x.0, x.1.now)) result (delete_at map bytes.now) }
    ensures map { IfOk result (λ x. map_of x.0 ≡ Some map) }
{
    let (place, rest) = take_place(map.schema.key, bytes)?;
    let (before, rest) = take_row(alloc, &map.schema, rest)?;
    Ok((Change::Delete { map, place, before }, rest))
}

// A row change by its type byte.
fn take_row_change(
    alloc: Global,
    map: TableMap,
    kind: u8,
    bytes: &[u8],
) -> Result<(Change, &[u8]), Unread>
    ensures value { Gives (λ x. (x.0, x.1.now)) result (row_change_at kind map bytes.now) }
    ensures map { IfOk result (λ x. map_of x.0 ≡ Some map) }
{
    match kind {
        30 => take_insert(alloc, map, bytes),
        31 => take_update(alloc, map, bytes),
        32 => take_delete(alloc, map, bytes),
        _ => Err(Unread::Absent),
    }
}

// The table map by which a row is read: the one that waits, or a copy of that of the row change before.
fn map_for_row(
    alloc: Global,
    waiting: Option<TableMap>,
    last: Option<&TableMap>,
) -> Result<TableMap, Unread>
    ensures { Gives (λ m. m) result (map_before (before_of waiting (option_copied last.entry))) }
{
    match (waiting, last) {
        (Some(map), _) => Ok(map),
        (None, Some(map)) => Ok(map.copy(alloc)?),
        (None, None) => Err(Unread::Absent),
    }
}

// A row change, behind a table map or a row change.
fn take_row_item<'a>(
    alloc: Global,
    waiting: Option<TableMap>,
    last: Option<&TableMap>,
    kind: u8,
    bytes: &'a [u8],
) -> Result<(Told, &'a [u8]), Unread>
    ensures { Gives (λ x. (item_of x.0, x.1.now)) result
        (row_item (before_of waiting (option_copied last.entry)) kind bytes.now) }
{
    let map = map_for_row(alloc, waiting, last)?;
    let (change, rest) = take_row_change(alloc, map, kind, bytes)?;
    Ok((Told::Made(change), rest))
}

/// The item with this type byte whose body stands at the front of the bytes, behind the table map that waits for its row change, or
/// else behind a change with the last table map, or with none.
#[tactic(auto, unfolding(crate::specs::Walking::item_at))]
pub(crate) fn take_item<'a>(
    alloc: Global,
    waiting: Option<TableMap>,
    last: Option<&TableMap>,
    kind: u8,
    bytes: &'a [u8],
) -> Result<(Told, &'a [u8]), Unread>
    ensures { Gives (λ x. (item_of x.0, x.1.now)) result
        (item_at (before_of waiting (option_copied last.entry)) kind bytes.now) }
{
    match kind {
        2 => take_query_item(alloc, waiting, bytes),
        19 => take_map_item(alloc, waiting, last, bytes),
        _ => take_row_item(alloc, waiting, last, kind, bytes),
    }
}

/// Whether no table map waits for its row change.
pub(crate) fn is_complete(waiting: &Option<TableMap>) -> bool
    ensures { (last : Option TableMap) → result ≡ may_end (before_of waiting.now last) }
{
    waiting.is_none()
}

/// Adds the change that an item told, or answers the table map that it told, which now waits for its row change.
pub(crate) fn keep(changes: &mut Vec<Change>, told: Told) -> Result<Option<TableMap>, AllocError>
    ensures changes { OnOk result (changes.new.items
        ≡ changes.old.items ++ (item_of told).changes) }
    ensures before { IfOk result (λ waiting.
        before_of waiting (last_map changes.new.items) ≡ (item_of told).before) }
{
    match told {
        Told::Made(change) => {
            changes.push(change)?;
            Ok(None)
        }
        Told::Map(map) => Ok(Some(map)),
    }
}
