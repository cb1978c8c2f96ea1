//! The list form of changes, as engines have it in their journals: the number of items, and the items.
ghost use Rattle.std.specs.Prelude.{◌≡◌, ◌<◌, ◌+◌, ◌++◌, ◌^◌, length, IfOk, IfSome, IfNone, OnOk, OnErr};
ghost use Rattle.std.specs.Option.{option_copied};
ghost use Rattle.std.specs.List.{flat_map, list_all};
ghost use Rattle.row_format.specs.Spelling.{Adds, Begins};
ghost use Rattle.row_format.specs.Changes.{IsMap, IsFitChange, AreFitChanges};
ghost use Rattle.binlog_events.specs.Changes.{change_event, map_events, map_told};
ghost use Rattle.binlog_events.specs.Items.{item_spelling, items_of_changes, list_spelling, is_on_table, AreListed, NoList};
ghost use Rattle.row_format.specs.Reading.{Gives};
ghost use Rattle.binlog_events.specs.Walking.{Other, items_at, list_at};

use crate::spell::{MAP_KIND, add_body, kind_of, map_needed, own_map};
use crate::walk::{is_complete, keep, last_map, take_item};
use row_format::{Change, Changes, TableMap, Unread, add_map, finish, take_byte};
use std::alloc::{AllocError, Global};

// Adds the item of a table map, where there is one.
fn add_map_item(map: Option<&TableMap>, out: &mut Vec<u8>) -> Result<(), AllocError>
    requires { IfSome map (λ m. IsMap m.now) }
    ensures { Adds result out.old.items out.new.items
        (flat_map item_spelling (map_told (option_copied map.entry))) }
{
    match map {
        None => Ok(()),
        Some(map) => {
            out.push(MAP_KIND)?;
            add_map(map, out)
        }
    }
}

// Adds the item of a change itself.
fn add_change_item(change: &Change, out: &mut Vec<u8>) -> Result<(), AllocError>
    requires { IsFitChange change.now }
    ensures { Adds result out.old.items out.new.items (item_spelling (change_event change.now)) }
{
    out.push(kind_of(change))?;
    add_body(change, out)
}

// Adds the items of a change, behind a change with this table map or with none.
fn add_item(before: Option<&TableMap>, change: &Change, out: &mut Vec<u8>) -> Result<(), AllocError>
    requires { IsFitChange change.now }
    ensures { Adds result out.old.items out.new.items (flat_map item_spelling
        (map_events (option_copied before.entry) change.now) ++ item_spelling (change_event change.now)) }
{
    add_map_item(map_needed(before, change), out)?;
    add_change_item(change, out)
}

// Adds the items of changes, in order.
fn add_items(changes: &[Change], out: &mut Vec<u8>) -> Result<(), AllocError>
    requires { AreFitChanges changes.now }
    ensures { Adds result out.old.items out.new.items
        (flat_map item_spelling (items_of_changes changes.now)) }
{
    let mut before = None;
    let mut i = 0;
    while i < changes.len() {
        let change = &changes[i];
        add_item(before, change, out)?;
        before = own_map(change);
        i += 1;
    }
    Ok(())
}

// How many items a change has.
fn items_in(before: Option<&TableMap>, change: &Change) -> u32
    requires { IsFitChange change.now }
    ensures { result ≡ length (map_events (option_copied before.entry) change.now) + 1 }
{
    match map_needed(before, change) {
        None => 1,
        Some(_) => 2,
    }
}

/// How many items changes have.
pub(crate) fn count_items(changes: &[Change]) -> u32
    requires fit { AreFitChanges changes.now }
    requires few { length (items_of_changes changes.now) < 2 ^ 32 }
    ensures count { result ≡ length (items_of_changes changes.now) }
{
    let mut count = 0;
    let mut before = None;
    let mut i = 0;
    while i < changes.len() {
        let change = &changes[i];
        count += items_in(before, change);
        before = own_map(change);
        i += 1;
    }
    count
}

// Adds a number, and the items of changes.
#[tactic(auto, unfolding(frame_codec::specs::Bytes::le32))]
fn add_list(count: u32, changes: &[Change], out: &mut Vec<u8>) -> Result<(), AllocError>
    requires fit { AreFitChanges changes.now }
    requires count { count ≡ length (items_of_changes changes.now) }
    ensures adds { Adds result out.old.items out.new.items (list_spelling changes.now) }
{
    out.extend_from_slice(&count.to_le_bytes())?;
    add_items(changes, out)
}

/// Appends the list form of changes on tables, and answers its number of items. Where there is no memory, `out` holds what it held.
pub fn put_items(changes: &Changes, out: &mut Vec<u8>) -> Result<u32, AllocError>
    requires { AreListed changes.now }
    ensures ok { OnOk result (out.new.items ≡ out.old.items ++ list_spelling changes.now) }
    ensures value { IfOk result (λ n. n ≡ length (items_of_changes changes.now)) }
    ensures err { OnErr result (out.new.items ≡ out.old.items) }
{
    let count = count_items(changes.as_slice());
    let len = out.len();
    let done = add_list(count, changes.as_slice(), out);
    finish(done, len, out)?;
    Ok(count)
}

// So many items.
fn take_items(alloc: Global, count: u32, bytes: &[u8]) -> Result<(Vec<Change>, &[u8]), Unread>
    ensures { Gives (λ x. (x.0.items, x.1.now)) result (items_at count Other bytes.now) }
{
    let mut changes = Vec::new(alloc);
    let mut waiting = None;
    let mut rest = bytes;
    let mut left = count;
    while left > 0 {
        let (kind, body) = take_byte(rest)?;
        let (told, behind) = take_item(alloc, waiting, last_map(&changes), kind, body)?;
        waiting = keep(&mut changes, told)?;
        rest = behind;
        left -= 1;
    }
    if is_complete(&waiting) {
        Ok((changes, rest))
    } else {
        Err(Unread::Absent)
    }
}

// Whether a change is one on a table.
fn is_about_table(change: &Change) -> bool
    ensures { result ≡ is_on_table change.now }
{
    !matches!(change, Change::Install { .. } | Change::Uninstall { .. })
}

// Whether all changes are on tables.
fn are_about_tables(changes: &[Change]) -> bool
    ensures { result ≡ list_all is_on_table changes.now }
{
    changes.iter().all(|change| is_about_table(change))
}

// The list form of changes.
#[tactic(auto, unfolding(crate::specs::Walking::list_at, row_format::specs::Reading::piece_at))]
fn take_list(alloc: Global, bytes: &[u8]) -> Result<(Changes, &[u8]), Unread>
    ensures { Gives (λ x. (x.0, x.1.now)) result (list_at bytes.now) }
{
    let Some((count, rest)) = bytes.split_first_chunk::<4>() else {
        return Err(Unread::Absent);
    };
    let (changes, rest) = take_items(alloc, u32::from_le_bytes(*count), rest)?;
    if are_about_tables(&changes) {
        Ok((Changes::new(changes), rest))
    } else {
        Err(Unread::Absent)
    }
}

/// The changes whose list form stands at the front of the bytes, and how many bytes that has; None where none stands there.
///
/// `AllocError` for want of memory.
pub fn items_of(alloc: Global, bytes: &[u8]) -> Result<Option<(Changes, usize)>, AllocError>
    ensures found { IfOk result (λ o. IfSome o (λ f. AreListed f.0
        × Begins bytes.now (list_spelling f.0) f.1)) }
    ensures none { IfOk result (λ o. IfNone o (NoList bytes.now)) }
{
    match take_list(alloc, bytes) {
        Ok((changes, rest)) => Ok(Some((changes, bytes.len() - rest.len()))),
        Err(Unread::Absent) => Ok(None),
        Err(Unread::Memory) => Err(AllocError),
    }
}
