//! Which row stands at a place behind tables and changes: the changes are walked back, from the last, to the one that put it there.
ghost use Rattle.std.specs.Prelude.{◌≡◌, ◌++◌, ◌∷◌, [], ◌≤◌, ◌<◌, ◌+◌, ◌^◌, length, true, IfOk, IfErr};
ghost use Rattle.std.specs.Option.{option_copied};
ghost use Rattle.sql_value.specs.declared.value.Value.TheVariants.{Null};
ghost use Rattle.log_tables.specs.declared.table.Table.{Table};
ghost use Rattle.log_tables.specs.Keys.{key_in};
ghost use Rattle.log_tables.specs.Changes.{names_table, takes};
ghost use Rattle.engine_api.specs.States.{changes_in};
ghost use Rattle.engine_api.specs.Live.{rows_found};
ghost use Rattle.live_tables.specs.Folds.{Applied};
ghost use Rattle.live_tables.specs.Places.{one_below, below, goes_at, stands_at, update_moves, found_behind, Makes, Tells, WalksBack};

use crate::back::is_of;
use crate::below::{below_by, below_through, one_below};
use crate::moves::{Moves, new_row, stood};
use crate::pending::Open;
use crate::seek::{rows_by, rows_through};
use crate::stored::Stored;
use crate::tables;
use log_tables::value_at;
use row_format::{Change, Name, Row, Value};
use std::marker::Model;

/// Tables, the changes that are done on them, and what transactions have pending behind those.
#[derive(Drop)]
pub(crate) struct Trail<'a> {
    pub(crate) tables: &'a [Stored],
    pub(crate) done: &'a [Change],
    pub(crate) opens: &'a [Open],
}

impl<'a> Model for Trail<'a> {
    ghost use Rattle.std.specs.Prelude.{◌++◌};
    ghost use Rattle.engine_api.specs.States.{changes_in};
    ghost use Rattle.live_tables.specs.Places.{Track};

    ghost Value = { Track };

    ghost view = { λ t. record {
      tables = t.tables.now;
      changes = t.done.now ++ changes_in t.opens.now;
    } };
}

impl<'a> Trail<'a> {
    /// How many rows under a name have keys below a value, behind more changes.
    pub(crate) fn below(&self, own: &[Change], name: &Name, column: usize, key: &Value) -> usize
        requires { length self.now.changes + length own.now < 2 ^ 63 }
        ensures value { Applied self.now.tables (self.now.changes ++ own.now) → result
            ≡ below column key.now (rows_found
            (found_behind name.now self.now.tables (self.now.changes ++ own.now))) }
        ensures small { result + 1 < 2 ^ 64 }
    {
        let stored = tables::below(self.tables, name, column, key) as u64;
        let done = below_through(self.done, name, column, key, stored);
        let opened = below_by(self.opens, name, column, key, done);
        below_through(own, name, column, key, opened) as usize
    }

    // How many rows there are under a name.
    fn count(&self, own: &[Change], name: &Name) -> usize
        requires { length self.now.changes + length own.now < 2 ^ 63 }
        ensures { Applied self.now.tables (self.now.changes ++ own.now) → result
            ≡ length (rows_found
            (found_behind name.now self.now.tables (self.now.changes ++ own.now))) }
    {
        let stored = tables::rows(self.tables, name) as u64;
        let done = rows_through(self.done, name, stored);
        let opened = rows_by(self.opens, name, done);
        rows_through(own, name, opened) as usize
    }

    // Where a row goes among those under a name, which have this key.
    fn goes(&self, own: &[Change], name: &Name, key: Option<u8>, row: &Row) -> usize
        requires { length self.now.changes + length own.now < 2 ^ 63 }
        ensures { Applied self.now.tables (self.now.changes ++ own.now) → result
            ≡ goes_at key row.now (rows_found
            (found_behind name.now self.now.tables (self.now.changes ++ own.now))) }
    {
        let null = Value::Null;
        match key {
            Some(column) => {
                let column = column as usize;
                self.below(own, name, column, value_at(row, column, &null))
            }
            None => self.count(own, name),
        }
    }

    // Where a row stands that a change names, among those under a name, which have this key.
    fn stands(&self, own: &[Change], name: &Name, key: Option<u8>, place: u32, row: &Row) -> usize
        requires { length self.now.changes + length own.now < 2 ^ 63 }
        ensures { Applied self.now.tables (self.now.changes ++ own.now) → result
            ≡ stands_at key place row.now (rows_found
            (found_behind name.now self.now.tables (self.now.changes ++ own.now))) }
    {
        match key {
            Some(_) => self.goes(own, name, key, row),
            None => place as usize,
        }
    }

    // Where an Update takes a row out, and where it puts one in then.
    fn update_moves(
        &self,
        own: &[Change],
        name: &Name,
        key: Option<u8>,
        place: u32,
        before: &Row,
        after: &Row,
    ) -> Moves
        requires { length self.now.changes + length own.now < 2 ^ 63 }
        ensures { Applied self.now.tables (self.now.changes ++ own.now) → result
            ≡ update_moves key place before.now after.now (rows_found
            (found_behind name.now self.now.tables (self.now.changes ++ own.now))) }
    {
        let null = Value::Null;
        let to = match key {
            Some(column) => {
                let column = column as usize;
                let low = one_below(before, column, value_at(after, column, &null)) as usize;
                self.goes(own, name, key, after).saturating_sub(low)
            }
            None => place as usize,
        };
        Moves {
            from: Some(self.stands(own, name, key, place, before)),
            to: Some(to),
        }
    }

    // Where a row change takes a row out of its table, which has this key, and where it puts one in then.
    fn moves(&self, own: &[Change], name: &Name, key: Option<u8>, change: &Change) -> Moves
        requires { length self.now.changes + length own.now < 2 ^ 63 }
        ensures { (t : Table) → Applied self.now.tables (self.now.changes ++ own.now)
            → found_behind name.now self.now.tables (self.now.changes ++ own.now) ≡ Some t
            → t.definition.schema.key ≡ key → takes change.now (Some t) ≡ true
            → Makes result change.now t }
    {
        match change {
            Change::Insert { row, .. } => Moves {
                from: None,
                to: Some(self.goes(own, name, key, row)),
            },
            Change::Update {
                place,
                before,
                after,
                ..
            } => self.update_moves(own, name, key, *place, before, after),
            Change::Delete { place, before, .. } => Moves {
                from: Some(self.stands(own, name, key, *place, before)),
                to: None,
            },
            _ => Moves {
                from: None,
                to: None,
            },
        }
    }

    // What the last of some changes made of the row at a place: Ok with the row that it put there, or with none, else where the row stood
    // before.
    fn step_back<'c>(
        &self,
        own: &[Change],
        change: &'c Change,
        name: &Name,
        key: Option<u8>,
        place: usize,
    ) -> Result<Option<&'c Row>, usize>
        requires few { length self.now.changes + length own.now < 2 ^ 63 }
        requires small { place + 1 < 2 ^ 64 }
        ensures told { IfOk result (λ r. Tells name.now self.now.tables
            (self.now.changes ++ own.now ++ change.now ∷ []) key place (option_copied r)) }
        ensures stood { IfErr result (λ p. WalksBack name.now self.now.tables
            (self.now.changes ++ own.now ++ change.now ∷ []) (self.now.changes ++ own.now)
            key place p) }
        ensures within { IfErr result (λ p. p ≤ place + 1) }
    {
        if !is_of(change, name) {
            return Err(place);
        }
        match change {
            Change::Create { .. } => Ok(None),
            Change::Drop { .. } => Ok(None),
            Change::Install { .. } | Change::Uninstall { .. } => Err(place),
            _ => stood(self.moves(own, name, key, change), new_row(change), place),
        }
    }

    /// What more changes made of the row at a place: Ok with the row that they put there, or with none, else where the row stood before.
    pub(crate) fn walk_back<'c>(
        &self,
        own: &'c [Change],
        name: &Name,
        key: Option<u8>,
        place: usize,
    ) -> Result<Option<&'c Row>, usize>
        requires few { length self.now.changes + length own.now < 2 ^ 63 }
        requires small { place + length own.now + 1 < 2 ^ 64 }
        ensures told { IfOk result (λ r. Tells name.now self.now.tables
            (self.now.changes ++ own.now) key place (option_copied r)) }
        ensures stood { IfErr result (λ p. WalksBack name.now self.now.tables
            (self.now.changes ++ own.now) self.now.changes key place p) }
        ensures within { IfErr result (λ p. p ≤ place + length own.now) }
    {
        let mut spot = place;
        let mut i = own.len();
        while i > 0 {
            i -= 1;
            match self.step_back(&own[..i], &own[i], name, key, spot) {
                Ok(found) => return Ok(found),
                Err(before) => spot = before,
            }
        }
        Err(spot)
    }
}

/// What pending changes made of the row at a place: Ok with the row that they put there, or with none, else where the row stood before.
pub(crate) fn walk_opens<'a>(
    tables: &[Stored],
    done: &[Change],
    opens: &'a [Open],
    name: &Name,
    key: Option<u8>,
    place: usize,
) -> Result<Option<&'a Row>, usize>
    requires few { length done.now + length (changes_in opens.now) < 2 ^ 63 }
    requires small { place + length (changes_in opens.now) + 1 < 2 ^ 64 }
    ensures told { IfOk result (λ r. Tells name.now tables.now
        (done.now ++ changes_in opens.now) key place (option_copied r)) }
    ensures stood { IfErr result (λ p. WalksBack name.now tables.now
        (done.now ++ changes_in opens.now) done.now key place p) }
    ensures within { IfErr result (λ p. p ≤ place + length (changes_in opens.now)) }
{
    let mut spot = place;
    let mut i = opens.len();
    while i > 0 {
        i -= 1;
        let trail = Trail {
            tables,
            done,
            opens: &opens[..i],
        };
        match trail.walk_back(opens[i].changes(), name, key, spot) {
            Ok(found) => return Ok(found),
            Err(before) => spot = before,
        }
    }
    Err(spot)
}
