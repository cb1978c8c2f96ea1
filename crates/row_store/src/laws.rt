//! Laws of row changes: functions that do nothing, each with a law for its contract.
ghost use Rattle.std.specs.Prelude.{◌≡◌, ℕ, List, Option, Some, IsTrue, is_some};
ghost use Rattle.sql_value.specs.declared.value.Value.{Value};
ghost use Rattle.row_format.specs.declared.change.Change.{Change};
ghost use Rattle.log_tables.specs.declared.table.Table.{Table};
ghost use Rattle.log_tables.specs.Changes.{rows_after};
ghost use Rattle.log_tables.specs.Keys.{IsOrdered};
ghost use Rattle.row_store.specs.Changes.{changed_rows, made_rows, undone_rows, rows_before};

/// What a change makes of a table in the log, it makes of the rows of that table.
pub fn made_as_logged()
    ensures { (change : Change) (table : Table) (rows : List (List Value))
        → rows_after change table ≡ Some rows
        → changed_rows table.definition.schema.key change table.rows ≡ Some rows }
{}

/// After a change that applied, it may be undone, and the rows before it are those that there were.
pub fn made_and_undone()
    ensures applies { (key : Option ℕ) (change : Change) (rows : List (List Value))
        → IsOrdered key rows → IsTrue (is_some (changed_rows key change rows))
        → IsTrue (is_some (undone_rows key change (made_rows key change rows))) }
    ensures before { (key : Option ℕ) (change : Change) (rows : List (List Value))
        → IsOrdered key rows → IsTrue (is_some (changed_rows key change rows))
        → rows_before key change (made_rows key change rows) ≡ rows }
{}
