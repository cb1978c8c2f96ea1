//! Laws of a dictionary: functions that do nothing, each with laws for its contract.
ghost use Rattle.std.specs.Prelude.{◌≡◌, [], ℕ, List};
ghost use Rattle.std.specs.Option.{option_map};
ghost use Rattle.row_format.specs.declared.change.Change.{Change};
ghost use Rattle.row_format.specs.declared.change.Transaction.{Transaction};
ghost use Rattle.log_tables.specs.declared.table.Table.{Table};
ghost use Rattle.log_tables.specs.Tables.{table_named};
ghost use Rattle.log_tables.specs.Changes.{after_change, after_changes, tables_after, installed_changes, installed_after};
ghost use Rattle.dictionary.specs.Dictionary.{definitions_of, bare_tables, definition_named, changes_of};

/// The changes of a log, one after the other, make the tables of the log, and the installed engines. So a dictionary that was given
/// these changes has the definitions of those tables.
pub fn changes_of_a_log()
    ensures tables { (log : List Transaction)
        → after_changes (changes_of log) [] ≡ tables_after log }
    ensures installed { (log : List Transaction)
        → installed_changes (changes_of log) (installed_after []) ≡ installed_after log }
{}

/// The definition of a name is that of the table of this name.
pub fn definition_of_a_table()
    ensures { (name : List ℕ) (tables : List Table)
        → definition_named name (definitions_of tables)
        ≡ option_map (λ it. it.definition) (table_named name tables) }
{}

/// The rows of tables make no difference to the definitions after a change.
pub fn rows_make_no_difference()
    ensures { (change : Change) (tables : List Table)
        → definitions_of (after_change change tables)
        ≡ definitions_of (after_change change (bare_tables (definitions_of tables))) }
{}
