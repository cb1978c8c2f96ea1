//! Laws of the fold: functions that do nothing, each with a law for its contract.
ghost use Rattle.std.specs.Prelude.{◌≡◌, ◌++◌, ◌∷◌, [], ℕ, List, false};
ghost use Rattle.row_format.specs.declared.change.Change.{Change};
ghost use Rattle.row_format.specs.declared.change.Transaction.{Transaction};
ghost use Rattle.log_tables.specs.Tables.{Table, part_of, IsDictionary};
ghost use Rattle.log_tables.specs.Changes.{after_change, after_changes, changes_on, EachApplies, is_on, tables_after, installed_changes, installed_after};

/// One more transaction makes its changes on the tables of the log before it.
pub fn log_goes_on()
    ensures { (log : List Transaction) (it : Transaction)
        → tables_after (log ++ it ∷ []) ≡ after_changes it.changes (tables_after log) }
{}

/// One more transaction makes its changes on the installed engines of the log before it.
pub fn installed_goes_on()
    ensures { (log : List Transaction) (it : Transaction)
        → installed_after (log ++ it ∷ []) ≡ installed_changes it.changes (installed_after log) }
{}

/// No name stands twice in the tables of a log.
pub fn no_name_twice()
    ensures { (log : List Transaction) → IsDictionary (tables_after log) }
{}

/// A change that is not on a table of an engine leaves the engine's part.
pub fn other_parts_stay()
    ensures { (engine : List ℕ) (change : Change) (tables : List Table)
        → is_on engine change tables ≡ false
        → part_of engine (after_change change tables) ≡ part_of engine tables }
{}

/// An engine's part after changes is what those on the engine make of its part before, where they apply.
pub fn part_goes_on()
    ensures { (engine : List ℕ) (changes : List Change) (tables : List Table)
        → EachApplies engine changes tables
        → part_of engine (after_changes changes tables)
        ≡ after_changes (changes_on engine changes tables) (part_of engine tables) }
{}
