//! Laws of the definitions, which callers may cite: functions that do nothing, each with a law for its contract.
ghost use Rattle.std.specs.Prelude.{◌≡◌, ℕ, List, Option};
ghost use Rattle.redo_journal.specs.Journals.{Stands};
ghost use Rattle.redo_journal.specs.declared.record.Record.{Record as Entry};

/// Two files stand for one list of records at most.
pub fn one_journal()
    ensures { (wanted : Option ℕ) (first second : List ℕ) (one other : List Entry)
        → Stands wanted first second one → Stands wanted first second other → one ≡ other }
{}
