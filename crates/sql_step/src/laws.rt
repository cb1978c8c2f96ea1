//! Laws of what a statement changes: functions that do nothing, each with a law for its contract.
ghost use Rattle.std.specs.Prelude.{◌≡◌, ◌∷◌, [], ℕ, List, Ok, true};
ghost use Rattle.row_format.specs.declared.change.Change.{Change};
ghost use Rattle.row_format.specs.declared.change.Change.TheVariants as change;
ghost use Rattle.log_tables.specs.declared.table.Table.{Table};
ghost use Rattle.sql_text.specs.declared.statement.Statement.{Statement};
ghost use Rattle.sql_effect.specs.declared.shape.Effect.{Effect};
ghost use Rattle.sql_effect.specs.declared.shape.EngineFacts.{EngineFacts};
ghost use Rattle.sql_step.specs.Catalogs.{Catalog, effect_here};
ghost use Rattle.sql_step.specs.declared.outcome.Outcome.TheVariants.{Noted};
ghost use Rattle.sql_step.specs.Steps.{ComesTo};
ghost use Rattle.sql_step.specs.Logs.{IsOf, AreOwn, AreAllowed, IsOnTables};

/// Where the catalog is that of the tables of a log, what a statement changes is on tables of the engine at hand, and each change applies
/// to the tables of the log as those before it have left them. So the log may have it next.
pub fn changes_apply()
    ensures { (tables : List Table) (catalog : Catalog) (facts : EngineFacts)
        → (asks : Statement) (it : Effect) → IsOf tables facts.name catalog
        → facts.keeps_rows ≡ true → IsOnTables asks → effect_here catalog facts asks ≡ Ok it
        → AreOwn facts.name it.changes tables }
{}

/// The flags of the engine allow each table that a statement makes in it.
pub fn tables_are_allowed()
    ensures { (catalog : Catalog) (facts : EngineFacts) (asks : Statement) (it : Effect)
        → IsOnTables asks → effect_here catalog facts asks ≡ Ok it
        → AreAllowed facts it.changes }
{}

/// What no engine has of a statement is the installation of one engine.
pub fn one_engine_is_installed()
    ensures { (catalog : Catalog) (facts : EngineFacts) (asks : Statement)
        → (changes : List Change) → ComesTo catalog facts asks (Noted changes)
        → (name : List ℕ) × (changes ≡ change.Install name ∷ []) }
{}
