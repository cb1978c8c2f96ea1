//! Laws of conditions, of an INSERT row by row, of texts, and of the tables of a log: functions that do nothing, each with a law for its
//! contract.
ghost use Rattle.std.specs.Prelude.{◌≡◌, ◌+◌, ◌++◌, ◌∷◌, [], ℕ, List, All, length, Some, None, true, unwrap_or, Result};
ghost use Rattle.log_tables.specs.declared.table.Table.{Table};
ghost use Rattle.log_tables.specs.Changes.{after_changes, tables_after};
ghost use Rattle.log_tables.specs.Keys.{inserted};
ghost use Rattle.row_format.specs.declared.change.Change.{Change};
ghost use Rattle.row_format.specs.declared.change.Transaction.{Transaction};
ghost use Rattle.row_format.specs.Changes.{AreFitChanges};
ghost use Rattle.row_format.specs.declared.schema.Schema.{Schema};
ghost use Rattle.sql_value.specs.declared.refusal.Refusal.{Refusal};
ghost use Rattle.sql_effect.specs.declared.shape.Effect.{Effect};
ghost use Rattle.sql_effect.specs.declared.shape.EngineFacts.{EngineFacts};
ghost use Rattle.sql_effect.specs.declared.shape.Sizes.{Sizes};
ghost use Rattle.sql_effect.specs.declared.shape.View.{View};
ghost use Rattle.sql_effect.specs.Texts.{IsEffect};
ghost use Rattle.sql_effect.specs.Insert.{insert_refusal, inserts_refusal};
ghost use Rattle.sql_effect.specs.Logs.{IsSound};
ghost use Rattle.sql_effect.specs.Sizes.{row_bytes};
ghost use Rattle.sql_effect.specs.Conditions.{all_steps, all_of, one_of, Says, EachSays, cond_truth};
ghost use Rattle.sql_value.specs.Truth.{truth_not};
ghost use Rattle.sql_value.specs.declared.truth.Truth.{Truth};
ghost use Rattle.sql_value.specs.declared.value.Value.{Value};
ghost use Rattle.row_format.specs.declared.schema.Column.{Column};
ghost use Rattle.sql_text.specs.declared.statement.Step.{Step};
ghost use Rattle.sql_text.specs.declared.statement.Step.TheVariants as step;

/// NOT turns round what the condition before it says.
pub fn truth_of_not()
    ensures { (columns : List Column) (row : List Value) (steps : List Step) (truth : Truth)
        → Says columns row steps truth
        → Says columns row (steps ++ step.Not ∷ []) (truth_not truth) }
{}

/// AND says of its members whether all of them hold.
pub fn truth_of_and()
    ensures { (columns : List Column) (row : List Value)
        → (members : List (List Step)) (truths : List Truth)
        → EachSays columns row members truths
        → Says columns row (all_steps members ++ step.And (length members) ∷ []) (all_of truths) }
{}

/// OR says of its members whether one of them holds.
pub fn truth_of_or()
    ensures { (columns : List Column) (row : List Value)
        → (members : List (List Step)) (truths : List Truth)
        → EachSays columns row members truths
        → Says columns row (all_steps members ++ step.Or (length members) ∷ []) (one_of truths) }
{}

/// A condition says what its steps say.
pub fn truth_of_steps()
    ensures { (columns : List Column) (row : List Value) (steps : List Step) (truth : Truth)
        → Says columns row steps truth
        → cond_truth columns (Some (record { steps = steps })) row ≡ Some truth }
{}

/// An INSERT of several rows adds the first of them in the order of the table, and goes on with the others, unless the first is refused.
pub fn insert_goes_on()
    ensures { (schema : Schema) (live : ℕ) (rows : List (List Value))
        → (it : List Value) (rest : List (List Value))
        → insert_refusal true schema live rows it ≡ None
        → inserts_refusal true schema live rows (it ∷ rest) ≡ inserts_refusal true schema
        (live + row_bytes it) (unwrap_or (inserted schema.key it rows) rows) rest }
{}

/// A text has one effect on a view.
pub fn one_effect()
    ensures { (shelf : List EngineFacts) (view : View) (sizes : Sizes) (text : List ℕ)
        → (a b : Result Effect Refusal)
        → IsEffect shelf view sizes text a → IsEffect shelf view sizes text b → a ≡ b }
{}

/// The tables of a log are sound, where each of its changes fits.
pub fn sound_of_log()
    ensures { (log : List Transaction) → All (λ (it : Transaction). AreFitChanges it.changes) log
        → All IsSound (tables_after log) }
{}

/// Sound tables stay sound over changes that fit.
pub fn sound_after_changes()
    ensures { (changes : List Change) (tables : List Table) → AreFitChanges changes
        → All IsSound tables → All IsSound (after_changes changes tables) }
{}
