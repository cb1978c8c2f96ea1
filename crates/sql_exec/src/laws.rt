//! Laws of plans, of an idle engine, and of a view: functions that do nothing, each with a law for its contract.
ghost use Rattle.std.specs.Prelude.{◌≡◌, ℕ, List, Some, None, Option, Err, IsTrue};
ghost use Rattle.sql_value.specs.declared.refusal.Refusal.{Refusal};
ghost use Rattle.sql_value.specs.declared.value.Value.{Value};
ghost use Rattle.row_format.specs.declared.schema.Schema.{Schema};
ghost use Rattle.row_format.specs.Schemas.{IsSchema};
ghost use Rattle.log_tables.specs.declared.table.Definition.{Definition};
ghost use Rattle.log_tables.specs.Keys.{IsOrdered};
ghost use Rattle.engine_api.specs.Live.{row_at, is_key_of};
ghost use Rattle.engine_api.specs.States.{Kind, EngineState};
ghost use Rattle.sql_text.specs.declared.statement.Cond.{Cond};
ghost use Rattle.sql_text.specs.declared.statement.Statement.{Statement};
ghost use Rattle.sql_plan.specs.Plans.{by_cond, key_of_schema, plan_refusal, IsPlan};
ghost use Rattle.sql_plan.specs.Types.{cond_refusal};
ghost use Rattle.sql_plan.specs.declared.shape.Path.TheVariants as path;
ghost use Rattle.sql_plan.specs.declared.shape.Plan.{Plan};
ghost use Rattle.sql_effect.specs.declared.shape.EngineFacts.{EngineFacts};
ghost use Rattle.sql_effect.specs.declared.shape.Sizes.{Sizes};
ghost use Rattle.sql_effect.specs.declared.shape.View.{View};
ghost use Rattle.sql_effect.specs.Effects.{effect_of};
ghost use Rattle.sql_effect.specs.Select.{chosen, search_refusal};
ghost use Rattle.sql_exec.specs.Executes.{plan_effect, sizes_on, CanExecute};
ghost use Rattle.sql_exec.specs.Found.{listed};
ghost use Rattle.sql_exec.specs.Plannings.{IsIdle, SuitsEngine, IsAtHand, SuitsView};

/// Where the path of a condition is by a key, the condition chooses the row with that key, if there is one, and nothing else; and no sum
/// of it goes outside BIGINT. So a search by key finds what a scan finds.
pub fn chosen_by_key()
    ensures rows { (schema : Schema) (where_is : Option Cond) (key : Value)
        → (rows : List (List Value)) → IsSchema schema → IsOrdered schema.key rows
        → by_cond (key_of_schema schema) where_is ≡ path.Key key
        → chosen schema.columns where_is rows ≡ listed (row_at schema.key rows key) }
    ensures granted { (schema : Schema) (where_is : Option Cond) (key : Value)
        → (rows : List (List Value)) → IsSchema schema → IsOrdered schema.key rows
        → by_cond (key_of_schema schema) where_is ≡ path.Key key
        → search_refusal schema.columns where_is rows ≡ None }
{}

/// Where the path of a condition is by a key, and planning did not refuse the condition, that key can be one of the table: an engine may be
/// asked for it.
pub fn key_of_plan_fits()
    ensures { (schema : Schema) (where_is : Option Cond) (key : Value) → IsSchema schema
        → by_cond (key_of_schema schema) where_is ≡ path.Key key
        → cond_refusal schema.columns where_is ≡ None → IsTrue (is_key_of schema key) }
{}

/// An idle engine can carry out what was planned for its tables, in any transaction.
pub fn idle_can_execute()
    ensures { (asks : Statement) (definition : Option Definition) (plan : Plan) (kind : Kind)
        → (state : EngineState) (txn : ℕ) → IsIdle state
        → IsPlan asks definition kind.flags plan
        → SuitsEngine asks definition plan.schema state → CanExecute txn plan kind state }
{}

/// What a statement does to an engine by its plan is what it does to a view that shows its table as the engine has it.
pub fn same_effect_on_view()
    ensures { (shelf : List EngineFacts) (view : View) (asks : Statement)
        → (definition : Option Definition) (plan : Plan) (kind : Kind) (state : EngineState)
        → (open_bytes : ℕ) → IsAtHand shelf view kind
        → IsPlan asks definition kind.flags plan → SuitsView asks definition view kind state
        → effect_of shelf view (sizes_on open_bytes state) asks
        ≡ plan_effect open_bytes plan kind state }
{}

/// A statement that planning refuses is refused so on such a view.
pub fn same_refusal_on_view()
    ensures { (shelf : List EngineFacts) (view : View) (sizes : Sizes) (asks : Statement)
        → (definition : Option Definition) (kind : Kind) (state : EngineState) (it : Refusal)
        → IsAtHand shelf view kind → SuitsView asks definition view kind state
        → plan_refusal asks definition kind.flags ≡ Some it
        → effect_of shelf view sizes asks ≡ Err it }
{}
