//! Laws of the definitions, which callers may cite: functions that do nothing, each with a law for its contract.
//!
//! Each thing has one spelling, and no spelling is a proper first part of another: so what was written is read again, whatever
//! follows it.
ghost use Rattle.std.specs.Prelude.{◌≡◌, ℕ, List, ◌++◌};
ghost use Rattle.sql_value.specs.declared.value.Value.{Value as Cell};
ghost use Rattle.row_format.specs.declared.schema.Schema.{Schema};
ghost use Rattle.row_format.specs.Schemas.{IsSchema};
ghost use Rattle.row_format.specs.Rows.{IsRow};
ghost use Rattle.row_format.specs.Spelling.{counted, schema_spelling, row_image};

/// Bytes begin with one name at most, or with one text of a row.
#[tactic(auto, using(crate::proofs::LawLemmas::one_name))]
pub fn one_name()
    ensures { (m n x y : List ℕ) → counted m ++ x ≡ counted n ++ y → (m ≡ n) × (x ≡ y) }
{}

/// Bytes begin with one schema at most.
#[tactic(auto, using(crate::proofs::LawLemmas::one_schema))]
pub fn one_schema()
    ensures { (s t : Schema) (x y : List ℕ) → IsSchema s → IsSchema t
        → schema_spelling s ++ x ≡ schema_spelling t ++ y → (s ≡ t) × (x ≡ y) }
{}

/// Bytes begin with the image of one row of a table at most.
#[tactic(auto, using(crate::proofs::LawLemmas::one_row))]
pub fn one_row()
    ensures { (schema : Schema) (r s : List Cell) (x y : List ℕ) → IsSchema schema
        → IsRow schema r → IsRow schema s → row_image r ++ x ≡ row_image s ++ y → (r ≡ s) × (x ≡ y) }
{}
