//! Laws of the definitions, which callers may cite: functions that do nothing, each with a law for its contract.
ghost use Rattle.std.specs.Prelude.{◌≡◌, ℕ, List};
ghost use Rattle.page_format.specs.Format.{IsPage};

/// Bytes are a page of at most one number, with at most one list of slots.
pub fn one_page()
    ensures { (bytes : List ℕ) (one other : ℕ) (slots others : List (List ℕ))
        → IsPage one bytes slots → IsPage other bytes others → (one ≡ other) × (slots ≡ others) }
{}
