//! Laws of the definitions, which callers may cite: functions that do nothing, each with a law for its contract.
//!
//! Each thing has one spelling, and no spelling is a proper first part of another: so what was written is read again, whatever
//! follows it.
ghost use Rattle.std.specs.Prelude.{◌≡◌, ℕ, List, ◌++◌};
ghost use Rattle.frame_codec.specs.Frame.{Event};
ghost use Rattle.row_format.specs.declared.change.Change.{Change};
ghost use Rattle.row_format.specs.declared.change.Transaction.{Transaction as Logged};
ghost use Rattle.binlog_events.specs.Items.{list_spelling, AreListed};
ghost use Rattle.binlog_events.specs.Transaction.{events_of, IsFit};

/// Bytes begin with the list form of one list of changes at most.
#[tactic(auto, using(crate::proofs::LawLemmas::one_list))]
pub fn one_list()
    ensures { (c d : List Change) (x y : List ℕ) → AreListed c → AreListed d
        → list_spelling c ++ x ≡ list_spelling d ++ y → (c ≡ d) × (x ≡ y) }
{}

/// Events begin with those of one transaction at most.
#[tactic(auto, using(crate::proofs::TransactionLemmas::one_transaction))]
pub fn one_transaction()
    ensures { (t u : Logged) (x y : List Event) → IsFit t → IsFit u
        → events_of t ++ x ≡ events_of u ++ y → (t ≡ u) × (x ≡ y) }
{}
