//! Laws of a count that rose: functions that do nothing, each with a law for its contract.
ghost use Rattle.std.specs.Prelude.{◌<◌, ◌≤◌, ◌^◌, ◌↔◌, ℕ};
ghost use Rattle.fault_counts.specs.Rose.{last, Rose};

/// The last value is the greatest that a `u64` has.
pub fn last_is_greatest()
    ensures { (count : ℕ) → count < 2 ^ 64 ↔ count ≤ last }
{}

/// Below the last value a count rose exactly where it is greater now.
pub fn below_last_it_is_greater()
    ensures { (before now : ℕ) → before < last → (Rose before now ↔ before < now) }
{}

/// A count that stands at the last value rose.
pub fn at_last_it_rose()
    ensures { Rose last last }
{}

/// A count that rose in one of some calls rose over all of them.
pub fn rose_over_more_calls()
    ensures { (before at then now : ℕ) → before ≤ at → Rose at then → then ≤ now
        → Rose before now }
{}
