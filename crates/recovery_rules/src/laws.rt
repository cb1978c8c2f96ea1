//! Laws of recovery: functions that do nothing, each with a law for its contract.
ghost use Rattle.std.specs.Prelude.{◌≡◌, ◌↔◌, ◌≤◌, ◌++◌, ◌∷◌, [], ℕ, suc, List, Some, true, length, set, slice_get, All};
ghost use Rattle.row_format.specs.declared.change.Transaction.{Transaction};
ghost use Rattle.log_tables.specs.declared.gist.Prepared.{Prepared};
ghost use Rattle.log_tables.specs.declared.gist.Gist.{Gist};
ghost use Rattle.log_tables.specs.Changes.{all_apply};
ghost use Rattle.log_tables.specs.Gists.{after_commit, after_rollback, after_prepare, empty_gist};
ghost use Rattle.recovery_rules.specs.Places.{part_at, share_at, IsDistinct, xids_of, AreDistinct, IsNew};
ghost use Rattle.recovery_rules.specs.Trails.{Trails, IsNext, NonePrepared, IsReady};
ghost use Rattle.recovery_rules.specs.Recovery.{ShelfEngine, SafeEngine, standing_for, Suits, IsRecoverable, IsRecovered, StandsAt};

/// A commit of the transaction that an engine may commit next leaves the engines recoverable: a step of recovery, and of a commit
/// once the log has the transaction.
pub fn commit_stays_recoverable()
    ensures { (shelf : List ShelfEngine) (log : List Transaction) (engines : List SafeEngine)
        (i : ℕ) (engine : SafeEngine) (place : ℕ) (it : Transaction)
        → IsRecoverable shelf log engines → StandsAt engines i engine
        → IsNext engine.engine log engine.gist place it
        → IsRecoverable shelf log (set engines i (standing_for engine
        (after_commit (share_at engine.engine log place it) (suc place) engine.gist))) }
{}

/// A rollback of what is not in the log leaves the engines recoverable.
pub fn rollback_stays_recoverable()
    ensures { (shelf : List ShelfEngine) (log : List Transaction) (engines : List SafeEngine)
        (i : ℕ) (engine : SafeEngine) (xid : ℕ)
        → IsRecoverable shelf log engines → StandsAt engines i engine → IsNew xid log
        → IsRecoverable shelf log (set engines i (standing_for engine
        (after_rollback xid engine.gist))) }
{}

/// A prepare under an xid that is not in the log leaves the engines recoverable, where the flags allow the tables that it makes.
pub fn prepare_stays_recoverable()
    ensures { (shelf : List ShelfEngine) (log : List Transaction) (engines : List SafeEngine)
        (i : ℕ) (engine : SafeEngine) (share : Prepared)
        → IsRecoverable shelf log engines → StandsAt engines i engine → IsNew share.xid log
        → Suits engine.engine engine.allows share.changes
        → IsRecoverable shelf log (set engines i (standing_for engine
        (after_prepare share engine.gist))) }
{}

/// A transaction comes to the end of the log for which each engine is ready: the engines are recoverable to the longer log.
pub fn append_stays_recoverable()
    ensures { (shelf : List ShelfEngine) (log : List Transaction) (engines : List SafeEngine)
        (it : Transaction)
        → IsRecoverable shelf log engines → IsNew it.xid log
        → All (λ x. IsReady x.engine log it x.gist) engines
        → All (λ (x : ShelfEngine). Suits x.engine x.allows it.changes) shelf
        → IsRecoverable shelf (log ++ it ∷ []) engines }
{}

/// The engines are recoverable to a shorter log that no last number passes.
pub fn cut_stays_recoverable()
    ensures { (shelf : List ShelfEngine) (log more : List Transaction) (engines : List SafeEngine)
        → IsRecoverable shelf (log ++ more) engines
        → All (λ x. x.gist.last ≤ length log) engines
        → IsRecoverable shelf log engines }
{}

/// Recoverable engines that have nothing prepared are recovered.
pub fn none_prepared_is_recovered()
    ensures { (shelf : List ShelfEngine) (log : List Transaction) (engines : List SafeEngine)
        → IsRecoverable shelf log engines → All (λ x. x.gist.prepared ≡ []) engines
        → IsRecovered shelf log engines }
{}

/// Recovered engines are recoverable: a second recovery finds what it needs.
pub fn recovered_is_recoverable()
    ensures { (shelf : List ShelfEngine) (log : List Transaction) (engines : List SafeEngine)
        → IsRecovered shelf log engines → IsRecoverable shelf log engines }
{}

/// Engines with nothing are recovered to a log with nothing.
pub fn nothing_is_recovered()
    ensures { (shelf : List ShelfEngine) (engines : List SafeEngine)
        → All (λ x. x.gist ≡ empty_gist) engines → IsRecovered shelf [] engines }
{}

/// An engine may commit next the first transaction of the log that it has prepared.
pub fn next_is_first_prepared()
    ensures { (engine : List ℕ) (log : List Transaction) (gist : Gist)
        (place : ℕ) (it : Transaction)
        → Trails engine log gist → slice_get log place ≡ Some it → gist.last ≤ place
        → NonePrepared log gist place → IsNext engine log gist place it }
{}

/// What an engine may commit next applies to its tables.
pub fn next_applies()
    ensures { (engine : List ℕ) (log : List Transaction) (gist : Gist)
        (place : ℕ) (it : Transaction)
        → Trails engine log gist → IsNext engine log gist place it
        → all_apply (part_at engine log place it) gist.tables ≡ true }
{}

/// No two places of a log have one xid exactly where no xid stands twice in the list of its xids.
pub fn distinct_xids()
    ensures { (log : List Transaction) → IsDistinct log ↔ AreDistinct (xids_of log) }
{}
