//! Laws of crash images of the log's file and of one engine's files: functions that do nothing, each with a law for its contract.
ghost use Rattle.std.specs.Prelude.{ℕ, List, ◌∷◌, []};
ghost use Rattle.disk_model.specs.File.{File};
ghost use Rattle.row_format.specs.declared.change.Transaction.{Transaction};
ghost use Rattle.log_tables.specs.declared.gist.Gist.{Gist};
ghost use Rattle.recovery_rules.specs.Recovery.{ShelfEngine};
ghost use Rattle.volume_rules.specs.Images.{EachRecoverable, EachRecovered};
ghost use Rattle.volume_rules.specs.Steps.{Stands, Rests};

use engine_api::Engine;

/// Where a transaction is on its way, each faithful crash image is recoverable.
pub fn each_is_recoverable(engine: &dyn Engine)
    ensures { (shelf : List ShelfEngine) (low high : List Transaction) (kept : List Gist)
        (files : ℕ → File)
        → Stands shelf (record { kind = kind engine.now; reading = reading engine.now } ∷ [])
        low high (kept ∷ []) files
        → EachRecoverable shelf
        (record { kind = kind engine.now; reading = reading engine.now } ∷ []) files }
{}

/// Where none is, each faithful crash image is recovered.
pub fn each_is_recovered(engine: &dyn Engine)
    ensures { (shelf : List ShelfEngine) (log : List Transaction) (gist : Gist)
        (files : ℕ → File)
        → Rests shelf (record { kind = kind engine.now; reading = reading engine.now } ∷ [])
        log (gist ∷ []) files
        → EachRecovered shelf
        (record { kind = kind engine.now; reading = reading engine.now } ∷ []) log files }
{}
