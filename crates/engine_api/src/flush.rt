//! A call of each engine of a list.
ghost use Rattle.std.specs.Prelude.{◌≡◌, map, OnOk, IsTrue, [], All};
ghost use Rattle.disk_model.specs.File.{IsSettled};
ghost use Rattle.disk_model.specs.Disk.{Disk, now, Keeps, HasCause};
ghost use Rattle.engine_api.specs.States.{synced_state};
ghost use Rattle.engine_api.specs.Reads.{files_in};
ghost use Rattle.engine_api.specs.Calls.{IsDevice, IsSame, Turns, AnswersOnly};
ghost use Rattle.engine_api.specs.Many.{AnswersOf, AllApart, AllAtWork, AllMoments, AllSynced, AllSettled, working};

use crate::{Engine, EngineFault};
use disk_model::Storage;

// Syncs the files of one engine.
fn flush(engine: &mut Box<dyn Engine + Send>, volume: &mut dyn Storage) -> Result<(), EngineFault>
    requires holds { IsTrue (disk volume.old).told
        → holds engine.old (files_in (kind engine.old).files (disk volume.old)) }
    ensures same { IsSame (kind engine.old) (kind engine.new)
        (reading engine.old) (reading engine.new) }
    ensures turns { Turns (kind engine.old) (reading engine.old) result
        (synced_state (state engine.old)) (state engine.old) (state engine.new)
        (holds engine.new) (disk volume.old) (disk volume.new) }
    ensures settled { IsTrue (disk volume.old).told
        → OnOk result (All IsSettled (files_in (kind engine.old).files (disk volume.new))) }
    ensures answers { AnswersOnly ([]) (kind engine.old).files (disk volume.old).told result }
{
    engine.flush_logs(volume)
}

/// Syncs the files of each engine, in order.
///
/// `Device`; `Memory`.
pub fn flush_all(
    volume: &mut dyn Storage,
    engines: &mut [Box<dyn Engine + Send>],
) -> Result<(), EngineFault>
    requires apart { AllApart (map (λ e. kind e) engines.old) }
    requires at_work { IsTrue (disk volume.old).told → AllAtWork
        (map (λ e. working (kind e) (reading e) (state e) (holds e)) engines.old)
        (now (disk volume.old)) }
    ensures synced { OnOk result (AllSynced
        (map (λ e. working (kind e) (reading e) (state e) (holds e)) engines.old)
        (map (λ e. working (kind e) (reading e) (state e) (holds e)) engines.new)) }
    ensures settled { IsTrue (disk volume.old).told
        → OnOk result (AllSettled (map (λ e. kind e) engines.old) (now (disk volume.new))) }
    ensures at_work { IsTrue (disk volume.old).told → OnOk result (AllAtWork
        (map (λ e. working (kind e) (reading e) (state e) (holds e)) engines.new)
        (now (disk volume.new))) }
    ensures any_moment { IsTrue (disk volume.old).told
        → Keeps (disk volume.old) (disk volume.new) (AllMoments
        (map (λ e. working (kind e) (reading e) (state e) (holds e)) engines.old)
        (now (disk volume.old))) }
    ensures device { HasCause IsDevice result (disk volume.old) (disk volume.new) }
    ensures answers { AnswersOf (map (λ e. kind e) engines.old) (disk volume.old).told result }
{
    for engine in engines.iter_mut() {
        flush(engine, volume)?;
    }
    Ok(())
}
