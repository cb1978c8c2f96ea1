//! The calls of an engine that a recovery makes, each as the engine says it.
ghost use Rattle.std.specs.Prelude.{◌≡◌, ◌∷◌, [], map, OnOk, IfOk, IsTrue, Err, ℕ, Contains};
ghost use Rattle.disk_model.specs.Disk.{Disk, now, Keeps, HasCause};
ghost use Rattle.log_tables.specs.declared.gist.Gist.{Gist};
ghost use Rattle.engine_api.specs.States.{begun_state, resolved_state, dropped_state};
ghost use Rattle.engine_api.specs.Live.{IsLeft};
ghost use Rattle.engine_api.specs.Reads.{EachReads, EachReadsAs, files_in, bytes_in, OnlyIn};
ghost use Rattle.engine_api.specs.Calls.{IsDevice, IsSame, Turns, AnswersOnly};
ghost use Rattle.xid_recovery.specs.Running.{StandForOne};
ghost use Rattle.engine_api.specs.declared.fault.Code.{Code};
ghost use Rattle.engine_api.specs.declared.fault.EngineFault.TheVariants.{Code as code, NotAVolume};

use disk_model::Storage;
use engine_api::{Engine, EngineFault};

// Begins a crash-safe engine anew from its files.
pub(crate) fn begin(
    engine: &mut Box<dyn Engine + Send>,
    volume: &mut dyn Storage,
) -> Result<(), EngineFault>
    requires crash_safe { IsTrue (kind engine.old).flags.crash_safe }
    ensures same { IsSame (kind engine.old) (kind engine.new)
        (reading engine.old) (reading engine.new) }
    ensures begun { OnOk result ((gist : Gist) × (state engine.new ≡ begun_state gist)) }
    ensures gist { IsTrue (disk volume.old).told → OnOk result ((reading engine.old).stands
        (bytes_in (kind engine.old).files (disk volume.old)) (state engine.new).gist) }
    ensures files { IsTrue (disk volume.old).told → OnOk result
        (holds engine.new (files_in (kind engine.old).files (disk volume.new))
        × EachReads (reading engine.old) ((state engine.new).gist ∷ [])
        (files_in (kind engine.old).files (disk volume.new))) }
    ensures any_moment { IsTrue (disk volume.old).told
        → Keeps (disk volume.old) (disk volume.new)
        (OnlyIn (kind engine.old).files (now (disk volume.old))
        (EachReadsAs (reading engine.old) (files_in (kind engine.old).files (disk volume.old)))) }
    ensures one_gist { StandForOne (reading engine.old) }
    ensures not_a_volume { (file : ℕ) → result ≡ Err (NotAVolume file)
        → Contains (kind engine.old).files file
        × (IsTrue (disk volume.old).told → (gist : Gist) → (reading engine.old).stands
        (bytes_in (kind engine.old).files (disk volume.old)) gist → ⊥) }
    ensures no_code { (it : Code) → result ≡ Err (code it) → ⊥ }
    ensures device { HasCause IsDevice result (disk volume.old) (disk volume.new) }
{
    engine.init(volume, &[])
}

// The xids that the engine has prepared.
pub(crate) fn prepared(
    engine: &mut Box<dyn Engine + Send>,
    volume: &mut dyn Storage,
) -> Result<Vec<u64>, EngineFault>
    requires holds { IsTrue (disk volume.old).told
        → holds engine.old (files_in (kind engine.old).files (disk volume.old)) }
    ensures same { IsSame (kind engine.old) (kind engine.new)
        (reading engine.old) (reading engine.new) }
    ensures turns { Turns (kind engine.old) (reading engine.old) result (state engine.old)
        (state engine.old) (state engine.new) (holds engine.new)
        (disk volume.old) (disk volume.new) }
    ensures xids { IfOk result
        (λ found. found.items ≡ map (λ it. it.xid) (state engine.old).gist.prepared) }
    ensures answers { AnswersOnly ([]) (kind engine.old).files (disk volume.old).told result }
{
    engine.recover(volume)
}

// Commits what it has prepared under this xid, as this number.
pub(crate) fn commit(
    engine: &mut Box<dyn Engine + Send>,
    volume: &mut dyn Storage,
    xid: u64,
    number: u64,
) -> Result<(), EngineFault>
    requires left { IsLeft xid (state engine.old) }
    requires holds { IsTrue (disk volume.old).told
        → holds engine.old (files_in (kind engine.old).files (disk volume.old)) }
    ensures same { IsSame (kind engine.old) (kind engine.new)
        (reading engine.old) (reading engine.new) }
    ensures turns { Turns (kind engine.old) (reading engine.old) result
        (resolved_state xid number (state engine.old))
        (state engine.old) (state engine.new) (holds engine.new)
        (disk volume.old) (disk volume.new) }
    ensures answers { AnswersOnly ([]) (kind engine.old).files (disk volume.old).told result }
{
    engine.commit_by_xid(volume, xid, number)
}

// Rolls back what it has prepared under this xid.
pub(crate) fn roll_back(
    engine: &mut Box<dyn Engine + Send>,
    volume: &mut dyn Storage,
    xid: u64,
) -> Result<(), EngineFault>
    requires left { IsLeft xid (state engine.old) }
    requires holds { IsTrue (disk volume.old).told
        → holds engine.old (files_in (kind engine.old).files (disk volume.old)) }
    ensures same { IsSame (kind engine.old) (kind engine.new)
        (reading engine.old) (reading engine.new) }
    ensures turns { Turns (kind engine.old) (reading engine.old) result
        (dropped_state xid (state engine.old))
        (state engine.old) (state engine.new) (holds engine.new)
        (disk volume.old) (disk volume.new) }
    ensures answers { AnswersOnly ([]) (kind engine.old).files (disk volume.old).told result }
{
    engine.rollback_by_xid(volume, xid)
}
