//! One engine is brought to what the log says.
ghost use Rattle.std.specs.Prelude.{◌≡◌, ◌≤◌, [], All, ℕ, List, Option, length, Err, OnOk, IfOk, IsTrue, nat_lt};
ghost use Rattle.disk_model.specs.Disk.{Disk, now, Keeps, HasCause};
ghost use Rattle.row_format.specs.declared.change.Transaction.{Transaction};
ghost use Rattle.recovery_rules.specs.Places.{IsDistinct};
ghost use Rattle.engine_api.specs.Calls.{IsDevice, IsSame, AnswersOnly};
ghost use Rattle.engine_api.specs.Reads.{OnlyIn};
ghost use Rattle.engine_api.specs.Many.{working};
ghost use Rattle.xid_recovery.specs.Pairs.{ArePairsOf};
ghost use Rattle.xid_recovery.specs.Recovers.{IsDeviceFault, IsRecoverableIn, IsIdle, IsBrought, Recovers, Reports, IsReport, TellsOnly};
ghost use Rattle.xid_recovery.specs.Running.{Fits, Aims, LastWithin, Ran, Tells};
ghost use Rattle.engine_api.specs.declared.fault.EngineFault.{EngineFault};
ghost use Rattle.engine_api.specs.declared.fault.EngineFault.TheVariants.{Memory as NoMemory};

use crate::calls::{begin, prepared};
use crate::report::{EngineReport, OpenFault, open_fault};
use crate::settle::{commit_logged, roll_back_rest, xid_set};
use disk_model::Storage;
use engine_api::{Engine, EngineFault};
use std::alloc::Global;

// The report on an engine of which so many xids were committed and rolled back.
fn report_on(
    engine: &Box<dyn Engine + Send>,
    committed: u64,
    rolled_back: u64,
) -> Result<EngineReport, EngineFault>
    ensures name { IfOk result (λ r. r.name ≡ (kind engine.now).name) }
    ensures last { IfOk result (λ r. r.last ≡ (state engine.now).gist.last) }
    ensures committed { IfOk result (λ r. r.committed ≡ committed) }
    ensures rolled_back { IfOk result (λ r. r.rolled_back ≡ rolled_back) }
    ensures memory { (fault : EngineFault) → result ≡ Err fault → fault ≡ NoMemory }
{
    let name = engine.name().copy()?;
    Ok(EngineReport {
        name,
        last: engine.last_number(),
        committed,
        rolled_back,
    })
}

// Commits what the engine has prepared of the pairs, and rolls back the rest.
fn bring(
    alloc: Global,
    volume: &mut dyn Storage,
    engine: &mut Box<dyn Engine + Send>,
    xids: &[(u64, u64)],
) -> Result<EngineReport, EngineFault>
    requires idle { IsIdle
        (working (kind engine.old) (reading engine.old) (state engine.old) (holds engine.old))
        (disk volume.old) }
    ensures ran { (aim : Option (List Transaction)) → Fits aim xids.now
        → Aims (kind engine.old) aim (state engine.old).gist
        → Ran
        (working (kind engine.old) (reading engine.old) (state engine.old) (holds engine.old))
        (working (kind engine.new) (reading engine.new) (state engine.new) (holds engine.new))
        aim (disk volume.old) (disk volume.new) }
    ensures aims { (aim : Option (List Transaction)) → Fits aim xids.now
        → Aims (kind engine.old) aim (state engine.old).gist
        → OnOk result (Aims (kind engine.old) aim (state engine.new).gist) }
    ensures last { OnOk result
        (LastWithin xids.now (state engine.old).gist (state engine.new).gist) }
    ensures brought { OnOk result (IsBrought
        (working (kind engine.new) (reading engine.new) (state engine.new) (holds engine.new))
        (disk volume.new)) }
    ensures report { IfOk result (Reports (kind engine.old).name (state engine.old).gist
        (state engine.new).gist.last xids.now) }
    ensures device { HasCause IsDevice result (disk volume.old) (disk volume.new) }
    ensures answers { AnswersOnly ([]) (kind engine.old).files (disk volume.old).told result }
{
    let found = prepared(engine, volume)?;
    let mut left = xid_set(alloc, found.as_slice())?;
    let all = left.len() as u64;
    commit_logged(engine, volume, &mut left, xids)?;
    let rolled_back = left.len() as u64;
    roll_back_rest(engine, volume, &mut left)?;
    let told = report_on(engine, all - rolled_back, rolled_back)?;
    Ok(told)
}

// Whether the engine's last number exceeds the log's.
fn is_ahead(engine: &Box<dyn Engine + Send>, logged: u64) -> bool
    ensures { result ≡ nat_lt logged (state engine.now).gist.last }
{
    engine.last_number() > logged
}

// That the engine's last number exceeds the log's; or there is no memory to tell its name.
fn ahead(engine: &Box<dyn Engine + Send>, logged: u64) -> OpenFault
    ensures { Tells (kind engine.now).name (state engine.now).gist.last logged result }
{
    match engine.name().copy() {
        Ok(name) => OpenFault::Ahead {
            engine: name,
            engine_last: engine.last_number(),
            log_last: logged,
        },
        Err(_) => OpenFault::Memory,
    }
}

/// Begins a crash-safe engine from its files, commits what it has prepared of the log, in the log's order, and rolls back the rest.
///
/// `xids` pairs the xid of each transaction of the log with its number, in the log's order, and `logged` is how many there are. The pairs
/// are gone over once, and each is looked up in what the engine has prepared.
///
/// `NotAVolume` where its files stand for no gist; then `Ahead` where its last number exceeds `logged`; `Device`; `Memory`. After an
/// error the engine is only dropped, or begun anew.
pub fn recover_one(
    alloc: Global,
    volume: &mut dyn Storage,
    engine: &mut Box<dyn Engine + Send>,
    xids: &[(u64, u64)],
    logged: u64,
) -> Result<EngineReport, OpenFault>
    requires crash_safe { IsTrue (kind engine.old).flags.crash_safe }
    ensures same { IsSame (kind engine.old) (kind engine.new)
        (reading engine.old) (reading engine.new) }
    ensures brought { OnOk result (IsBrought
        (working (kind engine.new) (reading engine.new) (state engine.new) (holds engine.new))
        (disk volume.new)) }
    ensures last { OnOk result (All (λ pair. pair.1 ≤ logged) xids.now
        → (state engine.new).gist.last ≤ logged) }
    ensures report { IfOk result (IsReport (kind engine.old) (reading engine.old)
        (disk volume.old) logged xids.now (state engine.new).gist.last) }

    // A crash leaves what can be recovered again.
    ensures recovers { (log : List Transaction) → IsDistinct log → ArePairsOf log xids.now
        → logged ≡ length log → IsTrue (disk volume.old).told
        → IsRecoverableIn (kind engine.old) (reading engine.old) log (disk volume.old)
        → Recovers (kind engine.old) (reading engine.old) log result (state engine.new)
        (disk volume.old) (disk volume.new) }
    ensures others { IsTrue (disk volume.old).told → Keeps (disk volume.old) (disk volume.new)
        (OnlyIn (kind engine.old).files (now (disk volume.old)) (λ files. Unit {0})) }

    ensures tells { TellsOnly (kind engine.old) (reading engine.old) (disk volume.old)
        logged result }
    ensures device { HasCause IsDeviceFault result (disk volume.old) (disk volume.new) }
{
    if let Err(fault) = begin(engine, volume) {
        return Err(open_fault(fault));
    }
    if is_ahead(engine, logged) {
        return Err(ahead(engine, logged));
    }
    match bring(alloc, volume, engine, xids) {
        Ok(report) => Ok(report),
        Err(fault) => Err(open_fault(fault)),
    }
}
