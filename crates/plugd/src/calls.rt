//! The calls of the engine and of the storage that a statement makes, each as they say it, over the boxes that the kernel owns.
ghost use Rattle.std.specs.Prelude.{◌≡◌, ◌<◌, ◌≤◌, ◌+◌, ◌++◌, ◌∷◌, [], ℕ, List, length, None, Some, IsTrue, IsErr, IsErrOf, Err, OnOk, IfOk, All, false};
ghost use Rattle.std.specs.Option.{option_copied};
ghost use Rattle.disk_model.specs.Disk.{now, contents, Keeps, Only, HasCause};
ghost use Rattle.row_format.specs.Schemas.{IsSchema};
ghost use Rattle.row_format.specs.declared.change.Transaction.{Transaction};
ghost use Rattle.row_format.specs.declared.change.Change.TheVariants.{Create};
ghost use Rattle.log_tables.specs.Gists.{is_prepared};
ghost use Rattle.engine_api.specs.States.{with_change, prepared_state, committed_state, rolled_back_state};
ghost use Rattle.engine_api.specs.Live.{HasRoom, allows, live_schema, is_under, is_taken, insert_into, wrote_state, IsUnder, IsApart, IsInsertApart, IsRowFor};
ghost use Rattle.engine_api.specs.Reads.{files_in, OnlyIn};
ghost use Rattle.engine_api.specs.Many.{working};
ghost use Rattle.recovery_rules.specs.Places.{IsDistinct};
ghost use Rattle.xid_recovery.specs.Pairs.{ArePairsOf};
ghost use Rattle.xid_recovery.specs.Recovers.{IsDeviceFault, IsRecoverableIn, IsBrought, Recovers, TellsOnly};
ghost use Rattle.plugd.specs.Found.{IsFound};
ghost use Rattle.engine_api.specs.Calls.{IsSame, Notes, Turns, AnswersOnly, AnswersAlone, IsDoneOrDevice};
ghost use Rattle.engine_api.specs.declared.fault.Code.TheVariants.{Duplicate, Full};
ghost use Rattle.engine_api.specs.declared.fault.EngineFault.TheVariants.{Code as code};
ghost use Rattle.binlog_file.specs.Logged.{Holds, IsNoLog};
ghost use Rattle.binlog_file.specs.Opening.{IsSafe, OpensFor, IsGiven};
ghost use Rattle.binlog_file.specs.declared.fault.BinlogFault.TheVariants as BinlogFault;
ghost use Rattle.binlog_file.specs.Binlog.{flushed_of, end_in, IsOpen, Carries};
ghost use Rattle.plugd.specs.LogOne.{IsDurable, EachOne};
ghost use Rattle.sql_exec.specs.CarriesOut.{CarriesOut};
ghost use Rattle.sql_step.specs.Catalogs.{catalog_of, facts_here};
ghost use Rattle.sql_step.specs.Outcomes.{state_behind, IsLoggable};
ghost use Rattle.sql_step.specs.Steps.{CanStep, IsTextAnswer};
ghost use Rattle.plugd.specs.Serve.{session};

use crate::found::Found;
use crate::log_one::log_one;
use crate::server::SESSION;
use binlog_file::{Binlog, BinlogFault, Opened};
use dictionary::Dictionary;
use disk_model::{Failed, Storage};
use engine_api::{Engine, EngineFault};
use sql_exec::ExecFault;
use sql_step::Outcome;
use std::alloc::Global;
use xid_recovery::{EngineReport, OpenFault, recover_one};

// Carries out a text in the engine, as a transaction by itself.
pub(crate) fn carry_out(
    alloc: Global,
    engine: &mut Box<dyn Engine + Send>,
    storage: &mut Box<dyn Storage + Send>,
    dictionary: &Dictionary,
    text: &[u8],
) -> Result<Outcome, ExecFault>
    requires step { CanStep dictionary.now (kind engine.old) (reading engine.old)
        (state engine.old) (holds engine.old) (disk storage.old) }
    ensures same { IsSame (kind engine.old) (kind engine.new)
        (reading engine.old) (reading engine.new) }
    ensures carries { CarriesOut (kind engine.old) (reading engine.old) result
        (state_behind session result (state engine.old)) (state engine.old)
        (state engine.new) (holds engine.new) (disk storage.old) (disk storage.new) }
    ensures answers { IsTextAnswer (catalog_of dictionary.now (state engine.old))
        (facts_here (kind engine.old)) (kind engine.old).files (disk storage.old).told
        text.now result }
    ensures loggable { IfOk result IsLoggable }
{
    sql_step::carry_out(alloc, engine, &mut **storage, dictionary, SESSION, text)
}

// Prepares what the session has changed.
pub(crate) fn prepare(
    engine: &mut Box<dyn Engine + Send>,
    storage: &mut Box<dyn Storage + Send>,
    xid: u64,
) -> Result<(), EngineFault>
    requires transactional { IsTrue (kind engine.old).flags.transactional }
    requires unprepared { is_under session (state engine.old) ≡ false }
    requires fresh { is_prepared xid (state engine.old).gist.prepared ≡ false }
    requires holds { IsTrue (disk storage.old).told
        → holds engine.old (files_in (kind engine.old).files (disk storage.old)) }
    ensures same { IsSame (kind engine.old) (kind engine.new)
        (reading engine.old) (reading engine.new) }
    ensures turns { Turns (kind engine.old) (reading engine.old) result
        (prepared_state session xid (state engine.old))
        (state engine.old) (state engine.new) (holds engine.new)
        (disk storage.old) (disk storage.new) }
    ensures full { result ≡ Err (code Full) → IsTrue (is_spent engine.old session xid) }
    ensures answers { AnswersOnly (Full ∷ []) (kind engine.old).files
        (disk storage.old).told result }
{
    engine.prepare(&mut **storage, SESSION, xid)
}

// Commits what was prepared under this xid.
pub(crate) fn commit(
    engine: &mut Box<dyn Engine + Send>,
    storage: &mut Box<dyn Storage + Send>,
    xid: u64,
    number: u64,
) -> Result<(), EngineFault>
    requires prepared { IsUnder session xid (state engine.old) }
    requires later { (state engine.old).gist.last < number }
    requires holds { IsTrue (disk storage.old).told
        → holds engine.old (files_in (kind engine.old).files (disk storage.old)) }
    ensures same { IsSame (kind engine.old) (kind engine.new)
        (reading engine.old) (reading engine.new) }
    ensures turns { Turns (kind engine.old) (reading engine.old) result
        (committed_state session xid number (state engine.old))
        (state engine.old) (state engine.new) (holds engine.new)
        (disk storage.old) (disk storage.new) }
    ensures after_prepare { IsTrue (is_under session (state engine.old)) → IsDoneOrDevice result }
{
    engine.commit(&mut **storage, SESSION, xid, number)
}

// Takes back what the session has changed, prepared or not.
pub(crate) fn roll_back(
    engine: &mut Box<dyn Engine + Send>,
    storage: &mut Box<dyn Storage + Send>,
) -> Result<(), EngineFault>
    requires holds { IsTrue (disk storage.old).told
        → holds engine.old (files_in (kind engine.old).files (disk storage.old)) }
    ensures same { IsSame (kind engine.old) (kind engine.new)
        (reading engine.old) (reading engine.new) }
    ensures turns { Turns (kind engine.old) (reading engine.old) result
        (rolled_back_state session (state engine.old))
        (state engine.old) (state engine.new) (holds engine.new)
        (disk storage.old) (disk storage.new) }
    ensures answers { IsDoneOrDevice result }
{
    engine.rollback(&mut **storage, SESSION)
}

// Appends one transaction to the log and makes it durable.
pub(crate) fn log(
    log: &mut Binlog,
    storage: &mut Box<dyn Storage + Send>,
    bytes: &[u8],
) -> Result<(), Failed>
    requires whole { (t : Transaction) × Carries log.old bytes.now (t ∷ []) }
    requires log { IsOpen log.old (disk storage.old) }
    ensures ok { EachOne log.old bytes.now (disk storage.old) (λ list t.
        OnOk result (IsDurable log.new (list ++ t ∷ []) (disk storage.new))) }
    ensures counts { OnOk result ((flushed_of log.new ≡ flushed_of log.old + 1)
        × (end_in log.new ≡ end_in log.old + length bytes.now)) }
    ensures any_moment { EachOne log.old bytes.now (disk storage.old) (λ list t.
        Keeps (disk storage.old) (disk storage.new) (Only 0 (now (disk storage.old))
        (Holds list (list ++ t ∷ [])))) }
    ensures device { HasCause IsErr result (disk storage.old) (disk storage.new) }
{
    log_one(log, &mut **storage, bytes)
}

// Opens the log, and notes what it tells.
pub(crate) fn open_log(
    alloc: Global,
    storage: &mut Box<dyn Storage + Send>,
    found: &mut Found,
) -> Result<Opened, BinlogFault>
    ensures opened { IsTrue (disk storage.old).told → IfOk result (λ o. OpensFor
        (λ log. IsFound log found.old) (λ log. IsFound log found.new)
        (disk storage.old) (disk storage.new) o.log o.cut) }
    ensures visited { IfOk result (λ o. IsGiven (λ log. IsFound log found.old)
        (λ log. IsFound log found.new) (flushed_of o.log)) }
    ensures any_moment { IsTrue (disk storage.old).told
        → Keeps (disk storage.old) (disk storage.new)
        (Only 0 (now (disk storage.old)) (IsSafe (now (disk storage.old) 0))) }
    ensures not_a_volume { (file : ℕ) → result ≡ Err (BinlogFault.NotAVolume file) → (file ≡ 0)
        × (IsTrue (disk storage.old).told → IsNoLog (contents (disk storage.old) 0)) }
    ensures device { HasCause (λ r. IsErrOf r BinlogFault.Device) result
        (disk storage.old) (disk storage.new) }
{
    Binlog::open(alloc, &mut **storage, found)
}

// Brings the engine to the log, whose transactions have these xids and numbers.
pub(crate) fn bring(
    alloc: Global,
    storage: &mut Box<dyn Storage + Send>,
    engine: &mut Box<dyn Engine + Send>,
    pairs: &[(u64, u64)],
    logged: u64,
) -> Result<EngineReport, OpenFault>
    requires crash_safe { IsTrue (kind engine.old).flags.crash_safe }
    ensures same { IsSame (kind engine.old) (kind engine.new)
        (reading engine.old) (reading engine.new) }
    ensures brought { OnOk result (IsBrought
        (working (kind engine.new) (reading engine.new) (state engine.new) (holds engine.new))
        (disk storage.new)) }
    ensures last { OnOk result (All (λ pair. pair.1 ≤ logged) pairs.now
        → (state engine.new).gist.last ≤ logged) }
    ensures recovers { (log : List Transaction) → IsDistinct log → ArePairsOf log pairs.now
        → logged ≡ length log → IsTrue (disk storage.old).told
        → IsRecoverableIn (kind engine.old) (reading engine.old) log (disk storage.old)
        → Recovers (kind engine.old) (reading engine.old) log result (state engine.new)
        (disk storage.old) (disk storage.new) }
    ensures others { IsTrue (disk storage.old).told
        → Keeps (disk storage.old) (disk storage.new)
        (OnlyIn (kind engine.old).files (now (disk storage.old)) (λ files. Unit {0})) }
    ensures tells { TellsOnly (kind engine.old) (reading engine.old) (disk storage.old)
        logged result }
    ensures device { HasCause IsDeviceFault result (disk storage.old) (disk storage.new) }
{
    recover_one(alloc, &mut **storage, engine, pairs, logged)
}

// How many device calls were made.
pub(crate) fn calls_of(storage: &Box<dyn Storage + Send>) -> u64
    ensures { result ≡ (disk storage.now).calls }
{
    storage.calls()
}
