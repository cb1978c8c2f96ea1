//! What was prepared is committed or rolled back, one xid after the other.
ghost use Rattle.std.specs.Prelude.{◌≡◌, ◌≤◌, [], ℕ, List, Option, length, OnOk, IfOk, IsTrue};
ghost use Rattle.std.specs.BTreeSet.{contains};
ghost use Rattle.std.specs.Ordering.{nat_cmp};
ghost use Rattle.disk_model.specs.Disk.{Disk, now, HasCause};
ghost use Rattle.row_format.specs.declared.change.Transaction.{Transaction};
ghost use Rattle.engine_api.specs.States.{resolved_state};
ghost use Rattle.engine_api.specs.Calls.{IsDevice, IsSame, Turns, AnswersOnly};
ghost use Rattle.engine_api.specs.Many.{working};
ghost use Rattle.xid_recovery.specs.Pairs.{has};
ghost use Rattle.xid_recovery.specs.Recovers.{IsIdle};
ghost use Rattle.xid_recovery.specs.Running.{Fits, Aims, IsEnd, IsOnWay, Ran, HasPrepared, IsWithout, SoFar, RollingBack};

use crate::calls::{commit, roll_back};
use disk_model::Storage;
use engine_api::{Engine, EngineFault};
use std::alloc::{AllocError, Global};
use std::collections::BTreeSet;

// The xids of a list as a set.
pub(crate) fn xid_set(alloc: Global, xids: &[u64]) -> Result<BTreeSet<u64>, AllocError>
    ensures { IfOk result (λ set. (xid : ℕ) → contains nat_cmp set xid ≡ has xid xids.now) }
{
    let mut set = BTreeSet::new(alloc);
    for xid in xids {
        set.insert(*xid)?;
    }
    Ok(set)
}

// Commits what is left under this xid, if anything is.
fn settle(
    engine: &mut Box<dyn Engine + Send>,
    volume: &mut dyn Storage,
    left: &mut BTreeSet<u64>,
    xid: u64,
    number: u64,
) -> Result<(), EngineFault>
    requires idle { IsIdle
        (working (kind engine.old) (reading engine.old) (state engine.old) (holds engine.old))
        (disk volume.old) }
    requires prepared { HasPrepared left.old (state engine.old).gist }
    ensures same { IsSame (kind engine.old) (kind engine.new)
        (reading engine.old) (reading engine.new) }
    ensures turns { Turns (kind engine.old) (reading engine.old) result
        (resolved_state xid number (state engine.old))
        (state engine.old) (state engine.new) (holds engine.new)
        (disk volume.old) (disk volume.new) }
    ensures left { IsWithout xid left.old left.new }
    ensures fewer { length left.new.keys ≤ length left.old.keys }
    ensures answers { AnswersOnly ([]) (kind engine.old).files (disk volume.old).told result }
{
    if left.remove(&xid) {
        commit(engine, volume, xid, number)
    } else {
        Ok(())
    }
}

// Commits what is left of the pairs, in their order.
pub(crate) fn commit_logged(
    engine: &mut Box<dyn Engine + Send>,
    volume: &mut dyn Storage,
    left: &mut BTreeSet<u64>,
    xids: &[(u64, u64)],
) -> Result<(), EngineFault>
    requires idle { IsIdle
        (working (kind engine.old) (reading engine.old) (state engine.old) (holds engine.old))
        (disk volume.old) }
    requires prepared { HasPrepared left.old (state engine.old).gist }
    ensures ran { (aim : Option (List Transaction)) → Fits aim xids.now
        → Aims (kind engine.old) aim (state engine.old).gist
        → Ran
        (working (kind engine.old) (reading engine.old) (state engine.old) (holds engine.old))
        (working (kind engine.new) (reading engine.new) (state engine.new) (holds engine.new))
        aim (disk volume.old) (disk volume.new) }
    ensures done { OnOk result (SoFar
        (working (kind engine.old) (reading engine.old) (state engine.old) (holds engine.old))
        (working (kind engine.new) (reading engine.new) (state engine.new) (holds engine.new))
        xids.now (length xids.now) left.old left.new (disk volume.old) (disk volume.new)) }
    ensures device { HasCause IsDevice result (disk volume.old) (disk volume.new) }
    ensures answers { AnswersOnly ([]) (kind engine.old).files (disk volume.old).told result }
{
    for pair in xids {
        settle(engine, volume, left, pair.0, pair.1)?;
    }
    Ok(())
}

// Rolls back all that is left.
pub(crate) fn roll_back_rest(
    engine: &mut Box<dyn Engine + Send>,
    volume: &mut dyn Storage,
    left: &mut BTreeSet<u64>,
) -> Result<(), EngineFault>
    requires idle { IsIdle
        (working (kind engine.old) (reading engine.old) (state engine.old) (holds engine.old))
        (disk volume.old) }
    requires prepared { HasPrepared left.old (state engine.old).gist }
    ensures ran { (aim : Option (List Transaction)) (place : ℕ) → IsEnd aim place
        → IsOnWay (kind engine.old) aim place (state engine.old).gist
        → Ran
        (working (kind engine.old) (reading engine.old) (state engine.old) (holds engine.old))
        (working (kind engine.new) (reading engine.new) (state engine.new) (holds engine.new))
        aim (disk volume.old) (disk volume.new) }
    ensures done { OnOk result (RollingBack
        (working (kind engine.old) (reading engine.old) (state engine.old) (holds engine.old))
        (working (kind engine.new) (reading engine.new) (state engine.new) (holds engine.new))
        left.new (disk volume.old) (disk volume.new)) }
    ensures none_left { OnOk result (left.new.keys ≡ []) }
    ensures device { HasCause IsDevice result (disk volume.old) (disk volume.new) }
    ensures answers { AnswersOnly ([]) (kind engine.old).files (disk volume.old).told result }
{
    while let Some(xid) = left.pop_first() {
        roll_back(engine, volume, xid)?;
    }
    Ok(())
}
