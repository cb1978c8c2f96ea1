//! The tables of an engine, read back from the records of its journal.
//!
//! Invariant: behind each record the tables have what the records so far stand for (`HasRead`).
ghost use Rattle.std.specs.Prelude.{IfOk, OnOk};
ghost use Rattle.framed_file.specs.Framed.{header_len};
ghost use Rattle.redo_journal.specs.Replays.{Replay, start, after_record, after_records, AllFit};
ghost use Rattle.journal_engine.specs.Recording.{CanBeRecorded};
ghost use Rattle.journal_engine.specs.Replaying.{HasRead, MayTake};

use live_tables::LiveTables;
use redo_journal::Record;
use std::alloc::{AllocError, Global};

// Does what one record tells. Its rows and changes are moved, not copied.
fn take(live: &mut LiveTables, it: Record) -> Result<(), AllocError>
    requires { MayTake it live.old.state }
    ensures { (seen : Replay) → HasRead seen live.old.state
        → OnOk result (HasRead (after_record it seen) live.new.state) }
{
    match it {
        Record::SnapTable(definition) => live.load_table(definition),
        Record::SnapRow { table, row } => live.load_row(&table, row),
        Record::SnapLast { number } => {
            live.load_last(number);
            Ok(())
        }
        Record::Prepare(prepared) => live.load_prepared(prepared),
        Record::Commit { xid, number } => {
            live.commit_left(xid, number);
            Ok(())
        }
        Record::Rollback { xid } => {
            live.rollback_left(xid);
            Ok(())
        }
    }
}

/// The tables that these records stand for, with what they leave prepared and the number of the last commit.
///
/// `AllocError` for want of memory.
pub(crate) fn replay(alloc: Global, records: Vec<Record>) -> Result<LiveTables, AllocError>
    requires { AllFit header_len start records.items }
    ensures read { IfOk result (λ live. HasRead (after_records records.items start) live.state) }
    ensures well { IfOk result (λ live. CanBeRecorded live.state.gist) }
{
    let mut live = LiveTables::new(alloc);
    for it in records {
        take(&mut live, it)?;
    }
    Ok(live)
}
