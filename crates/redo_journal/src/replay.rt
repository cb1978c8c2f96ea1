//! What the records of a journal so far stand for, as an index into them: no row and no name is copied.
//!
//! Invariant: the index stands for the fold of the records (`IsReplay`).
ghost use Rattle.std.specs.Prelude.{◌≡◌, ◌++◌, ◌∷◌, ◌+◌, ◌*◌, ◌&&◌, [], List, ℕ, IfOk, Some, true, false, not, is_none, nat_lt, nat_le, option_map, length, slice_get, IsTrue};
ghost use Rattle.std.specs.Option.{option_copied};
ghost use Rattle.frame_codec.specs.Frame.{limit};
ghost use Rattle.sql_value.specs.declared.value.Value.{Value as Cell};
ghost use Rattle.log_tables.specs.declared.gist.Prepared.{Prepared};
ghost use Rattle.log_tables.specs.Tables.{table_named};
ghost use Rattle.redo_journal.specs.declared.record.Record.{Record};
ghost use Rattle.redo_journal.specs.declared.record.Record.TheVariants.{SnapTable, SnapRow, SnapLast, Prepare, Commit, Rollback};
ghost use Rattle.redo_journal.specs.Replays.{Replay as Replayed, start, after_record, commit_size, end_behind, Fits};
ghost use Rattle.redo_journal.specs.Index.{IsReplay, IsOffered, schema_found, is_possible, prepared_at, Becomes};

use crate::Record;
use crate::place::{Place, prepared_at};
use crate::prepared::PreparedIndex;
use crate::tables::TableIndex;
use row_format::{Name, Schema};
use std::alloc::{AllocError, Global};

// No frame ends past this position.
const LIMIT: u32 = 2_147_483_647;

// How many bytes the frame of a Commit has.
const COMMIT_SIZE: u32 = 39;

/// What records stand for: tables and prepared transactions as places among the records, the number of the last commit, and whether a
/// SnapLast or a Commit was among them.
#[derive(Drop)]
pub(crate) struct Replay {
    tables: TableIndex,
    prepared: PreparedIndex,
    last: u64,
    numbered: bool,
}

impl Replay {
    /// What no record stands for.
    pub(crate) fn new(alloc: Global) -> Replay
        ensures { IsReplay result [] start }
    {
        Replay {
            tables: TableIndex::new(alloc),
            prepared: PreparedIndex::new(alloc),
            last: 0,
            numbered: false,
        }
    }

    /// The schema of the table with this name, where there is one.
    pub(crate) fn schema_of<'a>(&self, records: &'a [Record], table: &Name) -> Option<&'a Schema>
        ensures { (replay : Replayed) → IsReplay self.now records.now replay
            → option_copied result ≡ schema_found (table_named table.now replay.gist.tables) }
    {
        self.tables.schema_of(records, table)
    }

    // Takes a SnapLast; false where there was one, or a Commit.
    fn take_last(&mut self, number: u64) -> bool
        ensures { (records : List Record) (replay : Replayed) → IsReplay self.old records replay
            → Becomes (is_possible replay (SnapLast number))
            (IsReplay self.new records (after_record (SnapLast number) replay)) result }
    {
        if self.numbered {
            return false;
        }
        self.last = number;
        self.numbered = true;
        true
    }

    // Takes the Prepare with this number; false where its xid is prepared.
    fn take_prepare(&mut self, records: &[Record], number: usize) -> Result<bool, AllocError>
        ensures { (replay : Replayed) (it : Prepared) → IsReplay self.old records.now replay
            → prepared_at records.now number ≡ Some it
            → IfOk result (Becomes (is_possible replay (Prepare it))
            (IsReplay self.new records.now (after_record (Prepare it) replay))) }
    {
        let Some(it) = prepared_at(records, number) else {
            return Ok(false);
        };
        if self.prepared.find(records, it.xid).is_some() {
            return Ok(false);
        }
        self.prepared.add(number)?;
        Ok(true)
    }

    // Takes a Commit; false where its xid is not prepared, its number is not above the last, or a change does not apply.
    fn take_commit(&mut self, records: &[Record], xid: u64, number: u64) -> Result<bool, AllocError>
        ensures { (replay : Replayed) → IsReplay self.old records.now replay
            → IfOk result (Becomes (is_possible replay (Commit xid number))
            (IsReplay self.new records.now (after_record (Commit xid number) replay))) }
    {
        let Some(at) = self.prepared.find(records, xid) else {
            return Ok(false);
        };
        if number <= self.last {
            return Ok(false);
        }
        if !self.tables.apply_all(records, at)? {
            return Ok(false);
        }
        self.prepared.remove(records, xid);
        self.last = number;
        self.numbered = true;
        Ok(true)
    }

    // Takes a Rollback; false where its xid is not prepared.
    fn take_rollback(&mut self, records: &[Record], xid: u64) -> bool
        ensures { (replay : Replayed) → IsReplay self.old records.now replay
            → Becomes (is_possible replay (Rollback xid))
            (IsReplay self.new records.now (after_record (Rollback xid) replay)) result }
    {
        if self.prepared.find(records, xid).is_none() {
            return false;
        }
        self.prepared.remove(records, xid);
        true
    }

    // Takes the record with this number; false where its rule does not hold.
    fn accept(&mut self, records: &[Record], number: usize) -> Result<bool, AllocError>
        ensures { (replay : Replayed) (it : Record) → IsReplay self.old records.now replay
            → slice_get records.now number ≡ Some it
            → IfOk result (Becomes (is_possible replay it)
            (IsReplay self.new records.now (after_record it replay))) }
    {
        let place = Place { number, change: 0 };
        match records.get(number) {
            Some(Record::SnapTable(_)) => self.tables.create(records, place),
            Some(Record::SnapRow { table, .. }) => self.tables.insert(records, table, None, place),
            Some(Record::SnapLast { number }) => Ok(self.take_last(*number)),
            Some(Record::Prepare(_)) => self.take_prepare(records, number),
            Some(Record::Commit { xid, number }) => self.take_commit(records, *xid, *number),
            Some(Record::Rollback { xid }) => Ok(self.take_rollback(records, *xid)),
            None => Ok(false),
        }
    }

    // Whether there is room from this position on for a Commit of each prepared transaction.
    fn has_room(&self, end: u32) -> bool
        ensures { result
            ≡ nat_le (end + commit_size * length self.now.prepared.numbers.items) limit }
    {
        end <= LIMIT && self.prepared.len() <= ((LIMIT - end) / COMMIT_SIZE) as usize
    }

    /// Takes the last of the records, whose frame ends at this position, behind those before it; false where it does not fit there.
    ///
    /// `AllocError` for want of memory. After that, or after false, the index is only dropped.
    pub(crate) fn take(&mut self, records: &[Record], end: u32) -> Result<bool, AllocError>
        ensures fits { (before : List Record) (it : Record) (replay : Replayed) (at : ℕ)
            → IsOffered self.old records.now before it replay at end
            → IfOk result (λ b. b ≡ true → Fits at replay it
            × IsReplay self.new records.now (after_record it replay)) }
        ensures unfit { (before : List Record) (it : Record) (replay : Replayed) (at : ℕ)
            → IsOffered self.old records.now before it replay at end
            → IfOk result (λ b. b ≡ false → Fits at replay it → ⊥) }
    {
        let Some(number) = records.len().checked_sub(1) else {
            return Ok(false);
        };
        if !self.accept(records, number)? {
            return Ok(false);
        }
        Ok(self.has_room(end))
    }
}
