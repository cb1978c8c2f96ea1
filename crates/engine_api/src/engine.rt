//! The trait that each engine meets.
//!
//! An engine tells five things. `kind` and `reading` never change: what it is, and how the bytes of its files are read. `state` is what
//! it has (`EngineState`). `holds` says of its files that they are what the engine takes them for; each call asks for it and gives it
//! back, unless the device failed.
ghost use Rattle.std.specs.Prelude.{◌≡◌, ◌<◌, ◌≤◌, ◌∷◌, [], ℕ, List, length, map, Bool, true, false, None, Some, suc, IfOk, OnOk, OnErr, Err, IsTrue, IsErrOf, Contains, All};
ghost use Rattle.std.specs.Option.{option_copied};
ghost use Rattle.disk_model.specs.File.{File, IsSettled};
ghost use Rattle.disk_model.specs.Disk.{Disk, now, Keeps, HasCause};
ghost use Rattle.row_format.specs.Schemas.{IsSchema};
ghost use Rattle.row_format.specs.declared.change.Change.TheVariants.{Create, Drop};
ghost use Rattle.log_tables.specs.declared.gist.Gist.{Gist};
ghost use Rattle.log_tables.specs.Gists.{is_prepared};
ghost use Rattle.engine_api.specs.States.{Kind, EngineState, with_change, begun_state, synced_state};
ghost use Rattle.engine_api.specs.States.{prepared_state, committed_state, rolled_back_state, resolved_state, dropped_state};
ghost use Rattle.engine_api.specs.Live.{allows, HasRoom, live_schema, live_rows, live_row, insert_into, wrote_state, is_taken};
ghost use Rattle.engine_api.specs.Live.{IsApart, IsInsertApart, is_under, IsUnder, IsLeft, IsLive, IsKeyFor, IsRowFor};
ghost use Rattle.engine_api.specs.Scans.{live_above, IsOnLive, scan_row};
ghost use Rattle.engine_api.specs.Reads.{Reading, EachReads, EachReadsAs, files_in, bytes_in, OnlyIn};
ghost use Rattle.engine_api.specs.Calls.{IsDevice, AnswersOnly, AnswersAlone, IsSame, Notes, Turns, IsDoneOrDevice};
ghost use Rattle.engine_api.specs.declared.fault.Code.{Code};
ghost use Rattle.engine_api.specs.declared.fault.Code.TheVariants.{KeyNotFound, Duplicate, Full, EndOfFile};
ghost use Rattle.engine_api.specs.declared.fault.EngineFault.TheVariants.{Code as code, NotAVolume, Memory};

use crate::{Cursor, Definition, EngineFault, Flags, Use};
use disk_model::Storage;
use row_format::{Name, Row, Schema, Text, Value};

/// A storage engine: tables that transactions change, and files of its own.
///
/// A `txn` is a session. A call that names a table needs it to be live, except `create`, `external_lock` and `live`. After `Device`, and
/// after any fault of `init`, an engine is only dropped, or begun anew by `init`; after any other fault all is as it was.
pub trait Engine: Drop {
    /// What never changes of it.
    ghost kind: { Self → Kind };

    /// How the bytes of its files are read.
    ghost reading: { Self → Reading };

    /// What it has.
    ghost state: { Self → EngineState };

    /// These files are what it takes its own for.
    ghost holds: { Self → List File → Type 0 };

    /// Whether its journal has no room for the prepare of this transaction under this xid.
    ghost is_spent: { Self → ℕ → ℕ → Bool };

    /// Its name.
    fn name(&self) -> &Name
        ensures { result.now ≡ (kind self.now).name };

    /// The library that it comes from.
    fn soname(&self) -> &Text
        ensures { result.now ≡ (kind self.now).soname };

    /// What it can do.
    fn flags(&self) -> Flags
        ensures { result ≡ (kind self.now).flags };

    /// Begins anew from its files. An engine that is not crash safe takes its definitions from `tables`, and its last number is then 0.
    ///
    /// `NotAVolume` where the files stand for no gist: one of them. `Device`; `Memory`.
    fn init(&mut self, volume: &mut dyn Storage, tables: &[Definition]) -> Result<(), EngineFault>
        ensures same { IsSame (kind self.old) (kind self.new)
            (reading self.old) (reading self.new) }
        ensures begun { OnOk result ((gist : Gist) × (state self.new ≡ begun_state gist)) }
        ensures gist { IsTrue (disk volume.old).told → IsTrue (kind self.old).flags.crash_safe
            → OnOk result ((reading self.old).stands
            (bytes_in (kind self.old).files (disk volume.old)) (state self.new).gist) }
        ensures tables { (kind self.old).flags.crash_safe ≡ false
            → OnOk result ((map (λ t. t.definition) (state self.new).gist.tables ≡ tables.now)
            × ((state self.new).gist.last ≡ 0)) }
        ensures files { IsTrue (disk volume.old).told
            → OnOk result (holds self.new (files_in (kind self.old).files (disk volume.new))
            × EachReads (reading self.old) ((state self.new).gist ∷ [])
            (files_in (kind self.old).files (disk volume.new))) }

        // A crash leaves what the contents, or some image at the start, stood for.
        ensures any_moment { IsTrue (disk volume.old).told
            → Keeps (disk volume.old) (disk volume.new)
            (OnlyIn (kind self.old).files (now (disk volume.old))
            (EachReadsAs (reading self.old) (files_in (kind self.old).files (disk volume.old)))) }

        // What its files stand for is one gist.
        ensures one_gist { (images : List (List ℕ)) (a b : Gist)
            → (reading self.old).stands images a → (reading self.old).stands images b → a ≡ b }

        ensures not_a_volume { (file : ℕ) → result ≡ Err (NotAVolume file)
            → Contains (kind self.old).files file
            × (IsTrue (disk volume.old).told → (gist : Gist) → (reading self.old).stands
            (bytes_in (kind self.old).files (disk volume.old)) gist → ⊥) }
        ensures no_code { (it : Code) → result ≡ Err (code it) → ⊥ }
        ensures device { HasCause IsDevice result (disk volume.old) (disk volume.new) };

    /// Ends the use of the engine: its files are synced.
    ///
    /// `Device`; `Memory`.
    fn deinit(&mut self, volume: &mut dyn Storage) -> Result<(), EngineFault>
        requires idle { (state self.old).pending ≡ [] }
        requires holds { IsTrue (disk volume.old).told
            → holds self.old (files_in (kind self.old).files (disk volume.old)) }
        ensures same { IsSame (kind self.old) (kind self.new)
            (reading self.old) (reading self.new) }
        ensures turns { Turns (kind self.old) (reading self.old) result
            (synced_state (state self.old))
            (state self.old) (state self.new) (holds self.new) (disk volume.old) (disk volume.new) }
        ensures settled { IsTrue (disk volume.old).told
            → OnOk result (All IsSettled (files_in (kind self.old).files (disk volume.new))) }
        ensures answers { AnswersOnly ([]) (kind self.old).files (disk volume.old).told result };

    /// Makes a table.
    ///
    /// 135 exactly where the live bytes would pass their limit. `Memory`.
    fn create(&mut self, txn: u32, table: &Name, schema: &Schema) -> Result<(), EngineFault>
        requires free { live_schema table.now (state self.old) ≡ None }
        requires schema { IsSchema schema.now }
        requires allowed { IsTrue (allows (kind self.old).flags schema.now) }
        requires unprepared { is_under txn (state self.old) ≡ false }
        requires apart { IsApart txn (Create table.now (kind self.old).name schema.now)
            (state self.old) }
        ensures same { IsSame (kind self.old) (kind self.new)
            (reading self.old) (reading self.new) }
        ensures notes { Notes result
            (with_change txn (Create table.now (kind self.old).name schema.now) (state self.old))
            (state self.old) (state self.new) (holds self.old) (holds self.new) }
        ensures full { result ≡ Err (code Full) → HasRoom (with_change txn
            (Create table.now (kind self.old).name schema.now) (state self.old)) → ⊥ }
        ensures not_full { OnOk result (HasRoom (state self.new)) }
        ensures answers { AnswersAlone (Full ∷ []) result };

    /// Drops a table.
    ///
    /// `Memory`.
    fn delete_table(&mut self, txn: u32, table: &Name) -> Result<(), EngineFault>
        requires live { IsLive table.now (state self.old) }
        requires unprepared { is_under txn (state self.old) ≡ false }
        requires apart { IsApart txn (Drop table.now) (state self.old) }
        ensures same { IsSame (kind self.old) (kind self.new)
            (reading self.old) (reading self.new) }
        ensures notes { Notes result (with_change txn (Drop table.now) (state self.old))
            (state self.old) (state self.new) (holds self.old) (holds self.new) }
        ensures answers { AnswersAlone [] result };

    /// A statement begins or ends its use of a table; the engine joins the transaction.
    ///
    /// `Memory`.
    fn external_lock(&mut self, txn: u32, table: &Name, wanted: Use) -> Result<(), EngineFault>
        ensures same { IsSame (kind self.old) (kind self.new)
            (reading self.old) (reading self.new) }
        ensures notes { Notes result (state self.old)
            (state self.old) (state self.new) (holds self.old) (holds self.new) }
        ensures answers { AnswersAlone [] result };

    /// A scan begins: the cursor stands before the first live row.
    ///
    /// `Memory`.
    fn rnd_init(&mut self, table: &Name, cursor: &mut Cursor) -> Result<(), EngineFault>
        requires live { IsLive table.now (state self.old) }
        ensures same { IsSame (kind self.old) (kind self.new)
            (reading self.old) (reading self.new) }
        ensures notes { Notes result (state self.old)
            (state self.old) (state self.new) (holds self.old) (holds self.new) }
        ensures table { OnOk result (cursor.new.table ≡ Some table.now) }
        ensures first { OnOk result (cursor.new.position ≡ 0) }
        ensures stays { OnErr result (cursor.new ≡ cursor.old) }
        ensures answers { AnswersAlone [] result };

    /// The live row at the cursor's position; the cursor moves on to the next one. A change between two calls moves the rows under it.
    ///
    /// 137 exactly at the end. `Device`; `Memory`, also where the cursor cannot count the row.
    fn rnd_next(
        &mut self,
        volume: &mut dyn Storage,
        cursor: &mut Cursor,
    ) -> Result<Row, EngineFault>
        requires begun { IsOnLive cursor.old.table (state self.old) }
        requires holds { IsTrue (disk volume.old).told
            → holds self.old (files_in (kind self.old).files (disk volume.old)) }
        ensures same { IsSame (kind self.old) (kind self.new)
            (reading self.old) (reading self.new) }
        ensures turns { Turns (kind self.old) (reading self.old) result (state self.old)
            (state self.old) (state self.new) (holds self.new) (disk volume.old) (disk volume.new) }
        ensures row { IfOk result
            (λ row. scan_row cursor.old.table cursor.old.position (state self.old) ≡ Some row) }
        ensures table { cursor.new.table ≡ cursor.old.table }
        ensures moved { OnOk result (cursor.new.position ≡ suc cursor.old.position) }
        ensures stays { OnErr result (cursor.new.position ≡ cursor.old.position) }
        ensures end { result ≡ Err (code EndOfFile)
            → scan_row cursor.old.table cursor.old.position (state self.old) ≡ None }
        ensures answers { AnswersOnly (EndOfFile ∷ []) (kind self.old).files
            (disk volume.old).told result };

    /// The live row with this key.
    ///
    /// 120 exactly where there is none. `Device`; `Memory`.
    fn index_read(
        &mut self,
        volume: &mut dyn Storage,
        table: &Name,
        key: &Value,
    ) -> Result<Row, EngineFault>
        requires key { IsKeyFor (live_schema table.now (state self.old)) key.now }
        requires holds { IsTrue (disk volume.old).told
            → holds self.old (files_in (kind self.old).files (disk volume.old)) }
        ensures same { IsSame (kind self.old) (kind self.new)
            (reading self.old) (reading self.new) }
        ensures turns { Turns (kind self.old) (reading self.old) result (state self.old)
            (state self.old) (state self.new) (holds self.new) (disk volume.old) (disk volume.new) }
        ensures found { IfOk result
            (λ row. live_row table.now key.now (state self.old) ≡ Some row) }
        ensures absent { result ≡ Err (code KeyNotFound)
            → live_row table.now key.now (state self.old) ≡ None }
        ensures answers { AnswersOnly (KeyNotFound ∷ []) (kind self.old).files
            (disk volume.old).told result };

    /// The live row of the least key above this one.
    ///
    /// 137 exactly where there is none. `Device`; `Memory`.
    fn index_next(
        &mut self,
        volume: &mut dyn Storage,
        table: &Name,
        after: &Value,
    ) -> Result<Row, EngineFault>
        requires key { IsKeyFor (live_schema table.now (state self.old)) after.now }
        requires holds { IsTrue (disk volume.old).told
            → holds self.old (files_in (kind self.old).files (disk volume.old)) }
        ensures same { IsSame (kind self.old) (kind self.new)
            (reading self.old) (reading self.new) }
        ensures turns { Turns (kind self.old) (reading self.old) result (state self.old)
            (state self.old) (state self.new) (holds self.new) (disk volume.old) (disk volume.new) }
        ensures found { IfOk result
            (λ row. live_above table.now after.now (state self.old) ≡ Some row) }
        ensures end { result ≡ Err (code EndOfFile)
            → live_above table.now after.now (state self.old) ≡ None }
        ensures answers { AnswersOnly (EndOfFile ∷ []) (kind self.old).files
            (disk volume.old).told result };

    /// Adds a row.
    ///
    /// 121 exactly where its key is there; else 135 exactly where the live bytes would pass their limit. `Device`; `Memory`.
    fn write_row(
        &mut self,
        volume: &mut dyn Storage,
        txn: u32,
        table: &Name,
        row: &Row,
    ) -> Result<(), EngineFault>
        requires row { IsRowFor (live_schema table.now (state self.old)) row.now }
        requires unprepared { is_under txn (state self.old) ≡ false }
        requires apart { IsInsertApart txn
            (insert_into table.now (live_schema table.now (state self.old)) row.now)
            (state self.old) }
        requires holds { IsTrue (disk volume.old).told
            → holds self.old (files_in (kind self.old).files (disk volume.old)) }
        ensures same { IsSame (kind self.old) (kind self.new)
            (reading self.old) (reading self.new) }
        ensures turns { Turns (kind self.old) (reading self.old) result
            (wrote_state txn table.now row.now (state self.old))
            (state self.old) (state self.new) (holds self.new) (disk volume.old) (disk volume.new) }
        ensures duplicate { result ≡ Err (code Duplicate)
            → IsTrue (is_taken table.now row.now (state self.old)) }
        ensures not_duplicate { OnOk result
            (is_taken table.now row.now (state self.old) ≡ false) }
        ensures full { result ≡ Err (code Full)
            → (is_taken table.now row.now (state self.old) ≡ false)
            × (HasRoom (wrote_state txn table.now row.now (state self.old)) → ⊥) }
        ensures not_full { OnOk result (HasRoom (state self.new)) }
        ensures answers { AnswersOnly (Duplicate ∷ Full ∷ []) (kind self.old).files
            (disk volume.old).told result };

    /// How many live rows a table has.
    fn records(&self, table: &Name) -> u64
        requires { IsLive table.now (state self.now) }
        ensures { result ≡ length (live_rows table.now (state self.now)) };

    /// The schema of a live table; None exactly where no table of this name is live.
    fn live(&self, table: &Name) -> Option<&Schema>
        ensures { option_copied result ≡ live_schema table.now (state self.now) };

    /// Prepares a transaction: its changes are in the files, synced, under this xid.
    ///
    /// 135 exactly where the journal has no room for it. `Device`; `Memory`.
    fn prepare(&mut self, volume: &mut dyn Storage, txn: u32, xid: u64) -> Result<(), EngineFault>
        requires transactional { IsTrue (kind self.old).flags.transactional }
        requires unprepared { is_under txn (state self.old) ≡ false }
        requires fresh { is_prepared xid (state self.old).gist.prepared ≡ false }
        requires holds { IsTrue (disk volume.old).told
            → holds self.old (files_in (kind self.old).files (disk volume.old)) }
        ensures same { IsSame (kind self.old) (kind self.new)
            (reading self.old) (reading self.new) }
        ensures turns { Turns (kind self.old) (reading self.old) result
            (prepared_state txn xid (state self.old))
            (state self.old) (state self.new) (holds self.new) (disk volume.old) (disk volume.new) }
        ensures full { result ≡ Err (code Full) → IsTrue (is_spent self.old txn xid) }
        ensures not_full { OnOk result (is_spent self.old txn xid ≡ false) }
        ensures answers { AnswersOnly (Full ∷ []) (kind self.old).files
            (disk volume.old).told result };

    /// Commits a transaction as this number of the log.
    ///
    /// `Device`; `Memory`, which never comes where it was prepared.
    fn commit(
        &mut self,
        volume: &mut dyn Storage,
        txn: u32,
        xid: u64,
        number: u64,
    ) -> Result<(), EngineFault>
        requires prepared { IsTrue (kind self.old).flags.transactional
            → IsUnder txn xid (state self.old) }
        requires later { (state self.old).gist.last < number }
        requires holds { IsTrue (disk volume.old).told
            → holds self.old (files_in (kind self.old).files (disk volume.old)) }
        ensures same { IsSame (kind self.old) (kind self.new)
            (reading self.old) (reading self.new) }
        ensures turns { Turns (kind self.old) (reading self.old) result
            (committed_state txn xid number (state self.old))
            (state self.old) (state self.new) (holds self.new) (disk volume.old) (disk volume.new) }
        ensures after_prepare { IsTrue (is_under txn (state self.old)) → IsDoneOrDevice result }
        ensures answers { AnswersOnly ([]) (kind self.old).files (disk volume.old).told result };

    /// Undoes a transaction, prepared or not. It takes no memory, and makes a device call only where it was prepared.
    ///
    /// `Device`.
    fn rollback(&mut self, volume: &mut dyn Storage, txn: u32) -> Result<(), EngineFault>
        requires holds { IsTrue (disk volume.old).told
            → holds self.old (files_in (kind self.old).files (disk volume.old)) }
        ensures same { IsSame (kind self.old) (kind self.new)
            (reading self.old) (reading self.new) }
        ensures turns { Turns (kind self.old) (reading self.old) result
            (rolled_back_state txn (state self.old))
            (state self.old) (state self.new) (holds self.new) (disk volume.old) (disk volume.new) }
        ensures device_calls { is_under txn (state self.old) ≡ false
            → (disk volume.new).calls ≡ (disk volume.old).calls }
        ensures answers { IsDoneOrDevice result };

    /// The prepared xids, in order of preparation.
    ///
    /// `Device`; `Memory`.
    fn recover(&mut self, volume: &mut dyn Storage) -> Result<Vec<u64>, EngineFault>
        requires holds { IsTrue (disk volume.old).told
            → holds self.old (files_in (kind self.old).files (disk volume.old)) }
        ensures same { IsSame (kind self.old) (kind self.new)
            (reading self.old) (reading self.new) }
        ensures turns { Turns (kind self.old) (reading self.old) result (state self.old)
            (state self.old) (state self.new) (holds self.new) (disk volume.old) (disk volume.new) }
        ensures xids { IfOk result
            (λ found. found.items ≡ map (λ it. it.xid) (state self.old).gist.prepared) }
        ensures answers { AnswersOnly ([]) (kind self.old).files (disk volume.old).told result };

    /// Commits what an earlier run prepared under this xid, as this number of the log; where its changes do not apply, or the number does
    /// not exceed the last, it is rolled back.
    ///
    /// `Device`; `Memory`.
    fn commit_by_xid(
        &mut self,
        volume: &mut dyn Storage,
        xid: u64,
        number: u64,
    ) -> Result<(), EngineFault>
        requires left { IsLeft xid (state self.old) }
        requires holds { IsTrue (disk volume.old).told
            → holds self.old (files_in (kind self.old).files (disk volume.old)) }
        ensures same { IsSame (kind self.old) (kind self.new)
            (reading self.old) (reading self.new) }
        ensures turns { Turns (kind self.old) (reading self.old) result
            (resolved_state xid number (state self.old))
            (state self.old) (state self.new) (holds self.new) (disk volume.old) (disk volume.new) }
        ensures answers { AnswersOnly ([]) (kind self.old).files (disk volume.old).told result };

    /// Rolls back what an earlier run prepared under this xid.
    ///
    /// `Device`; `Memory`.
    fn rollback_by_xid(&mut self, volume: &mut dyn Storage, xid: u64) -> Result<(), EngineFault>
        requires left { IsLeft xid (state self.old) }
        requires holds { IsTrue (disk volume.old).told
            → holds self.old (files_in (kind self.old).files (disk volume.old)) }
        ensures same { IsSame (kind self.old) (kind self.new)
            (reading self.old) (reading self.new) }
        ensures turns { Turns (kind self.old) (reading self.old) result
            (dropped_state xid (state self.old))
            (state self.old) (state self.new) (holds self.new) (disk volume.old) (disk volume.new) }
        ensures answers { AnswersOnly ([]) (kind self.old).files (disk volume.old).told result };

    /// Syncs its files.
    ///
    /// `Device`; `Memory`.
    fn flush_logs(&mut self, volume: &mut dyn Storage) -> Result<(), EngineFault>
        requires holds { IsTrue (disk volume.old).told
            → holds self.old (files_in (kind self.old).files (disk volume.old)) }
        ensures same { IsSame (kind self.old) (kind self.new)
            (reading self.old) (reading self.new) }
        ensures turns { Turns (kind self.old) (reading self.old) result
            (synced_state (state self.old))
            (state self.old) (state self.new) (holds self.new) (disk volume.old) (disk volume.new) }
        ensures settled { IsTrue (disk volume.old).told
            → OnOk result (All IsSettled (files_in (kind self.old).files (disk volume.new))) }
        ensures answers { AnswersOnly ([]) (kind self.old).files (disk volume.old).told result };

    /// The number of its last commit.
    fn last_number(&self) -> u64
        ensures { result ≡ (state self.now).gist.last };
}
