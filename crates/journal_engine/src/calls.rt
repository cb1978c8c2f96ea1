//! The calls of the engine.
ghost use Rattle.std.specs.Prelude.{◌≡◌, false};

use crate::JournalEngine;
use crate::copies::copy_changes;
use crate::engine::{named, small};
use crate::replay::replay;
use crate::room::is_past;
use crate::write::{flush, put};
use disk_model::Storage;
use engine_api::{Code, Cursor, Definition, Engine, EngineFault, Flags, KeyRule, Prepared, Use};
use redo_journal::{Journal, JournalFault, Record};
use row_format::{Changes, Name, Row, Schema, Text, Value, copy_row};

/// What the engine can do.
const FLAGS: Flags = Flags {
    transactional: true,
    crash_safe: true,
    key: KeyRule::Allowed,
    nulls: true,
};

impl Engine for JournalEngine {
    ghost use Rattle.journal_engine.specs.Engine.{kind_of, journal_reading, IsHeld, is_spent};

    ghost kind = { λ e. kind_of e };

    ghost reading = { λ e. journal_reading };

    ghost state = { λ e. e.live };

    ghost holds = { λ e files. IsHeld e.first_file e.journal e.live.gist files };

    ghost is_spent = { λ e txn xid. is_spent e.journal txn xid e.live };

    fn name(&self) -> &Name {
        &self.name
    }

    fn soname(&self) -> &Text {
        &self.soname
    }

    fn flags(&self) -> Flags {
        FLAGS
    }

    fn init(&mut self, volume: &mut dyn Storage, tables: &[Definition]) -> Result<(), EngineFault> {
        let opened = Journal::open(self.alloc, volume, self.first_file, None);
        let (journal, records) = match opened {
            Ok(opened) => opened,
            Err(JournalFault::NotAVolume { file }) => return Err(EngineFault::NotAVolume { file }),
            Err(JournalFault::Device) => return Err(EngineFault::Device),
            Err(JournalFault::Memory) => return Err(EngineFault::Memory),
        };
        self.live = replay(self.alloc, records)?;
        self.journal = Some(journal);
        Ok(())
    }

    fn deinit(&mut self, volume: &mut dyn Storage) -> Result<(), EngineFault> {
        flush(
            &mut self.journal,
            &mut self.live,
            self.alloc,
            self.first_file,
            volume,
        )
    }

    fn create(&mut self, txn: u32, table: &Name, schema: &Schema) -> Result<(), EngineFault> {
        named(table);
        named(&self.name);
        self.live.create(txn, &self.name, table, schema)
    }

    fn delete_table(&mut self, txn: u32, table: &Name) -> Result<(), EngineFault> {
        named(table);
        self.live.drop_table(txn, table)
    }

    fn external_lock(&mut self, txn: u32, table: &Name, wanted: Use) -> Result<(), EngineFault> {
        Ok(())
    }

    fn rnd_init(&mut self, table: &Name, cursor: &mut Cursor) -> Result<(), EngineFault> {
        let table = table.copy()?;
        *cursor = Cursor {
            table: Some(table),
            position: 0,
        };
        Ok(())
    }

    fn rnd_next(
        &mut self,
        volume: &mut dyn Storage,
        cursor: &mut Cursor,
    ) -> Result<Row, EngineFault> {
        let Some(table) = &cursor.table else {
            unreachable!();
        };
        let Some(row) = self.live.row_at(table, cursor.position) else {
            return Err(EngineFault::Code(Code::EndOfFile));
        };
        if cursor.position == u32::MAX {
            return Err(EngineFault::Memory);
        }
        let row = copy_row(self.alloc, row)?;
        cursor.position += 1;
        Ok(row)
    }

    fn index_read(
        &mut self,
        volume: &mut dyn Storage,
        table: &Name,
        key: &Value,
    ) -> Result<Row, EngineFault> {
        let Some(row) = self.live.row(table, key) else {
            return Err(EngineFault::Code(Code::KeyNotFound));
        };
        Ok(copy_row(self.alloc, row)?)
    }

    fn index_next(
        &mut self,
        volume: &mut dyn Storage,
        table: &Name,
        after: &Value,
    ) -> Result<Row, EngineFault> {
        let Some(row) = self.live.row_above(table, after)? else {
            return Err(EngineFault::Code(Code::EndOfFile));
        };
        Ok(copy_row(self.alloc, row)?)
    }

    fn write_row(
        &mut self,
        volume: &mut dyn Storage,
        txn: u32,
        table: &Name,
        row: &Row,
    ) -> Result<(), EngineFault> {
        named(table);
        self.live.insert(txn, table, row)
    }

    fn records(&self, table: &Name) -> u64 {
        self.live.records(table)
    }

    fn live(&self, table: &Name) -> Option<&Schema> {
        self.live.schema(table)
    }

    fn prepare(&mut self, volume: &mut dyn Storage, txn: u32, xid: u64) -> Result<(), EngineFault> {
        let Some(journal) = &self.journal else {
            return Err(EngineFault::NotAVolume {
                file: self.first_file,
            });
        };
        let changes = copy_changes(self.alloc, self.live.changes(txn))?;
        let share = Prepared {
            xid,
            changes: Changes::new(changes),
        };
        if is_past(journal, &share, self.live.xids()?.len()) {
            return Err(EngineFault::Code(Code::Full));
        }
        self.live.reserve()?;
        let entry = Record::Prepare(share);
        put(
            &mut self.journal,
            &mut self.live,
            self.alloc,
            volume,
            &entry,
        )?;
        self.live.prepare(txn, xid);
        Ok(())
    }

    fn commit(
        &mut self,
        volume: &mut dyn Storage,
        txn: u32,
        xid: u64,
        number: u64,
    ) -> Result<(), EngineFault> {
        self.live.laws();
        let entry = Record::Commit { xid, number };
        put(
            &mut self.journal,
            &mut self.live,
            self.alloc,
            volume,
            &entry,
        )?;
        self.live.commit(txn, xid, number);
        Ok(())
    }

    fn rollback(&mut self, volume: &mut dyn Storage, txn: u32) -> Result<(), EngineFault> {
        let Some(xid) = self.live.xid(txn) else {
            self.live.rollback(txn);
            return Ok(());
        };
        small(xid);
        self.live.laws();
        let entry = Record::Rollback { xid };
        put(
            &mut self.journal,
            &mut self.live,
            self.alloc,
            volume,
            &entry,
        )?;
        self.live.rollback(txn);
        Ok(())
    }

    fn recover(&mut self, volume: &mut dyn Storage) -> Result<Vec<u64>, EngineFault> {
        Ok(self.live.xids()?)
    }

    fn commit_by_xid(
        &mut self,
        volume: &mut dyn Storage,
        xid: u64,
        number: u64,
    ) -> Result<(), EngineFault> {
        if !self.live.can_commit(xid, number) {
            return self.rollback_by_xid(volume, xid);
        }
        let entry = Record::Commit { xid, number };
        put(
            &mut self.journal,
            &mut self.live,
            self.alloc,
            volume,
            &entry,
        )?;
        self.live.commit_left(xid, number);
        Ok(())
    }

    fn rollback_by_xid(&mut self, volume: &mut dyn Storage, xid: u64) -> Result<(), EngineFault> {
        let entry = Record::Rollback { xid };
        put(
            &mut self.journal,
            &mut self.live,
            self.alloc,
            volume,
            &entry,
        )?;
        self.live.rollback_left(xid);
        Ok(())
    }

    fn flush_logs(&mut self, volume: &mut dyn Storage) -> Result<(), EngineFault> {
        flush(
            &mut self.journal,
            &mut self.live,
            self.alloc,
            self.first_file,
            volume,
        )
    }

    fn last_number(&self) -> u64 {
        self.live.last()
    }
}
