//! One record more in the journal, made durable before anything else is changed.
//!
//! After a fault of the device the engine has no journal and no table: it is only dropped then, or begun anew.
ghost use Rattle.std.specs.Prelude.{◌≡◌, OnOk};
ghost use Rattle.redo_journal.specs.Appending.{Admits, HasFiles};
ghost use Rattle.journal_engine.specs.Writing.{AdmitsIn, HasFilesIn, Writes, Puts, Flushes};

use disk_model::Storage;
use engine_api::EngineFault;
use live_tables::LiveTables;
use redo_journal::{Journal, JournalFault, Record};
use std::alloc::Global;

// Adds a record, by one write, and makes it durable, by one sync.
fn write(journal: &mut Journal, volume: &mut dyn Storage, entry: &Record) -> Result<(), EngineFault>
    requires fits { Admits journal.old entry.now }
    requires kept { HasFiles journal.old (disk volume.old) }
    ensures writes { Writes entry.now result journal.old journal.new
        (disk volume.old) (disk volume.new) }
{
    match journal.append(volume, entry) {
        Ok(()) => {}
        Err(JournalFault::Memory) => return Err(EngineFault::Memory),
        Err(JournalFault::Device) => return Err(EngineFault::Device),
        Err(JournalFault::NotAVolume { .. }) => unreachable!(),
    }
    match journal.sync(volume) {
        Ok(()) => Ok(()),
        Err(_) => Err(EngineFault::Device),
    }
}

/// Adds a record to the journal, and makes it durable. After a fault of the device nothing is left in memory.
pub(crate) fn put(
    journal: &mut Option<Journal>,
    live: &mut LiveTables,
    alloc: Global,
    volume: &mut dyn Storage,
    entry: &Record,
) -> Result<(), EngineFault>
    requires fits { AdmitsIn journal.old entry.now }
    requires kept { HasFilesIn journal.old (disk volume.old) }
    ensures puts { Puts entry.now result journal.old journal.new live.old.state live.new.state
        (disk volume.old) (disk volume.new) }
    ensures live { OnOk result (live.new ≡ live.old) }
{
    let Some(it) = journal else {
        unreachable!();
    };
    match write(it, volume, entry) {
        Ok(()) => Ok(()),
        Err(EngineFault::Device) => {
            *journal = None;
            *live = LiveTables::new(alloc);
            Err(EngineFault::Device)
        }
        Err(fault) => Err(fault),
    }
}

/// Makes the journal's records durable. After a fault of the device nothing is left in memory.
pub(crate) fn flush(
    journal: &mut Option<Journal>,
    live: &mut LiveTables,
    alloc: Global,
    first_file: u32,
    volume: &mut dyn Storage,
) -> Result<(), EngineFault>
    ensures { Flushes first_file result journal.old journal.new live.old.state live.new.state
        (disk volume.old) (disk volume.new) }
{
    let Some(it) = journal else {
        return Err(EngineFault::NotAVolume { file: first_file });
    };
    match it.sync(volume) {
        Ok(()) => Ok(()),
        Err(_) => {
            *journal = None;
            *live = LiveTables::new(alloc);
            Err(EngineFault::Device)
        }
    }
}
