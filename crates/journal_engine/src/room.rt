//! Whether the journal has room for a Prepare.
ghost use Rattle.std.specs.Prelude.{◌≡◌, ◌+◌, ◌*◌, ◌<◌, ◌^◌, List, nat_lt};
ghost use Rattle.frame_codec.specs.Frame.{limit};
ghost use Rattle.framed_file.specs.Framed.{header_len};
ghost use Rattle.redo_journal.specs.declared.record.Record.{Record as Entry};
ghost use Rattle.redo_journal.specs.declared.record.Record.TheVariants.{Prepare};
ghost use Rattle.redo_journal.specs.Replays.{end_behind, end_of_records, commit_size};
ghost use Rattle.redo_journal.specs.Journals.{IsJournal};
ghost use Rattle.journal_engine.specs.Engine.{AreWritable};

use binlog_events::items_len;
use engine_api::Prepared;
use redo_journal::Journal;

// Where a journal's first record stands.
const HEADER: u64 = 32;

// Where the last frame of a journal ends at most.
const LIMIT: u64 = 2_147_483_647;

// How many bytes a Commit has.
const COMMIT: u64 = 39;

// Where the next record of a journal goes.
fn end_of(journal: &Journal) -> u64
    ensures { (records : List Entry) → IsJournal journal.now records
        → result ≡ end_of_records header_len records }
{
    journal.len().max(HEADER)
}

/// Whether the Prepare of a transaction would leave no room for a Commit of each that is then prepared, of which `others` are already.
pub(crate) fn is_past(journal: &Journal, share: &Prepared, others: usize) -> bool
    requires { AreWritable share.now.changes }
    ensures { (records : List Entry) → IsJournal journal.now records → result
        ≡ nat_lt limit (end_behind (end_of_records header_len records) (Prepare share.now)
        + commit_size * (others + 1)) }
{
    // As many changes have at least as many bytes.
    if share.changes.as_slice().len() as u64 > LIMIT {
        return true;
    }
    let frame = 31 + items_len(&share.changes);
    let commits = (others as u64).saturating_add(1).saturating_mul(COMMIT);
    end_of(journal)
        .saturating_add(frame)
        .saturating_add(commits)
        > LIMIT
}
