//! The engine, and how it is made.
//!
//! Invariant: the tables have what the journal's records stand for, and each change can be spelt (`IsWell`).
ghost use Rattle.std.specs.Prelude.{◌≡◌, ◌+◌, ◌<◌, ◌^◌, IfOk, codes};
ghost use Rattle.sql_value.specs.Names.{IsName};
ghost use Rattle.journal_engine.specs.Engine.{Journaled, not_begun};

use live_tables::LiveTables;
use redo_journal::Journal;
use row_format::{Name, Text};
use std::alloc::{AllocError, Global};
use std::marker::Model;

/// The engine JOURNAL. Before `init`, and after the device failed in any other call, it has no journal and no table.
#[derive(Drop)]
pub struct JournalEngine {
    pub(crate) alloc: Global,
    pub(crate) name: Name,
    pub(crate) soname: Text,
    pub(crate) first_file: u32,
    pub(crate) journal: Option<Journal>,
    pub(crate) live: LiveTables,
}

impl Model for JournalEngine {
    ghost use Rattle.journal_engine.specs.Engine.{Journaled, IsWell};

    ghost Value = { Journaled };

    ghost view = { λ e. record {
      name = e.name;
      soname = e.soname;
      first_file = e.first_file;
      journal = e.journal;
      live = e.live.state;
    } };

    ghost invariant = { λ e. IsWell e.first_file e.journal e.live.state };
}

// The engine's name.
fn engine_name(alloc: Global) -> Result<Name, AllocError>
    ensures { IfOk result (λ n. n ≡ codes "JOURNAL") }
{
    match Name::new(b"JOURNAL".to_vec(alloc)?) {
        Ok(name) => Ok(name),
        Err(_) => unreachable!(),
    }
}

impl JournalEngine {
    /// The engine whose journal is in the files `first_file` and `first_file + 1`. It has nothing before `init`.
    ///
    /// `AllocError` for want of memory.
    pub fn new(first_file: u32, alloc: Global) -> Result<JournalEngine, AllocError>
        requires { first_file + 1 < 2 ^ 32 }
        ensures { IfOk result (λ e. e ≡ not_begun first_file) }
    {
        Ok(JournalEngine {
            alloc,
            name: engine_name(alloc)?,
            soname: Text::new(b"ha_journal.so".to_vec(alloc)?),
            first_file,
            journal: None,
            live: LiveTables::new(alloc),
        })
    }
}

/// How great a number is: a function that does nothing, with a law for its contract.
pub(crate) fn small(number: u64)
    ensures { number < 2 ^ 64 }
{
    let _number = number;
}

/// What a name is: a function that does nothing, with a law for its contract.
pub(crate) fn named(name: &Name)
    ensures { IsName name.now }
{
    let _bytes = name.as_bytes();
}
