//! What the files of a crash-safe engine stand for, as a value.
ghost use Rattle.std.specs.Prelude.{◌≡◌};

use crate::Tables;
use row_format::Changes;
use std::marker::Model;

/// A transaction that an engine has prepared: its identity, and its changes on tables of the engine.
#[derive(Drop)]
pub struct Prepared {
    pub xid: u64,
    pub changes: Changes,
}

/// Prepared transactions, in order of preparation.
#[derive(Drop)]
pub struct PreparedList {
    prepared: Vec<Prepared>,
}

impl Model for PreparedList {
    ghost use Rattle.std.specs.Prelude.{List};
    ghost use Rattle.log_tables.specs.declared.gist.Prepared.{Prepared};

    ghost Value = { List Prepared };

    ghost view = { λ p. p.prepared.items };
}

impl PreparedList {
    /// The list of these transactions. No memory is taken.
    pub fn new(prepared: Vec<Prepared>) -> PreparedList
        ensures { result ≡ prepared.items }
    {
        PreparedList { prepared }
    }

    /// The transactions, in order of preparation.
    pub fn as_slice(&self) -> &[Prepared]
        ensures { result.now ≡ self.now }
    {
        self.prepared.as_slice()
    }

    /// The transactions, to keep. No memory is taken.
    pub fn into_prepared(self) -> Vec<Prepared>
        ensures { result.items ≡ self }
    {
        self.prepared
    }
}

/// What the files of a crash-safe engine stand for: its committed tables, what it has prepared, and the number of its last commit.
#[derive(Drop)]
pub struct Gist {
    pub tables: Tables,
    pub prepared: PreparedList,
    pub last: u64,
}
