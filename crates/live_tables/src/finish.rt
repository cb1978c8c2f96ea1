//! How a transaction ends: prepared, committed or rolled back.
ghost use Rattle.std.specs.Prelude.{◌≡◌, ◌≤◌, ◌∷◌, [], None, Some, OnOk, IfOk, map, false};
ghost use Rattle.log_tables.specs.Gists.{is_prepared};
ghost use Rattle.engine_api.specs.States.{prepared_state, committed_state, rolled_back_state};
ghost use Rattle.engine_api.specs.Live.{is_under, IsUnder};

use crate::bytes::changes_len;
use crate::tables::append_reserved;
use crate::{LiveTables, pending};
use std::alloc::AllocError;

impl LiveTables {
    /// Takes memory for the `prepare` of one transaction.
    ///
    /// `AllocError` for want of memory.
    pub fn reserve(&mut self) -> Result<(), AllocError>
        ensures same { self.new.state ≡ self.old.state }
        ensures room { OnOk result (1 ≤ self.new.spare) }
    {
        self.pending.reserve(1)
    }

    /// A transaction is prepared under this xid. No memory is taken.
    pub fn prepare(&mut self, txn: u32, xid: u64)
        requires room { 1 ≤ self.old.spare }
        requires unprepared { is_under txn self.old.state ≡ false }
        requires fresh { is_prepared xid self.old.state.gist.prepared ≡ false }
        ensures state { self.new.state ≡ prepared_state txn xid self.old.state }
    {
        pending::prepare(&mut self.pending, self.alloc, txn, xid);
    }

    /// A transaction that is prepared under this xid is committed as this number. No memory is taken.
    pub fn commit(&mut self, txn: u32, xid: u64, number: u64)
        requires { IsUnder txn xid self.old.state }
        ensures { self.new.state ≡ committed_state txn xid number self.old.state }
    {
        let Some(it) = pending::take(&mut self.pending, txn) else {
            unreachable!();
        };
        let changes = it.into_changes();
        let len = changes_len(&changes);
        self.opened -= len;
        self.waits += len;
        self.waiting -= changes.len();
        append_reserved(&mut self.done, changes);
        self.last = number;
        self.settle();
    }

    /// What a transaction has pending is undone. No memory is taken.
    pub fn rollback(&mut self, txn: u32)
        ensures { self.new.state ≡ rolled_back_state txn self.old.state }
    {
        let Some(it) = pending::take(&mut self.pending, txn) else {
            return;
        };
        self.opened -= changes_len(it.changes());
        self.waiting -= it.changes().len();
    }

    /// The prepared xids, in order of preparation.
    ///
    /// `AllocError` for want of memory.
    pub fn xids(&self) -> Result<Vec<u64>, AllocError>
        ensures { IfOk result (λ found. found.items
            ≡ map (λ it. it.xid) self.now.state.gist.prepared) }
    {
        let mut xids = Vec::new(self.alloc);
        for it in &self.left {
            xids.push(it.xid)?;
        }
        pending::add_xids(&self.pending, &mut xids)?;
        Ok(xids)
    }
}
