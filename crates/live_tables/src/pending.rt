//! What each transaction has pending.
//!
//! Invariant of a list of these: no transaction stands in it twice (`AreDistinct`).
ghost use Rattle.std.specs.Prelude.{◌≡◌, ◌++◌, ◌∷◌, [], None, Some, OnOk, OnErr, OnSome, position, ◌<◌, ◌≤◌, map};
ghost use Rattle.engine_api.specs.States.{Pending, is_by, pending_of, without_txn, changes_by, xid_by};
ghost use Rattle.std.specs.Option.{option_copied};
ghost use Rattle.std.specs.Vec.{vec_len, vec_capacity};
ghost use Rattle.live_tables.specs.Opens.{AreDistinct, shares};

use row_format::Change;
use std::alloc::{AllocError, Global};
use std::marker::Model;

/// The changes of a transaction that is neither committed nor rolled back, in order, and the xid under which it is prepared, if it is.
#[derive(Drop)]
pub(crate) struct Open {
    txn: u32,
    under: Option<u64>,
    changes: Vec<Change>,
}

impl Model for Open {
    ghost use Rattle.engine_api.specs.States.{Pending};

    ghost Value = { Pending };

    ghost view = { λ o. record { txn = o.txn; under = o.under; changes = o.changes.items } };
}

impl Open {
    /// The xid under which it is prepared.
    pub(crate) fn under(&self) -> Option<u64>
        ensures { result ≡ self.now.under }
    {
        self.under
    }

    /// Its changes, in order.
    pub(crate) fn changes(&self) -> &[Change]
        ensures { result.now ≡ self.now.changes }
    {
        self.changes.as_slice()
    }

    /// Its changes, to keep.
    pub(crate) fn into_changes(self) -> Vec<Change>
        ensures { result.items ≡ self.changes }
    {
        self.changes
    }
}

/// Where a transaction stands.
pub(crate) fn place_of(pending: &[Open], txn: u32) -> Option<usize>
    ensures { result ≡ position (is_by txn) pending.now }
{
    pending.iter().position(|it| it.txn == txn)
}

/// What a transaction has pending.
pub(crate) fn find(pending: &[Open], txn: u32) -> Option<&Open>
    ensures { option_copied result ≡ pending_of txn pending.now }
{
    pending.iter().find(|it| it.txn == txn)
}

/// Takes out what a transaction has pending.
pub(crate) fn take(pending: &mut Vec<Open>, txn: u32) -> Option<Open>
    requires { AreDistinct pending.old.items }
    ensures found { result ≡ pending_of txn pending.old.items }
    ensures rest { pending.new.items ≡ without_txn txn pending.old.items }
    ensures capacity { vec_capacity pending.new ≡ vec_capacity pending.old }
    ensures fewer { OnSome result (vec_len pending.new < vec_len pending.old) }
    ensures len { vec_len pending.new ≤ vec_len pending.old }
{
    let i = place_of(pending, txn)?;
    Some(pending.remove(i))
}

// The first change of a transaction.
fn begin(pending: &mut Vec<Open>, alloc: Global, txn: u32, change: Change) -> Result<(), AllocError>
    ensures ok { OnOk result (pending.new.items
        ≡ pending.old.items ++ (record { txn = txn; under = None; changes = change ∷ [] }) ∷ []) }
    ensures none { OnErr result (pending.new.items ≡ pending.old.items) }
{
    let mut changes = Vec::new(alloc);
    changes.push(change)?;
    pending.push(Open {
        txn,
        under: None,
        changes,
    })?;
    Ok(())
}

/// Adds a change to what a transaction has pending, which then stands last. Without memory all is as it was.
pub(crate) fn add_change(
    pending: &mut Vec<Open>,
    alloc: Global,
    txn: u32,
    change: Change,
) -> Result<(), AllocError>
    requires distinct { AreDistinct pending.old.items }
    requires unprepared { xid_by txn pending.old.items ≡ None }
    ensures ok { OnOk result (pending.new.items ≡ without_txn txn pending.old.items ++ (record {
      txn = txn;
      under = None;
      changes = changes_by txn pending.old.items ++ change ∷ [];
    }) ∷ []) }
    ensures none { OnErr result (pending.new.items ≡ pending.old.items) }
{
    let Some(i) = place_of(pending, txn) else {
        return begin(pending, alloc, txn, change);
    };
    pending[i].changes.push(change)?;
    let it = pending.remove(i);
    pending.push_reserved(it);
    Ok(())
}

/// A transaction is prepared under this xid, and then stands last.
pub(crate) fn prepare(pending: &mut Vec<Open>, alloc: Global, txn: u32, xid: u64)
    requires distinct { AreDistinct pending.old.items }
    requires room { vec_len pending.old < vec_capacity pending.old }
    ensures items { pending.new.items ≡ without_txn txn pending.old.items ++ (record {
      txn = txn;
      under = Some xid;
      changes = changes_by txn pending.old.items;
    }) ∷ [] }
{
    let changes = match take(pending, txn) {
        Some(it) => it.changes,
        None => Vec::new(alloc),
    };
    pending.push_reserved(Open {
        txn,
        under: Some(xid),
        changes,
    });
}

/// Adds the xids under which transactions are prepared, in order.
///
/// `AllocError` for want of memory.
pub(crate) fn add_xids(pending: &[Open], xids: &mut Vec<u64>) -> Result<(), AllocError>
    ensures { OnOk result (xids.new.items
        ≡ xids.old.items ++ map (λ it. it.xid) (shares pending.now)) }
{
    for it in pending {
        if let Some(xid) = it.under {
            xids.push(xid)?;
        }
    }
    Ok(())
}
