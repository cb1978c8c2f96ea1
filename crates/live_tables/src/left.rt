//! What an earlier run left prepared: committed by its xid, or rolled back.
ghost use Rattle.std.specs.Prelude.{◌≡◌, ◌&&◌, Some, true, false, nat_lt, position};
ghost use Rattle.log_tables.specs.declared.gist.Prepared.{Prepared as Left};
ghost use Rattle.log_tables.specs.Changes.{all_apply};
ghost use Rattle.log_tables.specs.Gists.{has_xid, prepared_with, without_xid, after_commit};
ghost use Rattle.engine_api.specs.States.{with_gist, dropped_state};
ghost use Rattle.engine_api.specs.Live.{IsLeft};
ghost use Rattle.live_tables.specs.Opens.{HaveOwnXids};

use crate::LiveTables;
use crate::behind::all_fit;
use crate::bytes::changes_len;
use crate::tables::append_reserved;
use log_tables::Prepared;

// Where a prepared transaction stands.
fn place_of(left: &[Prepared], xid: u64) -> Option<usize>
    ensures { result ≡ position (has_xid xid) left.now }
{
    left.iter().position(|it| it.xid == xid)
}

// Takes out what is prepared under an xid.
fn take_left(left: &mut Vec<Prepared>, xid: u64) -> Option<Prepared>
    requires { HaveOwnXids left.old.items }
    ensures found { result ≡ prepared_with xid left.old.items }
    ensures rest { left.new.items ≡ without_xid xid left.old.items }
{
    let i = place_of(left, xid)?;
    Some(left.remove(i))
}

impl LiveTables {
    /// Whether what an earlier run prepared under this xid can be committed as this number: there is such a transaction, the number exceeds
    /// the last, and the changes apply.
    pub fn can_commit(&self, xid: u64, number: u64) -> bool
        ensures none { (IsLeft xid self.now.state → ⊥) → result ≡ false }
        ensures left { (it : Left) → prepared_with xid self.now.state.gist.prepared ≡ Some it
            → IsLeft xid self.now.state
            → result ≡ (nat_lt self.now.state.gist.last number
            && all_apply it.changes self.now.state.gist.tables) }
    {
        match place_of(&self.left, xid) {
            Some(i) => {
                self.last < number
                    && all_fit(&self.tables, &self.done, self.left[i].changes.as_slice())
            }
            None => false,
        }
    }

    /// What an earlier run prepared under this xid is committed as this number. No memory is taken.
    pub fn commit_left(&mut self, xid: u64, number: u64)
        requires left { IsLeft xid self.old.state }
        requires fits { (it : Left) → prepared_with xid self.old.state.gist.prepared ≡ Some it
            → all_apply it.changes self.old.state.gist.tables ≡ true }
        ensures state { (it : Left) → prepared_with xid self.old.state.gist.prepared ≡ Some it
            → self.new.state
            ≡ with_gist (after_commit it number self.old.state.gist) self.old.state }
    {
        let Some(it) = take_left(&mut self.left, xid) else {
            unreachable!();
        };
        let changes = it.changes.into_changes();
        self.waiting -= changes.len();
        append_reserved(&mut self.done, changes);
        self.last = number;
        self.settle();
    }

    /// What an earlier run prepared under this xid is undone. No memory is taken.
    pub fn rollback_left(&mut self, xid: u64)
        requires { IsLeft xid self.old.state }
        ensures { self.new.state ≡ dropped_state xid self.old.state }
    {
        let Some(it) = take_left(&mut self.left, xid) else {
            unreachable!();
        };
        self.waits -= changes_len(it.changes.as_slice());
        self.waiting -= it.changes.as_slice().len();
    }
}
