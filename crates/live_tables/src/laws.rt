//! What always holds of the state that the tables tell: a function that does nothing, with laws for its contract.
ghost use Rattle.std.specs.Prelude.{◌≡◌, ◌∷◌, [], ℕ, Some, true};
ghost use Rattle.log_tables.specs.Changes.{all_apply};
ghost use Rattle.log_tables.specs.Gists.{prepared_with};
ghost use Rattle.engine_api.specs.States.{changes_by, share_of};
ghost use Rattle.engine_api.specs.Live.{IsUnder};

use crate::LiveTables;

impl LiveTables {
    /// An image reads as the gist alone. What a transaction has pending applies to the committed tables, and stands prepared under the xid
    /// under which it is prepared.
    pub fn laws(&self)
        ensures kept { self.now.state.kept ≡ self.now.state.gist ∷ [] }
        ensures applies { (txn : ℕ)
            → all_apply (changes_by txn self.now.state.pending) self.now.state.gist.tables ≡ true }
        ensures prepared { (txn xid : ℕ) → IsUnder txn xid self.now.state
            → prepared_with xid self.now.state.gist.prepared ≡ Some (share_of txn xid self.now.state) }
    {
        let _last = self.last;
    }
}
