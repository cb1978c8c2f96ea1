//! Who is given the logged transactions at an opening, one at a time.
ghost use Rattle.std.specs.Prelude.{◌++◌, ◌∷◌, [], List, OnOk};
ghost use Rattle.row_format.specs.declared.change.Transaction.{Transaction as Logged};
ghost use Rattle.binlog_events.specs.Transaction.{IsFit};

use row_format::Transaction;
use std::alloc::AllocError;

/// A visitor of the log: it is given each logged transaction, in order. After an opening that was refused it is only dropped.
pub trait Visit {
    /// The transactions for which it stands.
    ghost stands: { Self → List Logged → Type 0 };

    /// Takes the next transaction, which can be spelt.
    ///
    /// `AllocError` for want of memory.
    fn take(&mut self, txn: Transaction) -> Result<(), AllocError>
        requires fit { IsFit txn }
        ensures { (list : List Logged) → stands self.old list
            → OnOk result (stands self.new (list ++ txn ∷ [])) };
}
