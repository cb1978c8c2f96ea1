//! What the log tells at an opening: its xids, their numbers, and its dictionary.
//!
//! One transaction is in memory at a time. What is kept of each is its xid and its number (16 bytes), until the engine is recovered. The
//! dictionary has one definition for each table that there is.
ghost use Rattle.std.specs.Prelude.{[], IfOk};
ghost use Rattle.plugd.specs.Found.{IsFound};

use crate::noting::note;
use crate::xids::XidSet;
use binlog_file::Visit;
use dictionary::Dictionary;
use row_format::Transaction;
use std::alloc::{AllocError, Global};

/// What was found in the log so far. (This project.)
#[derive(Drop)]
pub(crate) struct Found {
    pub(crate) xids: XidSet,
    pub(crate) pairs: Vec<(u64, u64)>,
    pub(crate) dictionary: Dictionary,
}

impl Found {
    /// Nothing was found. `AllocError` for want of memory.
    pub(crate) fn none(alloc: Global) -> Result<Found, AllocError>
        ensures { IfOk result (IsFound []) }
    {
        let dictionary = Dictionary::new(alloc)?;
        Ok(Found {
            xids: XidSet::new(alloc),
            pairs: Vec::new(alloc),
            dictionary,
        })
    }
}

impl Visit for Found {
    ghost stands = { λ found log. IsFound log found };

    fn take(&mut self, txn: Transaction) -> Result<(), AllocError> {
        self.xids.add(txn.xid)?;
        let number = self.pairs.len() as u64 + 1;
        self.pairs.push((txn.xid, number))?;
        note(&mut self.dictionary, txn.changes.as_slice())
    }
}
