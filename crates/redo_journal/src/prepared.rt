//! The prepared transactions of a list of records, as the numbers of their records.
ghost use Rattle.std.specs.Prelude.{◌≡◌, ◌==◌, ◌++◌, ◌∷◌, [], find, filter, not, length, OnOk};
ghost use Rattle.redo_journal.specs.Index.{has_xid_at};

use crate::Record;
use crate::place::prepared_at;
use std::alloc::{AllocError, Global};

/// Prepared transactions, in order of preparation: for each the number of its Prepare, from 0.
#[derive(Drop)]
pub(crate) struct PreparedIndex {
    numbers: Vec<usize>,
}

// Whether the record with this number prepared a transaction with this xid.
fn has_xid_at(records: &[Record], xid: u64, number: usize) -> bool
    ensures { result ≡ has_xid_at records.now xid number }
{
    match prepared_at(records, number) {
        Some(it) => it.xid == xid,
        None => false,
    }
}

impl PreparedIndex {
    /// Nothing prepared.
    pub(crate) fn new(alloc: Global) -> PreparedIndex
        ensures { result.numbers.items ≡ [] }
    {
        PreparedIndex {
            numbers: Vec::new(alloc),
        }
    }

    /// How many there are.
    pub(crate) fn len(&self) -> usize
        ensures { result ≡ length self.now.numbers.items }
    {
        self.numbers.len()
    }

    /// The number of the Prepare of a transaction with this xid, if it is prepared.
    pub(crate) fn find(&self, records: &[Record], xid: u64) -> Option<usize>
        ensures { result ≡ find (has_xid_at records.now xid) self.now.numbers.items }
    {
        self.numbers
            .iter()
            .copied()
            .find(|number| has_xid_at(records, xid, *number))
    }

    /// Adds the transaction of the Prepare with this number.
    pub(crate) fn add(&mut self, number: usize) -> Result<(), AllocError>
        ensures { OnOk result (self.new.numbers.items ≡ self.old.numbers.items ++ number ∷ []) }
    {
        self.numbers.push(number)?;
        Ok(())
    }

    /// Removes each transaction with this xid.
    pub(crate) fn remove(&mut self, records: &[Record], xid: u64)
        ensures { self.new.numbers.items
            ≡ filter (λ number. not (has_xid_at records.now xid number)) self.old.numbers.items }
    {
        self.numbers
            .retain(|number| !has_xid_at(records, xid, *number));
    }
}
