//! Which xids were used, and which one a transaction gets.
//!
//! The xids are kept as ranges, so that a log whose xids follow one another takes constant memory.
ghost use Rattle.std.specs.Prelude.{◌≡◌, ◌≤◌, ◌<◌, ◌++◌, ◌∷◌, ◌^◌, [], ℕ, List, IfOk, OnOk, OnErr, IsTrue, ◌↔◌, MatchOption};
ghost use Rattle.plugd.specs.Xids.{xids_of, IsNextXid};
ghost use Rattle.plugd.specs.XidSet.{IsIn, IsInOne, HasXid, HasUpTo, Knows, IsLeastFree};

use binlog_file::Visit;
use row_format::Transaction;
use std::alloc::{AllocError, Global};

/// The numbers from `first` to `last`, or none where `last` is below `first`.
#[derive(Clone, Copy)]
pub(crate) struct XidRange {
    first: u64,
    last: u64,
}

/// The xids that were used, as ranges in the order in which they came. (This project.)
#[derive(Drop)]
pub(crate) struct XidSet {
    past: Vec<XidRange>,
    current: XidRange,
    greatest: u64,
}

impl XidRange {
    fn holds(&self, xid: u64) -> bool
        ensures { IsTrue result ↔ IsIn self.now xid }
    {
        self.first <= xid && xid <= self.last
    }
}

impl XidSet {
    /// No xid.
    pub(crate) fn new(alloc: Global) -> XidSet
        ensures { Knows result [] }
    {
        XidSet {
            past: Vec::new(alloc),
            current: XidRange { first: 1, last: 0 },
            greatest: 0,
        }
    }

    /// Picks the next xid and counts it as used: the greatest plus 1, or, once the last number was used, the least from 1
    /// that was not.
    ///
    /// `AllocError` for want of memory. It comes too where each number from 1 to `u64::MAX` was used: no log has room for so
    /// many.
    pub(crate) fn give(&mut self) -> Result<u64, AllocError>
        ensures given { (used : List ℕ) → Knows self.old used
            → IfOk result (λ xid. IsNextXid used xid × Knows self.new (used ++ xid ∷ [])) }
        ensures kept { (used : List ℕ) → Knows self.old used → OnErr result (Knows self.new used) }
        ensures fits { IfOk result (λ xid. xid < 2 ^ 64) }
    {
        let xid = self.next()?;
        self.add(xid)?;
        Ok(xid)
    }

    /// Counts an xid as used. `AllocError` for want of memory.
    pub(crate) fn add(&mut self, xid: u64) -> Result<(), AllocError>
        ensures added { (used : List ℕ) → Knows self.old used
            → OnOk result (Knows self.new (used ++ xid ∷ [])) }
        ensures kept { (used : List ℕ) → Knows self.old used → OnErr result (Knows self.new used) }
    {
        if self.current.last < u64::MAX && xid == self.current.last + 1 {
            self.current.last = xid;
        } else {
            self.past.push(self.current)?;
            self.current = XidRange {
                first: xid,
                last: xid,
            };
        }
        self.greatest = self.greatest.max(xid);
        Ok(())
    }

    // The xid that comes next.
    fn next(&self) -> Result<u64, AllocError>
        ensures { (used : List ℕ) → Knows self.now used → IfOk result (λ xid. IsNextXid used xid) }
    {
        if self.greatest < u64::MAX {
            return Ok(self.greatest + 1);
        }
        self.least_free()
    }

    // The least number from 1 that was not used.
    fn least_free(&self) -> Result<u64, AllocError>
        ensures { IfOk result (λ xid. IsLeastFree self.now xid) }
    {
        let mut candidate = 1u64;
        while let Some(last) = self.last_beside(candidate) {
            if last == u64::MAX {
                return Err(AllocError);
            }
            candidate = last + 1;
        }
        Ok(candidate)
    }

    // The last number of a range that holds the xid.
    fn last_beside(&self, xid: u64) -> Option<u64>
        ensures { MatchOption result (HasXid self.now xid → ⊥)
            (λ last. (xid ≤ last) × HasUpTo self.now xid last) }
    {
        if self.current.holds(xid) {
            return Some(self.current.last);
        }
        for range in &self.past {
            if range.holds(xid) {
                return Some(range.last);
            }
        }
        None
    }
}

impl Visit for XidSet {
    ghost stands = { λ s list. Knows s (xids_of list) };

    fn take(&mut self, txn: Transaction) -> Result<(), AllocError> {
        self.add(txn.xid)
    }
}

#[cfg(test)]
mod tests {
    use super::XidSet;
    use std::test::Fail;

    // The xids that are added, the xids that come next, and how many ranges are kept besides the current one.
    type Case<'a> = (&'a [u64], &'a [u64], usize);

    #[test]
    fn the_next_xids_follow_the_rule(rt: HostRuntime) -> Result<(), Fail> {
        let cases: [Case<'_>; 5] = [
            (&[], &[1, 2, 3], 0),
            (&[1, 2, 3], &[4, 5], 0),
            (&[1, 2, 7, 3], &[8, 9], 3),
            (&[u64::MAX - 1], &[u64::MAX, 1, 2], 2),
            (&[u64::MAX, 1, 2, 4], &[3, 5], 5),
        ];
        for (i, (used, given, kept)) in cases.iter().enumerate() {
            let mut set = XidSet::new(rt.alloc());
            for xid in *used {
                set.add(*xid)?;
            }
            for xid in *given {
                assert_eq!(rt; set.give()?, *xid, "case {i}");
            }
            assert_eq!(rt; set.past.len(), *kept, "case {i}");
        }
        Ok(())
    }
}
