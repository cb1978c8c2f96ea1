//! The owners that reach one: each waits for it, or for another of these.
//!
//! The work grows with the number of requests times the number of waits.
ghost use Rattle.std.specs.Prelude.{◌≡◌, ◌≤◌, ◌<◌, ◌++◌, ◌∷◌, [], true, OnOk, IfOk, length, drop};
ghost use Rattle.std.specs.Prelude.{slice_set};
ghost use Rattle.std.specs.Vec.{vec_len};
ghost use Rattle.row_locks.specs.Queues.{among, owners, waits_for};
ghost use Rattle.row_locks.specs.Cycles.{AreDistinct};
ghost use Rattle.row_locks.specs.Inside.{is_behind, is_behind_any, flags, AreMarks, Adds, Reach};
ghost use Rattle.row_locks.specs.Inside.{MarksReach};

use crate::Request;
use crate::requests::place_of;
use std::alloc::{AllocError, Global};

/// The owners that are reached, in the order in which they were found; for each lock and for each wait, whether its owner is.
#[derive(Drop)]
pub(crate) struct Marks {
    pub(crate) reached: Vec<u32>,
    pub(crate) holding: Vec<bool>,
    pub(crate) waiting: Vec<bool>,
}

impl Marks {
    // Marks the owner of the wait at a place.
    fn mark(&mut self, k: usize, owner: u32) -> Result<(), AllocError>
        requires { k < vec_len self.old.waiting }
        ensures reached { OnOk result
            (self.new.reached.items ≡ self.old.reached.items ++ owner ∷ []) }
        ensures waiting { OnOk result
            (self.new.waiting.items ≡ slice_set self.old.waiting.items k true) }
    {
        self.reached.push(owner)?;
        self.waiting[k] = true;
        Ok(())
    }

    // Marks the owners of the waits from this place on that are in conflict with a request before them.
    fn add_behind(
        &mut self,
        other: &Request,
        waits: &[Request],
        from: usize,
    ) -> Result<(), AllocError>
        requires once { AreDistinct (owners waits.now) }
        requires marks { AreMarks waits.now self.old.reached.items self.old.waiting.items }
        requires from { from ≤ length waits.now }
        ensures adds { OnOk result (Adds (is_behind other.now (drop from waits.now))
            self.old.reached.items self.new.reached.items) }
        ensures marks { OnOk result
            (AreMarks waits.now self.new.reached.items self.new.waiting.items) }
    {
        for k in from..waits.len() {
            let it = &waits[k];
            if !self.waiting[k] && other.conflicts(it) {
                self.mark(k, it.owner)?;
            }
        }
        Ok(())
    }

    // Marks the owners that wait for a granted lock of this one.
    fn add_by_locks(
        &mut self,
        owner: u32,
        granted: &[Request],
        waits: &[Request],
    ) -> Result<(), AllocError>
        requires once { AreDistinct (owners waits.now) }
        requires marks { AreMarks waits.now self.old.reached.items self.old.waiting.items }
        ensures adds { OnOk result (Adds (is_behind_any owner granted.now waits.now)
            self.old.reached.items self.new.reached.items) }
        ensures marks { OnOk result
            (AreMarks waits.now self.new.reached.items self.new.waiting.items) }
    {
        for lock in granted {
            if lock.owner == owner {
                self.add_behind(lock, waits, 0)?;
            }
        }
        Ok(())
    }

    // Marks the owners that wait for this one.
    fn add(&mut self, owner: u32, granted: &[Request], waits: &[Request]) -> Result<(), AllocError>
        requires once { AreDistinct (owners waits.now) }
        requires marks { AreMarks waits.now self.old.reached.items self.old.waiting.items }
        ensures adds { OnOk result
            (Adds (λ a. waits_for (record { granted = granted.now; waits = waits.now }) a owner)
            self.old.reached.items self.new.reached.items) }
        ensures marks { OnOk result
            (AreMarks waits.now self.new.reached.items self.new.waiting.items) }
    {
        self.add_by_locks(owner, granted, waits)?;
        if let Some(k) = place_of(waits, owner) {
            self.add_behind(&waits[k], waits, k + 1)?;
        }
        Ok(())
    }
}

fn is_among(owners: &[u32], owner: u32) -> bool
    ensures { result ≡ among owner owners.now }
{
    owners.iter().any(|it| *it == owner)
}

// For each request, whether its owner is one of these.
fn flags_of(alloc: Global, reached: &[u32], requests: &[Request]) -> Result<Vec<bool>, AllocError>
    ensures { IfOk result (λ found. found.items ≡ flags reached.now requests.now) }
{
    let mut found = Vec::new(alloc);
    for it in requests {
        found.push(is_among(reached, it.owner))?;
    }
    Ok(found)
}

// The owners that reach this one, and the waits of those.
fn marks_of(
    alloc: Global,
    granted: &[Request],
    waits: &[Request],
    owner: u32,
) -> Result<Marks, AllocError>
    requires { AreDistinct (owners waits.now) }
    ensures reach { IfOk result (λ marks.
        Reach (waits_for (record { granted = granted.now; waits = waits.now }))
        marks.reached.items owner) }
    ensures marks { IfOk result (λ marks.
        AreMarks waits.now marks.reached.items marks.waiting.items) }
{
    let mut marks = Marks {
        reached: Vec::new(alloc),
        holding: Vec::new(alloc),
        waiting: flags_of(alloc, &[], waits)?,
    };
    marks.add(owner, granted, waits)?;
    let mut i = 0;
    while i < marks.reached.len() {
        let next = marks.reached[i];
        marks.add(next, granted, waits)?;
        i += 1;
    }
    Ok(marks)
}

/// Who reaches this owner, and the locks and the waits of those.
///
/// `AllocError` for want of memory.
pub(crate) fn reaching(
    alloc: Global,
    granted: &[Request],
    waits: &[Request],
    owner: u32,
) -> Result<Marks, AllocError>
    requires { AreDistinct (owners waits.now) }
    ensures { IfOk result (λ marks.
        MarksReach (record { granted = granted.now; waits = waits.now }) owner
        marks.reached.items marks.holding.items marks.waiting.items) }
{
    let mut marks = marks_of(alloc, granted, waits, owner)?;
    marks.holding = flags_of(alloc, &marks.reached, granted)?;
    Ok(marks)
}
