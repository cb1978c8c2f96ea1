//! The least cycle that a wait would close.
//!
//! The way goes from the owner that would wait to the least owner in its way that reaches it, and so on, until one waits for it
//! itself. No owner comes twice, since no cycle of waits stands.
ghost use Rattle.std.specs.Prelude.{◌≡◌, ◌∷◌, ◌++◌, ◌≤◌, true, false, None, Some, List, ℕ};
ghost use Rattle.std.specs.Prelude.{MatchOption, IfOk, filter, length, take};
ghost use Rattle.row_locks.specs.Queues.{among, owners, in_way, waits_for, with_wait};
ghost use Rattle.row_locks.specs.Cycles.{AreDistinct, NoneBegins, IsLeastCycle};
ghost use Rattle.row_locks.specs.Answers.{IsSound};
ghost use Rattle.row_locks.specs.Inside.{flags, least_of, MarksReach, IsNext, GoesBack};

use crate::Request;
use crate::marks::{Marks, reaching};
use crate::requests::{is_in_way, least_marked, place_of};
use sql_value::Cycle;
use std::alloc::{AllocError, Global};

// The least of the owners that are reached and in the way of a request, before which the locks and the first k waits stand.
fn least_reached(
    granted: &[Request],
    waits: &[Request],
    marks: &Marks,
    k: usize,
    it: &Request,
) -> Option<u32>
    requires place { k ≤ length waits.now }
    requires holding { marks.now.holding.items ≡ flags marks.now.reached.items granted.now }
    requires waiting { marks.now.waiting.items ≡ flags marks.now.reached.items waits.now }
    ensures least { result ≡ least_of None
        (filter (λ a. among a marks.now.reached.items)
        (in_way (granted.now ++ take k waits.now) it.now)) }
{
    let best = least_marked(granted, &marks.holding, it, None);
    least_marked(&waits[..k], &marks.waiting[..k], it, best)
}

// Whom the way back to the last owner goes on with; none where this owner waits for the last one itself.
fn next_of(granted: &[Request], waits: &[Request], marks: &Marks, last: u32, at: u32) -> Option<u32>
    requires once { AreDistinct (owners waits.now) }
    requires marks { MarksReach (record { granted = granted.now; waits = waits.now }) last
        marks.now.reached.items marks.now.holding.items marks.now.waiting.items }
    requires reached { among at marks.now.reached.items ≡ true }
    ensures next { let waits_for =
        waits_for (record { granted = granted.now; waits = waits.now }) in
        MatchOption result (waits_for at last ≡ true)
        (λ next. IsNext waits_for marks.now.reached.items last at next) }
{
    let Some(k) = place_of(waits, at) else {
        return None;
    };
    let it = &waits[k];
    if is_in_way(granted, &waits[..k], it, last) {
        return None;
    }
    least_reached(granted, waits, marks, k, it)
}

// The way from the last owner to this one, and on back to it.
fn way_back(
    alloc: Global,
    granted: &[Request],
    waits: &[Request],
    marks: &Marks,
    last: u32,
    start: u32,
) -> Result<Vec<u32>, AllocError>
    requires sound { IsSound (record { granted = granted.now; waits = waits.now }) }
    requires marks { MarksReach (record { granted = granted.now; waits = waits.now }) last
        marks.now.reached.items marks.now.holding.items marks.now.waiting.items }
    requires reached { among start marks.now.reached.items ≡ true }
    ensures way { IfOk result (λ way. (rest : List ℕ) × (way.items ≡ last ∷ start ∷ rest)
        × GoesBack (waits_for (record { granted = granted.now; waits = waits.now }))
        marks.now.reached.items last start rest) }
{
    let mut way = Vec::new(alloc);
    way.push(last)?;
    way.push(start)?;
    let mut at = start;
    while let Some(next) = next_of(granted, waits, marks, last, at) {
        way.push(next)?;
        at = next;
    }
    Ok(way)
}

/// The least cycle that this wait would close, of those that begin with its owner; none where it would close none.
///
/// `AllocError` for want of memory.
pub(crate) fn least_cycle(
    alloc: Global,
    granted: &[Request],
    waits: &[Request],
    it: &Request,
) -> Result<Option<Cycle>, AllocError>
    requires sound { IsSound (record { granted = granted.now; waits = waits.now }) }
    requires idle { among it.now.owner (owners waits.now) ≡ false }
    ensures least { let waits_for = waits_for
        (with_wait it.now (record { granted = granted.now; waits = waits.now })) in
        IfOk result (λ found. MatchOption found
        (NoneBegins waits_for it.now.owner)
        (λ cycle. IsLeastCycle waits_for it.now.owner cycle)) }
{
    let marks = reaching(alloc, granted, waits, it.owner)?;
    let Some(start) = least_reached(granted, waits, &marks, waits.len(), it) else {
        return Ok(None);
    };
    let way = way_back(alloc, granted, waits, &marks, it.owner, start)?;
    Ok(Some(Cycle::new(way)))
}
