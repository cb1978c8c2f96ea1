//! Looks at lists of requests: what is covered, who is in the way, where an owner waits.
ghost use Rattle.std.specs.Prelude.{◌≡◌, ◌==◌, ◌&&◌, ◌++◌, ◌∷◌, [], List, ℕ, length, position};
ghost use Rattle.std.specs.Prelude.{filter};
ghost use Rattle.std.specs.List.{list_any};
ghost use Rattle.row_locks.specs.Modes.{are_in_conflict};
ghost use Rattle.row_locks.specs.Queues.{among, first, in_way, is_covered};
ghost use Rattle.row_locks.specs.Inside.{flags, least_of};

use crate::{Lock, Request};

/// Whether a lock of this owner covers this one.
pub(crate) fn is_covered(granted: &[Request], owner: u32, lock: &Lock) -> bool
    ensures { result ≡ is_covered granted.now (record { owner = owner; lock = lock.now }) }
{
    granted.iter().any(|it| it.covers(owner, lock))
}

fn first_of(before: &[Request], it: &Request) -> Option<u32>
    ensures { result ≡ first (in_way before.now it.now) }
{
    for other in before {
        if other.conflicts(it) {
            return Some(other.owner);
        }
    }
    None
}

/// The first owner in the way of a request, where these locks and these waits stand before it.
pub(crate) fn first_in_way(granted: &[Request], waits: &[Request], it: &Request) -> Option<u32>
    ensures { result ≡ first (in_way (granted.now ++ waits.now) it.now) }
{
    match first_of(granted, it) {
        Some(owner) => Some(owner),
        None => first_of(waits, it),
    }
}

fn is_of(other: &Request, owner: u32, it: &Request) -> bool
    ensures { result ≡ ((other.now.owner == owner) && are_in_conflict other.now it.now) }
{
    other.owner == owner && other.conflicts(it)
}

fn has_one_of(before: &[Request], it: &Request, owner: u32) -> bool
    ensures { result ≡ list_any
        (λ other. (other.owner == owner) && are_in_conflict other it.now) before.now }
{
    before.iter().any(|other| is_of(other, owner, it))
}

/// Whether this owner is in the way of a request, where these locks and these waits stand before it.
pub(crate) fn is_in_way(granted: &[Request], waits: &[Request], it: &Request, owner: u32) -> bool
    ensures { result ≡ among owner (in_way (granted.now ++ waits.now) it.now) }
{
    has_one_of(granted, it, owner) || has_one_of(waits, it, owner)
}

/// Where an owner waits.
pub(crate) fn place_of(waits: &[Request], owner: u32) -> Option<usize>
    ensures { result ≡ position (λ it. it.owner == owner) waits.now }
{
    waits.iter().position(|it| it.owner == owner)
}

fn lesser(best: Option<u32>, owner: u32) -> u32
    ensures { least_of best (owner ∷ []) ≡ Some result }
{
    match best {
        Some(best) => best.min(owner),
        None => owner,
    }
}

/// The least of the best so far and of the marked owners in the way of a request, where these stand before it.
pub(crate) fn least_marked(
    before: &[Request],
    marked: &[bool],
    it: &Request,
    best: Option<u32>,
) -> Option<u32>
    requires { length marked.now ≡ length before.now }
    ensures { (reached : List ℕ) → marked.now ≡ flags reached before.now
        → result ≡ least_of best (filter (λ a. among a reached) (in_way before.now it.now)) }
{
    let mut best = best;
    for k in 0..before.len() {
        if marked[k] && before[k].conflicts(it) {
            best = Some(lesser(best, before[k].owner));
        }
    }
    best
}
