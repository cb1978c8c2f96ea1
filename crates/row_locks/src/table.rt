//! The lock table: wishes, and the release of all that an owner has.
//!
//! Invariant: no cycle of waits stands, no owner waits twice, and no wait stands that could be granted (`IsSound`). There is room
//! for each wait among the granted locks, so a release takes no memory.
ghost use Rattle.std.specs.Prelude.{◌≡◌, ◌+◌, ◌^◌, ◌<◌, ◌≤◌, ◌↔◌, [], false, None, Some, IfOk};
ghost use Rattle.std.specs.Prelude.{OnOk, OnErr, length};
ghost use Rattle.row_locks.specs.Queues.{among, owners, queue, first, in_way, holder_of};
ghost use Rattle.row_locks.specs.Queues.{is_covered, is_free};
ghost use Rattle.row_locks.specs.Queues.{waits_for, with_lock, with_wait, others, released};
ghost use Rattle.row_locks.specs.Queues.{settled};
ghost use Rattle.std.specs.Vec.{vec_len, vec_capacity};
ghost use Rattle.row_locks.specs.Cycles.{NoneBegins};
ghost use Rattle.row_locks.specs.Answers.{IsSound, Answers, ComesWhere};

use crate::cycle::least_cycle;
use crate::requests::{first_in_way, is_covered, place_of};
use crate::{Lock, Request, Want};
use std::alloc::{AllocError, Global};
use std::marker::Model;

/// Which owners hold which locks, and which wait for which. (This project.)
#[derive(Drop)]
pub struct LockTable {
    alloc: Global,
    granted: Vec<Request>,
    waits: Vec<Request>,
}

impl Model for LockTable {
    ghost use Rattle.std.specs.Prelude.{◌+◌, ◌≤◌};
    ghost use Rattle.std.specs.Vec.{vec_len, vec_capacity};
    ghost use Rattle.row_locks.specs.Queues.{Locks};
    ghost use Rattle.row_locks.specs.Answers.{IsSound};
    ghost use Rattle.row_locks.specs.Inside.{FitNumbers};

    ghost Value = { Locks };

    ghost view = { λ t. record { granted = t.granted.items; waits = t.waits.items } };

    ghost invariant = { λ t.
        IsSound (record { granted = t.granted.items; waits = t.waits.items })
        × FitNumbers t.waits.items
        × (vec_len t.granted + vec_len t.waits ≤ vec_capacity t.granted) };
}

// Takes the requests of an owner away.
fn take_away(requests: &mut Vec<Request>, owner: u32)
    ensures items { requests.new.items ≡ others owner requests.old.items }
    ensures len { vec_len requests.new ≤ vec_len requests.old }
    ensures capacity { vec_capacity requests.new ≡ vec_capacity requests.old }
{
    requests.retain(|it| it.owner != owner);
}

// Grants in order each wait that nobody is in the way of any more.
fn settle(granted: &mut Vec<Request>, waits: &mut Vec<Request>)
    requires { vec_len granted.old + vec_len waits.old ≤ vec_capacity granted.old }
    ensures settled { record { granted = granted.new.items; waits = waits.new.items }
        ≡ settled granted.old.items [] waits.old.items }
    ensures room { vec_len granted.new + vec_len waits.new ≤ vec_capacity granted.new }
{
    let mut k = 0;
    while k < waits.len() {
        if first_in_way(granted, &waits[..k], &waits[k]).is_none() {
            let it = waits.remove(k);
            granted.push_reserved(it);
        } else {
            k += 1;
        }
    }
}

impl LockTable {
    /// No locks, and nobody waits. No memory is taken.
    pub fn new(alloc: Global) -> LockTable
        ensures empty { result ≡ record { granted = []; waits = [] } }
        ensures sound { IsSound result }
    {
        LockTable {
            alloc,
            granted: Vec::new(alloc),
            waits: Vec::new(alloc),
        }
    }

    /// An owner that waits for nobody wants a lock.
    ///
    /// `Granted` where it has one that covers this, and nothing changes, or where nobody is in its way. `Waits` where somebody is;
    /// it has the lock as soon as nobody is any more (`release_all`). `Deadlock` where its wait would close a cycle; then nothing
    /// has changed. `AllocError` for want of memory; then nothing has changed either.
    pub fn want(&mut self, owner: u32, lock: &Lock) -> Result<Want, AllocError>
        requires { holder_of self.old owner ≡ None }
        ensures answer { IfOk result (λ answer.
            Answers (record { owner = owner; lock = lock.now }) answer self.old self.new) }
        ensures exact { IfOk result (λ answer.
            ComesWhere (record { owner = owner; lock = lock.now }) answer self.old) }
        ensures err { OnErr result (self.new ≡ self.old) }
        ensures sound { IsSound self.new }
    {
        if is_covered(&self.granted, owner, lock) {
            return Ok(Want::Granted);
        }
        let lock = lock.copy()?;
        let it = Request { owner, lock };
        match first_in_way(&self.granted, &self.waits, &it) {
            None => self.grant(it),
            Some(holder) => self.wait(it, holder),
        }
    }

    // The owner has the lock now.
    fn grant(&mut self, it: Request) -> Result<Want, AllocError>
        requires { among it.owner (owners self.old.waits) ≡ false }
        ensures ok { IfOk result (λ answer.
            (answer ≡ Want.Granted) × (self.new ≡ with_lock it self.old)) }
        ensures err { OnErr result (self.new ≡ self.old) }
        ensures sound { IsSound self.new }
    {
        self.granted.reserve(self.waits.len() + 1)?;
        self.granted.push_reserved(it);
        Ok(Want::Granted)
    }

    // The owner waits for the lock.
    fn note(&mut self, it: Request) -> Result<(), AllocError>
        requires idle { among it.owner (owners self.old.waits) ≡ false }
        requires number { it.owner < 2 ^ 32 }
        requires blocked { is_free (queue self.old) it ≡ false }
        requires no_cycle { NoneBegins (waits_for (with_wait it self.old)) it.owner }
        ensures ok { OnOk result (self.new ≡ with_wait it self.old) }
        ensures err { OnErr result (self.new ≡ self.old) }
        ensures sound { IsSound self.new }
    {
        self.granted.reserve(self.waits.len() + 1)?;
        self.waits.push(it)?;
        Ok(())
    }

    // The owner waits for the lock, if no cycle stands then.
    fn wait(&mut self, it: Request, holder: u32) -> Result<Want, AllocError>
        requires idle { among it.owner (owners self.old.waits) ≡ false }
        requires number { it.owner < 2 ^ 32 }
        requires uncovered { is_covered self.old.granted it ≡ false }
        requires holder { first (in_way (queue self.old) it) ≡ Some holder }
        ensures answer { IfOk result (λ answer. Answers it answer self.old self.new) }
        ensures err { OnErr result (self.new ≡ self.old) }
        ensures sound { IsSound self.new }
    {
        match least_cycle(self.alloc, &self.granted, &self.waits, &it)? {
            Some(cycle) => Ok(Want::Deadlock { cycle }),
            None => {
                self.note(it)?;
                Ok(Want::Waits { holder })
            }
        }
    }

    /// Takes the locks and the wait of an owner away, grants in queue order each wait that nobody is in the way of any more, and
    /// tells how many. No memory is taken.
    pub fn release_all(&mut self, owner: u32) -> u32
        ensures released { self.new ≡ released owner self.old }
        ensures granted { length (others owner self.old.granted) + result
            ≡ length self.new.granted }
        ensures sound { IsSound self.new }
    {
        take_away(&mut self.granted, owner);
        take_away(&mut self.waits, owner);
        let waits = self.waits.len();
        settle(&mut self.granted, &mut self.waits);
        (waits - self.waits.len()) as u32
    }

    /// Whether a lock that this owner has covers this one. So a wish for it changes nothing.
    pub fn holds(&self, owner: u32, lock: &Lock) -> bool
        ensures { result
            ≡ is_covered self.now.granted (record { owner = owner; lock = lock.now }) }
    {
        is_covered(&self.granted, owner, lock)
    }

    /// The first owner, in queue order, for whom this one waits; None exactly where it has no wait.
    pub fn waits(&self, owner: u32) -> Option<u32>
        ensures value { result ≡ holder_of self.now owner }
        ensures idle { (result ≡ None) ↔ (among owner (owners self.now.waits) ≡ false) }
    {
        let Some(k) = place_of(&self.waits, owner) else {
            return None;
        };
        first_in_way(&self.granted, &self.waits[..k], &self.waits[k])
    }
}
