//! A block of numbers: a ring, so that numbers come and go at both ends at once, with room for one more than a full block has.
ghost use Rattle.std.specs.Prelude.{◌≡◌, ◌≤◌, ◌<◌, ℕ, List, [], ◌∷◌, ◌++◌, length, insert, remove, slice_get, Some, IfOk};
ghost use Rattle.std.specs.VecDeque.{deque_capacity};
ghost use Rattle.row_store.specs.Blocks.{full};

use std::alloc::{AllocError, Global};
use std::collections::VecDeque;
use std::marker::Model;

/// How many numbers a full block has.
pub(crate) const BLOCK: usize = 1_024;

/// Some numbers in order.
#[derive(Drop)]
pub(crate) struct Block {
    numbers: VecDeque<u32>,
}

impl Model for Block {
    ghost Value = { List ℕ };

    ghost view = { λ b. b.numbers.items };

    ghost invariant = { λ b. full < deque_capacity b.numbers };
}

impl Block {
    /// No numbers.
    pub(crate) fn new(alloc: Global) -> Result<Block, AllocError>
        ensures { IfOk result (λ b. b ≡ []) }
    {
        let numbers = VecDeque::with_capacity(alloc, BLOCK + 1)?;
        Ok(Block { numbers })
    }

    /// The number at a place.
    pub(crate) fn get(&self, i: usize) -> Option<u32>
        ensures { result ≡ slice_get self.now i }
    {
        self.numbers.get(i).copied()
    }

    /// Puts a number at a place.
    pub(crate) fn insert(&mut self, i: usize, number: u32)
        requires within { i ≤ length self.old }
        requires room { length self.old ≤ full }
        ensures items { self.new ≡ insert self.old i number }
    {
        match self.numbers.insert(i, number) {
            Ok(()) => {}
            Err(_) => unreachable!(),
        }
    }

    /// Takes out the number at a place.
    pub(crate) fn remove(&mut self, i: usize) -> u32
        requires within { i < length self.old }
        ensures value { slice_get self.old i ≡ Some result }
        ensures items { self.new ≡ remove self.old i }
    {
        match self.numbers.remove(i) {
            Some(number) => number,
            None => unreachable!(),
        }
    }

    /// Puts a number at the front.
    pub(crate) fn push_front(&mut self, number: u32)
        requires { length self.old ≤ full }
        ensures { self.new ≡ number ∷ self.old }
    {
        self.numbers.push_front_reserved(number);
    }

    /// Puts a number at the back.
    pub(crate) fn push_back(&mut self, number: u32)
        requires { length self.old ≤ full }
        ensures { self.new ≡ self.old ++ number ∷ [] }
    {
        self.numbers.push_back_reserved(number);
    }

    /// Takes out the first number.
    pub(crate) fn pop_front(&mut self) -> u32
        requires { 0 < length self.old }
        ensures { self.old ≡ result ∷ self.new }
    {
        match self.numbers.pop_front() {
            Some(number) => number,
            None => unreachable!(),
        }
    }

    /// Takes out the last number.
    pub(crate) fn pop_back(&mut self) -> u32
        requires { 0 < length self.old }
        ensures { self.old ≡ self.new ++ result ∷ [] }
    {
        match self.numbers.pop_back() {
            Some(number) => number,
            None => unreachable!(),
        }
    }
}
