//! A list of numbers in which one that comes or goes moves few of the others.
//!
//! It stands in blocks that are all full but the last (`ArePacked`), so a place tells its block. A number that comes moves those of its
//! block, and from each block behind it one number to the next.
ghost use Rattle.std.specs.Prelude.{◌≡◌, ◌≤◌, ◌<◌, ◌+◌, ◌*◌, [], length, insert, remove, slice_get, Some, OnOk};
ghost use Rattle.std.specs.List.{concat};
ghost use Rattle.row_store.specs.Blocks.{full, Listed, ArePacked};

use crate::block::{BLOCK, Block};
use crate::pack::{add_blocks, settle_extra, settle_gap};
use std::alloc::{AllocError, Global};
use std::marker::Model;

/// Numbers in order, and room for more.
#[derive(Drop)]
pub(crate) struct Order {
    blocks: Vec<Block>,
    len: usize,
    alloc: Global,
}

impl Model for Order {
    ghost Value = { Listed };

    ghost view = { λ o. record {
      items = concat o.blocks.items;
      room = full * length o.blocks.items;
    } };

    ghost invariant = { λ o. ArePacked o.len o.blocks.items };
}

impl Order {
    /// No numbers, and room for none. No memory is taken.
    pub(crate) fn new(alloc: Global) -> Order
        ensures { result ≡ record { items = []; room = 0 } }
    {
        Order {
            blocks: Vec::new(alloc),
            len: 0,
            alloc,
        }
    }

    /// How many numbers there are.
    pub(crate) fn len(&self) -> usize
        ensures { result ≡ length self.now.items }
    {
        self.len
    }

    /// The number at a place.
    pub(crate) fn get(&self, i: usize) -> Option<u32>
        ensures { result ≡ slice_get self.now.items i }
    {
        if i < self.len {
            self.blocks[i / BLOCK].get(i % BLOCK)
        } else {
            None
        }
    }

    /// Makes room for so many numbers more.
    ///
    /// `AllocError` for want of memory; then there may be more room than before.
    pub(crate) fn reserve(&mut self, n: usize) -> Result<(), AllocError>
        ensures items { self.new.items ≡ self.old.items }
        ensures no_less { self.old.room ≤ self.new.room }
        ensures room { OnOk result (length self.new.items + n ≤ self.new.room) }
    {
        let rest = (self.len % BLOCK + n % BLOCK).div_ceil(BLOCK);
        let wanted = self.len / BLOCK + n / BLOCK + rest;
        add_blocks(&mut self.blocks, wanted, self.alloc)
    }

    /// Puts a number at a place, where there is room for one more.
    pub(crate) fn insert_reserved(&mut self, i: usize, number: u32)
        requires within { i ≤ length self.old.items }
        requires few { length self.old.items < 4294967295 }
        requires room { length self.old.items < self.old.room }
        ensures items { self.new.items ≡ insert self.old.items i number }
        ensures room { self.new.room ≡ self.old.room }
    {
        let k = i / BLOCK;
        self.blocks[k].insert(i % BLOCK, number);
        settle_extra(&mut self.blocks, k, self.len);
        self.len += 1;
    }

    /// Takes out the number at a place.
    pub(crate) fn remove(&mut self, i: usize) -> u32
        requires within { i < length self.old.items }
        ensures value { slice_get self.old.items i ≡ Some result }
        ensures items { self.new.items ≡ remove self.old.items i }
        ensures room { self.new.room ≡ self.old.room }
    {
        let k = i / BLOCK;
        let number = self.blocks[k].remove(i % BLOCK);
        self.len -= 1;
        settle_gap(&mut self.blocks, k, self.len);
        number
    }
}
