//! Blocks that are full but for the last with any: a number that comes too many goes to the next block, and one that lacks comes from there.
ghost use Rattle.std.specs.Prelude.{◌≡◌, ◌≤◌, ◌<◌, ◌+◌, ◌*◌, ◌/◌, length, OnOk};
ghost use Rattle.std.specs.List.{concat};
ghost use Rattle.row_store.specs.Blocks.{full, block_at, ArePacked, HaveExtra, HaveGap, Passes, HasMoreBlocks};

use crate::block::{BLOCK, Block};
use std::alloc::{AllocError, Global};

// Moves the last number of a block to the front of the next.
fn pass_on(blocks: &mut [Block], k: usize)
    requires there { k + 1 < length blocks.old }
    requires some { 0 < length (block_at blocks.old k) }
    requires room { length (block_at blocks.old (k + 1)) ≤ full }
    ensures passes { Passes k blocks.old blocks.new }
{
    let number = blocks[k].pop_back();
    blocks[k + 1].push_front(number);
}

// Moves the first number of a block to the back of the one before it.
fn pass_back(blocks: &mut [Block], k: usize)
    requires there { k + 1 < length blocks.old }
    requires some { 0 < length (block_at blocks.old (k + 1)) }
    requires room { length (block_at blocks.old k) ≤ full }
    ensures passes { Passes k blocks.new blocks.old }
{
    let number = blocks[k + 1].pop_front();
    blocks[k].push_back(number);
}

/// Packs blocks that have `len` numbers, and one more in this block.
pub(crate) fn settle_extra(blocks: &mut [Block], from: usize, len: usize)
    requires extra { HaveExtra len from blocks.old }
    requires count { length (concat blocks.old) ≡ len + 1 }
    requires within { from ≤ len / full }
    requires room { len < full * length blocks.old }
    ensures same { concat blocks.new ≡ concat blocks.old }
    ensures packed { ArePacked (len + 1) blocks.new }
{
    for k in from..len / BLOCK {
        pass_on(blocks, k);
    }
}

/// Packs blocks that have `len` numbers, where this block had one more.
pub(crate) fn settle_gap(blocks: &mut [Block], from: usize, len: usize)
    requires gap { HaveGap (len + 1) from blocks.old }
    requires count { length (concat blocks.old) ≡ len }
    requires within { from ≤ len / full }
    requires room { len < full * length blocks.old }
    ensures same { concat blocks.new ≡ concat blocks.old }
    ensures packed { ArePacked len blocks.new }
{
    for k in from..len / BLOCK {
        pass_back(blocks, k);
    }
}

/// Makes blocks until there are so many.
#[tactic(auto, using(crate::proofs::BlockLemmas::more_none, crate::proofs::BlockLemmas::more_push))]
pub(crate) fn add_blocks(
    blocks: &mut Vec<Block>,
    wanted: usize,
    alloc: Global,
) -> Result<(), AllocError>
    ensures more { HasMoreBlocks blocks.old.items blocks.new.items }
    ensures no_less { length blocks.old.items ≤ length blocks.new.items }
    ensures room { OnOk result (wanted ≤ length blocks.new.items) }
{
    for _ in blocks.len()..wanted {
        blocks.push(Block::new(alloc)?)?;
    }
    Ok(())
}
