//! A source over bytes in memory, which gives them piece by piece and fails where it is told to.
//!
//! Invariant: the position lies within the bytes, and a piece has at least one byte (`MemorySource`'s `Model`).
ghost use Rattle.std.specs.Prelude.{◌≡◌, ◌≤◌, ◌<◌, ℕ, List, [], Option, Some, take, drop, length, IfOk, OnErr};
ghost use Rattle.outer_io.specs.Ends.{Took, Counts};
ghost use Rattle.outer_io.specs.Memory.{Reading, Reads};

use crate::{Failed, Source};
use std::marker::Model;

/// Gives the bytes that it was made with, in order.
#[derive(Drop)]
pub struct MemorySource {
    bytes: Vec<u8>,
    at: usize,
    piece: usize,
    failing: Vec<u64>,
    calls: u64,
    faults: u64,
}

impl Model for MemorySource {
    ghost Value = { Reading };

    ghost view = { λ s. record {
      left = drop s.at s.bytes.items;
      piece = s.piece;
      failing = s.failing.items;
      calls = s.calls;
      faults = s.faults;
    } };

    ghost invariant = { λ s. (s.at ≤ length s.bytes.items) × (1 ≤ s.piece) };
}

impl MemorySource {
    /// A source of these bytes. A read gives at most `piece` of them, and the reads whose numbers, from 1, stand in `failing`
    /// fail.
    pub fn new(bytes: Vec<u8>, piece: usize, failing: Vec<u64>) -> MemorySource
        requires { 1 ≤ piece }
        ensures left { result.left ≡ bytes.items }
        ensures piece { result.piece ≡ piece }
        ensures failing { result.failing ≡ failing.items }
        ensures calls { result.calls ≡ 0 }
        ensures faults { result.faults ≡ 0 }
    {
        MemorySource {
            bytes,
            at: 0,
            piece,
            failing,
            calls: 0,
            faults: 0,
        }
    }
}

impl Source for MemorySource {
    ghost left = { λ s. Some s.left };

    ghost source_faults = { λ s. s.faults };

    fn read(&mut self, buf: &mut [u8]) -> Result<usize, Failed>
        ensures reads { Reads result buf.old buf.new self.old self.new }
        ensures took { IfOk result
            (λ n. Took (take n buf.new) (Some (self.old).left) (Some (self.new).left)) }
        ensures count { IfOk result (λ n. n ≤ length buf.old) }
        ensures ended { IfOk result (λ n. n ≡ 0 → 0 < length buf.old → (xs : List ℕ)
            → Some (self.old).left ≡ Some xs → xs ≡ []) }
        ensures failed { OnErr result (Some (self.new).left ≡ Some (self.old).left) }
        ensures counts { Counts result (self.old).faults (self.new).faults }
    {
        self.calls = self.calls.saturating_add(1);
        if self.failing.contains(&self.calls) {
            self.faults = self.faults.saturating_add(1);
            return Err(Failed);
        }
        let rest = &self.bytes[self.at..];
        let n = self.piece.min(buf.len().min(rest.len()));
        buf[..n].copy_from_slice(&rest[..n]);
        self.at += n;
        Ok(n)
    }

    fn faults(&self) -> u64 {
        self.faults
    }
}
