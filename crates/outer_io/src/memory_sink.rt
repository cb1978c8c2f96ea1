//! A sink that keeps the bytes in memory, and fails where it is told to.
ghost use Rattle.std.specs.Prelude.{◌≡◌, ◌≤◌, ◌<◌, ℕ, List, [], Option, Some, take, length, IfOk, OnErr};
ghost use Rattle.outer_io.specs.Ends.{Put, Counts};
ghost use Rattle.outer_io.specs.Memory.{Writing, Writes};

use crate::{Failed, Sink};
use std::alloc::Global;
use std::marker::Model;

/// Holds what was written to it.
#[derive(Drop)]
pub struct MemorySink {
    bytes: Vec<u8>,
    failing: Vec<u64>,
    calls: u64,
    faults: u64,
    starved: u64,
}

impl Model for MemorySink {
    ghost Value = { Writing };

    ghost view = { λ s. record {
      held = s.bytes.items;
      failing = s.failing.items;
      calls = s.calls;
      faults = s.faults;
      starved = s.starved;
    } };
}

impl MemorySink {
    /// A sink that holds nothing. The writes whose numbers, from 1, stand in `failing` fail. The allocator is kept: writing
    /// takes memory.
    pub fn new(alloc: Global, failing: Vec<u64>) -> MemorySink
        ensures held { result.held ≡ [] }
        ensures failing { result.failing ≡ failing.items }
        ensures calls { result.calls ≡ 0 }
        ensures faults { result.faults ≡ 0 }
        ensures starved { result.starved ≡ 0 }
    {
        MemorySink {
            bytes: Vec::new(alloc),
            failing,
            calls: 0,
            faults: 0,
            starved: 0,
        }
    }

    /// The bytes that it has taken.
    pub fn bytes(&self) -> &[u8]
        ensures { result.now ≡ (self.now).held }
    {
        &self.bytes
    }

    /// How many writes found no memory. The count stands still at `u64::MAX`.
    pub fn starved(&self) -> u64
        ensures { result ≡ (self.now).starved }
    {
        self.starved
    }
}

impl Sink for MemorySink {
    ghost held = { λ s. Some s.held };

    ghost sink_faults = { λ s. s.faults };

    fn write(&mut self, bytes: &[u8]) -> Result<usize, Failed>
        ensures writes { Writes result bytes.now self.old self.new }
        ensures put { IfOk result
            (λ n. Put (take n bytes.now) (Some (self.old).held) (Some (self.new).held)) }
        ensures count { IfOk result (λ n. n ≤ length bytes.now) }
        ensures some { IfOk result (λ n. 0 < length bytes.now → 0 < n) }
        ensures failed { OnErr result (Some (self.new).held ≡ Some (self.old).held) }
        ensures counts { Counts result (self.old).faults (self.new).faults }
    {
        self.calls = self.calls.saturating_add(1);
        if self.failing.contains(&self.calls) {
            self.faults = self.faults.saturating_add(1);
            return Err(Failed);
        }
        if self.bytes.extend_from_slice(bytes).is_err() {
            self.starved = self.starved.saturating_add(1);
            self.faults = self.faults.saturating_add(1);
            return Err(Failed);
        }
        Ok(bytes.len())
    }

    fn faults(&self) -> u64 {
        self.faults
    }
}
