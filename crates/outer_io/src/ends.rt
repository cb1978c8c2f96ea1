//! The two traits of the outside: what is read from, and what is written to.
ghost use Rattle.std.specs.Prelude.{◌≡◌, ◌≤◌, ◌<◌, ℕ, List, [], Option, Some, take, length, IfOk, OnErr};
ghost use Rattle.outer_io.specs.Ends.{Took, Put, Counts};

/// The outside failed. It comes only where that object's count of faults rose in the call, or stands at `u64::MAX`.
#[derive(Clone, Copy, Debug, PartialEq, Eq)]
pub struct Failed;

/// What bytes are read from.
pub trait Source: Drop {
    // The bytes that are left to read, where they are told.
    ghost left: { Self → Option (List ℕ) };
    // How many calls failed.
    ghost source_faults: { Self → ℕ };

    /// Reads the next bytes into the front of `buf`, and says how many. 0 for a buffer that is not empty is the end of the
    /// input. `Failed` gives no byte, and comes only where the count of faults rose.
    fn read(&mut self, buf: &mut [u8]) -> Result<usize, Failed>
        ensures took { IfOk result (λ n. Took (take n buf.new) (left self.old) (left self.new)) }
        ensures count { IfOk result (λ n. n ≤ length buf.old) }
        ensures ended { IfOk result (λ n. n ≡ 0 → 0 < length buf.old → (xs : List ℕ)
            → left self.old ≡ Some xs → xs ≡ []) }
        ensures failed { OnErr result (left self.new ≡ left self.old) }
        ensures counts { Counts result (source_faults self.old) (source_faults self.new) };

    /// How many reads failed. The count stands still at `u64::MAX`.
    fn faults(&self) -> u64
        ensures { result ≡ source_faults self.now };
}

/// What bytes are written to.
pub trait Sink: Drop {
    // The bytes that it has taken, where they are told.
    ghost held: { Self → Option (List ℕ) };
    // How many calls failed.
    ghost sink_faults: { Self → ℕ };

    /// Takes bytes from the front of `bytes`, at least one where there is one, and says how many. `Failed` takes no byte, and
    /// comes only where the count of faults rose.
    fn write(&mut self, bytes: &[u8]) -> Result<usize, Failed>
        ensures put { IfOk result (λ n. Put (take n bytes.now) (held self.old) (held self.new)) }
        ensures count { IfOk result (λ n. n ≤ length bytes.now) }
        ensures some { IfOk result (λ n. 0 < length bytes.now → 0 < n) }
        ensures failed { OnErr result (held self.new ≡ held self.old) }
        ensures counts { Counts result (sink_faults self.old) (sink_faults self.new) };

    /// How many writes failed. The count stands still at `u64::MAX`.
    fn faults(&self) -> u64
        ensures { result ≡ sink_faults self.now };
}
