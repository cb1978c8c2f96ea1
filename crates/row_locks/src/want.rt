//! What a wish for a lock is answered.
use sql_value::Cycle;

/// What a wish for a lock is answered.
#[derive(Debug, Drop)]
pub enum Want {
    /// The owner has the lock now, or had one that covers it.
    Granted,
    /// The owner waits, and this one is the first in its way.
    Waits { holder: u32 },
    /// The owner does not wait: its wait would close this cycle, the least of those that begin with it.
    Deadlock { cycle: Cycle },
}
