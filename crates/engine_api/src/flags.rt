//! What an engine can do, and what a statement asks of it.

/// Whether the tables of an engine have keys.
#[derive(Clone, Copy, Debug, PartialEq, Eq)]
pub enum KeyRule {
    /// Each table has a key.
    Needed,
    /// A table may have a key.
    Allowed,
    /// No table has a key.
    Refused,
}

/// What an engine can do. It is fixed.
#[derive(Clone, Copy, Debug, PartialEq, Eq)]
pub struct Flags {
    /// Its changes are prepared, and committed or rolled back.
    pub transactional: bool,
    /// Its tables survive a crash.
    pub crash_safe: bool,
    pub key: KeyRule,
    /// Its columns may be nullable.
    pub nulls: bool,
}

/// How a statement uses a table. (MySQL Internals Manual, "Custom Engines", `external_lock`.)
#[derive(Clone, Copy, Debug, PartialEq, Eq)]
pub enum Use {
    Read,
    Write,
    /// The statement ends its use.
    Release,
}
