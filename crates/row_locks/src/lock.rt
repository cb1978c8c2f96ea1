//! Locks: what they are on, in which mode, and whose they are.
ghost use Rattle.std.specs.Prelude.{◌≡◌, IfOk};
ghost use Rattle.sql_value.specs.Values.{same_value};
ghost use Rattle.row_locks.specs.Modes.{modes_conflict, mode_covers, same_name, are_in_conflict};
ghost use Rattle.row_locks.specs.Modes.{request_covers};

use sql_value::{Name, Value};
use std::alloc::AllocError;

/// What a lock is on.
#[derive(Drop)]
pub enum LockName {
    /// The list of installed plugins.
    Plugins,
    /// The table of this name, whether there is one or not.
    Table(Name),
    /// The row of the table of this name that has this key, whether there is one or not.
    Key(Name, Value),
}

/// The mode of a lock. (MySQL 5.7 Reference Manual, "InnoDB Locking", "Shared and Exclusive Locks" and "Intention Locks".)
#[derive(Clone, Copy, PartialEq, Eq, Debug)]
pub enum Mode {
    /// Intention shared: some rows are read.
    IS,
    /// Intention exclusive: some rows are changed.
    IX,
    /// Shared: all is read.
    S,
    /// Exclusive: all may be changed.
    X,
}

/// A lock on a name in a mode.
#[derive(Drop)]
pub struct Lock {
    pub name: LockName,
    pub mode: Mode,
}

/// A lock that an owner has, or waits for.
#[derive(Drop)]
pub struct Request {
    pub owner: u32,
    pub lock: Lock,
}

impl Mode {
    /// Whether two owners may not have locks of these modes on one name at once.
    pub fn conflicts(self, other: Mode) -> bool
        ensures { result ≡ modes_conflict self other }
    {
        match (self, other) {
            (Mode::IS, Mode::X) | (Mode::IX, Mode::S | Mode::X) => true,
            (Mode::S, Mode::IX | Mode::X) => true,
            (Mode::X, _) => true,
            _ => false,
        }
    }

    /// Whether who has a lock of this mode needs none of the other on the same name.
    pub fn covers(self, other: Mode) -> bool
        ensures { result ≡ mode_covers self other }
    {
        match (self, other) {
            (Mode::X, _) => true,
            (Mode::S, Mode::IS | Mode::S) => true,
            (Mode::IX, Mode::IS | Mode::IX) => true,
            (Mode::IS, Mode::IS) => true,
            _ => false,
        }
    }
}

fn is_same_value(a: &Value, b: &Value) -> bool
    ensures { result ≡ same_value a.now b.now }
{
    match (a, b) {
        (Value::Null, Value::Null) => true,
        (Value::Int(m), Value::Int(n)) => m == n,
        (Value::Text(s), Value::Text(t)) => s.is_same(t),
        _ => false,
    }
}

fn copy_value(value: &Value) -> Result<Value, AllocError>
    ensures { IfOk result (λ it. it ≡ value.now) }
{
    match value {
        Value::Null => Ok(Value::Null),
        Value::Int(n) => Ok(Value::Int(*n)),
        Value::Text(text) => {
            let text = text.copy()?;
            Ok(Value::Text(text))
        }
    }
}

impl LockName {
    /// Whether it names the same thing as another.
    pub fn is_same(&self, other: &LockName) -> bool
        ensures { result ≡ same_name self.now other.now }
    {
        match (self, other) {
            (LockName::Plugins, LockName::Plugins) => true,
            (LockName::Table(a), LockName::Table(b)) => a.is_same(b),
            (LockName::Key(a, v), LockName::Key(b, w)) => a.is_same(b) && is_same_value(v, w),
            _ => false,
        }
    }

    /// The same name once more.
    ///
    /// `AllocError` for want of memory.
    pub fn copy(&self) -> Result<LockName, AllocError>
        ensures { IfOk result (λ it. it ≡ self.now) }
    {
        match self {
            LockName::Plugins => Ok(LockName::Plugins),
            LockName::Table(table) => {
                let table = table.copy()?;
                Ok(LockName::Table(table))
            }
            LockName::Key(table, key) => {
                let table = table.copy()?;
                let key = copy_value(key)?;
                Ok(LockName::Key(table, key))
            }
        }
    }
}

impl Lock {
    /// The same lock once more.
    ///
    /// `AllocError` for want of memory.
    pub fn copy(&self) -> Result<Lock, AllocError>
        ensures { IfOk result (λ it. it ≡ self.now) }
    {
        let name = self.name.copy()?;
        Ok(Lock {
            name,
            mode: self.mode,
        })
    }
}

impl Request {
    /// Whether it is of another owner than the other one, on the same name, and in a mode that conflicts.
    pub fn conflicts(&self, other: &Request) -> bool
        ensures { result ≡ are_in_conflict self.now other.now }
    {
        self.owner != other.owner
            && self.lock.name.is_same(&other.lock.name)
            && self.lock.mode.conflicts(other.lock.mode)
    }

    /// Whether this owner, who has it, needs no such lock besides.
    pub fn covers(&self, owner: u32, lock: &Lock) -> bool
        ensures { result ≡ request_covers self.now (record { owner = owner; lock = lock.now }) }
    {
        self.owner == owner
            && self.lock.name.is_same(&lock.name)
            && self.lock.mode.covers(lock.mode)
    }
}
