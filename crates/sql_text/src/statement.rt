//! Statements, as they are read.
//!
//! A condition is a list of steps, each behind what it is about: `a = 1 OR NOT b IS NULL` is a comparison, a test for NULL, `Not`
//! and `Or` of two members. So no depth of nesting makes a value that is deep.
use crate::list::ListOf;
use sql_value::{Name, Text};

/// A statement.
#[derive(Drop)]
pub enum Statement {
    Create {
        table: Name,
        items: ListOf<Item>,
        engine: Name,
    },
    Drop {
        table: Name,
    },
    Insert {
        table: Name,
        rows: ListOf<Literals>,
    },
    /// `columns` is None for `*`.
    Select {
        table: Name,
        columns: Option<ListOf<Name>>,
        cond: Option<Cond>,
    },
    Update {
        table: Name,
        sets: ListOf<Assign>,
        cond: Option<Cond>,
    },
    Delete {
        table: Name,
        cond: Option<Cond>,
    },
    Begin,
    Commit,
    Rollback,
    Savepoint {
        point: Name,
    },
    RollbackTo {
        point: Name,
    },
    Release {
        point: Name,
    },
    Install {
        name: Name,
        soname: Text,
    },
    Uninstall {
        name: Name,
    },
}

/// What a CREATE lists.
#[derive(Drop)]
pub enum Item {
    /// A column, and which options it has.
    Column {
        name: Name,
        kind: TypeName,
        null: bool,
        not_null: bool,
        key: bool,
    },
    /// The key that is named by itself.
    Key {
        column: Name,
    },
}

/// The type of a column.
#[derive(Clone, Copy, Debug, PartialEq, Eq)]
pub enum TypeName {
    BigInt,
    /// Its greatest length, from 1 to 255.
    VarChar(u8),
}

/// The values of a row.
#[derive(Drop)]
pub struct Literals {
    pub values: ListOf<Literal>,
}

/// A value that is written out.
#[derive(Drop)]
pub enum Literal {
    Null,
    /// At most 38 digits, with a minus or without.
    Int(i128),
    Text(Text),
}

/// A column that an UPDATE sets.
#[derive(Drop)]
pub struct Assign {
    pub column: Name,
    pub sum: Sum,
}

/// A sum, from the left.
#[derive(Drop)]
pub struct Sum {
    pub first: Operand,
    pub rest: ListOf<Term>,
}

/// What is added to a sum, or taken from it.
#[derive(Drop)]
pub struct Term {
    pub minus: bool,
    pub operand: Operand,
}

/// A member of a sum.
#[derive(Drop)]
pub enum Operand {
    Literal(Literal),
    Column(Name),
}

/// A condition, step by step.
#[derive(Drop)]
pub struct Cond {
    pub steps: ListOf<Step>,
}

/// A step of a condition. `Or` and `And` take the conditions that stand last, at least two; `Not` takes the last one.
#[derive(Drop)]
pub enum Step {
    Or { members: u32 },
    And { members: u32 },
    Not,
    Compare { left: Sum, op: Op, right: Sum },
    IsNull { sum: Sum, negated: bool },
}

/// How a comparison compares.
#[derive(Clone, Copy, Debug, PartialEq, Eq)]
pub enum Op {
    Eq,
    Ne,
    Lt,
    Le,
    Gt,
    Ge,
}
