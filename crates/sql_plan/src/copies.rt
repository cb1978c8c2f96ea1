//! A statement once more.
ghost use Rattle.std.specs.Prelude.{◌≡◌, IfOk};
ghost use Rattle.sql_plan.specs.Plans.{IsSearch, IsOnTable};

use sql_text::{
    Assign, Cond, Item, ListOf, Literal, Literals, Operand, Statement, Step, Sum, Term,
};
use sql_value::{Name, Text};
use std::alloc::{AllocError, Global};

/// What can be had once more.
pub(crate) trait Again: Sized {
    ghost use Rattle.std.specs.Prelude.{◌≡◌, IfOk};

    fn again(&self, alloc: Global) -> Result<Self, AllocError>
        ensures { IfOk result (λ it. it ≡ self.now) };
}

impl Again for Name {
    fn again(&self, _alloc: Global) -> Result<Name, AllocError> {
        self.copy()
    }
}

impl Again for Text {
    fn again(&self, _alloc: Global) -> Result<Text, AllocError> {
        self.copy()
    }
}

impl<T: Again + Drop> Again for ListOf<T> {
    fn again(&self, alloc: Global) -> Result<ListOf<T>, AllocError> {
        let mut copy = ListOf::new(alloc);
        for member in self.as_slice() {
            copy.push(member.again(alloc)?)?;
        }
        Ok(copy)
    }
}

impl<T: Again + Drop> Again for Option<T> {
    fn again(&self, alloc: Global) -> Result<Option<T>, AllocError> {
        match self {
            None => Ok(None),
            Some(it) => Ok(Some(it.again(alloc)?)),
        }
    }
}

impl Again for Literal {
    fn again(&self, alloc: Global) -> Result<Literal, AllocError> {
        match self {
            Literal::Null => Ok(Literal::Null),
            Literal::Int(n) => Ok(Literal::Int(*n)),
            Literal::Text(text) => Ok(Literal::Text(text.again(alloc)?)),
        }
    }
}

impl Again for Literals {
    fn again(&self, alloc: Global) -> Result<Literals, AllocError> {
        Ok(Literals {
            values: self.values.again(alloc)?,
        })
    }
}

impl Again for Operand {
    fn again(&self, alloc: Global) -> Result<Operand, AllocError> {
        match self {
            Operand::Literal(literal) => Ok(Operand::Literal(literal.again(alloc)?)),
            Operand::Column(name) => Ok(Operand::Column(name.again(alloc)?)),
        }
    }
}

impl Again for Term {
    fn again(&self, alloc: Global) -> Result<Term, AllocError> {
        Ok(Term {
            minus: self.minus,
            operand: self.operand.again(alloc)?,
        })
    }
}

impl Again for Sum {
    fn again(&self, alloc: Global) -> Result<Sum, AllocError> {
        Ok(Sum {
            first: self.first.again(alloc)?,
            rest: self.rest.again(alloc)?,
        })
    }
}

impl Again for Assign {
    fn again(&self, alloc: Global) -> Result<Assign, AllocError> {
        Ok(Assign {
            column: self.column.again(alloc)?,
            sum: self.sum.again(alloc)?,
        })
    }
}

impl Again for Step {
    fn again(&self, alloc: Global) -> Result<Step, AllocError> {
        match self {
            Step::Or { members } => Ok(Step::Or { members: *members }),
            Step::And { members } => Ok(Step::And { members: *members }),
            Step::Not => Ok(Step::Not),
            Step::Compare { left, op, right } => Ok(Step::Compare {
                left: left.again(alloc)?,
                op: *op,
                right: right.again(alloc)?,
            }),
            Step::IsNull { sum, negated } => Ok(Step::IsNull {
                sum: sum.again(alloc)?,
                negated: *negated,
            }),
        }
    }
}

impl Again for Cond {
    fn again(&self, alloc: Global) -> Result<Cond, AllocError> {
        Ok(Cond {
            steps: self.steps.again(alloc)?,
        })
    }
}

impl Again for Item {
    fn again(&self, alloc: Global) -> Result<Item, AllocError> {
        match self {
            Item::Column {
                name,
                kind,
                null,
                not_null,
                key,
            } => Ok(Item::Column {
                name: name.again(alloc)?,
                kind: *kind,
                null: *null,
                not_null: *not_null,
                key: *key,
            }),
            Item::Key { column } => Ok(Item::Key {
                column: column.again(alloc)?,
            }),
        }
    }
}

/// A statement about a table once more.
pub(crate) fn copy_work(alloc: Global, work: &Statement) -> Result<Statement, AllocError>
    requires { IsOnTable work.now }
    ensures { IfOk result (λ it. it ≡ work.now) }
{
    match work {
        Statement::Create {
            table,
            items,
            engine,
        } => Ok(Statement::Create {
            table: table.again(alloc)?,
            items: items.again(alloc)?,
            engine: engine.again(alloc)?,
        }),
        Statement::Drop { table } => Ok(Statement::Drop {
            table: table.again(alloc)?,
        }),
        Statement::Insert { table, rows } => Ok(Statement::Insert {
            table: table.again(alloc)?,
            rows: rows.again(alloc)?,
        }),
        _ => copy_search(alloc, work),
    }
}

// The same of one that looks for rows.
fn copy_search(alloc: Global, work: &Statement) -> Result<Statement, AllocError>
    requires { IsSearch work.now }
    ensures { IfOk result (λ it. it ≡ work.now) }
{
    match work {
        Statement::Select {
            table,
            columns,
            cond,
        } => Ok(Statement::Select {
            table: table.again(alloc)?,
            columns: columns.again(alloc)?,
            cond: cond.again(alloc)?,
        }),
        Statement::Update { table, sets, cond } => Ok(Statement::Update {
            table: table.again(alloc)?,
            sets: sets.again(alloc)?,
            cond: cond.again(alloc)?,
        }),
        Statement::Delete { table, cond } => Ok(Statement::Delete {
            table: table.again(alloc)?,
            cond: cond.again(alloc)?,
        }),
        _ => unreachable!(),
    }
}
