//! Values of SQL, and rows of them.
ghost use Rattle.std.specs.Prelude.{◌≡◌};

use crate::Text;
use std::marker::Model;

/// A value of SQL. (MySQL 5.7 Reference Manual, "Literal Values", of which there are these three.)
#[derive(Drop)]
pub enum Value {
    Null,
    /// A BIGINT.
    Int(i64),
    /// A VARCHAR.
    Text(Text),
}

/// A row: a value for each column, in order.
#[derive(Drop)]
pub struct Row {
    values: Vec<Value>,
}

impl Model for Row {
    ghost use Rattle.std.specs.Prelude.{List};
    ghost use Rattle.sql_value.specs.declared.value.Value.{Value as Cell};

    ghost Value = { List Cell };

    ghost view = { λ r. r.values.items };
}

impl Row {
    /// The row of these values. No memory is taken.
    pub fn new(values: Vec<Value>) -> Row
        ensures { result ≡ values.items }
    {
        Row { values }
    }

    /// Its values, in order.
    pub fn values(&self) -> &[Value]
        ensures { result.now ≡ self.now }
    {
        self.values.as_slice()
    }

    /// Its values, to keep. No memory is taken.
    pub fn into_values(self) -> Vec<Value>
        ensures { result.items ≡ self }
    {
        self.values
    }
}
