//! Values and tuples.

#![tactic(auto)]

use crate::lists::Few;
use crate::texts::Text;

/// A value of a tuple: a number of INT, LONG or TIME, or a text of STRING.
#[derive(Clone, Copy, Debug, PartialEq, Eq)]
pub enum Value {
    Number(i64),
    Text(Text),
}

impl Default for Value {
    fn default() -> Value {
        Value::Number(0)
    }
}

/// The values of one row in attribute order, at most 8.
pub type Tuple = Few<Value, 8>;
