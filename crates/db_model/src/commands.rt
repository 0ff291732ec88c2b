//! Commands as they are read.

#![tactic(auto)]

use crate::lists::Few;
use crate::names::Ident;
use crate::schemas::{DomainAsked, IndexKind};
use crate::texts::Text;
use crate::values::Tuple;

/// A function of the selected values of an attribute.
#[derive(Clone, Copy, Debug, PartialEq, Eq)]
pub enum Agg {
    Count,
    Sum,
    Min,
    Max,
    Mean,
    Median,
}

impl Default for Agg {
    fn default() -> Agg {
        Agg::Count
    }
}

/// How two sides are compared.
#[derive(Clone, Copy, Debug, PartialEq, Eq)]
pub enum Compare {
    Eq,
    Ne,
    Lt,
    Le,
    Gt,
    Ge,
}

/// A node of a condition.
#[derive(Clone, Copy, Debug, PartialEq, Eq)]
pub enum Node {
    Number(i64),
    Text(Text),
    Attribute(Ident),
    Add,
    Sub,
    Mul,
    Div,
    Compare(Compare),
    And,
    Or,
    Not,
}

impl Default for Node {
    fn default() -> Node {
        Node::Number(0)
    }
}

/// A condition's nodes in postfix order, at most 32. The empty list stands for 'no WHERE'.
pub type Condition = Few<Node, 32>;

/// The names of a list in order, at most 8.
pub type Idents = Few<Ident, 8>;

/// The aggregates of a list in order, each with its attribute, at most 8.
pub type AggList = Few<(Agg, Ident), 8>;

/// A command that asks for rows.
#[derive(Drop)]
pub enum Query {
    Select {
        list: Idents,
        relation: Ident,
        condition: Condition,
    },
    Join {
        left: Ident,
        right: Ident,
        on: Ident,
        list: Idents,
    },
}

/// A command.
#[derive(Drop)]
pub enum Command {
    CreateRelation {
        name: Ident,
    },
    CreateAttribute {
        name: Ident,
        domain: DomainAsked,
        relation: Ident,
    },
    CreateIndex {
        relation: Ident,
        attribute: Ident,
        kind: IndexKind,
    },
    Insert {
        values: Tuple,
        relation: Ident,
    },
    Ask(Query),
    Aggregate {
        list: AggList,
        relation: Ident,
        condition: Condition,
    },
    RemoveFrom {
        relation: Ident,
        condition: Condition,
    },
    RemoveRelation {
        relation: Ident,
    },
    RemoveIndex {
        relation: Ident,
        attribute: Ident,
    },
    Pack {
        relation: Ident,
    },
    OpenCursor {
        number: i64,
        query: Query,
    },
    FetchCursor {
        number: i64,
    },
    CloseCursor {
        number: i64,
    },
}
