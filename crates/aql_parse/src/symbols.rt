//! What a command may still have to bring.

#![tactic(auto)]

use db_model::Compare;

/// What joins the nodes before it.
#[derive(Clone, Copy, Debug, PartialEq, Eq)]
pub enum Joint {
    Add,
    Sub,
    Mul,
    Div,
    Compare(Compare),
    And,
    Or,
    Not,
}

/// What is still to come. A variant without a note is a part of the grammar that must come.
#[derive(Clone, Copy, Debug, PartialEq, Eq)]
pub enum Symbol {
    Command,
    /// After CREATE.
    Create,
    /// After REMOVE.
    Remove,
    /// After OPEN and its number.
    Query,
    /// After SELECT: a list of names or of aggregates, and what follows it.
    Selection,
    Name,
    Number,
    Value,
    Aggregate,
    Domain,
    Kind,
    WordDomain,
    WordIn,
    WordType,
    WordInto,
    WordFrom,
    WordOn,
    WordProject,
    Opening,
    Closing,
    Comma,
    Dot,
    /// At most this many items more, each after a comma.
    MoreNames(u8),
    MoreValues(u8),
    MoreAggregates(u8),
    /// WHERE and a condition, which may be left out.
    Where,
    /// A condition without AND and OR, inside this many brackets of which it is not known yet
    /// whether they hold a condition or an expression.
    Inside(u16),
    /// What makes a condition of an expression, inside this many such brackets.
    Behind(u16),
    /// What may follow a condition without AND and OR inside this many brackets of conditions.
    Around(u16),
    /// AND and a condition, any number of times.
    Ands,
    /// OR and a condition, any number of times.
    Ors,
    Factor,
    /// The number after its minus.
    Negative,
    /// `*` or `/` and a factor, any number of times.
    Products,
    /// `+` or `-` and a term, any number of times.
    Sums,
    /// Nothing more to read: the node goes after those that it joins.
    Join(Joint),
}
