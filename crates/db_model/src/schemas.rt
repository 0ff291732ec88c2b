//! Domains, attributes, schemas, kinds of index and ranges of keys.

#![tactic(auto)]

use crate::lists::Few;
use crate::names::Ident;

/// What an attribute may hold.
#[derive(Clone, Copy, Debug, PartialEq, Eq)]
pub enum Domain {
    /// -32,768 to 32,767, in 2 bytes.
    Int,
    /// -2,147,483,648 to 2,147,483,647, in 4 bytes.
    Long,
    /// 0 to 140,737,488,355,327, in 8 bytes.
    Time,
    /// Texts of at most this many bytes, 1 to 32.
    Str(u8),
}

/// A domain as a command asks for it; the length of a STRING may be any number.
#[derive(Clone, Copy, Debug, PartialEq, Eq)]
pub enum DomainAsked {
    Int,
    Long,
    Time,
    Str(i64),
}

/// An attribute of a relation.
#[derive(Clone, Copy, Debug, PartialEq, Eq)]
pub struct Attribute {
    pub name: Ident,
    pub domain: Domain,
}

impl Default for Attribute {
    fn default() -> Attribute {
        Attribute {
            name: Ident::default(),
            domain: Domain::Int,
        }
    }
}

/// The attributes of a relation in order, at most 8.
pub type Attributes = Few<Attribute, 8>;

/// A relation's name and attributes.
#[derive(Drop)]
pub struct Schema {
    pub name: Ident,
    pub attributes: Attributes,
}

/// The most hash tables that indexes of `MEMHASH` have in memory, as in `most_tables`.
pub const MOST_TABLES: u16 = 2;

/// How an index finds its keys.
#[derive(Clone, Copy, Debug, PartialEq, Eq)]
pub enum IndexKind {
    /// The keys do not fall over the slots, and are found by halving.
    Inline,
    /// A hash tree in a file.
    MaxHeap,
    /// A hash table in memory.
    MemHash,
}

/// The keys that may satisfy a condition.
#[derive(Clone, Copy, Debug, PartialEq, Eq)]
pub enum Range {
    /// None.
    Empty,
    /// Those from `lo` to `hi`, both included. The whole range of i64 stands for 'everything'.
    Between { lo: i64, hi: i64 },
}
