//! The nodes of a condition.

#![tactic(auto)]

ghost use Rattle.std.specs.Prelude.{◌≡◌, false, [], ◌∷◌};
ghost use Rattle.aql_parse.specs.Kept.{kept_one};

use db_model::{Condition, Node};

/// The first 32 nodes of a condition, and whether it has more.
#[derive(Drop)]
pub struct Nodes {
    pub first: Condition,
    pub over: bool,
}

impl Nodes {
    pub fn new() -> Nodes
        ensures first { result.first ≡ [] }
        ensures over { result.over ≡ false }
    {
        Nodes {
            first: Condition::new(),
            over: false,
        }
    }

    /// Takes all nodes out.
    pub fn clear(&mut self)
        ensures first { self.new.first ≡ [] }
        ensures over { self.new.over ≡ false }
    {
        self.first.clear();
        self.over = false;
    }

    /// Puts a node after the others.
    pub fn put(&mut self, node: Node)
        ensures { self.new ≡ kept_one self.old node }
    {
        if self.first.len() < 32 {
            self.first.push(node);
        } else {
            self.over = true;
        }
    }
}
