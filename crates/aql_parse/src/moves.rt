//! What a symbol makes of a token: it takes the token and leaves what is then to come, or it
//! answers false and leaves all as it was.

#![tactic(auto)]

ghost use Rattle.std.specs.Prelude.{◌≤◌, length};
ghost use Rattle.aql_parse.specs.Machine.{move};
ghost use Rattle.aql_parse.specs.Moves.{IsKeptByMove, Moved, bulk};

use crate::conditions::condition_moves;
use crate::heads::head_moves;
use crate::items::item_moves;
use crate::nodes::Nodes;
use crate::stack::Stack;
use crate::symbols::Symbol;
use db_model::Token;

pub fn moves(symbol: Symbol, token: &Token, stack: &mut Stack, nodes: &mut Nodes) -> bool
    requires room { length stack.old ≤ 2056 }
    requires brackets { bulk symbol ≤ 2060 }
    ensures stack { Moved (move symbol token.now) stack.old stack.new result }
    ensures nodes { IsKeptByMove (move symbol token.now) nodes.old nodes.new }
{
    if head_moves(symbol, token, stack) {
        return true;
    }
    if item_moves(symbol, token, stack) {
        return true;
    }
    condition_moves(symbol, token, stack, nodes)
}
