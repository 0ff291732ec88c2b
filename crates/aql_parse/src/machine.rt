//! The machine that reads the tokens of a command one by one.

#![tactic(auto)]

ghost use Rattle.std.specs.Prelude.{◌≡◌, ◌≤◌, IfErr, OnOk, None, Some, length, true};
ghost use Rattle.aql_parse.specs.Built.{first_tokens};
ghost use Rattle.aql_parse.specs.Kept.{AreKept};
ghost use Rattle.aql_parse.specs.Machine.{finish, joint_node, read, run, skip, start};
ghost use Rattle.aql_parse.specs.Moves.{HasEnded, HasRead, Skipped, bulk_all};
ghost use Rattle.db_model.specs.Reading.{IsNoCommand};
ghost use Rattle.db_model.specs.Tokens.{tokens_of};

use crate::head::{Head, keep};
use crate::moves::moves;
use crate::nodes::Nodes;
use crate::stack::Stack;
use crate::symbols::{Joint, Symbol};
use aql_lex::{Lexed, next_token};
use db_model::{Node, Token};

/// Puts the first tokens of a command and the nodes of its condition where those of an earlier one
/// were, if the bytes are tokens to their end and spell one; else tells how many of the bytes, at
/// most, begin one. Each token is read as soon as it is cut. The stack serves for the work.
pub fn recognize(
    bytes: &[u8],
    head: &mut Head,
    stack: &mut Stack,
    nodes: &mut Nodes,
) -> Result<(), u16>
    requires { length bytes.now ≤ 512 }
    ensures head { OnOk result (head.new ≡ first_tokens (tokens_of bytes.now).items) }
    ensures nodes { OnOk result (AreKept (run start (tokens_of bytes.now).items) nodes.new) }
    ensures whole { OnOk result ((tokens_of bytes.now).whole ≡ true) }
    ensures wrong { IfErr result (IsNoCommand bytes.now) }
{
    head.clear();
    stack.clear();
    nodes.clear();
    stack.push(Symbol::Command);
    let mut at = 0;
    'tokens: loop {
        match next_token(bytes, at) {
            Lexed::Token { token, to, .. } => {
                if !read(stack, &token, nodes) {
                    return Err(at);
                }
                keep(head, &token);
                at = to;
            }
            Lexed::End => {
                if finish(stack, nodes) {
                    return Ok(());
                }
                return Err(at);
            }
            Lexed::Bad => return Err(at),
        }
    }
}

// Reads one token; false where it cannot come.
// Not inlined: in the loop over the tokens, a token would be tested for each symbol that may come,
// and not only for those that do.
#[inline(never)]
fn read(stack: &mut Stack, token: &Token, nodes: &mut Nodes) -> bool
    requires { bulk_all stack.old ≤ 2052 }
    ensures { HasRead (read stack.old token.now) stack.new nodes.old nodes.new result }
{
    while let Some(symbol) = stack.pop() {
        if moves(symbol, token, stack, nodes) {
            return true;
        }
        if !skips(symbol, nodes) {
            return false;
        }
    }
    false
}

// Whether nothing more has to come.
fn finish(stack: &mut Stack, nodes: &mut Nodes) -> bool
    ensures { HasEnded (finish stack.old) nodes.old nodes.new result }
{
    while let Some(symbol) = stack.pop() {
        if !skips(symbol, nodes) {
            return false;
        }
    }
    true
}

// Leaves out what may be left out, and puts the node of what joins others.
fn skips(symbol: Symbol, nodes: &mut Nodes) -> bool
    ensures { Skipped (skip symbol) nodes.old nodes.new result }
{
    match symbol {
        Symbol::MoreNames(_) => true,
        Symbol::MoreValues(_) => true,
        Symbol::MoreAggregates(_) => true,
        Symbol::Where => true,
        Symbol::Around(n) => n == 0,
        Symbol::Ands => true,
        Symbol::Ors => true,
        Symbol::Products => true,
        Symbol::Sums => true,
        Symbol::Join(joint) => {
            nodes.put(joint_node(joint));
            true
        }
        _ => false,
    }
}

fn joint_node(joint: Joint) -> Node
    ensures { result ≡ joint_node joint }
{
    match joint {
        Joint::Add => Node::Add,
        Joint::Sub => Node::Sub,
        Joint::Mul => Node::Mul,
        Joint::Div => Node::Div,
        Joint::Compare(how) => Node::Compare(how),
        Joint::And => Node::And,
        Joint::Or => Node::Or,
        Joint::Not => Node::Not,
    }
}
