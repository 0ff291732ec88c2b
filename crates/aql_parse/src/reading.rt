//! The command of its bytes.

#![tactic(auto)]

ghost use Rattle.std.specs.Prelude.{◌≡◌, ◌≤◌, IfErr, OnErr, OnOk, length, true};
ghost use Rattle.aql_parse.specs.Built.{first_tokens};
ghost use Rattle.aql_parse.specs.Kept.{AreKept};
ghost use Rattle.aql_parse.specs.Machine.{run, start};
ghost use Rattle.aql_parse.specs.ReadAs.{read_as};
ghost use Rattle.db_model.specs.Cond.{IsCondition};
ghost use Rattle.db_model.specs.Reading.{IsNoCommand, IsReading};
ghost use Rattle.db_model.specs.Spelling.{nodes_of};
ghost use Rattle.db_model.specs.Tokens.{tokens_of};

use crate::built::command_of;
use crate::head::Head;
use crate::inserts::read_insert;
use crate::machine::recognize;
use crate::nodes::Nodes;
use crate::stack::Stack;
use db_model::laws::conditions_are_read_back;
use db_model::{Command, Pool, Refusal};

/// Reads a command of at most 512 bytes. Ok comes exactly where the bytes spell a command of at
/// most 32 condition nodes, and `command` is then it. `Syntax` comes exactly where they spell
/// none, with the byte at which the longest prefix of tokens that begins some command ends, 0 for
/// none. `Full` comes exactly where they spell a command of more nodes. After an error `command`
/// is as it was.
// Not inlined, so that what reads a command is not on the stack while the command is carried out.
#[inline(never)]
pub fn parse(bytes: &[u8], command: &mut Command) -> Result<(), Refusal>
    requires { length bytes.now ≤ 512 }
    ensures reading { IsReading bytes.now (read_as result command.new) }
    ensures condition { OnOk result (IsCondition (nodes_of command.new)) }
    ensures same { OnErr result (command.new ≡ command.old) }
{
    if read_insert(bytes, command) {
        return Ok(());
    }
    read_by_machine(bytes, command)
}

// Reads a command that is no INSERT.
// Not inlined, so that an INSERT makes none of its lists.
#[inline(never)]
fn read_by_machine(bytes: &[u8], command: &mut Command) -> Result<(), Refusal>
    requires { length bytes.now ≤ 512 }
    ensures reading { IsReading bytes.now (read_as result command.new) }
    ensures condition { OnOk result (IsCondition (nodes_of command.new)) }
    ensures same { OnErr result (command.new ≡ command.old) }
{
    conditions_are_read_back();
    let mut head = Head::new();
    let mut nodes = Nodes::new();
    if let Err(at) = recognize_alone(bytes, &mut head, &mut nodes) {
        return Err(Refusal::Syntax { at });
    }
    if nodes.over {
        return Err(Refusal::Full {
            pool: Pool::Nodes,
            limit: 32,
        });
    }
    if !command_of(head.as_slice(), &mut nodes.first, command) {
        unreachable!();
    }
    Ok(())
}

// Recognizes a command by a stack of its own.
// Not inlined, so that the stack, of 4 KB, is gone when the command is made of its parts.
#[inline(never)]
fn recognize_alone(bytes: &[u8], head: &mut Head, nodes: &mut Nodes) -> Result<(), u16>
    requires { length bytes.now ≤ 512 }
    ensures head { OnOk result (head.new ≡ first_tokens (tokens_of bytes.now).items) }
    ensures nodes { OnOk result (AreKept (run start (tokens_of bytes.now).items) nodes.new) }
    ensures whole { OnOk result ((tokens_of bytes.now).whole ≡ true) }
    ensures wrong { IfErr result (IsNoCommand bytes.now) }
{
    let mut stack = Stack::new();
    recognize(bytes, head, &mut stack, nodes)
}
