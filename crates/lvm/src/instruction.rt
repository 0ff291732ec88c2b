//! The steps of a condition.

#![tactic(auto)]

ghost use Rattle.std.specs.Prelude.{◌≡◌, ◌≤◌, length};
ghost use Rattle.db_model.specs.Item.{place_of};
ghost use Rattle.lvm.specs.Instruction as spec;

use db_model::{Attribute, Compare, Ident, Node, Text};

/// A step, which takes its operands from a stack and puts its result there.
#[derive(Clone, Copy, Default)]
pub enum Instruction {
    // The default comes first, so that an empty list is zeros, which are written where the list stays.
    #[default]
    Not,
    Number(i64),
    Text(Text),
    /// The value of the attribute at this place.
    Attribute(u8),
    Calculate(Arithmetic),
    Compare(Compare),
    And,
    Or,
}

/// The signs + - * /.
#[derive(Clone, Copy)]
pub enum Arithmetic {
    Add,
    Sub,
    Mul,
    Div,
}

/// The step of a node, None where its name is no attribute.
pub fn instruction_for(node: &Node, attributes: &[Attribute]) -> Option<Instruction>
    requires { length attributes.now ≤ 8 }
    ensures { result ≡ spec.instruction_for attributes.now node.now }
{
    Some(match node {
        Node::Number(number) => Instruction::Number(*number),
        Node::Text(text) => Instruction::Text(*text),
        Node::Attribute(name) => Instruction::Attribute(place_of(name, attributes)?),
        Node::Add => Instruction::Calculate(Arithmetic::Add),
        Node::Sub => Instruction::Calculate(Arithmetic::Sub),
        Node::Mul => Instruction::Calculate(Arithmetic::Mul),
        Node::Div => Instruction::Calculate(Arithmetic::Div),
        Node::Compare(how) => Instruction::Compare(*how),
        Node::And => Instruction::And,
        Node::Or => Instruction::Or,
        Node::Not => Instruction::Not,
    })
}

// The place of the attribute of this name.
fn place_of(name: &Ident, attributes: &[Attribute]) -> Option<u8>
    requires { length attributes.now ≤ 8 }
    ensures { result ≡ place_of name.now attributes.now }
{
    for (at, attribute) in attributes.iter().enumerate() {
        if attribute.name == *name {
            return Some(at as u8);
        }
    }
    None
}
