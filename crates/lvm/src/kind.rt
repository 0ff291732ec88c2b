//! Whether the comparisons of a condition are well typed.

#![tactic(auto)]

ghost use Rattle.std.specs.Prelude.{◌≡◌, ◌+◌, ◌<◌, ◌≤◌, List, [], ◌∷◌, length, slice_get};
ghost use Rattle.db_model.specs.Typing.{first_false};
ghost use Rattle.lvm.specs.Kind as spec;

use crate::instruction::Instruction;
use crate::stack::Stack;
use db_model::{Attribute, Domain};

/// What a step gives, whatever the tuple: numbers, texts, an expression in which a text stands
/// under arithmetic, or a truth value.
#[derive(Clone, Copy, Default)]
pub enum Kind {
    Numbers,
    Texts,
    #[default]
    Mixed,
    Truth,
}

/// The number of the first comparison that is ill typed, where `before` parts come before the
/// condition.
pub fn ill_typed(instructions: &[Instruction], attributes: &[Attribute], before: u8) -> Option<u8>
    requires room { length instructions.now ≤ 32 }
    requires few { before ≤ 8 }
    ensures { result ≡ first_false before (spec.step_typings attributes.now instructions.now []) }
{
    let mut stack = Stack::new();
    let mut parts = before;
    for instruction in instructions {
        if !step(instruction, attributes, &mut stack) {
            return Some(parts + 1);
        }
        parts += u8::from(is_comparison(instruction));
    }
    None
}

// Carries out a step, and says whether it is no comparison or a well typed one.
fn step(instruction: &Instruction, attributes: &[Attribute], stack: &mut Stack<Kind, 32>) -> bool
    requires { length stack.old < 32 }
    ensures typed { result ≡ spec.is_typed instruction.now stack.old }
    ensures value { stack.new ≡ spec.stepped attributes.now instruction.now stack.old }
    ensures room { length stack.new ≤ length stack.old + 1 }
{
    let mut typed = true;
    let kind = match instruction {
        Instruction::Number(_) => Kind::Numbers,
        Instruction::Text(_) => Kind::Texts,
        Instruction::Attribute(at) => kind_at(attributes, *at),
        Instruction::Calculate(_) => {
            let (a, b) = stack.pop_two_or(Kind::Mixed);
            joined(a, b)
        }
        Instruction::Compare(_) => {
            let (a, b) = stack.pop_two_or(Kind::Mixed);
            typed = are_alike(a, b);
            Kind::Truth
        }
        Instruction::Not => {
            stack.pop_or(Kind::Mixed);
            Kind::Truth
        }
        Instruction::And | Instruction::Or => {
            stack.pop_two_or(Kind::Mixed);
            Kind::Truth
        }
    };
    stack.push(kind);
    typed
}

fn is_comparison(instruction: &Instruction) -> bool
    ensures { result ≡ spec.is_comparison instruction.now }
{
    matches!(instruction, Instruction::Compare(_))
}

// The kind of the attribute at a place.
fn kind_at(attributes: &[Attribute], at: u8) -> Kind
    ensures { result ≡ spec.attribute_kind (slice_get attributes.now at) }
{
    if usize::from(at) >= attributes.len() {
        return Kind::Mixed;
    }
    match attributes[usize::from(at)].domain {
        Domain::Int | Domain::Long | Domain::Time => Kind::Numbers,
        Domain::Str(_) => Kind::Texts,
    }
}

// The kind of two expressions under arithmetic.
fn joined(a: Kind, b: Kind) -> Kind
    ensures { result ≡ spec.joined_kind a b }
{
    match (a, b) {
        (Kind::Numbers, Kind::Numbers) => Kind::Numbers,
        _ => Kind::Mixed,
    }
}

// Whether two expressions may be compared.
fn are_alike(a: Kind, b: Kind) -> bool
    ensures { result ≡ spec.are_kinds_alike a b }
{
    matches!(
        (a, b),
        (Kind::Numbers, Kind::Numbers) | (Kind::Texts, Kind::Texts)
    )
}
