//! The range that a condition derives for an attribute.

#![tactic(auto)]

ghost use Rattle.std.specs.Prelude.{◌≡◌, ◌+◌, ◌<◌, ◌≤◌, List, [], ◌∷◌, length};
ghost use Rattle.db_model.specs.Ranges as ranges;
ghost use Rattle.db_model.specs.declared.commands.Compare.TheVariants.{Lt, Gt};
ghost use Rattle.lvm.specs.Side as spec;

use crate::instruction::Instruction;
use crate::stack::Stack;
use db_model::{Compare, Range};

/// What a step gives a range for: an attribute, a number, a condition's range, or nothing.
#[derive(Clone, Copy, Default)]
pub enum Side {
    // The default comes first, so that an empty stack is zeros, which are written where the stack stays.
    #[default]
    Other,
    Attribute(u8),
    Number(i64),
    Condition(Range),
}

const EVERYTHING: Range = Range::Between {
    lo: i64::MIN,
    hi: i64::MAX,
};

/// The range for the attribute at a place: everything where there is no step.
pub fn derived(instructions: &[Instruction], place: u8) -> Range
    requires { length instructions.now ≤ 32 }
    ensures { result ≡ spec.range_on_top (spec.derived place instructions.now []) }
{
    let mut stack = Stack::new();
    for instruction in instructions {
        step(instruction, place, &mut stack);
    }
    range_of(stack.pop_or(Side::Other))
}

// Carries out a step.
fn step(instruction: &Instruction, place: u8, stack: &mut Stack<Side, 32>)
    requires { length stack.old < 32 }
    ensures value { stack.new ≡ spec.stepped place instruction.now stack.old }
    ensures room { length stack.new ≤ length stack.old + 1 }
{
    let side = match instruction {
        Instruction::Number(number) => Side::Number(*number),
        Instruction::Text(_) => Side::Other,
        Instruction::Attribute(at) => Side::Attribute(*at),
        Instruction::Calculate(_) => {
            stack.pop_two_or(Side::Other);
            Side::Other
        }
        Instruction::Compare(how) => {
            let (a, b) = stack.pop_two_or(Side::Other);
            Side::Condition(compared(*how, a, b, place))
        }
        Instruction::Not => {
            stack.pop_or(Side::Other);
            Side::Condition(EVERYTHING)
        }
        Instruction::And => {
            let (a, b) = stack.pop_two_or(Side::Other);
            Side::Condition(common(range_of(a), range_of(b)))
        }
        Instruction::Or => {
            let (a, b) = stack.pop_two_or(Side::Other);
            Side::Condition(spanned(range_of(a), range_of(b)))
        }
    };
    stack.push(side);
}

// The range of a condition, everything for another side.
fn range_of(side: Side) -> Range
    ensures { result ≡ spec.side_range side }
{
    match side {
        Side::Condition(range) => range,
        Side::Attribute(_) | Side::Number(_) | Side::Other => EVERYTHING,
    }
}

// The range of a comparison for the attribute at a place.
fn compared(how: Compare, a: Side, b: Side, place: u8) -> Range
    ensures { result ≡ spec.compared_range how a b place }
{
    match (a, b) {
        (Side::Attribute(at), Side::Number(number)) if at == place => compared_to(how, number),
        (Side::Number(number), Side::Attribute(at)) if at == place => {
            compared_to(mirrored(how), number)
        }
        _ => EVERYTHING,
    }
}

// The numbers x for which `x how c`, or an interval round them.
fn compared_to(how: Compare, c: i64) -> Range
    ensures { result ≡ ranges.compared_to how c }
{
    match how {
        Compare::Eq => Range::Between { lo: c, hi: c },
        Compare::Ne => EVERYTHING,
        Compare::Lt => below(c),
        Compare::Le => Range::Between {
            lo: i64::MIN,
            hi: c,
        },
        Compare::Gt => above(c),
        Compare::Ge => Range::Between {
            lo: c,
            hi: i64::MAX,
        },
    }
}

fn below(c: i64) -> Range
    ensures { result ≡ ranges.compared_to Lt c }
{
    match c.checked_sub(1) {
        Some(hi) => Range::Between { lo: i64::MIN, hi },
        None => Range::Empty,
    }
}

fn above(c: i64) -> Range
    ensures { result ≡ ranges.compared_to Gt c }
{
    match c.checked_add(1) {
        Some(lo) => Range::Between { lo, hi: i64::MAX },
        None => Range::Empty,
    }
}

// `c how x` says `x (mirrored how) c`.
fn mirrored(how: Compare) -> Compare
    ensures { result ≡ ranges.mirrored how }
{
    match how {
        Compare::Eq => Compare::Eq,
        Compare::Ne => Compare::Ne,
        Compare::Lt => Compare::Gt,
        Compare::Le => Compare::Ge,
        Compare::Gt => Compare::Lt,
        Compare::Ge => Compare::Le,
    }
}

// What is common to two ranges.
fn common(a: Range, b: Range) -> Range
    ensures { result ≡ ranges.common a b }
{
    let (Range::Between { lo: a, hi: b }, Range::Between { lo: c, hi: d }) = (a, b) else {
        return Range::Empty;
    };
    let (lo, hi) = (a.max(c), b.min(d));
    if lo <= hi {
        Range::Between { lo, hi }
    } else {
        Range::Empty
    }
}

// The least interval that holds both ranges.
fn spanned(a: Range, b: Range) -> Range
    ensures { result ≡ ranges.spanned a b }
{
    match (a, b) {
        (Range::Empty, range) | (range, Range::Empty) => range,
        (Range::Between { lo: a, hi: b }, Range::Between { lo: c, hi: d }) => Range::Between {
            lo: a.min(c),
            hi: b.max(d),
        },
    }
}
