//! What a condition is of a tuple.

#![tactic(auto)]

ghost use Rattle.std.specs.Prelude.{◌≡◌, ◌+◌, ◌<◌, ◌≤◌, Bool, IfSome, IsTrue, List, [], ◌∷◌, length, map};
ghost use Rattle.db_model.specs.declared.values.Value.{Value};
ghost use Rattle.lvm.specs.Evaluate as spec;
ghost use Rattle.lvm.specs.Evaluate.{Truth};
ghost use Rattle.lvm.specs.Lent.{items_of};
ghost use Rattle.lvm.specs.declared.instruction.Instruction.TheVariants.{And};

use crate::comparing::compared_from;
use crate::instruction::Instruction;
use crate::item::{Item, calculation, compares_with, comparison, is_true};
use crate::stack::Stack;
use crate::values::Values;

/// Whether the tuple is selected: where there is no step, each is.
pub fn evaluated<V: Values>(instructions: &[Instruction], values: &V) -> bool
    requires few { length instructions.now ≤ 32 }
    requires readable { V.readable values.now }
    ensures { result ≡ spec.verdict (spec.evaluated instructions.now (V.values values.now) []) }
{
    if let Some(truth) = evaluated_at_once(instructions, values) {
        return truth;
    }
    match evaluated_by_comparisons(instructions, values) {
        Some(truth) => truth,
        None => evaluated_by_steps(instructions, values),
    }
}

// The same where there is one comparison, or two, as in most conditions: these need no stack.
fn evaluated_at_once<V: Values>(instructions: &[Instruction], values: &V) -> Option<bool>
    requires { V.readable values.now }
    ensures { IfSome result (λ truth.
        truth ≡ spec.verdict (spec.evaluated instructions.now (V.values values.now) [])) }
{
    match instructions {
        [] => Some(true),
        [left, right, compare] => compared(left, right, compare, values),
        _ => both_compared(instructions, values),
    }
}

// The same of two comparisons and their AND.
fn both_compared<V: Values>(instructions: &[Instruction], values: &V) -> Option<bool>
    requires { V.readable values.now }
    ensures { IfSome result (λ truth.
        truth ≡ spec.verdict (spec.evaluated instructions.now (V.values values.now) [])) }
{
    let [
        left,
        right,
        compare,
        next_left,
        next_right,
        next_compare,
        last,
    ] = instructions
    else {
        return None;
    };
    if !is_and(last) {
        return None;
    }
    let truth = compared(left, right, compare, values)?;
    if !truth && compares_attribute(next_left, next_right, next_compare) {
        return Some(false);
    }
    let next_truth = compared(next_left, next_right, next_compare, values)?;
    Some(truth && next_truth)
}

// Whether an attribute is compared with a number: whatever it is, a truth value comes out.
fn compares_attribute(left: &Instruction, right: &Instruction, compare: &Instruction) -> bool
    ensures { IsTrue result → (values : List Value) → (truth : Bool) × ((stack : List spec.Item)
        → spec.evaluated (left.now ∷ right.now ∷ compare.now ∷ []) values stack ≡ Truth truth ∷ stack) }
{
    matches!(
        (left, right, compare),
        (
            Instruction::Attribute(_),
            Instruction::Number(_),
            Instruction::Compare(_)
        )
    )
}

fn is_and(instruction: &Instruction) -> bool
    ensures { IsTrue result → instruction.now ≡ And }
{
    matches!(instruction, Instruction::And)
}

// What an attribute compared with a number is; None where the steps are others.
fn compared<V: Values>(
    left: &Instruction,
    right: &Instruction,
    compare: &Instruction,
    values: &V,
) -> Option<bool>
    requires { V.readable values.now }
    ensures { IfSome result (λ truth. (stack : List spec.Item)
        → spec.evaluated (left.now ∷ right.now ∷ compare.now ∷ []) (V.values values.now) stack
        ≡ Truth truth ∷ stack) }
{
    match (left, right, compare) {
        (Instruction::Attribute(at), Instruction::Number(number), Instruction::Compare(how)) => {
            Some(compares_with(*how, values.item(*at), *number))
        }
        _ => None,
    }
}

// The same by a stack of truth values, where each comparison can be made without one.
fn evaluated_by_comparisons<V: Values>(instructions: &[Instruction], values: &V) -> Option<bool>
    requires few { length instructions.now ≤ 32 }
    requires readable { V.readable values.now }
    ensures { IfSome result (λ truth.
        truth ≡ spec.verdict (spec.evaluated instructions.now (V.values values.now) [])) }
{
    let mut truths = Stack::new();
    let mut last = None;
    let mut at = 0;
    while at < instructions.len() {
        if is_join(&instructions[at]) {
            join(&instructions[at], &mut truths);
            at += 1;
        } else {
            let found = compared_from(instructions, at, values, &mut last)?;
            truths.push(found.truth);
            at = found.next;
        }
    }
    Some(truths.pop_or(true))
}

fn is_join(instruction: &Instruction) -> bool
    ensures { result ≡ spec.is_join instruction.now }
{
    matches!(
        instruction,
        Instruction::Not | Instruction::And | Instruction::Or
    )
}

// Carries out a NOT, AND or OR of truth values.
fn join(instruction: &Instruction, truths: &mut Stack<bool, 32>)
    requires join { IsTrue (spec.is_join instruction.now) }
    requires room { length truths.old < 32 }
    ensures value { (values : List Value) → map Truth truths.new
        ≡ spec.stepped instruction.now values (map Truth truths.old) }
    ensures room { length truths.new ≤ length truths.old + 1 }
{
    let truth = match instruction {
        Instruction::And => {
            let (a, b) = truths.pop_two_or(false);
            a && b
        }
        Instruction::Or => {
            let (a, b) = truths.pop_two_or(false);
            a || b
        }
        _ => !truths.pop_or(false),
    };
    truths.push(truth);
}

// The same by a stack.
fn evaluated_by_steps<'a, V: Values>(instructions: &'a [Instruction], values: &'a V) -> bool
    requires few { length instructions.now ≤ 32 }
    requires readable { V.readable values.now }
    ensures { result ≡ spec.verdict (spec.evaluated instructions.now (V.values values.now) []) }
{
    let mut stack = Stack::new();
    for instruction in instructions {
        step(instruction, values, &mut stack);
    }
    is_true(stack.pop_or(Item::Truth(true)))
}

// Carries out a step. An operand that the stack lacks is undefined.
fn step<'a, V: Values>(instruction: &'a Instruction, values: &'a V, stack: &mut Stack<Item<'a>, 32>)
    requires few { length stack.old < 32 }
    requires readable { V.readable values.now }
    ensures value { items_of stack.new
        ≡ spec.stepped instruction.now (V.values values.now) (items_of stack.old) }
    ensures room { length stack.new ≤ length stack.old + 1 }
{
    let item = match instruction {
        Instruction::Number(number) => Item::Number(*number),
        Instruction::Text(text) => Item::Text(text.bytes()),
        Instruction::Attribute(at) => values.item(*at),
        Instruction::Calculate(sign) => {
            let (a, b) = stack.pop_two_or(Item::Undefined);
            calculation(*sign, a, b)
        }
        Instruction::Compare(how) => {
            let (a, b) = stack.pop_two_or(Item::Undefined);
            Item::Truth(comparison(*how, a, b))
        }
        Instruction::Not => {
            let a = stack.pop_or(Item::Undefined);
            Item::Truth(!is_true(a))
        }
        Instruction::And => {
            let (a, b) = stack.pop_two_or(Item::Undefined);
            Item::Truth(is_true(a) && is_true(b))
        }
        Instruction::Or => {
            let (a, b) = stack.pop_two_or(Item::Undefined);
            Item::Truth(is_true(a) || is_true(b))
        }
    };
    stack.push(item);
}
